// A column compressed in two passes over lent memory, and read back.
#![tactic(auto)]

mod both_passes;
mod cleaned;
mod read_back;

pub use crate::both_passes::{compress, working_memory};
pub use crate::read_back::decompress;
pub use reading::Restored;

#[cfg(test)]
mod tests {
    use super::*;
    use bank::Empty;
    use column::views::View;
    use opening::open;
    use sample::draws::Centre;

    // That no refusal turns the view away is all that is asked of it.
    #[test]
    fn compresses_a_view(rt: HostRuntime) {
        let bank = Empty {};
        let Ok(opening) = open(&bank, 0) else {
            panic!(rt; "no opening")
        };
        let Ok(view) = View::new(0, &[1, 9, 3], &[0b101]) else {
            panic!(rt; "no view")
        };
        let mut mem = [0; 548];
        let mut out = [7; 24];
        let written = compress::<Empty, Centre>(&opening, view, &mut mem, &mut out);
        assert!(rt; matches!(written, Ok(20)));
        assert_eq!(rt;
            [out[16], out[17], out[18], out[19], out[20]],
            [1, 0, 3, 0b101, 7]
        );
    }
}
