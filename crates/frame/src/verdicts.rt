// What Frame says when it is asked, but for the mark.
ghost use Rattle.frame.specs.Frame.{frame_verdict};
ghost use Rattle.std.specs.Prelude.{◌≡◌};

use scheme::estimate::{EstimateVerdict, ratio};

// The width over the bits, unless that cannot help.
pub fn unmarked(width: u32, bits: u32) -> EstimateVerdict
    ensures { result ≡ frame_verdict width bits }
{
    if bits == 0 || bits == width {
        EstimateVerdict::Skip
    } else {
        EstimateVerdict::Ratio(ratio(u64::from(width), u64::from(bits)))
    }
}
