// Banks of at most eight schemes.
ghost use Rattle.std.specs.Prelude.{◌≡◌, ◌<◌, length, IfSome, MatchOption};
ghost use Rattle.scheme.specs.Banks.{find_from};

use crate::Bank;

// A bank has at most so many schemes.
pub const MAX_SCHEMES: usize = 8;

// A bank that has no more.
#[derive(Drop)]
pub struct SmallBank<'a, B: Bank> {
    pub schemes: &'a B,
    ghost few: { length (B.Bank.meanings schemes.now) < 9 },
}

impl<'a, B: Bank> SmallBank<'a, B> {
    // None where there are more.
    pub fn new(schemes: &'a B) -> Option<SmallBank<'a, B>>
        ensures { MatchOption result (8 < length (B.Bank.meanings schemes.now)) (λ small. small.schemes.now ≡ schemes.now) }
    {
        if schemes.count() > MAX_SCHEMES {
            return None;
        }
        Some(SmallBank { schemes })
    }

    // The number of the first scheme with the id.
    pub fn find(&self, id: u8) -> Option<usize>
        ensures is { result ≡ find_from 0 (B.Bank.meanings self.now.schemes.now) id }
        ensures within { IfSome result (λ i. i < length (B.Bank.meanings self.now.schemes.now)) }
    {
        (0..self.schemes.count()).find(|i| self.schemes.id_at(*i) == id)
    }
}
