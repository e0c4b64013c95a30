// Sources of draws.
ghost use Rattle.std.specs.Prelude.{◌≡◌, ℕ, ◌^◌, ◌<◌, ◌≤◌, List, [], ◌∷◌};
ghost use Rattle.sample.specs.Draws.{Bounds, Source, Within, centre, mill, mill_state};
ghost use Rattle.std.proofs.Common.{rules};

// A source begins at a seed, and each draw moves it on.
pub trait Draws: Sized {
    ghost source: { Source };

    // the source that began at a seed, after draws within these bounds, the newest first
    ghost after: { ℕ → List Bounds → Self };

    // Not `From<u64>`, whose clause could not name `after`.
    fn begin(seed: u64) -> Self
        ensures { result ≡ after seed [] };

    fn draw(&mut self, low: u64, high: u64) -> u64
        requires ordered { low ≤ high }
        requires small { high < 2 ^ 63 }
        ensures answers { (s : ℕ) (bs : List Bounds) → self.old ≡ after s bs → result ≡ source s (low, high) bs }
        ensures moves { (s : ℕ) (bs : List Bounds) → self.old ≡ after s bs → self.new ≡ after s ((low, high) ∷ bs) };

    ghost within: { Within source };
}

// What a state is multiplied by.
const MULTIPLIER: u64 = 6364136223846793005;

// What is then added.
const INCREMENT: u64 = 1442695040888963407;

// A linear congruential generator.
#[derive(Drop)]
pub struct Mill {
    state: u64,
}

impl Draws for Mill {
    ghost source = { mill };

    ghost after = { λ s bs. record { state = mill_state s bs } };

    ghost within = { Prim.search rules };

    fn begin(seed: u64) -> Mill {
        Mill { state: seed }
    }

    fn draw(&mut self, low: u64, high: u64) -> u64 {
        self.state = self.state.wrapping_mul(MULTIPLIER).wrapping_add(INCREMENT);
        low + (self.state >> 33) % (high - low + 1)
    }
}

// Always the middle.
#[derive(Drop)]
pub struct Centre {}

impl Draws for Centre {
    ghost source = { centre };

    ghost after = { λ _ _. record {} };

    ghost within = { Prim.search rules };

    fn begin(_seed: u64) -> Centre {
        Centre {}
    }

    fn draw(&mut self, low: u64, high: u64) -> u64 {
        (low + high) / 2
    }
}

#[cfg(test)]
mod tests {
    use super::*;

    #[test]
    fn mill_draws(rt: HostRuntime) {
        let mut m = Mill::begin(1234567890);
        assert_eq!(rt; m.draw(0, 99), 42);
        assert_eq!(rt; m.draw(0, 99), 12);
        assert_eq!(rt; m.draw(10, 20), 15);
    }

    #[test]
    fn centre_draws(rt: HostRuntime) {
        let mut m = Centre::begin(1);
        assert_eq!(rt; m.draw(3, 8), 5);
    }
}
