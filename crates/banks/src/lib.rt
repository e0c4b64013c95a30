// The house bank and the trial bank.
#![tactic(auto)]

ghost use Rattle.banks.specs.Banks.{Kept, house as house_bank, trial as trial_bank};
ghost use Rattle.std.specs.Prelude.{◌≡◌};

use bank::{Bank, Empty, Pair};
use dict::integer::IntDictScheme;
use frame::FrameScheme;
use runs::RunsScheme;
use stern::SternScheme;

// Dict, Runs, Frame.
pub type House = Pair<IntDictScheme, Pair<RunsScheme, Pair<FrameScheme, Empty>>>;

// Stern, and then the house bank.
pub type Trial = Pair<SternScheme, House>;

// What the binder is used with.
pub fn house() -> House
    ensures { ⟦<House as Bank>⟧.meanings result ≡ house_bank }
{
    let frame = Pair {
        head: FrameScheme,
        rest: Empty {},
    };
    let runs = Pair {
        head: RunsScheme,
        rest: frame,
    };
    Pair {
        head: IntDictScheme,
        rest: runs,
    }
}

// The same behind Stern, for trials.
pub fn trial() -> Trial
    ensures { ⟦<Trial as Bank>⟧.meanings result ≡ trial_bank }
{
    Pair {
        head: SternScheme,
        rest: house(),
    }
}

// Both banks are instances of what is proved over every bank.
pub fn banks_keep()
    ensures { Kept }
{}
