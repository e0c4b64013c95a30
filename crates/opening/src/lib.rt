// When an opening is refused.
#![tactic(auto)]

ghost use Rattle.std.specs.Prelude.{◌≡◌, ◌+◌, ◌<◌, not, ◌&&◌, length, drop, nat_le, None, IfOk};
ghost use Rattle.std.specs.Result.{result_err};
ghost use Rattle.calls.specs.Openings.{has_id, ids_fit, open_refused};
ghost use Rattle.sample.specs.Draws.{Source};
ghost use Rattle.scheme.specs.Banks.{at};
ghost use Rattle.std.proofs.Props.{props};

use bank::Bank;
pub use bank::small::MAX_SCHEMES;
use bank::small::SmallBank;
use column::refusals::Refusal;

// There are at most so many levels.
pub const MAX_LEVELS: usize = 8;

// Ids below this are those of nodes without a scheme.
const FIRST_ID: u8 = 16;

// A bank and a number of levels that are not refused.
#[derive(Drop)]
pub struct Opening<'a, B: Bank> {
    pub bank: SmallBank<'a, B>,
    pub levels: usize,
    ghost unrefused: { (d : Source) → open_refused (record { opening = record { bank = B.Bank.meanings bank.schemes.now; source = d }; levels = levels }) ≡ None } by { Prim.hlevel props },
}

// Refused where there are too many schemes or levels, or the ids do not fit.
pub fn open<B: Bank>(schemes: &B, levels: usize) -> Result<Opening<'_, B>, Refusal>
    ensures refusal { (d : Source) → result_err result ≡ open_refused (record { opening = record { bank = B.Bank.meanings schemes.now; source = d }; levels = levels }) }
    ensures opened { IfOk result (λ o. (o.bank.schemes.now ≡ schemes.now) × (o.levels ≡ levels)) }
{
    let bank = SmallBank::new(schemes).ok_or(Refusal::BadOpening)?;
    if levels > MAX_LEVELS || !ids_fit(&bank) {
        return Err(Refusal::BadOpening);
    }
    Ok(Opening { bank, levels })
}

// Each id is from 16 on and stands once.
fn ids_fit<B: Bank>(bank: &SmallBank<'_, B>) -> bool
    ensures { result ≡ ids_fit (B.Bank.meanings bank.now.schemes.now) }
{
    (0..bank.schemes.count()).all(|i| id_fits(bank, i))
}

// The id of scheme `i` is from 16 on and no later scheme has it.
fn id_fits<B: Bank>(bank: &SmallBank<'_, B>, i: usize) -> bool
    requires { i < length (B.Bank.meanings bank.now.schemes.now) }
    ensures { result ≡ (nat_le 16 (at (B.Bank.meanings bank.now.schemes.now) i).id && not (has_id (at (B.Bank.meanings bank.now.schemes.now) i).id (drop (i + 1) (B.Bank.meanings bank.now.schemes.now)))) }
{
    let id = bank.schemes.id_at(i);
    id >= FIRST_ID && !is_later(bank, id, i + 1)
}

// Whether a scheme from number `from` on has the id.
fn is_later<B: Bank>(bank: &SmallBank<'_, B>, id: u8, from: usize) -> bool
    ensures { result ≡ has_id id (drop from (B.Bank.meanings bank.now.schemes.now)) }
{
    (from..bank.schemes.count()).any(|j| bank.schemes.id_at(j) == id)
}
