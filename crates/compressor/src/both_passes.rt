// Both passes: the first decides and measures, the second writes.
ghost use Rattle.std.specs.Prelude.{◌≡◌, ◌≤◌, length, None};
ghost use Rattle.calls.specs.Calls.{bound_in, fitting};
ghost use Rattle.column.specs.Columns.{offer_refused, offer_seen, seen};
ghost use Rattle.compressor.specs.Compressed.{bytes_after, setting, whole_of, Compressed};
ghost use Rattle.levels.specs.Plans.{room, working_memory};

use crate::cleaned::cleaned;
use bank::Bank;
use cascade::first_pass::measure;
use column::cleaned::Cleaned;
use column::refusals::Refusal;
use column::views::View;
use emit::emit;
use opening::Opening;
use sample::draws::Draws;
use scheme::ctx::CompressorContext;

// Words for the plan: the forms of as many nodes as eight levels can make.
const PLAN: usize = 512;

// Words of working memory for a column of so many rows.
pub fn working_memory(levels: usize, rows: usize) -> usize
    requires levels { levels ≤ 8 }
    requires few { rows ≤ 131072 }
    ensures { result ≡ working_memory levels rows }
{
    (12 * rows + 512) * (levels + 1)
}

// Writes the node of a column that no refusal turns away to the front of `out`, and says how long it is.
// Cells under blanks are never looked at.
pub fn compress<B: Bank, D: Draws + Drop>(
    opening: &Opening<'_, B>,
    view: View<'_>,
    mem: &mut [u64],
    out: &mut [u8],
) -> Result<usize, Refusal>
    requires taken { offer_refused (offer_seen view) ≡ None }
    requires room { working_memory opening.now.levels (length view.cells.now) ≤ length mem.old }
    ensures answer { result ≡ whole_of (fitting (length out.old) (bound_in (setting (B.Bank.meanings opening.now.bank.schemes.now) D.Draws.source opening.now.levels) (seen view.entry))) }
    ensures bytes { out.new ≡ bytes_after (fitting (length out.old) (bound_in (setting (B.Bank.meanings opening.now.bank.schemes.now) D.Draws.source opening.now.levels) (seen view.entry))) out.old }
    ensures law { Compressed (setting (B.Bank.meanings opening.now.bank.schemes.now) D.Draws.source opening.now.levels) (seen view.entry) result out.old out.new }
{
    let (cells, rest) = mem.split_at_mut(view.rows());
    let (plan, rest) = rest.split_at_mut(PLAN);
    let array = cleaned(view, cells);
    write_node::<B, D>(opening, array, plan, rest, out)
}

// The same of a cleaned column.
fn write_node<B: Bank, D: Draws + Drop>(
    opening: &Opening<'_, B>,
    array: Cleaned<'_>,
    plan: &mut [u64],
    mem: &mut [u64],
    out: &mut [u8],
) -> Result<usize, Refusal>
    requires plan { 512 ≤ length plan.old }
    requires room { room opening.now.levels (length array.view.cells.now) ≤ length mem.old }
    ensures answer { result ≡ whole_of (fitting (length out.old) (bound_in (setting (B.Bank.meanings opening.now.bank.schemes.now) D.Draws.source opening.now.levels) (seen array.entry.view))) }
    ensures bytes { out.new ≡ bytes_after (fitting (length out.old) (bound_in (setting (B.Bank.meanings opening.now.bank.schemes.now) D.Draws.source opening.now.levels) (seen array.entry.view))) out.old }
{
    let ctx = CompressorContext::new(opening.levels);
    let size = measure::<B, D>(&opening.bank, &ctx, array, plan, mem)?;
    if out.len() < size.whole {
        return Err(Refusal::LittleSpace);
    }
    emit(&opening.bank, array, plan, mem, out);
    Ok(size.whole)
}
