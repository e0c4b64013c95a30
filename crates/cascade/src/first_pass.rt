// The levels: each function asks for the memory that it and the levels below it take.
ghost use Rattle.std.specs.Prelude.{◌≡◌, ◌+◌, ◌*◌, ◌-◌, ◌<◌, ◌≤◌, length};
ghost use Rattle.cascade.specs.Places.{bound_at, choice_at, competed_at, late_at, scheme_at, score_at};
ghost use Rattle.cascade.specs.Rooms.{choice_room, scheme_room, score_room};
ghost use Rattle.cascade.specs.Sizes.{Planned, sized};
ghost use Rattle.choice.specs.Picks.{AbleLeader, AblePick, AbleSlots, best_of, deferred_of, named, slots_of};
ghost use Rattle.column.specs.Columns.{Sound, CleanView, seen};
ghost use Rattle.column.specs.Kinds.{number_of};
ghost use Rattle.column.specs.declared.refusals.Refusal.TheVariants.{SchemeRefused};
ghost use Rattle.levels.specs.Choice.{decided};
ghost use Rattle.levels.specs.NodesOf.{Able};
ghost use Rattle.levels.specs.Plans.{places, room};
ghost use Rattle.scheme.specs.Banks.{at};
ghost use Rattle.scheme.specs.Memory.{history_of, Measured};

use crate::leaf::Leaf;
use crate::sampled::sampled;
use crate::size::Size;
use bank::Bank;
use bank::small::SmallBank;
use children::{Children, places_for, take_apart};
use choice::best::{Leader, better_of, mark, winner_of};
use choice::table::{Slot, Table};
use choice::{FirstPass, ask_all};
use column::cleaned::Cleaned;
use column::refusals::Refusal;
use column::rows::words_for;
use sample::draws::Draws;
use scheme::ctx::CompressorContext;
use scheme::estimate::{DeferredEstimate, EstimateScore, EstimateVerdict};
use scheme::scheme::ArrayAndStats;
use select::any_wants;
use stats::integer::IntegerStats;
use stats::options::GenerateStatsOptions;

// What the levels left make of a column: how large its tree is, and the forms of the tree's nodes at the front of the plan.
#[cycle(measuring)]
pub fn measure<B: Bank, D: Draws + Drop>(
    bank: &SmallBank<'_, B>,
    ctx: &CompressorContext,
    array: Cleaned<'_>,
    plan: &mut [u64],
    mem: &mut [u64],
) -> Result<Size, Refusal>
    requires deep { length (history_of ctx.now) + ctx.now.allowed_cascading ≤ 8 }
    requires plan { places ctx.now.allowed_cascading ≤ length plan.old }
    requires room { room ctx.now.allowed_cascading (length array.view.cells.now) ≤ length mem.old }
    ensures size { result ≡ sized (bound_at (B.Bank.meanings bank.now.schemes.now) D.Draws.source ctx.now (seen array.entry.view)) }
    ensures plan { Planned (bound_at (B.Bank.meanings bank.now.schemes.now) D.Draws.source ctx.now (seen array.entry.view)) plan.new }
{
    if ctx.allowed_cascading == 0 {
        return Ok(Leaf::plain(array).noted(plan));
    }
    match Leaf::settled(array, ctx.is_sample()) {
        Some(leaf) => Ok(leaf.noted(plan)),
        None => compete::<B, D>(bank, ctx, array, plan, mem),
    }
}

// The winner's node if it is lighter than plain, else plain.
#[cycle(measuring)]
fn compete<B: Bank, D: Draws + Drop>(
    bank: &SmallBank<'_, B>,
    ctx: &CompressorContext,
    array: Cleaned<'_>,
    plan: &mut [u64],
    mem: &mut [u64],
) -> Result<Size, Refusal>
    requires level { 0 < ctx.now.allowed_cascading }
    requires deep { length (history_of ctx.now) + ctx.now.allowed_cascading ≤ 8 }
    requires plan { places ctx.now.allowed_cascading ≤ length plan.old }
    requires room { choice_room (ctx.now.allowed_cascading - 1) (length array.view.cells.now) ≤ length mem.old }
    ensures size { result ≡ sized (competed_at (B.Bank.meanings bank.now.schemes.now) D.Draws.source ctx.now (seen array.entry.view)) }
    ensures plan { Planned (competed_at (B.Bank.meanings bank.now.schemes.now) D.Draws.source ctx.now (seen array.entry.view)) plan.new }
{
    let plain = Leaf::plain(array);
    let Some(winner) = choose_best_scheme::<B, D>(bank, ctx, array, plan, mem)? else {
        return Ok(plain.noted(plan));
    };
    let size = measure_scheme::<B, D>(bank, ctx, winner, array, plan, mem)?;
    if size.weight < plain.size.weight {
        Ok(size)
    } else {
        Ok(plain.noted(plan))
    }
}

// The number of the scheme that wins, if one does.
#[cycle(measuring)]
fn choose_best_scheme<B: Bank, D: Draws + Drop>(
    bank: &SmallBank<'_, B>,
    ctx: &CompressorContext,
    array: Cleaned<'_>,
    plan: &mut [u64],
    mem: &mut [u64],
) -> Result<Option<usize>, Refusal>
    requires level { 0 < ctx.now.allowed_cascading }
    requires deep { length (history_of ctx.now) + ctx.now.allowed_cascading ≤ 8 }
    requires plan { places ctx.now.allowed_cascading ≤ length plan.old }
    requires room { choice_room (ctx.now.allowed_cascading - 1) (length array.view.cells.now) ≤ length mem.old }
    ensures is { named (B.Bank.meanings bank.now.schemes.now) result ≡ choice_at (B.Bank.meanings bank.now.schemes.now) D.Draws.source ctx.now (seen array.entry.view) }
    ensures able { AblePick (B.Bank.meanings bank.now.schemes.now) (number_of array.entry.view.kind) result }
{
    let opts = GenerateStatsOptions {
        count_distinct_values: any_wants(bank, array.view.kind, ctx.cascade_history()),
    };
    let (table, rest) = mem.split_at_mut(2 * array.view.rows() + 64);
    let stats = IntegerStats::generate_opts(array.view, opts, table);
    let col = ArrayAndStats {
        array: array.view,
        stats: &stats,
        table,
    };
    match ask_all(bank, col, ctx, rest) {
        FirstPass::Ended(scheme) => Ok(Some(scheme)),
        FirstPass::Waiting(best, waiting) => {
            decide::<B, D>(bank, ctx, col, best, &waiting, plan, rest)
        }
    }
}

// Those that wait come to their verdicts, each in its turn.
#[cycle(measuring)]
fn decide<B: Bank, D: Draws + Drop>(
    bank: &SmallBank<'_, B>,
    ctx: &CompressorContext,
    col: ArrayAndStats<'_>,
    best: Option<Leader>,
    waiting: &Table,
    plan: &mut [u64],
    mem: &mut [u64],
) -> Result<Option<usize>, Refusal>
    requires level { 0 < ctx.now.allowed_cascading }
    requires deep { length (history_of ctx.now) + ctx.now.allowed_cascading ≤ 8 }
    requires sound { Sound col.array }
    requires clean { CleanView col.array }
    requires measured { Measured col }
    requires leader { AbleLeader (B.Bank.meanings bank.now.schemes.now) (number_of col.array.kind) best }
    requires slots { AbleSlots (B.Bank.meanings bank.now.schemes.now) (number_of col.array.kind) (slots_of waiting.now) }
    requires plan { places ctx.now.allowed_cascading ≤ length plan.old }
    requires room { score_room (ctx.now.allowed_cascading - 1) (length col.array.cells.now) ≤ length mem.old }
    ensures is { named (B.Bank.meanings bank.now.schemes.now) result ≡ decided (late_at (B.Bank.meanings bank.now.schemes.now) D.Draws.source ctx.now col.entry) (deferred_of (B.Bank.meanings bank.now.schemes.now) (slots_of waiting.now)) (best_of (B.Bank.meanings bank.now.schemes.now) best) }
    ensures able { AblePick (B.Bank.meanings bank.now.schemes.now) (number_of col.entry.array.kind) result }
{
    let mut best = best;
    for slot in waiting.as_slice() {
        match late::<B, D>(bank, ctx, col, *slot, mark(best), plan, mem)? {
            EstimateVerdict::Skip => {}
            EstimateVerdict::AlwaysUse => return Ok(Some(slot.scheme)),
            EstimateVerdict::Ratio(ratio) => {
                best = better_of(best, slot.scheme, EstimateScore::FiniteCompression(ratio));
            }
        }
    }
    Ok(winner_of(best))
}

// What a deferred scheme comes to: a Callback is asked with the mark, a Sample is scored.
#[cycle(measuring)]
fn late<B: Bank, D: Draws + Drop>(
    bank: &SmallBank<'_, B>,
    ctx: &CompressorContext,
    col: ArrayAndStats<'_>,
    slot: Slot,
    mark: Option<EstimateScore>,
    plan: &mut [u64],
    mem: &mut [u64],
) -> Result<EstimateVerdict, Refusal>
    requires level { 0 < ctx.now.allowed_cascading }
    requires deep { length (history_of ctx.now) + ctx.now.allowed_cascading ≤ 8 }
    requires sound { Sound col.array }
    requires clean { CleanView col.array }
    requires measured { Measured col }
    requires able { Able (B.Bank.meanings bank.now.schemes.now) (number_of col.array.kind) slot.scheme }
    requires plan { places ctx.now.allowed_cascading ≤ length plan.old }
    requires room { score_room (ctx.now.allowed_cascading - 1) (length col.array.cells.now) ≤ length mem.old }
    ensures { result ≡ late_at (B.Bank.meanings bank.now.schemes.now) D.Draws.source ctx.now col.entry (at (B.Bank.meanings bank.now.schemes.now) slot.scheme) slot.estimate mark }
{
    match slot.estimate {
        DeferredEstimate::Callback => {
            Ok(bank.schemes.verdict_at(slot.scheme, col, ctx, mark, mem))
        }
        DeferredEstimate::Sample => {
            let array = Cleaned { view: col.array };
            score::<B, D>(bank, ctx, slot.scheme, array, plan, mem)
        },
    }
}

// How much smaller a scheme makes the column's sample; a sample of 0 bytes never counts.
#[cycle(measuring)]
fn score<B: Bank, D: Draws + Drop>(
    bank: &SmallBank<'_, B>,
    ctx: &CompressorContext,
    scheme: usize,
    array: Cleaned<'_>,
    plan: &mut [u64],
    mem: &mut [u64],
) -> Result<EstimateVerdict, Refusal>
    requires level { 0 < ctx.now.allowed_cascading }
    requires deep { length (history_of ctx.now) + ctx.now.allowed_cascading ≤ 8 }
    requires able { Able (B.Bank.meanings bank.now.schemes.now) (number_of array.view.kind) scheme }
    requires plan { places ctx.now.allowed_cascading ≤ length plan.old }
    requires room { score_room (ctx.now.allowed_cascading - 1) (length array.view.cells.now) ≤ length mem.old }
    ensures { result ≡ score_at (B.Bank.meanings bank.now.schemes.now) D.Draws.source ctx.now scheme (seen array.entry.view) }
{
    let rows = array.view.rows();
    let (cells, rest) = mem.split_at_mut(rows);
    let (words, rest) = rest.split_at_mut(words_for(rows));
    let sample = sampled::<D>(array, ctx.is_sample(), cells, words);
    let size = measure_scheme::<B, D>(bank, &ctx.with_sampling(), scheme, sample, plan, rest)?;
    Ok(size.scored(Leaf::plain(sample).size))
}

// A scheme's node of a column, and its children as the levels below make them, child 0 first.
#[cycle(measuring)]
fn measure_scheme<B: Bank, D: Draws + Drop>(
    bank: &SmallBank<'_, B>,
    ctx: &CompressorContext,
    scheme: usize,
    array: Cleaned<'_>,
    plan: &mut [u64],
    mem: &mut [u64],
) -> Result<Size, Refusal>
    requires level { 0 < ctx.now.allowed_cascading }
    requires deep { length (history_of ctx.now) + ctx.now.allowed_cascading ≤ 8 }
    requires able { Able (B.Bank.meanings bank.now.schemes.now) (number_of array.view.kind) scheme }
    requires plan { places ctx.now.allowed_cascading ≤ length plan.old }
    requires room { scheme_room (ctx.now.allowed_cascading - 1) (length array.view.cells.now) ≤ length mem.old }
    ensures size { result ≡ sized (scheme_at (B.Bank.meanings bank.now.schemes.now) D.Draws.source ctx.now scheme (seen array.entry.view)) }
    ensures plan { Planned (scheme_at (B.Bank.meanings bank.now.schemes.now) D.Draws.source ctx.now scheme (seen array.entry.view)) plan.new }
{
    let (places, rest) = mem.split_at_mut(places_for(array.view.rows()));
    let id = bank.schemes.id_at(scheme);
    let apart = match take_apart(bank.schemes, scheme, array, places, rest) {
        Ok(apart) => apart,
        Err(refused) => return Err(refusal(id, refused.row, ctx)),
    };
    plan[0] = u64::from(id);
    let own = Size::leaf(apart.payload);
    match apart.children {
        Children::None => Ok(own),
        Children::One(child) => {
            let below = ctx.descend_with_scheme(id, 0);
            let size = measure::<B, D>(bank, &below, child, &mut plan[1..], rest)?;
            Ok(own.over(size))
        }
        Children::Two(child0, child1) => {
            let below = ctx.descend_with_scheme(id, 0);
            let size0 = measure::<B, D>(bank, &below, child0, &mut plan[1..], rest)?;
            let size = own.over(size0);
            let below = ctx.descend_with_scheme(id, 1);
            let size1 = measure::<B, D>(bank, &below, child1, &mut plan[size.nodes..], rest)?;
            Ok(size.over(size1))
        }
    }
}

// The scheme refuses its parts at a row.
fn refusal(id: u8, row: u32, ctx: &CompressorContext) -> Refusal
    ensures { result ≡ SchemeRefused row id (length (history_of ctx.now)) ctx.now.is_sample }
{
    Refusal::SchemeRefused {
        row,
        scheme: id,
        level: ctx.cascade_depth() as u8,
        sample: ctx.is_sample(),
    }
}
