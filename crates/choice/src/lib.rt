// The eligible schemes of a bank are asked, each in its turn.
#![tactic(auto)]

pub mod best;
pub mod table;

ghost use Rattle.std.specs.Prelude.{◌≡◌, ◌≤◌, length, None};
ghost use Rattle.choice.specs.Picks.{AbleAsked, asked_of};
ghost use Rattle.column.specs.Columns.{Sound, CleanView, seen};
ghost use Rattle.column.specs.Kinds.{number_of};
ghost use Rattle.levels.specs.Choice.{asked};
ghost use Rattle.scheme.specs.Exclusion.{eligible};
ghost use Rattle.scheme.specs.Memory.{spare, history_of, stats_in, Measured};

use bank::Bank;
use bank::small::SmallBank;
use best::{Leader, better_of};
use scheme::bounded::Bounded;
use scheme::ctx::CompressorContext;
use scheme::estimate::{CompressionEstimate, EstimateScore, EstimateVerdict};
use scheme::scheme::ArrayAndStats;
use select::Candidate;
use table::{FREE, Slot, Table};

// What the immediate answers came to: a scheme that is always used, or the best so far and those that wait. Not `Result`: neither is a
// failure, and the second carries two values.
#[derive(Clone, Copy)]
pub enum FirstPass {
    Ended(usize),
    Waiting(Option<Leader>, Table),
}

// Every eligible scheme in bank order. Deferred work is left for later, so that none is done if AlwaysUse ends the choice.
pub fn ask_all<B: Bank>(
    bank: &SmallBank<'_, B>,
    col: ArrayAndStats<'_>,
    ctx: &CompressorContext,
    mem: &mut [u64],
) -> FirstPass
    requires sound { Sound col.array }
    requires clean { CleanView col.array }
    requires measured { Measured col }
    requires room { spare (length col.array.cells.now) ≤ length mem.old }
    ensures is { asked_of (B.Bank.meanings bank.now.schemes.now) result ≡ asked (seen col.entry.array) (stats_in col.entry) (history_of ctx.now) ctx.now.is_sample (eligible (B.Bank.meanings bank.now.schemes.now) (number_of col.entry.array.kind) (history_of ctx.now)) None }
    ensures able { AbleAsked (B.Bank.meanings bank.now.schemes.now) (number_of col.entry.array.kind) result }
{
    let mut best = None;
    let mut table = Bounded::new(FREE);
    // Schemes are asked by number, which is what candidates and answers keep.
    for i in 0..bank.schemes.count() {
        let candidate = Candidate {
            // lent again, since a candidate has one lifetime for the bank and what it borrows
            bank: &*bank,
            number: i,
            history: ctx.cascade_history(),
        };
        if candidate.is_eligible(col.array.kind) {
            match bank.schemes.expected_compression_ratio_at(i, col, ctx, mem) {
                CompressionEstimate::Verdict(EstimateVerdict::Skip) => {}
                CompressionEstimate::Verdict(EstimateVerdict::AlwaysUse) => {
                    return FirstPass::Ended(i);
                }
                CompressionEstimate::Verdict(EstimateVerdict::Ratio(ratio)) => {
                    best = better_of(best, i, EstimateScore::FiniteCompression(ratio));
                }
                CompressionEstimate::Deferred(estimate) => {
                    table.push(Slot {
                        scheme: i,
                        estimate,
                    });
                }
            }
        }
    }
    FirstPass::Waiting(best, table)
}
