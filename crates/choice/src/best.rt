// The best scheme so far.
ghost use Rattle.std.specs.Prelude.{◌≡◌, ℕ, List, Ok};
ghost use Rattle.choice.specs.Picks.{AbleLeader, AblePick, best_of, named};
ghost use Rattle.levels.specs.Choice.{bested, is_better, mark_of, winner as winner_of};
ghost use Rattle.levels.specs.NodesOf.{Able};
ghost use Rattle.scheme.specs.Banks.{at};
ghost use Rattle.scheme.specs.Meaning.{Meaning};

use scheme::estimate::EstimateScore;

// A scheme by its number in the bank, and its score.
#[derive(Clone, Copy)]
pub struct Leader {
    pub scheme: usize,
    pub score: EstimateScore,
}

// The mark that a deferred scheme is asked with.
pub fn mark(best: Option<Leader>) -> Option<EstimateScore>
    ensures { (ms : List Meaning) → result ≡ mark_of (best_of ms best) }
{
    best.map(|leader| leader.score)
}

// Whether the score is valid and beats the best so far.
pub fn is_better_score(score: EstimateScore, best: Option<Leader>) -> bool
    ensures { (ms : List Meaning) → result ≡ is_better score (mark_of (best_of ms best)) }
{
    score.is_valid() && best.is_none_or(|leader| score.beats(leader.score))
}

// The best so far, once the scheme has its score.
pub fn better_of(best: Option<Leader>, scheme: usize, score: EstimateScore) -> Option<Leader>
    ensures is { (ms : List Meaning) → best_of ms result ≡ bested (at ms scheme) score (best_of ms best) }
    ensures able { (ms : List Meaning) (k : ℕ) → Able ms k scheme → AbleLeader ms k best → AbleLeader ms k result }
{
    if is_better_score(score, best) {
        Some(Leader { scheme, score })
    } else {
        best
    }
}

// The number of the scheme that won.
pub fn winner_of(best: Option<Leader>) -> Option<usize>
    ensures is { (ms : List Meaning) → named ms (Ok result) ≡ Ok (winner_of (best_of ms best)) }
    ensures able { (ms : List Meaning) (k : ℕ) → AbleLeader ms k best → AblePick ms k (Ok result) }
{
    best.map(|leader| leader.scheme)
}
