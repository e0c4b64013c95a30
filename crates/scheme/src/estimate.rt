// What a scheme answers when it is asked how well it would do.
ghost use Rattle.std.specs.Prelude.{◌≡◌, ℕ};
ghost use Rattle.scheme.specs.Scores.{beats_score, finite_ratio, marked, ratio_of, RatioLaws, score_of, score_valid, valid};

// The ported crate's own enum, its names and shape.
#[derive(Clone, Copy)]
pub enum CompressionEstimate {
    // the answer
    Verdict(EstimateVerdict),
    // the answer wants further work
    Deferred(DeferredEstimate),
}

#[derive(Clone, Copy)]
pub enum EstimateVerdict {
    Skip,
    // wins at once
    AlwaysUse,
    // how many times smaller the column becomes
    Ratio(f64),
}

#[derive(Clone, Copy)]
pub enum DeferredEstimate {
    // a sample is to be compressed
    Sample,
    // the scheme's `verdict` is to be asked
    Callback,
}

// The ported crate's own name and shape; an `Option` would not say why there is no ratio.
#[derive(Clone, Copy)]
pub enum EstimateScore {
    FiniteCompression(f64),
    // nothing was left of the sample: no ratio
    ZeroBytes,
}

impl EstimateVerdict {
    // Under a mark, a ratio not above it becomes Skip; all else is as unmarked.
    pub fn under_mark(self, mark: Option<EstimateScore>) -> EstimateVerdict
        ensures { result ≡ marked mark self }
    {
        match (self, mark) {
            (EstimateVerdict::Ratio(x), Some(score))
                if !EstimateScore::FiniteCompression(x).beats(score) => { EstimateVerdict::Skip }
            _ => self,
        }
    }
}

// `a` over `b`, divided once.
pub fn ratio(a: u64, b: u64) -> f64
    ensures { result ≡ ratio_of a b }
{
    std::num::nearest_u64_to_f64(a) / std::num::nearest_u64_to_f64(b)
}

#[tactic(auto, using(crate::proofs::Ratios::one_bits), unfolding(crate::specs::Scores::valid))]
fn is_valid_ratio(x: f64) -> bool
    ensures { result ≡ valid x }
{
    x.is_finite() && !x.is_subnormal() && x > 1.0
}

impl EstimateScore {
    // The score of a sample that took `before` bytes and takes `after`.
    pub fn from_sample_sizes(before: u64, after: u64) -> EstimateScore
        ensures { result ≡ score_of before after }
    {
        if after == 0 {
            EstimateScore::ZeroBytes
        } else {
            EstimateScore::FiniteCompression(ratio(before, after))
        }
    }

    pub fn finite_ratio(self) -> Option<f64>
        ensures { result ≡ finite_ratio self }
    {
        match self {
            EstimateScore::FiniteCompression(x) => Some(x),
            EstimateScore::ZeroBytes => None,
        }
    }

    // Whether it may compete at all.
    pub fn is_valid(self) -> bool
        ensures { result ≡ score_valid self }
    {
        self.finite_ratio().is_some_and(is_valid_ratio)
    }

    // Written out: a derived order would hang on the order in which the variants stand.
    pub fn beats(self, other: EstimateScore) -> bool
        ensures { result ≡ beats_score self other }
    {
        match (self, other) {
            (EstimateScore::ZeroBytes, _) => false,
            (EstimateScore::FiniteCompression(_), EstimateScore::ZeroBytes) => true,
            (EstimateScore::FiniteCompression(x), EstimateScore::FiniteCompression(y)) => x > y,
        }
    }
}

// How valid ratios are ordered, which ratios are valid, and cases worked out.
pub fn order_of_ratios()
    ensures { RatioLaws }
{}
