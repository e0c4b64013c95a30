// Strata, counts and draws worked out as numbers.
ghost use Rattle.sample.specs.Draws.{mill};
ghost use Rattle.sample.specs.Laws.{answers, sizes};
ghost use Rattle.sample.specs.Samples.{sample_count};
ghost use Rattle.std.specs.Prelude.{◌≡◌, [], ◌∷◌, map, replicate};

pub fn worked()
    ensures sizes { sizes 1025 16 ≡ 65 ∷ replicate 15 64 }
    ensures counts { map sample_count (0 ∷ 1024 ∷ 1025 ∷ 102399 ∷ 102400 ∷ 108799 ∷ 108800 ∷ 131072 ∷ []) ≡ 16 ∷ 16 ∷ 16 ∷ 16 ∷ 16 ∷ 16 ∷ 32 ∷ 32 ∷ [] }
    ensures draws { answers mill (0, 99) 4 [] ≡ 42 ∷ 12 ∷ 90 ∷ 73 ∷ [] }
{}
