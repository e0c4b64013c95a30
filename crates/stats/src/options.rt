// Which statistics are made.
ghost use Rattle.std.specs.Prelude.{◌≡◌, ◌||◌};

#[derive(Clone, Copy)]
pub struct GenerateStatsOptions {
    pub count_distinct_values: bool,
}

impl GenerateStatsOptions {
    // What either asks for.
    pub fn merge(self, other: GenerateStatsOptions) -> GenerateStatsOptions
        ensures { result.count_distinct_values ≡ (self.count_distinct_values || other.count_distinct_values) }
    {
        GenerateStatsOptions {
            count_distinct_values: self.count_distinct_values || other.count_distinct_values,
        }
    }
}
