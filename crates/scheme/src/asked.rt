// What a scheme is asked about.
use column::views::View;
use stats::integer::IntegerStats;

// A column with its statistics; the distinct values stand in `table`. That it is cleaned, and that they are its own, is asked by clauses.
#[derive(Clone, Copy)]
pub struct ArrayAndStats<'a> {
    pub array: View<'a>,
    pub stats: &'a IntegerStats,
    pub table: &'a [u64],
}
