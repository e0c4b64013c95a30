// An answer, as a line of the list has it.
use column::kinds::Kind;
use lines::numbers::Number;
use stats::integer::IntegerStats;
use std::fmt;

// A column's statistics, and the table of its distinct values.
#[derive(Clone, Copy)]
pub struct Answer<'a> {
    pub kind: Kind,
    pub stats: IntegerStats,
    pub values: &'a [u64],
    pub counts: &'a [u64],
}

impl fmt::Display for Answer<'_> {
    fn fmt<W: fmt::Write>(&self, f: &mut fmt::Formatter<W>) -> fmt::Result {
        let s = self.stats;
        let nulls = s.null_count();
        let count = s.value_count();
        let average = s.average_run_length();
        let min = self.number(s.min());
        let max = self.number(s.max());
        write!(f, "{nulls} {count} {average} {min} {max} ")?;
        self.write_distinct(f)?;
        write!(f, "|")?;
        self.write_span(f)?;
        write!(f, "|")?;
        self.write_facts(f)
    }
}

impl Answer<'_> {
    fn number(&self, cell: u64) -> Number {
        Number {
            kind: self.kind,
            cell,
        }
    }

    // How many values are distinct, the commonest and its count, and the table; dashes where they were not counted.
    fn write_distinct<W: fmt::Write>(&self, f: &mut fmt::Formatter<W>) -> fmt::Result {
        let s = self.stats;
        let (Some(n), Some((value, times))) = (
            s.distinct_count(),
            s.most_frequent_value_and_count(),
        ) else {
            return write!(f, "- - - -");
        };
        let commonest = self.number(value);
        write!(f, "{n} {commonest} {times} [")?;
        self.write_table(f)?;
        write!(f, "]")
    }

    // `1x2,5x1`: each value with its count.
    fn write_table<W: fmt::Write>(&self, f: &mut fmt::Formatter<W>) -> fmt::Result {
        for (i, (value, count)) in self.values.iter().zip(self.counts).enumerate() {
            if i > 0 {
                write!(f, ",")?;
            }
            let value = self.number(*value);
            write!(f, "{value}x{count}")?;
        }
        Ok(())
    }

    // The span, or a dash where there is no value.
    fn write_span<W: fmt::Write>(&self, f: &mut fmt::Formatter<W>) -> fmt::Result {
        let span = self.stats.max_minus_min();
        if self.stats.value_count() == 0 && span == 0 {
            write!(f, "-")
        } else {
            write!(f, "{span}")
        }
    }

    // Three facts: whether the least value is 0, whether it is below 0, and the greatest one's logarithm.
    fn write_facts<W: fmt::Write>(&self, f: &mut fmt::Formatter<W>) -> fmt::Result {
        let zero = u8::from(self.stats.min_is_zero());
        let negative = u8::from(self.stats.min_is_negative());
        write!(f, "{zero} {negative} ")?;
        match self.stats.max_ilog2() {
            Some(n) => write!(f, "{n}"),
            None => write!(f, "-"),
        }
    }
}
