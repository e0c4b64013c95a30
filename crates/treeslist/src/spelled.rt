// Columns as the list spells them: rows, rows that stand several times, and numbers that are counted up or drawn.
use anyhow::bail;
use column::kinds::Kind;
use lines::numbers::Number;
use lines::reads::read_line;
use sample::draws::{Draws, Mill};
use std::alloc::Global;
use std::fmt::Write;

// The line of the column, as the reader of lines takes it.
pub fn spell_out(heap: Global, text: &str) -> anyhow::Result<String> {
    let mut items = text.split(',');
    let name = items.next().unwrap_or("");
    let Ok(column) = read_line(heap, name.as_bytes()) else {
        bail!("a column of the list has no kind");
    };
    let mut speller = Speller {
        heap,
        kind: column.kind,
        line: String::from_str(heap, name)?,
    };
    for item in items {
        speller.put(item)?;
    }
    Ok(speller.line)
}

// The number's word: of a negative one its two's complement.
fn read_number(text: &str) -> anyhow::Result<u64> {
    match text.strip_prefix('-') {
        Some(size) => Ok(size.parse::<u64>()?.wrapping_neg()),
        None => Ok(text.parse::<u64>()?),
    }
}

fn read_numbers(heap: Global, text: &str) -> anyhow::Result<Vec<u64>> {
    let mut numbers = Vec::new(heap);
    for word in text.split(' ') {
        numbers.push(read_number(word)?)?;
    }
    Ok(numbers)
}

// A line as far as it is spelled out.
#[derive(Drop)]
struct Speller {
    heap: Global,
    kind: Kind,
    line: String,
}

impl Speller {
    fn put(&mut self, item: &str) -> anyhow::Result<()> {
        if let Some(numbers) = item.strip_prefix("each ") {
            let numbers = read_numbers(self.heap, numbers)?;
            return self.put_each(&numbers);
        }
        if let Some(numbers) = item.strip_prefix("drawn ") {
            let numbers = read_numbers(self.heap, numbers)?;
            return self.put_drawn(&numbers);
        }
        let (field, times) = item.split_once('*').unwrap_or((item, "1"));
        for _ in 0..times.parse::<u64>()? {
            self.line.push(',')?;
            self.line.push_str(field)?;
        }
        Ok(())
    }

    fn put_cell(&mut self, cell: u64) -> anyhow::Result<()> {
        let number = Number {
            kind: self.kind,
            cell,
        };
        write!(self.line, ",{number}")?;
        Ok(())
    }

    // `count` numbers from `low` on, `step` apart, each several times; all that in several rounds.
    fn put_each(&mut self, numbers: &[u64]) -> anyhow::Result<()> {
        let [low, step, count, times, rounds] = numbers else {
            bail!("five numbers say what is counted up");
        };
        for _ in 0..*rounds {
            for i in 0..*count {
                let cell = low.wrapping_add(step.wrapping_mul(i));
                for _ in 0..*times {
                    self.put_cell(cell)?;
                }
            }
        }
        Ok(())
    }

    // Runs of such numbers: which number, how long, and which rows are blank is drawn.
    fn put_drawn(&mut self, numbers: &[u64]) -> anyhow::Result<()> {
        let [seed, low, step, count, runs, longest, blanks] = numbers else {
            bail!("seven numbers say what is drawn");
        };
        let bounds = 1..1 << 63;
        if !bounds.contains(count) || !bounds.contains(longest) {
            bail!("nothing can be drawn");
        }
        let mut mill = Mill::begin(*seed);
        for _ in 0..*runs {
            let cell = low.wrapping_add(step.wrapping_mul(mill.draw(0, *count - 1)));
            for _ in 0..mill.draw(1, *longest) {
                if *blanks > 0 && mill.draw(0, 99) < *blanks {
                    self.line.push(',')?;
                } else {
                    self.put_cell(cell)?;
                }
            }
        }
        Ok(())
    }
}
