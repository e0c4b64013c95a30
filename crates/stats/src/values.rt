// The values of a column in row order, and their ends.
ghost use Rattle.std.specs.Prelude.{◌≡◌, ◌+◌, ◌≤◌, ◌++◌, length, take, drop};
ghost use Rattle.column.specs.Kinds.{number_of};
ghost use Rattle.column.specs.Columns.{seen, values};
ghost use Rattle.stats.specs.Stats.{least_of, greatest_of};
ghost use Rattle.stats.specs.Blocks.{kept_from};

use column::blocks::Block;
use column::kinds::Kind;
use column::rows::is_set;
use column::views::View;

// The cells of one block whose bit is set, put after the first `at`. Counted by hand: `n` is the next place, and at the end the answer.
fn gather_block(block: Block<'_>, out: &mut [u64], at: usize) -> usize
    requires room { at + length block.cells.now ≤ length out.old }
    ensures front { take result out.new ≡ take at out.old ++ kept_from block.entry.word 0 block.entry.cells.now }
    ensures fits { result ≤ at + length block.entry.cells.now }
    ensures beyond { drop (at + length block.entry.cells.now) out.new ≡ drop (at + length block.entry.cells.now) out.old }
{
    let mut n = at;
    for (i, cell) in block.cells.iter().enumerate() {
        if is_set(block.word, i) {
            out[n] = *cell;
            n += 1;
        }
    }
    n
}

// The values at the front of `out`, and how many they are; rows without a presence word are blanks.
pub fn gather(view: View<'_>, out: &mut [u64]) -> usize
    requires room { length view.cells.now ≤ length out.old }
    ensures front { take result out.new ≡ values (seen view.entry) }
    ensures fits { result ≤ length view.entry.cells.now }
    ensures beyond { drop (length view.entry.cells.now) out.new ≡ drop (length view.entry.cells.now) out.old }
{
    let mut at: usize = 0;
    for (cells, word) in view.cells.chunks(64).zip(view.words) {
        let block = Block { cells, word: *word };
        at = gather_block(block, out, at);
    }
    at
}

// The least value as a cell, or the kind's greatest. Beside `greatest_of` and not one with it: that would take both ends and a closure to save a fold.
pub(crate) fn least_of(kind: Kind, found: &[u64]) -> u64
    ensures { result ≡ least_of (number_of kind) found.now }
{
    let none = kind.key(kind.greatest());
    kind.key(
        found
            .iter()
            .fold(none, |key, cell| key.min(kind.key(*cell))),
    )
}

// The greatest value as a cell, or the kind's least.
pub(crate) fn greatest_of(kind: Kind, found: &[u64]) -> u64
    ensures { result ≡ greatest_of (number_of kind) found.now }
{
    let none = kind.key(kind.least());
    kind.key(
        found
            .iter()
            .fold(none, |key, cell| key.max(kind.key(*cell))),
    )
}

#[cfg(test)]
mod tests {
    use super::*;

    // A row without a presence word is a blank, and so is one whose bit is not set.
    #[test]
    fn gathers_with_few_words(rt: HostRuntime) {
        let view = View {
            kind: Kind::U8,
            cells: &[1, 2, 3],
            words: &[],
        };
        let mut out = [7; 3];
        assert_eq!(rt; gather(view, &mut out), 0);
        assert_eq!(rt; out, [7; 3]);
        let view = View {
            kind: Kind::U8,
            cells: &[1, 2, 3],
            words: &[0b101, 0b111],
        };
        assert_eq!(rt; gather(view, &mut out), 2);
        assert_eq!(rt; out, [1, 3, 7]);
    }
}
