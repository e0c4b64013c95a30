// Columns read back from the bytes of their nodes.
#![tactic(auto)]

mod cleared;
mod nodes;
mod places;
mod restored;

ghost use Rattle.reading.specs.Reads.{ReadIn, ReadBack};

use bank::Bank;
use bank::small::SmallBank;
use cleared::clear;
use column::rows::words_for;
use nodes::read_node;
pub use restored::Restored;

// Reads the node at the front of the bytes, with at most that many levels of schemes, to the fronts of `cells` and `words`:
// 0 under blanks, spare bits 0. None where something does not fit, and then nothing is written there.
pub fn read<B: Bank>(
    bank: &SmallBank<'_, B>,
    levels: usize,
    bytes: &[u8],
    mem: &mut [u64],
    cells: &mut [u64],
    words: &mut [u64],
) -> Option<Restored>
    ensures places { ReadIn result cells.old words.old cells.new words.new }
    ensures back { ReadBack (B.Bank.meanings bank.now.schemes.now) levels bytes.now mem.old result cells.old words.old cells.new words.new }
{
    let read = read_node(bank, levels, bytes, mem, cells, words)?;
    clear(&mut cells[..read.rows], &mut words[..words_for(read.rows)]);
    Some(read)
}
