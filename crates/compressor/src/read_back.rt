// A column from the bytes of its node.
ghost use Rattle.std.specs.Prelude.{◌≡◌};
ghost use Rattle.compressor.specs.Decompressed.{Decompressed};
ghost use Rattle.reading.specs.Reads.{ReadIn};

use bank::Bank;
use opening::Opening;
use reading::{Restored, read};

// Reads the node at the front of the bytes to the fronts of `cells` and `words`: 0 under blanks, spare bits 0. Safe on any bytes; None, and
// nothing written, where something does not fit.
pub fn decompress<B: Bank>(
    opening: &Opening<'_, B>,
    bytes: &[u8],
    mem: &mut [u64],
    cells: &mut [u64],
    words: &mut [u64],
) -> Option<Restored>
    ensures places { ReadIn result cells.old words.old cells.new words.new }
    ensures back { Decompressed (B.Bank.meanings opening.now.bank.schemes.now) opening.now.levels bytes.now mem.old result cells.old words.old cells.new words.new }
{
    read(&opening.bank, opening.levels, bytes, mem, cells, words)
}
