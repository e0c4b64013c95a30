// A binder with all that is lent to it.
ghost use Rattle.std.specs.Prelude.{◌≡◌, vec_len};
ghost use Rattle.bindlist.specs.Printed.{four_levels, memory};
ghost use Rattle.compressor.specs.Compressed.{setting};
ghost use Rattle.sample.specs.Draws.{mill};

use bank::Bank;
use banks::House;
use binder::Binder;
use sample::draws::Mill;

pub const LEVELS: usize = 4;

pub const BYTES: usize = 24_576;

// A column of more rows is not bound.
pub const MAX_ROWS: usize = 64;

#[derive(Drop)]
pub struct Shelf<'a> {
    pub binder: Binder<'a, House, Mill>,
    pub bytes: Vec<u8>,
    pub mem: Vec<u64>,
    ghost opened: { setting (⟦<House as Bank>⟧.meanings binder.opening.bank.schemes.now) mill binder.opening.levels ≡ four_levels },
    ghost room: { vec_len mem ≡ memory },
}
