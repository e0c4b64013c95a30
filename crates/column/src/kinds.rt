// The eight kinds of whole numbers.
ghost use Rattle.std.specs.Prelude.{◌≡◌, ℕ};
ghost use Rattle.column.specs.Kinds.{number_of, known_kind, name_of, width as width_of, least as least_of, greatest as greatest_of, signed, key as key_of};

use crate::refusals::Refusal;

#[derive(Clone, Copy, PartialEq, Eq)]
pub enum Kind {
    U8,
    U16,
    U32,
    U64,
    I8,
    I16,
    I32,
    I64,
}

// By its number.
impl TryFrom<u8> for Kind {
    type Error = Refusal;

    ghost try_from_gives = { λ number result. result ≡ known_kind number };

    fn try_from(number: u8) -> Result<Kind, Refusal> {
        match number {
            0 => Ok(Kind::U8),
            1 => Ok(Kind::U16),
            2 => Ok(Kind::U32),
            3 => Ok(Kind::U64),
            4 => Ok(Kind::I8),
            5 => Ok(Kind::I16),
            6 => Ok(Kind::I32),
            7 => Ok(Kind::I64),
            _ => Err(Refusal::UnknownKind),
        }
    }
}

// Arms, and no cast: the numbers are stored, so they stand beside the kinds, whatever order the enum has.
impl From<Kind> for u8 {
    ghost from_gives = { λ kind number. number ≡ number_of kind };

    fn from(kind: Kind) -> u8 {
        match kind {
            Kind::U8 => 0,
            Kind::U16 => 1,
            Kind::U32 => 2,
            Kind::U64 => 3,
            Kind::I8 => 4,
            Kind::I16 => 5,
            Kind::I32 => 6,
            Kind::I64 => 7,
        }
    }
}

impl Kind {
    pub fn name(self) -> &'static str
        ensures { result.now ≡ name_of self }
    {
        match self {
            Kind::U8 => "u8",
            Kind::U16 => "u16",
            Kind::U32 => "u32",
            Kind::U64 => "u64",
            Kind::I8 => "i8",
            Kind::I16 => "i16",
            Kind::I32 => "i32",
            Kind::I64 => "i64",
        }
    }

    // Bits of a cell.
    pub fn width(self) -> u32
        ensures { result ≡ width_of (number_of self) }
    {
        match self {
            Kind::U8 | Kind::I8 => 8,
            Kind::U16 | Kind::I16 => 16,
            Kind::U32 | Kind::I32 => 32,
            Kind::U64 | Kind::I64 => 64,
        }
    }

    pub fn is_signed(self) -> bool
        ensures { result ≡ signed (number_of self) }
    {
        match self {
            Kind::U8 | Kind::U16 | Kind::U32 | Kind::U64 => false,
            Kind::I8 | Kind::I16 | Kind::I32 | Kind::I64 => true,
        }
    }

    // The least value, as a cell.
    pub fn least(self) -> u64
        ensures { result ≡ least_of (number_of self) }
    {
        match self {
            Kind::U8 | Kind::U16 | Kind::U32 | Kind::U64 => 0,
            Kind::I8 => 0xFFFF_FFFF_FFFF_FF80,
            Kind::I16 => 0xFFFF_FFFF_FFFF_8000,
            Kind::I32 => 0xFFFF_FFFF_8000_0000,
            Kind::I64 => 0x8000_0000_0000_0000,
        }
    }

    // The greatest value, as a cell.
    pub fn greatest(self) -> u64
        ensures { result ≡ greatest_of (number_of self) }
    {
        match self {
            Kind::U8 => 0xFF,
            Kind::U16 => 0xFFFF,
            Kind::U32 => 0xFFFF_FFFF,
            Kind::U64 => 0xFFFF_FFFF_FFFF_FFFF,
            Kind::I8 => 0x7F,
            Kind::I16 => 0x7FFF,
            Kind::I32 => 0x7FFF_FFFF,
            Kind::I64 => 0x7FFF_FFFF_FFFF_FFFF,
        }
    }

    // The cell's place in the kind's order.
    pub fn key(self, cell: u64) -> u64
        ensures { result ≡ key_of (number_of self) cell }
    {
        if self.is_signed() {
            cell.wrapping_add(1 << 63)
        } else {
            cell
        }
    }
}
