// Why a call was refused: one type for every call.
ghost use Rattle.std.specs.Prelude.{◌≡◌};
ghost use Rattle.column.specs.Refusals.{said};

// Each case has a number of its own (its `number`); `row`, `scheme`, `level` and `sample` are 0 where a case does not name them.
#[derive(Clone, Copy, PartialEq, Eq)]
pub enum Refusal {
    // 1: more than 8 schemes or levels, an id outside 16 to 255 or standing twice
    BadOpening,
    // 2: the kind is above 7
    UnknownKind,
    // 3: more than 131,072 rows
    TooManyRows,
    // 4: the presence words are not rows / 64 rounded up, or a bit is set past the last row
    BadPresence,
    // 5: the first row whose value lies outside its kind
    ValueOutside {
        row: u32,
    },
    // 6: too little working memory
    LittleMemory,
    // 7: 64 columns are held
    ManyColumns,
    // 8: a scheme refuses its parts
    SchemeRefused {
        row: u32,
        scheme: u8,
        level: u8,
        sample: bool,
    },
    // 9: the node is longer than the free bytes
    LittleSpace,
    // 10: no column has the number
    UnknownColumn,
    // 11: the cells or presence words lent are too short
    ShortBuffers,
}

// Five questions that one definition answers, and no conversion: a number alone does not say which refusal it was. No `Option` where a
// case does not name a row, a scheme or a level: the definition has 0 there, as the printed line of a refusal has.
impl Refusal {
    pub fn number(self) -> u8
        ensures { result ≡ (said self).number }
    {
        match self {
            Refusal::BadOpening => 1,
            Refusal::UnknownKind => 2,
            Refusal::TooManyRows => 3,
            Refusal::BadPresence => 4,
            Refusal::ValueOutside { .. } => 5,
            Refusal::LittleMemory => 6,
            Refusal::ManyColumns => 7,
            Refusal::SchemeRefused { .. } => 8,
            Refusal::LittleSpace => 9,
            Refusal::UnknownColumn => 10,
            Refusal::ShortBuffers => 11,
        }
    }

    pub fn row(self) -> u32
        ensures { result ≡ (said self).row }
    {
        match self {
            Refusal::ValueOutside { row } => row,
            Refusal::SchemeRefused { row, .. } => row,
            _ => 0,
        }
    }

    pub fn scheme(self) -> u8
        ensures { result ≡ (said self).scheme }
    {
        match self {
            Refusal::SchemeRefused { scheme, .. } => scheme,
            _ => 0,
        }
    }

    pub fn level(self) -> u8
        ensures { result ≡ (said self).level }
    {
        match self {
            Refusal::SchemeRefused { level, .. } => level,
            _ => 0,
        }
    }

    // Whether a scheme refused a sample.
    pub fn sample(self) -> bool
        ensures { result ≡ (said self).sample }
    {
        match self {
            Refusal::SchemeRefused { sample, .. } => sample,
            _ => false,
        }
    }
}
