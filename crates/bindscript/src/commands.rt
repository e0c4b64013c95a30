// The commands of a script.
use crate::lists::{read_list, read_size, spell_line};
use lines::columns::{LineColumn, LineError};
use lines::reads::read_line;
use std::alloc::{AllocError, Global};

// More bytes, or words of working memory, are not lent: 64 columns of 131,072 rows need fewer.
const MAX_BYTES: usize = 1 << 27;

const MAX_MEMORY: usize = 1 << 24;

// Nor are more places for cells or presence words.
const MAX_PLACES: usize = 1 << 20;

#[derive(Clone, Copy)]
pub enum BankName {
    House,
    Trial,
}

#[derive(Clone, Copy)]
pub enum SourceName {
    Mill,
    Centre,
}

#[derive(Clone, Copy)]
pub struct Setting {
    pub bank: BankName,
    pub source: SourceName,
    pub levels: usize,
    pub bytes: usize,
}

// A column as it is handed in, and how much working memory is lent: as much as it needs where nothing is said.
#[derive(Drop)]
pub struct Offer {
    pub kind: u8,
    pub cells: Vec<u64>,
    pub words: Vec<u64>,
    pub memory: Option<usize>,
}

#[derive(Clone, Copy)]
pub struct Places {
    pub cells: usize,
    pub words: usize,
}

// A column's number, and what is lent for it: as much as it needs where nothing is said.
#[derive(Clone, Copy)]
pub struct Asked {
    pub number: usize,
    pub places: Option<Places>,
    pub memory: Option<usize>,
}

// A call of a binder, or a look at its bytes.
#[derive(Drop)]
pub enum Call {
    Bind(Offer),
    Fetch(Asked),
    Weigh(usize),
    List(usize),
    Bytes,
}

#[derive(Drop)]
pub enum Command {
    // an empty line, or a comment
    Nothing,
    Open(Setting),
    Call(Call),
}

#[derive(Clone, Copy)]
pub enum Unread {
    BadCommand,
    NoMemory,
}

impl From<AllocError> for Unread {
    fn from(_e: AllocError) -> Unread {
        Unread::NoMemory
    }
}

pub fn read_command(heap: Global, line: &str) -> Result<Command, Unread> {
    if line.is_empty() || line.starts_with('#') {
        return Ok(Command::Nothing);
    }
    let words: Vec<&str> = line.split(' ').collect(heap)?;
    match *words.as_slice() {
        ["open", bank, source, levels, bytes] => {
            Ok(Command::Open(read_setting(bank, source, levels, bytes)?))
        }
        _ => Ok(Command::Call(read_call(heap, &words)?)),
    }
}

fn read_call(heap: Global, words: &[&str]) -> Result<Call, Unread> {
    match *words {
        ["bind", line] => read_line_offer(heap, line, None),
        ["bind", line, memory] => read_line_offer(heap, line, Some(memory)),
        ["bind", kind, cells, words] => read_offer(heap, kind, cells, words, None),
        ["bind", kind, cells, words, memory] => read_offer(heap, kind, cells, words, Some(memory)),
        ["fetch", number] => read_asked(number, None, None),
        ["fetch", number, memory] => read_asked(number, None, Some(memory)),
        ["fetch", number, cells, words] => read_asked(number, Some((cells, words)), None),
        ["fetch", number, cells, words, memory] => {
            read_asked(number, Some((cells, words)), Some(memory))
        }
        ["weigh", number] => Ok(Call::Weigh(read_size(number, usize::MAX)?)),
        ["list", number] => Ok(Call::List(read_size(number, usize::MAX)?)),
        ["bytes"] => Ok(Call::Bytes),
        _ => Err(Unread::BadCommand),
    }
}

fn read_setting(bank: &str, source: &str, levels: &str, bytes: &str) -> Result<Setting, Unread> {
    let bank = match bank {
        "house" => BankName::House,
        "trial" => BankName::Trial,
        _ => return Err(Unread::BadCommand),
    };
    let source = match source {
        "mill" => SourceName::Mill,
        "centre" => SourceName::Centre,
        _ => return Err(Unread::BadCommand),
    };
    Ok(Setting {
        bank,
        source,
        levels: read_size(levels, usize::MAX)?,
        bytes: read_size(bytes, MAX_BYTES)?,
    })
}

fn read_memory(memory: Option<&str>) -> Result<Option<usize>, Unread> {
    match memory {
        Some(memory) => Ok(Some(read_size(memory, MAX_MEMORY)?)),
        None => Ok(None),
    }
}

// A column by its parts: a number for its kind, cells, and presence words.
fn read_offer(
    heap: Global,
    kind: &str,
    cells: &str,
    words: &str,
    memory: Option<&str>,
) -> Result<Call, Unread> {
    let kind = read_size(kind, usize::from(u8::MAX))?;
    Ok(Call::Bind(Offer {
        kind: kind as u8,
        cells: read_list(heap, cells)?,
        words: read_list(heap, words)?,
        memory: read_memory(memory)?,
    }))
}

// A column by its line.
fn read_line_offer(heap: Global, line: &str, memory: Option<&str>) -> Result<Call, Unread> {
    let memory = read_memory(memory)?;
    let line = spell_line(heap, line)?;
    match read_line(heap, line.as_str().as_bytes()) {
        Ok(LineColumn { kind, cells, words }) => Ok(Call::Bind(Offer {
            kind: u8::from(kind),
            cells,
            words,
            memory,
        })),
        Err(LineError::NoMemory) => Err(Unread::NoMemory),
        Err(_) => Err(Unread::BadCommand),
    }
}

fn read_asked(
    number: &str,
    places: Option<(&str, &str)>,
    memory: Option<&str>,
) -> Result<Call, Unread> {
    let places = match places {
        Some((cells, words)) => Some(Places {
            cells: read_size(cells, MAX_PLACES)?,
            words: read_size(words, MAX_PLACES)?,
        }),
        None => None,
    };
    Ok(Call::Fetch(Asked {
        number: read_size(number, usize::MAX)?,
        places,
        memory: read_memory(memory)?,
    }))
}
