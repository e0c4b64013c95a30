// The answers as they are printed.
ghost use Rattle.std.specs.Prelude.{◌≡◌, IfOk, string_bytes};
ghost use Rattle.column.specs.Refusals.{said};
ghost use Rattle.bindscript.specs.Printed.{opened_line, refused_line, bound_line, weighed_line};

use calls::answers::{Fetched, Weighed};
use column::kinds::Kind;
use column::refusals::Refusal;
use lines::numbers::Number;
use std::alloc::{AllocError, Global};
use std::fmt::Write;

pub fn opened_text(heap: Global) -> Result<String, AllocError>
    ensures { IfOk result (λ s. string_bytes s ≡ opened_line) }
{
    String::from_str(heap, "opened\n")
}

pub fn refused_text(heap: Global, refusal: Refusal) -> Result<String, AllocError>
    ensures { IfOk result (λ s. string_bytes s ≡ refused_line (said refusal)) }
{
    let number = refusal.number();
    let row = refusal.row();
    let scheme = refusal.scheme();
    let level = refusal.level();
    let sample = u8::from(refusal.sample());
    format!(in heap; "refused,{number},{row},{scheme},{level},{sample}\n")
}

// The column's number, and how many bytes are in use.
pub fn bound_text(heap: Global, number: usize, used: usize) -> Result<String, AllocError>
    ensures { IfOk result (λ s. string_bytes s ≡ bound_line number used) }
{
    format!(in heap; "bound,{number},{used}\n")
}

pub fn weighed_text(heap: Global, weighed: Weighed) -> Result<String, AllocError>
    ensures { IfOk result (λ s. string_bytes s ≡ weighed_line weighed) }
{
    let weight = weighed.weight;
    let whole = weighed.whole;
    format!(in heap; "weighed,{weight},{whole}\n")
}

// Kind, rows, cells and presence words; equal ones in a row stand once.
pub fn fetched_text(
    heap: Global,
    fetched: Fetched,
    cells: &[u64],
    words: &[u64],
) -> Result<String, AllocError> {
    let kind = fetched.kind;
    let rows = fetched.rows;
    let name = kind.name();
    let cells = cells_text(heap, kind, cells.get(..rows).unwrap_or(cells))?;
    let words = words_text(heap, words.get(..rows.div_ceil(64)).unwrap_or(words))?;
    format!(in heap; "fetched,{name},{rows},{cells},{words}\n")
}

// What follows the first of so many equal ones: nothing after one.
fn put_times(text: &mut String, times: usize) -> Result<(), AllocError> {
    if times > 1 {
        write!(text, "*{times}")?;
    }
    Ok(())
}

fn put_gap(text: &mut String) -> Result<(), AllocError> {
    if !text.is_empty() {
        text.push(' ')?;
    }
    Ok(())
}

fn cells_text(heap: Global, kind: Kind, cells: &[u64]) -> Result<String, AllocError> {
    let mut text = String::new(heap);
    for run in cells.chunk_by(|a, b| a == b) {
        put_gap(&mut text)?;
        let cell = run.first().copied().unwrap_or(0);
        let number = Number { kind, cell };
        write!(text, "{number}")?;
        put_times(&mut text, run.len())?;
    }
    Ok(text)
}

// In hexadecimal.
fn words_text(heap: Global, words: &[u64]) -> Result<String, AllocError> {
    let mut text = String::new(heap);
    for run in words.chunk_by(|a, b| a == b) {
        put_gap(&mut text)?;
        let word = run.first().copied().unwrap_or(0);
        write!(text, "0x{word:x}")?;
        put_times(&mut text, run.len())?;
    }
    Ok(text)
}

// How many bytes are in use, how many are free, and those in use.
pub fn bytes_text(heap: Global, used: &[u8], free: usize) -> Result<String, AllocError> {
    let count = used.len();
    let mut text = format!(in heap; "bytes,{count},{free},")?;
    for b in used {
        write!(text, "{b:02x}")?;
    }
    text.push('\n')?;
    Ok(text)
}
