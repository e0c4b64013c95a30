// Numbers as a script spells them.
ghost use Rattle.std.specs.Prelude.{◌≤◌, IfOk};

use crate::commands::Unread;
use std::alloc::{AllocError, Global};

// More numbers do not stand in a list.
const MAX_LENGTH: usize = 1 << 20;

// Not std's `parse` alone, which takes a `+` in front too.
fn read_digits(text: &str) -> Option<u64> {
    if text.starts_with('+') {
        return None;
    }
    text.parse::<u64>().ok()
}

// A size of at most so much.
pub fn read_size(text: &str, most: usize) -> Result<usize, Unread>
    ensures { IfOk result (λ size. size ≤ most) }
{
    match read_digits(text) {
        Some(size) if size <= most as u64 => Ok(size as usize),
        _ => Err(Unread::BadCommand),
    }
}

// A word: digits, after a minus their two's complement, or hexadecimal digits after 0x.
fn read_word(text: &str) -> Option<u64> {
    if let Some(size) = text.strip_prefix('-') {
        return Some(read_digits(size)?.wrapping_neg());
    }
    if let Some(digits) = text.strip_prefix("0x")
        && !digits.starts_with('+')
    {
        return u64::from_str_radix(digits, 16).ok();
    }
    read_digits(text)
}

// Words from the first on, each one more than the one before it.
#[derive(Clone, Copy)]
struct Span {
    first: u64,
    count: usize,
}

// `V`, or `A..B`: the words from A to B.
fn read_span(text: &str) -> Result<Span, Unread> {
    let (first, last) = text.split_once("..").unwrap_or((text, text));
    let (Some(first), Some(last)) = (read_word(first), read_word(last)) else {
        return Err(Unread::BadCommand);
    };
    let steps = last.wrapping_sub(first);
    if steps >= MAX_LENGTH as u64 {
        return Err(Unread::BadCommand);
    }
    Ok(Span {
        first,
        count: steps as usize + 1,
    })
}

// What stands before a `*`, and how often; once without one.
fn split_times(item: &str) -> Result<(&str, usize), Unread> {
    match item.split_once('*') {
        Some((one, times)) => Ok((one, read_size(times, MAX_LENGTH)?)),
        None => Ok((item, 1)),
    }
}

// `none`, or items with a comma between two: `V`, `A..B`, and `*N` behind either for N times.
pub fn read_list(heap: Global, text: &str) -> Result<Vec<u64>, Unread> {
    let mut list = Vec::new(heap);
    if text == "none" {
        return Ok(list);
    }
    for item in text.split(',') {
        let (span, times) = split_times(item)?;
        let span = read_span(span)?;
        if list.len().saturating_add(span.count.saturating_mul(times)) > MAX_LENGTH {
            return Err(Unread::BadCommand);
        }
        put_span(&mut list, span, times)?;
    }
    Ok(list)
}

fn put_span(list: &mut Vec<u64>, span: Span, times: usize) -> Result<(), AllocError> {
    for _ in 0..times {
        for i in 0..span.count {
            list.push(span.first.wrapping_add(i as u64))?;
        }
    }
    Ok(())
}

// A column's line, in which a field with `*N` behind it stands N times.
pub fn spell_line(heap: Global, text: &str) -> Result<String, Unread> {
    let mut items = text.split(',');
    let mut line = String::from_str(heap, items.next().unwrap_or(""))?;
    let mut rows: usize = 0;
    for item in items {
        let (field, times) = split_times(item)?;
        rows = rows.saturating_add(times);
        if rows > MAX_LENGTH {
            return Err(Unread::BadCommand);
        }
        for _ in 0..times {
            line.push(',')?;
            line.push_str(field)?;
        }
    }
    Ok(line)
}
