// The column: the price class at each step of a ticket's life.
use column::rows::{is_set, words_for};
use std::alloc::{AllocError, Global};

// Cents: one of thirteen classes for 40 rows, then another.
fn price(row: usize) -> u64 {
    1200 + 350 * (row as u64 / 40 * 7 % 13)
}

// Buyers had one row in 97 blanked.
fn is_blank(row: usize) -> bool {
    row % 97 == 5
}

// As they are handed in: the prices still stand under the blanks.
pub fn cells_of(heap: Global, rows: usize) -> Result<Vec<u64>, AllocError> {
    (0..rows).map(|row| price(row)).collect(heap)
}

pub fn words_of(heap: Global, rows: usize) -> Result<Vec<u64>, AllocError> {
    let mut words = vec![in heap; 0; words_for(rows)]?;
    for row in 0..rows {
        if let Some(word) = words.get_mut(row / 64)
            && !is_blank(row)
        {
            *word |= 1 << (row % 64);
        }
    }
    Ok(words)
}

// Whether the row is a value or a blank as it was, with its price or 0.
fn is_back(row: usize, cells: &[u64], words: &[u64]) -> bool {
    let word = words.get(row / 64).copied().unwrap_or(0);
    let cell = cells.get(row).copied().unwrap_or(0);
    if is_blank(row) {
        !is_set(word, row % 64) && cell == 0
    } else {
        is_set(word, row % 64) && cell == price(row)
    }
}

// The first row that did not come back.
pub fn first_difference(rows: usize, cells: &[u64], words: &[u64]) -> Option<usize> {
    (0..rows).find(|row| !is_back(*row, cells, words))
}
