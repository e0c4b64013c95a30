// A binder with the bytes that are lent to it.
ghost use Rattle.std.specs.Prelude.{◌≡◌, ◌==◌};
ghost use Rattle.std.specs.List.{list_all};
ghost use Rattle.calls.specs.Calls.{node_at};

use crate::answers::Answer;
use crate::commands::{Asked, Call, Offer, Places};
use crate::texts::{bound_text, bytes_text, fetched_text, refused_text, weighed_text};
use bank::Bank;
use binder::Binder;
use column::refusals::Refusal;
use column::rows::words_for;
use column::views::MAX_ROWS;
use compressor::working_memory;
use listing::rows_text;
use node::bodies::after_node;
use node::heads::Header;
use node::slices::{from, up_to};
use opening::MAX_LEVELS;
use sample::draws::Draws;
use std::alloc::{AllocError, Global};

// Stands in what is lent before a call.
const STALE: u64 = 0xA5A5_A5A5_A5A5_A5A5;

#[derive(Drop)]
pub struct Driver<'a, B: Bank, D: Draws + Drop> {
    binder: Binder<'a, B, D>,
    levels: usize,
    bytes: Vec<u8>,
}

// What a refused call leaves alone.
#[derive(Drop)]
struct Before {
    count: usize,
    used: usize,
    bytes: Vec<u8>,
}

// Words of working memory that are enough for so many rows.
fn enough(levels: usize, rows: usize) -> usize {
    working_memory(levels.min(MAX_LEVELS), rows.min(MAX_ROWS))
}

fn is_zero(words: &[u64]) -> bool
    ensures { result ≡ list_all (λ w. w == 0) words.now }
{
    words.iter().all(|w| *w == 0)
}

// Whether the places after the first so many are as they were lent.
fn is_stale_from(places: &[u64], start: usize) -> bool {
    places.iter().skip(start).all(|w| *w == STALE)
}

// The bytes from the node of column `number` on.
fn node_at(bytes: &[u8], number: usize) -> &[u8]
    ensures { result.now ≡ node_at number bytes.now }
{
    let mut rest = bytes;
    for _ in 0..number {
        rest = after_node(rest);
    }
    rest
}

impl<'a, B: Bank, D: Draws + Drop> Driver<'a, B, D> {
    pub fn open(
        heap: Global,
        bank: &'a B,
        levels: usize,
        bytes: usize,
    ) -> Result<Result<Driver<'a, B, D>, Refusal>, AllocError> {
        let mut bytes = vec![in heap; 0xA5; bytes]?;
        match Binder::open(bank, levels, &mut bytes) {
            Ok(binder) => Ok(Ok(Driver {
                binder,
                levels,
                bytes,
            })),
            Err(refusal) => Ok(Err(refusal)),
        }
    }

    pub fn answer(&mut self, heap: Global, call: &Call) -> Result<Answer, AllocError> {
        match call {
            Call::Bind(offer) => self.bind(heap, offer),
            Call::Fetch(asked) => self.fetch(heap, *asked),
            Call::Weigh(number) => Ok(Answer::plain(self.weigh(heap, *number)?)),
            Call::List(number) => Ok(Answer::plain(self.list(heap, *number)?)),
            Call::Bytes => self.show_bytes(heap),
        }
    }

    fn before(&self) -> Result<Before, AllocError> {
        Ok(Before {
            count: self.binder.count(),
            used: self.binder.used(),
            bytes: self.bytes.clone()?,
        })
    }

    fn is_as(&self, before: &Before) -> bool {
        self.binder.count() == before.count
            && self.binder.used() == before.used
            && self.bytes == before.bytes
    }

    fn bind(&mut self, heap: Global, offer: &Offer) -> Result<Answer, AllocError> {
        let memory = offer
            .memory
            .unwrap_or(enough(self.levels, offer.cells.len()));
        let mut mem = vec![in heap; STALE; memory]?;
        let before = self.before()?;
        let (cells, words) = (offer.cells.as_slice(), offer.words.as_slice());
        let done = self
            .binder
            .bind(offer.kind, cells, words, &mut mem, &mut self.bytes);
        let (text, others_kept) = match done {
            Ok(number) => (bound_text(heap, number, self.binder.used())?, true),
            Err(refusal) => (refused_text(heap, refusal)?, self.is_as(&before)),
        };
        Ok(Answer {
            text,
            memory_zero: is_zero(&mem),
            others_kept,
        })
    }

    // The row count in the head of column `number`; 0 where there is none.
    fn rows_of(&self, number: usize) -> usize {
        if number >= self.binder.count() {
            return 0;
        }
        match Header::read(node_at(&self.bytes, number)) {
            Some(header) => header.head.rows as usize,
            None => 0,
        }
    }

    fn fetch(&self, heap: Global, asked: Asked) -> Result<Answer, AllocError> {
        let rows = self.rows_of(asked.number).min(MAX_ROWS);
        let places = asked.places.unwrap_or(Places {
            cells: rows,
            words: words_for(rows),
        });
        let memory = asked.memory.unwrap_or(enough(self.levels, rows));
        let mut mem = vec![in heap; STALE; memory]?;
        let mut cells = vec![in heap; STALE; places.cells]?;
        let mut words = vec![in heap; STALE; places.words]?;
        let done = self.binder.fetch(asked.number, &self.bytes, &mut mem, &mut cells, &mut words);
        let (text, rows) = match done {
            Ok(fetched) => (fetched_text(heap, fetched, &cells, &words)?, fetched.rows),
            Err(refusal) => (refused_text(heap, refusal)?, 0),
        };
        Ok(Answer {
            text,
            memory_zero: is_zero(&mem),
            others_kept: is_stale_from(&cells, rows) && is_stale_from(&words, rows.div_ceil(64)),
        })
    }

    fn weigh(&self, heap: Global, number: usize) -> Result<String, AllocError> {
        match self.binder.weigh(number, &self.bytes) {
            Ok(weighed) => weighed_text(heap, weighed),
            Err(refusal) => refused_text(heap, refusal),
        }
    }

    // The nodes of column `number`; what a weighing is refused for is refused here.
    fn list(&self, heap: Global, number: usize) -> Result<String, AllocError> {
        match self.binder.weigh(number, &self.bytes) {
            Ok(_) => rows_text(
                heap,
                number,
                node_at(&self.bytes, number),
                self.levels.min(MAX_LEVELS) as u32,
            ),
            Err(refusal) => refused_text(heap, refusal),
        }
    }

    // The bytes in use; those that are free stay zeros.
    fn show_bytes(&self, heap: Global) -> Result<Answer, AllocError> {
        let used = up_to(&self.bytes, self.binder.used());
        let free = from(&self.bytes, self.binder.used());
        Ok(Answer {
            text: bytes_text(heap, used, free.len())?,
            memory_zero: true,
            others_kept: free.iter().all(|b| *b == 0),
        })
    }
}
