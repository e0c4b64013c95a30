// A node, read back.
use column::kinds::Kind;
use column::views::View;

// What a reader has of a node: its head's fields, its payload, and its children as they were read.
#[derive(Clone, Copy)]
pub struct Stored<'a> {
    pub kind: Kind,
    pub rows: usize,
    pub payload: &'a [u8],
    pub cell_bits: u8,
    pub flag: u8,
    pub child0: View<'a>,
    pub child1: View<'a>,
}
