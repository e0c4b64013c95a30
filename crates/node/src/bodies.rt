// What follows a node's head.
ghost use Rattle.std.specs.Prelude.{◌≡◌, ℕ, ◌≤◌, List, ◌++◌, length, take, drop};
ghost use Rattle.node.specs.Nodes.{Node, payload_of, children_of, flat, flats, Fit};
ghost use Rattle.node.specs.Reading.{payload_read, after_payload, after_node};

use crate::heads::{HEAD_SIZE, Header};
use crate::slices::{from, up_to};

// The payload, and what follows it: the children, then whatever follows the node.
#[derive(Clone, Copy)]
pub struct Body<'a> {
    pub payload: &'a [u8],
    pub children: &'a [u8],
}

impl<'a> Body<'a> {
    // Of the node at the front of the bytes; as much as there is.
    pub fn read(bytes: &'a [u8]) -> Body<'a>
        ensures payload { result.payload.now ≡ payload_read bytes.now }
        ensures children { result.children.now ≡ after_payload bytes.now }
        ensures back { (n : Node) (rest : List ℕ) → Fit n → bytes.now ≡ flat n ++ rest → (result.payload.now ≡ payload_of n) × (result.children.now ≡ flats (children_of n) ++ rest) }
    {
        let rest = from(bytes, HEAD_SIZE);
        match Header::read(bytes) {
            Some(header) => Body::cut(rest, header.payload as usize),
            None => Body::cut(rest, 0),
        }
    }

    fn cut(rest: &'a [u8], len: usize) -> Body<'a>
        ensures payload { result.payload.now ≡ take len rest.now }
        ensures children { result.children.now ≡ drop len rest.now }
    {
        Body {
            payload: up_to(rest, len),
            children: from(rest, len),
        }
    }
}

// What follows the node at the front of the bytes.
pub fn after_node(bytes: &[u8]) -> &[u8]
    ensures value { result.now ≡ after_node bytes.now }
    ensures within { length result.now ≤ length bytes.now }
    ensures back { (n : Node) (rest : List ℕ) → Fit n → bytes.now ≡ flat n ++ rest → result.now ≡ rest }
{
    match Header::read(bytes) {
        Some(header) => from(bytes, header.end()),
        None => from(bytes, HEAD_SIZE),
    }
}
