// The tree of nodes that a column was bound to, walked over its bytes.
#![tactic(auto)]

pub mod texts;

ghost use Rattle.std.specs.Prelude.{◌≡◌, ℕ, ◌+◌, ◌^◌, ◌<◌, ◌≤◌, List, ◌++◌, length, take, IfOk, OnOk};
ghost use Rattle.node.specs.Nodes.{Node, flat, height, Fit};
ghost use Rattle.node.specs.Reading.{payload_read, after_payload, own_bytes};
ghost use Rattle.tree.specs.Trees.{preorder, walked, children_walked};

use node::bodies::{Body, after_node};
use node::heads::{HEAD_SIZE, Header};
use node::slices::up_to;
use std::alloc::{AllocError, Global};

// A node of a tree: how deep it stands, where its bytes begin, and its header.
#[derive(Clone, Copy)]
pub struct Entry {
    pub level: u32,
    pub at: usize,
    pub header: Header,
}

// The node at the front of the bytes and the nodes below it, at most that many levels of them, in the order of their bytes.
// Safe on any bytes: of those that are no node's it lists what can be read as headers.
pub fn entries(heap: Global, bytes: &[u8], levels: u32) -> Result<Vec<Entry>, AllocError>
    ensures value { IfOk result (λ v. v.items ≡ walked levels 0 0 bytes.now) }
    ensures back { (n : Node) (rest : List ℕ) → Fit n → height n ≤ levels → bytes.now ≡ flat n ++ rest → IfOk result (λ v. v.items ≡ preorder 0 0 n) }
{
    let mut out = Vec::new(heap);
    walk(bytes, 0, 0, levels, &mut out)?;
    Ok(out)
}

// Lists the node that begins at `at` and those below it.
#[cycle(walk_walk_children)]
fn walk(
    bytes: &[u8],
    at: usize,
    level: u32,
    levels: u32,
    out: &mut Vec<Entry>,
) -> Result<(), AllocError>
    requires deep { level + levels < 2 ^ 32 }
    requires room { at + length bytes.now < 2 ^ 64 }
    ensures { OnOk result (out.new.items ≡ out.old.items ++ walked levels level at bytes.now) }
{
    let Some(header) = Header::read(bytes) else {
        return Ok(());
    };
    out.push(Entry { level, at, header })?;
    if levels == 0 {
        return Ok(());
    }
    let body = own_body(bytes, header.whole as usize);
    let start = at + HEAD_SIZE + body.payload.len();
    walk_children(body.children, start, level + 1, levels - 1, out)
}

// Child 1 begins where child 0 ends.
#[cycle(walk_walk_children)]
fn walk_children(
    bytes: &[u8],
    at: usize,
    level: u32,
    levels: u32,
    out: &mut Vec<Entry>,
) -> Result<(), AllocError>
    requires deep { level + levels < 2 ^ 32 }
    requires room { at + length bytes.now < 2 ^ 64 }
    ensures { OnOk result (out.new.items ≡ out.old.items ++ children_walked levels level at bytes.now) }
{
    walk(bytes, at, level, levels, out)?;
    let rest = after_node(bytes);
    walk(rest, at + (bytes.len() - rest.len()), level, levels, out)
}

// What follows the head within the whole length.
fn own_body(bytes: &[u8], whole: usize) -> Body<'_>
    ensures payload { result.payload.now ≡ payload_read (take whole bytes.now) }
    ensures children { result.children.now ≡ after_payload (take whole bytes.now) }
{
    Body::read(up_to(bytes, whole))
}
