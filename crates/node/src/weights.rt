// The weight of a node: its payload length and the weights of its children.
ghost use Rattle.std.specs.Prelude.{◌≡◌, ℕ, ◌+◌, ◌≤◌, List, ◌++◌, length, take};
ghost use Rattle.node.specs.Nodes.{Node, weight, flat, height, Fit};
ghost use Rattle.node.specs.Reading.{payload_read, after_payload, after_node, weight_read};

use crate::bodies::{Body, after_node};
use crate::heads::Header;
use crate::slices::up_to;

// Of the node at the front of the bytes, with at most that many levels below it. Where nothing stands it is 0.
#[cycle(weigh_weigh_children)]
pub fn weigh(bytes: &[u8], levels: u32) -> usize
    ensures value { result ≡ weight_read levels bytes.now }
    ensures within { result ≤ length bytes.now }
    ensures back { (n : Node) (rest : List ℕ) → Fit n → height n ≤ levels → bytes.now ≡ flat n ++ rest → result ≡ weight n }
{
    let Some(header) = Header::read(bytes) else {
        return 0;
    };
    let body = own_body(bytes, header.whole as usize);
    let own = body.payload.len();
    if levels == 0 || body.children.is_empty() {
        return own;
    }
    own + weigh_children(body.children, levels - 1)
}

// Child 1 begins where child 0 ends.
#[cycle(weigh_weigh_children)]
fn weigh_children(bytes: &[u8], levels: u32) -> usize
    ensures { result ≡ weight_read levels bytes.now + weight_read levels (after_node bytes.now) }
{
    weigh(bytes, levels) + weigh(after_node(bytes), levels)
}

// What follows the head within the whole length.
fn own_body(bytes: &[u8], whole: usize) -> Body<'_>
    ensures payload { result.payload.now ≡ payload_read (take whole bytes.now) }
    ensures children { result.children.now ≡ after_payload (take whole bytes.now) }
{
    Body::read(up_to(bytes, whole))
}
