// Where a column's node stands, and what its head says.
ghost use Rattle.std.specs.Prelude.{◌≡◌};
ghost use Rattle.calls.specs.Calls.{node_at, whole_in};
ghost use Rattle.binder.specs.Binders.{rows_in};
ghost use Rattle.node.specs.Reading.{header_read};

use node::bodies::after_node;
use node::heads::Header;

// The bytes from the node of that number on.
pub(crate) fn node_at(bytes: &[u8], number: usize) -> &[u8]
    ensures { result.now ≡ node_at number bytes.now }
{
    let mut rest = bytes;
    for _ in 0..number {
        rest = after_node(rest);
    }
    rest
}

// The whole length that the head at the front says; 0 where none stands.
pub(crate) fn whole_in(node: &[u8]) -> usize
    ensures { result ≡ whole_in (header_read node.now) }
{
    match Header::read(node) {
        Some(header) => header.whole as usize,
        None => 0,
    }
}

// How many rows the head at the front says that there are.
pub(crate) fn rows_in(node: &[u8]) -> Option<usize>
    ensures { result ≡ rows_in (header_read node.now) }
{
    let header = Header::read(node)?;
    Some(header.head.rows as usize)
}
