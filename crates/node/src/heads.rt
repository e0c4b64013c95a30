// A node's head.
ghost use Rattle.std.specs.Prelude.{◌≡◌, ℕ, ◌+◌, ◌≤◌, max, List, ◌++◌, length, Some};
ghost use Rattle.node.specs.Nodes.{Node, head_size, head_bytes, flat, Fit};
ghost use Rattle.node.specs.Reading.{number4, header_at, header_read, header_of};
ghost use Rattle.packing.specs.Packing.{written};

use packing::{get, put};

pub const HEAD_SIZE: usize = 16;

// The bytes as they are stored: a reader meets any, and only then asks which form and kind they name.
#[derive(Clone, Copy)]
pub struct Head {
    pub form: u8,
    pub kind: u8,
    pub cell_bits: u8,
    pub flag: u8,
    pub rows: u32,
}

impl Head {
    // Writes the head to the front of `out`, with the payload length and the whole length.
    pub fn write(&self, payload: u32, whole: u32, out: &mut [u8])
        requires room { head_size ≤ length out.old }
        ensures { out.new ≡ written (head_bytes self.now payload whole) out.old }
    {
        out[..4].copy_from_slice(&[self.form, self.kind, self.cell_bits, self.flag]);
        put(out, 4, 4, u64::from(self.rows));
        put(out, 8, 4, u64::from(payload));
        put(out, 12, 4, u64::from(whole));
    }
}

// A head with the lengths that stand beside it.
#[derive(Clone, Copy)]
pub struct Header {
    pub head: Head,
    pub payload: u32,
    pub whole: u32,
}

impl Header {
    // The header at the front of the bytes; none where they are fewer.
    pub fn read(bytes: &[u8]) -> Option<Header>
        ensures value { result ≡ header_read bytes.now }
        ensures back { (n : Node) (rest : List ℕ) → Fit n → bytes.now ≡ flat n ++ rest → result ≡ Some (header_of n) }
    {
        if bytes.len() < HEAD_SIZE {
            return None;
        }
        Some(Header::at_front(bytes))
    }

    fn at_front(bytes: &[u8]) -> Header
        requires long { head_size ≤ length bytes.now }
        ensures { result ≡ header_at bytes.now }
    {
        let head = Head {
            form: bytes[0],
            kind: bytes[1],
            cell_bits: bytes[2],
            flag: bytes[3],
            rows: number4(bytes, 4),
        };
        Header {
            head,
            payload: number4(bytes, 8),
            whole: number4(bytes, 12),
        }
    }

    // Where the node ends that it heads; it has a head at least.
    pub(crate) fn end(&self) -> usize
        ensures { result ≡ max head_size self.now.whole }
    {
        HEAD_SIZE.max(self.whole as usize)
    }
}

// The number in the 4 bytes from `at` on.
fn number4(bytes: &[u8], at: usize) -> u32
    requires within { at + 4 ≤ length bytes.now }
    ensures { result ≡ number4 at bytes.now }
{
    get(bytes, at, 4) as u32
}
