// Numbers as bytes, lowest byte first, and cells packed at k bits.
#![tactic(auto)]

ghost use Rattle.std.specs.Prelude.{◌≡◌, ℕ, ◌+◌, ◌*◌, ◌/◌, ◌%◌, ◌^◌, ◌<◌, ◌≤◌, List, ◌++◌, length, take, drop};
ghost use Rattle.packing.specs.Packing.{joined, digits, packed_len, packed, unpacked, low_bits, Below, written, written_at, bit_length};

// A number's bytes, the lowest first. A function, since `digits` is then the word for its result in the proof of `put`.
fn low_first(v: u64) -> [u8; 8]
    ensures { result ≡ digits 256 8 v }
{
    v.to_le_bytes()
}

// Writes the `len` lowest bytes of `v` from `at` on; `get` gives `v` back, where it has no more.
pub fn put(out: &mut [u8], at: usize, len: usize, v: u64)
    requires few { len ≤ 8 }
    requires room { at + len ≤ length out.old }
    ensures bytes { out.new ≡ written_at at (digits 256 len v) out.old }
    ensures back { v < 256 ^ len → joined 256 (take len (drop at out.new)) ≡ v }
{
    out[at..at + len].copy_from_slice(&low_first(v)[..len]);
}

// The number in the `len` bytes from `at` on.
pub fn get(src: &[u8], at: usize, len: usize) -> u64
    requires few { len ≤ 8 }
    requires within { at + len ≤ length src.now }
    ensures value { result ≡ joined 256 (take len (drop at src.now)) }
    ensures small { result < 256 ^ len }
{
    let mut bytes = [0; 8];
    bytes[..len].copy_from_slice(&src[at..at + len]);
    u64::from_le_bytes(bytes)
}

// The number in the 8 bytes from `at` on, 0 for those past the end.
fn get_word(src: &[u8], at: usize) -> u64
    ensures { result ≡ joined 256 (take 8 (drop at src.now)) }
{
    let at = at.min(src.len());
    let left = src.len() - at;
    // Two calls: of a length that it knows the compiler makes one load. By one call, `left.min(8)`, `unpack` took a sixth more instructions.
    if left < 8 {
        get(src, at, left)
    } else {
        get(src, at, 8)
    }
}

// The low k bits of `v`. Bit counts stay numbers with the clause `wide`: a type for them would be made at each call and taken apart in each body.
pub fn low_bits(v: u128, k: u32) -> u64
    requires wide { k ≤ 64 }
    ensures { result ≡ v % 2 ^ k }
{
    (v % (1u128 << k)) as u64
}

// Bytes that n cells of k bits take.
pub fn packed_len(k: u32, n: usize) -> usize
    requires wide { k ≤ 64 }
    requires few { n ≤ 2 ^ 32 }
    ensures { result ≡ packed_len k n }
{
    (n * k as usize).div_ceil(8)
}

// The number with `v` above the `fill` bits of `acc`, parted at bit `s`. Not as one u128: its shifts, by counts that may reach 64, took half
// as long again for each cell.
fn split_at(acc: u64, fill: u32, v: u64, s: u32) -> (u64, u64)
    requires small { acc < 2 ^ fill }
    requires above { fill < s }
    requires wide { s ≤ 64 }
    ensures low { result.0 ≡ (acc + v * 2 ^ fill) % 2 ^ s }
    ensures high { result.1 ≡ (acc + v * 2 ^ fill) / 2 ^ s }
{
    let low = low_bits(u128::from(acc.wrapping_add(v << fill)), s);
    // two shifts, as one may be by 64
    let high = v >> 1 >> (s - fill - 1);
    (low, high)
}

// Packs the low k bits of each cell to the front of `out`; the bytes after them stay.
pub fn pack(cells: &[u64], k: u32, out: &mut [u8])
    requires wide { k ≤ 64 }
    requires room { packed_len k (length cells.now) ≤ length out.old }
    ensures { out.new ≡ written (packed k (low_bits k cells.now)) out.old }
{
    // `fill` bits, to be written at `at`: a place in the bytes, which no cell's place tells
    let mut acc: u64 = 0;
    let mut fill: u32 = 0;
    let mut at: usize = 0;
    for c in cells {
        let (low, high) = split_at(acc, fill, low_bits(*c as u128, k), 64);
        fill += k;
        if fill >= 64 {
            put(out, at, 8, low);
            acc = high;
            fill -= 64;
            at += 8;
        } else {
            acc = low;
        }
    }
    put(out, at, fill.div_ceil(8) as usize, acc);
}

// Fills `cells` with cells of k bits from the front of `bytes`, 0 where they end.
pub fn unpack(bytes: &[u8], k: u32, cells: &mut [u64])
    requires wide { k ≤ 64 }
    ensures value { cells.new ≡ unpacked k (length cells.old) bytes.now }
    ensures back { (xs rest : List ℕ) → length xs ≡ length cells.old → Below (2 ^ k) xs → bytes.now ≡ packed k xs ++ rest → cells.new ≡ xs }
{
    // `ready` bits, from before `pos` in the bytes, that no cell has yet
    let mut acc: u64 = 0;
    let mut ready: u32 = 0;
    let mut pos: usize = 0;
    for c in cells.iter_mut() {
        if ready < k {
            let (cell, rest) = split_at(acc, ready, get_word(bytes, pos), k);
            *c = cell;
            acc = rest;
            ready += 64 - k;
            pos = pos.saturating_add(8);
        } else {
            *c = low_bits(acc as u128, k);
            acc >>= k;
            ready -= k;
        }
    }
}

// Writes the `len` lowest bytes of the words to the front of `out`; the bytes after them stay.
pub fn put_words(words: &[u64], len: usize, out: &mut [u8])
    requires enough { len ≤ 8 * length words.now }
    requires room { len ≤ length out.old }
    ensures { out.new ≡ written (digits 256 len (joined (2 ^ 64) words.now)) out.old }
{
    let whole = len / 8;
    for (i, word) in words[..whole].iter().enumerate() {
        put(out, 8 * i, 8, *word);
    }
    if len % 8 != 0 {
        put(out, 8 * whole, len % 8, words[whole]);
    }
}

// How many bits the number needs; 0 for 0.
#[tactic(auto, using(crate::proofs::Bits::leading_bits, crate::proofs::Bits::length_holds, crate::proofs::Bits::length_least))]
pub fn bit_length(n: u64) -> u32
    ensures value { result ≡ bit_length n }
    ensures holds { n < 2 ^ result }
    ensures least { (j : ℕ) → n < 2 ^ j → result ≤ j }
{
    64 - n.leading_zeros()
}
