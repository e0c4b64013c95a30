// The schemes whose answer is deferred: eight places.
use scheme::bounded::Bounded;
use scheme::estimate::DeferredEstimate;

// A scheme by its number in the bank, and what it waits for.
#[derive(Clone, Copy)]
pub struct Slot {
    pub scheme: usize,
    pub estimate: DeferredEstimate,
}

// In bank order.
pub type Table = Bounded<Slot, 8>;

// What lies in a free place.
pub const FREE: Slot = Slot {
    scheme: 0,
    estimate: DeferredEstimate::Sample,
};
