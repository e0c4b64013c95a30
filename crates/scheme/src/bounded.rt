// A list of few items that needs no heap.
ghost use Rattle.std.specs.Prelude.{◌≡◌, ◌<◌, ◌≤◌, [], ◌∷◌, ◌++◌, length};

use std::alloc::AllocError;

// At most `N` items, which lie in the value itself; a filler stands in each free place.
// Not the library's `ArrayVec`: that one is not `Copy`, which contexts are, and wants items with a `Default`. No `Model`: what holds a
// struct with one is not copied when it is passed by value, as a context is.
pub struct Bounded<T, const N: usize> {
    pub places: [T; N],
    pub len: usize,
    ghost few: { len ≤ N },
    ghost full: { length places ≡ N },
}

impl<T: Clone, const N: usize> Clone for Bounded<T, N> {
    ghost is_clone = { λ x y. ⟦<[T; N] as Clone>⟧.is_clone x.places y.places × (y.len ≡ x.len) };

    ghost is_infallible = { λ x. ⟦<[T; N] as Clone>⟧.is_infallible x.places };

    fn clone(&self) -> Result<Bounded<T, N>, AllocError> {
        Ok(Bounded {
            places: self.places.clone()?,
            len: self.len,
        })
    }
}

impl<T: Copy, const N: usize> Copy for Bounded<T, N> {}

impl<T: Copy, const N: usize> Bounded<T, N> {
    ghost use Rattle.scheme.specs.Bounded.{items};

    // No item yet.
    pub fn new(filler: T) -> Self
        ensures { items result ≡ [] }
    {
        Bounded {
            places: [filler; N],
            len: 0,
        }
    }

    pub fn len(&self) -> usize
        ensures items { result ≡ length (items self.now) }
        ensures within { result ≤ N }
    {
        self.as_slice().len()
    }

    pub fn as_slice(&self) -> &[T]
        ensures items { result.now ≡ items self.now }
        ensures within { length (items self.now) ≤ N }
    {
        &self.places[..self.len]
    }

    // One more item, at the end.
    pub fn push(&mut self, item: T)
        requires { length (items self.old) < N }
        ensures { items self.new ≡ items self.old ++ item ∷ [] }
    {
        self.places[self.len] = item;
        self.len += 1;
    }
}
