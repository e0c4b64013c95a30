// A context, made at the root and handed down.
ghost use Rattle.std.specs.Prelude.{◌≡◌, ◌-◌, ◌<◌, ◌≤◌, true, false, [], ◌∷◌, ◌++◌, length};
ghost use Rattle.scheme.specs.Memory.{history_of};

use crate::bounded::Bounded;
use crate::ctx::CompressorContext;

impl CompressorContext {
    // At the root, with so many levels over the ground.
    pub fn new(levels: usize) -> CompressorContext
        ensures levels { result.allowed_cascading ≡ levels }
        ensures history { history_of result ≡ [] }
        ensures sample { result.is_sample ≡ false }
    {
        CompressorContext {
            allowed_cascading: levels,
            cascade_history: Bounded::new((0, 0)),
            is_sample: false,
        }
    }

    pub fn is_sample(&self) -> bool
        ensures { result ≡ self.now.is_sample }
    {
        self.is_sample
    }

    // (scheme, child) from the root down.
    pub fn cascade_history(&self) -> &[(u8, usize)]
        ensures history { result.now ≡ history_of self.now }
        ensures few { length (history_of self.now) ≤ 8 }
    {
        self.cascade_history.as_slice()
    }

    // How many schemes stand above.
    pub fn cascade_depth(&self) -> usize
        ensures depth { result ≡ length (history_of self.now) }
        ensures few { result ≤ 8 }
    {
        self.cascade_history.len()
    }

    // The same place, in a sample.
    pub fn with_sampling(self) -> CompressorContext
        ensures { result ≡ record { allowed_cascading = self.allowed_cascading; cascade_history = self.cascade_history; is_sample = true } }
    {
        CompressorContext {
            is_sample: true,
            ..self
        }
    }

    // The place of a scheme's child, a level further down.
    pub fn descend_with_scheme(self, id: u8, child: usize) -> CompressorContext
        requires levels { 0 < self.allowed_cascading }
        requires few { length (history_of self) < 8 }
        ensures levels { result.allowed_cascading ≡ self.allowed_cascading - 1 }
        ensures history { history_of result ≡ history_of self ++ ((id, child) ∷ []) }
        ensures sample { result.is_sample ≡ self.is_sample }
    {
        let mut cascade_history = self.cascade_history;
        cascade_history.push((id, child));
        CompressorContext {
            allowed_cascading: self.allowed_cascading - 1,
            cascade_history,
            ..self
        }
    }
}
