//! Moments.

ghost use Rattle.std.specs.Prelude.{ℕ, List, [], ◌∷◌, Option};
ghost use Rattle.proxy_links.specs.Told.{Grows};

/// A clock. Contracts see the list of the moments that it gave, where it is told.
pub trait Clock {
    ghost given: { Self → Option (List ℕ) };

    /// The moment now, in whole seconds.
    fn now(&mut self) -> u64
        ensures { Grows (given self.old) (given self.new) (result ∷ []) };
}
