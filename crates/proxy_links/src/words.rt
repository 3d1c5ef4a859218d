//! Random words.

ghost use Rattle.std.specs.Prelude.{ℕ, List, [], ◌∷◌, Option};
ghost use Rattle.proxy_links.specs.Told.{Grows};

/// A supply of words. Contracts see the list of the words that it gave, where it is told; that they are
/// hard to guess is in no contract.
pub trait Words {
    ghost given: { Self → Option (List ℕ) };

    /// A word that was not given before, as far as chance can say.
    fn next(&mut self) -> u64
        ensures { Grows (given self.old) (given self.new) (result ∷ []) };
}
