//! Random words.

ghost use Rattle.std.specs.Prelude.{◌≡◌, ◌∷◌, [], None, IfOk};
ghost use Rattle.proxy_links.specs.Told.{Grows};
ghost use Rattle.rand_core.specs.Steps.{u64_via_u32};
ghost use Rattle.rand_chacha.specs.ChaCha.{of_seed, next_word};
ghost use Rattle.tcp_links.specs.Seeding.{IsSeeded};

use proxy_links::Words;
use rand_chacha::ChaCha20Rng;
use rand_core::SeedableRng;
use rand_core::utils::next_u64_via_u32;
use std::io::{self, Read};
use std::marker::Model;

/// The words of ChaCha20 after a seed. They are as hard to guess as the seed is.
#[derive(Drop)]
pub struct RandomWords {
    rng: ChaCha20Rng,
}

impl Model for RandomWords {
    ghost use Rattle.rand_chacha.specs.ChaCha.{ChaCha};

    ghost Value = { ChaCha };

    ghost view = { λ w. w.rng };
}

impl RandomWords {
    pub fn new(seed: [u8; 32]) -> RandomWords
        ensures { result ≡ of_seed seed }
    {
        RandomWords {
            rng: ChaCha20Rng::from_seed(seed),
        }
    }

    /// Takes the next 32 bytes of a reader, as of `/dev/urandom`, for the seed.
    pub fn from_reader<R: Read>(reader: &mut R) -> io::Result<RandomWords>
        ensures { IfOk result (λ w. IsSeeded (R.remaining reader.old) (R.remaining reader.new) w) }
    {
        let mut seed = [0; 32];
        reader.read_exact(&mut seed)?;
        Ok(RandomWords::new(seed))
    }
}

impl Words for RandomWords {
    ghost given = { λ _. None };

    /// Two words of the stream, the low half first.
    fn next(&mut self) -> u64
        ensures told { Grows None None (result ∷ []) }
        ensures word { (result, self.new) ≡ u64_via_u32 (next_word 10) self.old }
    {
        next_u64_via_u32(&mut self.rng)
    }
}
