//! The words that a schedule is made from.

ghost use Rattle.std.specs.Prelude.{◌≡◌, ◌+◌, ◌*◌, ◌^◌};
ghost use Rattle.generated_run.specs.Generated.{words_of, word, behind, key_of, behind_key};

use rand_core::utils::NextWord;
use rand_pcg::Lcg64Xsh32;
use session_model::TransferKey;
use std::marker::Model;

/// The stream of the generator.
const STREAM: u64 = 54;

/// A PCG generator of 32-bit words (XSH RR 64/32).
#[derive(Drop)]
pub struct Words {
    generator: Lcg64Xsh32,
}

impl Model for Words {
    ghost use Rattle.rand_pcg.specs.Lcg.{Lcg};

    ghost Value = { Lcg };

    ghost view = { λ w. w.generator };
}

impl Words {
    /// The words of this number.
    #[tactic(auto, unfolding(crate::specs::Generated::words_of))]
    pub fn of(number: u64) -> Words
        ensures { result ≡ words_of number }
    {
        Words {
            generator: Lcg64Xsh32::new(number, STREAM),
        }
    }

    /// The next word.
    #[tactic(auto, unfolding(crate::specs::Generated::word, crate::specs::Generated::behind))]
    pub(crate) fn draw(&mut self) -> u32
        ensures value { result ≡ word self.old }
        ensures behind { self.new ≡ behind self.old }
    {
        self.generator.next_word()
    }

    /// A number of two words, the high one first.
    fn draw_long(&mut self) -> u64
        ensures value { result ≡ word self.old * 2 ^ 32 + word (behind self.old) }
        ensures behind { self.new ≡ behind (behind self.old) }
    {
        let high = self.draw();
        let low = self.draw();
        (u64::from(high) << 32) + u64::from(low)
    }

    /// A key of four words.
    #[tactic(auto, unfolding(crate::specs::Generated::key_of, crate::specs::Generated::behind_key))]
    pub(crate) fn draw_key(&mut self) -> TransferKey
        ensures value { result ≡ key_of self.old }
        ensures behind { self.new ≡ behind_key self.old }
    {
        let high = self.draw_long();
        let low = self.draw_long();
        TransferKey { high, low }
    }
}
