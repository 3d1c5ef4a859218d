//! What a schedule is made from.

ghost use Rattle.std.specs.Prelude.{◌≡◌, ◌≢◌, ◌≤◌, ◌<◌, ◌^◌, ℕ, MatchOption};
ghost use Rattle.std.specs.Fmt.{decimal};
ghost use Rattle.proxy_replay.specs.Generations.{IsGen, IsNoGen};

use crate::words::is_word;
use itoa::Buffer;
use pgw_frames::Text;

/// The number of a generated schedule, and how many messages it has.
#[derive(Clone, Copy)]
pub(crate) struct Generation {
    pub number: u64,
    /// 1 to 100,000.
    pub messages: u32,
}

/// A number in decimal, without a sign or a leading zero.
fn number_of(word: &Text) -> Option<u64>
    ensures { MatchOption result ((n : ℕ) → n < 2 ^ 64 → word.now ≢ decimal n) (λ n. word.now ≡ decimal n) }
{
    let text = word.as_str();
    let Ok(n) = text.parse::<u64>() else {
        return None;
    };
    let mut buffer = Buffer::new();
    if buffer.format(n) == text {
        Some(n)
    } else {
        None
    }
}

/// How many messages a word asks for.
fn messages_of(word: &Text) -> Option<u32>
    ensures { MatchOption result ((n : ℕ) → 1 ≤ n → n ≤ 100000 → word.now ≢ decimal n) (λ n. (word.now ≡ decimal n) × (1 ≤ n) × (n ≤ 100000)) }
{
    let n = number_of(word)?;
    if 1 <= n && n <= 100_000 {
        Some(n as u32)
    } else {
        None
    }
}

/// What the words ask for, where they are `gen`, a number and a count.
pub(crate) fn generation_of(words: &[Text]) -> Option<Generation>
    ensures { MatchOption result (IsNoGen words.now) (λ g. IsGen words.now g.number g.messages) }
{
    let [word, number, messages] = words else {
        return None;
    };
    if !is_word(word, "gen") {
        return None;
    }
    let number = number_of(number)?;
    let messages = messages_of(messages)?;
    Some(Generation { number, messages })
}
