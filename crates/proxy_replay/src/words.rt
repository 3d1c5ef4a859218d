//! The words of a command line.

ghost use Rattle.std.specs.Prelude.{◌≡◌, ◌↔◌, IsTrue, codes};
ghost use Rattle.proxy_replay.specs.Replaying.{IsRun};

use pgw_frames::Text;

pub(crate) fn is_word(word: &Text, wanted: &str) -> bool
    ensures { IsTrue result ↔ (word.now ≡ wanted.now) }
{
    word.as_str() == wanted
}

/// Whether these two words ask for a run over a tally session.
fn is_tally_run(word: &Text, kind: &Text) -> bool
    ensures { IsTrue result ↔ ((word.now ≡ codes "run") × (kind.now ≡ codes "tally")) }
{
    is_word(word, "run") && is_word(kind, "tally")
}

/// Whether the words ask for a run.
pub(crate) fn is_run(words: &[Text]) -> bool
    ensures { IsTrue result ↔ IsRun words.now }
{
    match words {
        [word] => is_word(word, "run"),
        [word, kind] => is_tally_run(word, kind),
        _ => false,
    }
}
