//! What holds of the frames of every byte string.

ghost use Rattle.std.specs.Prelude.{◌≡◌, ℕ, List, ◌++◌};
ghost use Rattle.std.specs.List.{AllByRecursion};
ghost use Rattle.pgw_frames.specs.Frames.{front, Malformed, frames, rest, bad, bad_of_front, render, IsGood, IsBytes, Begins};
ghost use Rattle.pgw_frames.specs.declared.frame.Frame.{Frame};

/// The frames of bytes are the longest list of frames with good lengths whose bytes stand at the front,
/// and these bytes with what is left are the bytes. What begins no frame stands behind them.
pub fn frames_are_the_longest()
    ensures whole { (b : List ℕ) → IsBytes b → render (frames b) ++ rest b ≡ b }
    ensures good { (b : List ℕ) → AllByRecursion IsGood (frames b) }
    ensures longest { (b more : List ℕ) (fs : List Frame) → AllByRecursion IsGood fs → b ≡ render fs ++ more → Begins fs (frames b) }
    ensures bad { (b : List ℕ) → bad b ≡ bad_of_front (front (rest b)) }
{}

/// A length that begins no frame begins none whatever follows.
pub fn bad_length_stays()
    ensures { (b more : List ℕ) (n : ℕ) → front b ≡ Malformed n → front (b ++ more) ≡ Malformed n }
{}
