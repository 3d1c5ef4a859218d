//! What is written is read again.

ghost use Rattle.pgw_messages.specs.Laws.{FrontIsReadAgain, FrontCanBeWritten, BackIsReadAgain, BackCanBeWritten, ParamsAreReadAgain};

/// Says that the frame of a client's message, or of a server's, is read as that message: one whose
/// texts are UTF-8 without a zero byte, whose numbers have their width, and whose lists have a count.
pub fn messages_are_read_again()
    ensures front { FrontIsReadAgain }
    ensures back { BackIsReadAgain }
{}

/// Says that the parameters of a startup packet are read again from its bytes, where no name is empty
/// and no text has a zero byte.
pub fn params_are_read_again()
    ensures { ParamsAreReadAgain }
{}

/// Says that a message that is read has the fields with which what `write_front` and `write_back` write
/// is read again.
pub fn messages_can_be_written()
    ensures front { FrontCanBeWritten }
    ensures back { BackCanBeWritten }
{}
