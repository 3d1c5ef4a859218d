//! A state has one spelling, and a blob is one state's.

ghost use Rattle.session_blob.specs.Laws.{StatesAreReadAgain, BlobsAreSpelled, RefusedBlobsAreNone};

/// Says that the bytes of a state are read as that state, so that no two states have the same bytes;
/// that bytes which are read as a state are that state's; and that refused bytes are no state's.
pub fn a_state_has_one_spelling()
    ensures again { StatesAreReadAgain }
    ensures spelled { BlobsAreSpelled }
    ensures refused { RefusedBlobsAreNone }
{}
