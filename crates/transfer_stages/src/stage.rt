//! How far a transfer has come.

use pgw_frames::{Bytes, Frame, Text};
use pgw_messages::{OwnedFields, PodKey};

/// Why a link was left.
#[derive(Debug, Drop)]
pub enum Cut {
    ReadFault,
    WriteFault,
    Ended,
    BadLength(u32),
    Unexpected(Frame),
    Strayed(u8),
    Late(u64),
}

/// What a transfer came to.
#[derive(Debug, Drop)]
pub enum Outcome {
    Moved(Option<PodKey>),
    Refused(Text),
    RevivalRefused(OwnedFields),
    DialFault,
    NewCut(Cut),
    OldCut(Cut),
}

/// What the row of the old pod says: a state with a token, or why there is none.
#[derive(Debug, Drop)]
pub enum Said {
    Given(Bytes, Text),
    Refuses(Text),
}

#[derive(Debug, Drop)]
pub enum Stage {
    AskOld,
    OldColumns,
    OldRow,
    OldTag(Said),
    OldReady(Said),
    /// with state and token
    Dial(Bytes, Text),
    Packet(Bytes, Text),
    /// with the state
    NewAuth(Bytes),
    /// with the state, how many ParameterStatus came, and the key
    NewStatus(Bytes, u32, Option<PodKey>),
    Restore(Bytes, Option<PodKey>),
    NewColumns(Option<PodKey>),
    NewRow(Option<PodKey>),
    NewTag(Option<PodKey>),
    NewReady(Option<PodKey>),
    Ended(Outcome),
}

/// What is to be done next.
#[derive(Clone, Copy, Debug, PartialEq, Eq)]
pub enum Want {
    SendOld,
    AwaitOld,
    Dial,
    SendNew,
    AwaitNew,
    Ended,
}
