//! What may happen to a world, and where it may stand.

use pgw_frames::Bytes;
use session_model::TransferKey;
use transfer_stages::Cut;

/// One line of a schedule.
#[derive(Debug, Drop)]
pub enum Event<C> {
    /// The client gives these bytes, 1 to 4,096.
    Give(Bytes),
    /// The client gives no more.
    Eof,
    /// Up to so many further bytes of the client reach the request side.
    Read(u32),
    /// The request side hands out a message and sends it to the pod.
    Forward,
    /// Up to so many further bytes reach the pod.
    Deliver(u32),
    /// The pod takes a message that was delivered whole.
    Pod,
    /// Up to so many further bytes of the pod reach the response side.
    Back(u32),
    /// The response side hands out a message to the client.
    Pass,
    /// Another client steps the store.
    Other(C),
    /// The session is asked to stop.
    Stop,
    /// The request side is suspended.
    Park,
    /// The response side is suspended.
    Hold,
    /// A transfer begins, where it is safe.
    Start(TransferKey),
    /// The transfer takes one step.
    Move,
    /// Up to so many further bytes reach the new pod.
    DeliverNew(u32),
    /// The new pod takes a message that was delivered whole.
    PodNew,
    /// The current link is cut, with at most so many bytes left to be read.
    Cut(u32),
    /// The new link is cut, with at most so many bytes left to be read.
    CutNew(u32),
    /// The next dial fails.
    NoDial,
}

/// Why a world was closed.
#[derive(Debug, Drop)]
pub enum Close {
    /// A Terminate was forwarded, or the client ended between messages.
    Bye,
    /// The client ended inside a message.
    ClientCut,
    /// A length of the client begins no message.
    BadClient(u32),
    /// The current link was cut, and all that it held was read.
    PodEnded,
    /// A message was to be sent on a link that was cut.
    PodWrite,
    /// The old link failed inside a transfer.
    ExchangeCut(Cut),
}

/// Where a world stands. A closed one stays closed.
#[derive(Debug, Drop)]
pub enum Phase {
    Running,
    Stop,
    /// Stopping, with the request side suspended.
    Parked,
    /// A transfer is under way.
    Exchange,
    Closed(Close),
}
