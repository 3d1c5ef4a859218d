//! Links to pods.

ghost use Rattle.std.specs.Prelude.{◌≡◌, ◌≤◌};
ghost use Rattle.proxy_links.specs.Links.{Links, Dials, HangsUp};

use proxy_outside::{Place, Sink, Source};

/// A dial, and whether a link came.
#[derive(Clone, Copy, Debug, PartialEq, Eq)]
pub struct Dial {
    pub place: Place,
    pub came: bool,
}

/// What a dial gave.
#[derive(Drop)]
pub enum Dialed<T, R> {
    /// The two halves of a link to the pod, both with the link's number.
    Link(T, R),
    /// There is none, and the dialer's faults rose.
    Failed,
}

/// A way to open links. Contracts see its dials and the records of the links that were hung up, each list
/// where it is told, how many links are open still, its faults, and the counts of the link that was hung up
/// last.
pub trait Dialer {
    type Tx: Sink + Send + Drop;

    type Rx: Source + Send + Drop;

    ghost links: { Self → Links };

    /// Opens a link to the pod at this place. The room for its record is made here.
    fn dial(&mut self, at: Place) -> Dialed<Self::Tx, Self::Rx>
        ensures { Dials Self.Tx.target Self.Rx.origin result (links self.old) (links self.new) at };

    /// Closes a link, and keeps its record. It takes no memory.
    fn hang_up(&mut self, tx: Self::Tx, rx: Self::Rx)
        requires same { (Self.Tx.target tx).link ≡ (Self.Rx.origin rx).link }
        requires open { 1 ≤ (links self.old).live }
        ensures { HangsUp (links self.old) (links self.new) (Self.Tx.target tx) (Self.Rx.origin rx) };
}
