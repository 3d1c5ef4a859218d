//! What a seat knows. No value of these types is made: contracts speak of them.
use std::collections::LinkedList;

/// A call in a history: its ticket, its command and the reply that it got.
pub struct Entry<C, R> {
    pub ticket: u64,
    pub command: C,
    pub reply: R,
}

/// How far a seat's call has come.
pub enum Role {
    /// The seat was joined into another one.
    Spent,
    Idle,
    /// It drew this ticket.
    Waiting(u64),
    /// Its ticket is served.
    Turn(u64),
}

/// What a seat knows of its desk.
pub struct View<C, R> {
    pub role: Role,
    /// How many entries the journal takes.
    pub most: u64,
    /// The ticket that was drawn last.
    pub last: u64,
    pub seen: LinkedList<Entry<C, R>>,
    pub own: LinkedList<Entry<C, R>>,
    /// The shorter history of a join, until it was compared with the longer one.
    pub met: LinkedList<Entry<C, R>>,
}
