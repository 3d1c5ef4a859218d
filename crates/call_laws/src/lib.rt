//! What the clause of the top call comes to: a session that ran to its end has a trace that fits its call.
//!
//! What was taken of the client and given to it, the records of all links, the asks of the hub, the dials and the drawn words
//! are those of one trace, whose rounds are the runs of both legs. These are laws alone: nothing here runs. A call that ends
//! in its opening is the subject of `session_opening`.
#![tactic(auto)]

mod laws;

pub use laws::sessions_fit;
