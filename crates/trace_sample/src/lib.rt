//! One trace over the tally that fits a call and is honest, so that what is proved of such traces is about some.
//!
//! A client's Query is answered, the session is moved, a second Query is answered by the pod to which it moved, and the
//! client takes leave. All that the session says was given to the client. Definitions and one law alone.
#![tactic(auto)]

ghost use Rattle.trace_sample.specs.Sample.{SampleStands};

/// There is a trace with a move that fits a call and is honest, and its client was given all that the session says.
pub fn a_trace_can_fit_and_be_honest()
    ensures { SampleStands }
{}
