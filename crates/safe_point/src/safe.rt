//! The safe point.

ghost use Rattle.std.specs.Prelude.{◌≡◌, ◌==◌, ◌&&◌, ◌||◌, ℕ, List, length};
ghost use Rattle.pgw_frames.specs.Frames.{render};
ghost use Rattle.pgw_frames.specs.declared.frame.Frame.{Frame as Message};
ghost use Rattle.pgw_messages.specs.Tags.{copy_done, copy_fail};
ghost use Rattle.session_model.specs.Tags.{is_ask as is_ask_tag};
ghost use Rattle.session_model.specs.SafePoint.{safe};
ghost use Rattle.processor_core.specs.Tallies.{request_tally, response_tally};
ghost use Rattle.safe_point.specs.Counted.{are_safe};

use pgw_messages::tags;
use processor_core::{RequestTally, ResponseTally};

/// Query or Sync.
fn is_ask(tag: u8) -> bool
    ensures { result ≡ is_ask_tag tag }
{
    tag == tags::QUERY || tag == tags::SYNC
}

/// Query, Sync, CopyDone or CopyFail: a client may be at rest behind it.
fn may_be_last(tag: u8) -> bool
    ensures { result ≡ (is_ask_tag tag || (tag == copy_done) || (tag == copy_fail)) }
{
    is_ask(tag) || tag == tags::COPY_DONE || tag == tags::COPY_FAIL
}

fn counts_allow(q: &RequestTally, r: &ResponseTally) -> bool
    ensures { result ≡ are_safe q.now r.now }
{
    may_be_last(q.last)
        && is_ask(q.last_plain)
        && q.qs == r.zs
        && r.last == tags::READY_FOR_QUERY
        && q.qs < u64::MAX
        && q.at_boundary
        && r.empty
}

/// Whether the session may be moved: each Query and Sync of the client was answered by a ReadyForQuery,
/// these stand last on both sides but for the end of a copy, no message is handed out in part and
/// nothing is held. False once a count has come to its end at 2^64 - 1, and where nothing was sent.
pub fn is_safe(q: &RequestTally, r: &ResponseTally) -> bool
    ensures counts { result ≡ are_safe q.now r.now }
    ensures messages { (sent got : List Message) (fed : List ℕ) → q.now ≡ request_tally sent → r.now ≡ response_tally fed got → result ≡ (safe sent got && (length fed == length (render got))) }
{
    counts_allow(q, r)
}
