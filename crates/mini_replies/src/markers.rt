//! Messages that say that something was done.

ghost use Rattle.std.specs.Prelude.{◌≡◌, IfOk};
ghost use Rattle.pgw_messages.specs.Backend.{back_frame};
ghost use Rattle.pgw_messages.specs.declared.backend.message.BackMsg.TheVariants as back;
ghost use Rattle.mini_kind.specs.Replies as reply;

use pgw_frames::{Frame, NoMemory};
use pgw_messages::BackMsg;
use std::alloc::Global;

/// A ParseComplete.
pub fn parse_complete(alloc: Global) -> Result<Frame, NoMemory>
    ensures { IfOk result (λ f. f ≡ back_frame back.ParseDone) }
{
    BackMsg::ParseDone.into_frame(alloc)
}

/// A BindComplete.
pub fn bind_complete(alloc: Global) -> Result<Frame, NoMemory>
    ensures { IfOk result (λ f. f ≡ back_frame back.BindDone) }
{
    BackMsg::BindDone.into_frame(alloc)
}

/// A CloseComplete.
pub fn close_complete(alloc: Global) -> Result<Frame, NoMemory>
    ensures { IfOk result (λ f. f ≡ back_frame back.CloseDone) }
{
    BackMsg::CloseDone.into_frame(alloc)
}

/// A NoData: a statement that gives no rows.
pub fn no_rows(alloc: Global) -> Result<Frame, NoMemory>
    ensures { IfOk result (λ f. f ≡ reply.no_rows) }
{
    BackMsg::NoRows.into_frame(alloc)
}

/// An EmptyQueryResponse.
pub fn empty_query(alloc: Global) -> Result<Frame, NoMemory>
    ensures { IfOk result (λ f. f ≡ back_frame back.Empty) }
{
    BackMsg::Empty.into_frame(alloc)
}
