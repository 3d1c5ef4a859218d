//! Commands.

use crate::answer::Past;
use crate::op::Op;

/// What a store is asked.
#[derive(Debug, Drop)]
pub enum StoreCommand {
    /// Does an operation.
    Single(Op),
    /// Answers an operation as it would be behind those of a transaction. The store doesn't change.
    Try { past: Past, op: Op },
    /// Does the operations of a transaction, where each is answered as it was then.
    Commit { past: Past },
}
