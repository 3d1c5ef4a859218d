//! What holds of every connection.

ghost use Rattle.pod_conn.specs.Growing.{RepliesGrow};

use session_model::Session;

/// Says of every client's bytes that what a pod writes for them goes on when further bytes and further answers of the
/// store come.
pub fn replies_only_grow<T: Session>()
    ensures { RepliesGrow T.kind }
{}
