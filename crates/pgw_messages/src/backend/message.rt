//! The messages of a server.

use crate::backend::auth::AuthMsg;
use crate::backend::columns::Columns;
use crate::backend::copy::CopyMsg;
use crate::backend::fields::Fields;
use crate::backend::notify::NotifyMsg;
use crate::numbers::Types;
use crate::params::Pair;
use crate::pod_key::PodKey;
use crate::values::Row;
use pgw_frames::Text;

/// A message of a server.
#[derive(Debug, Drop)]
pub enum BackMsg {
    Auth(AuthMsg),
    /// ParameterStatus.
    Status(Pair),
    /// BackendKeyData.
    Key(PodKey),
    /// ReadyForQuery, with `I` outside a transaction, `T` inside one, and `E` inside a failed one.
    Ready(u8),
    /// RowDescription.
    Columns(Columns),
    /// DataRow.
    Row(Row),
    /// CommandComplete, with the command's tag.
    Complete(Text),
    /// EmptyQueryResponse.
    Empty,
    /// ErrorResponse.
    Fault(Fields),
    /// NoticeResponse.
    Notice(Fields),
    /// NotificationResponse.
    Notify(NotifyMsg),
    /// ParseComplete.
    ParseDone,
    /// BindComplete.
    BindDone,
    /// CloseComplete.
    CloseDone,
    /// ParameterDescription.
    ParamTypes(Types),
    /// NoData.
    NoRows,
    /// PortalSuspended.
    Suspended,
    /// CopyInResponse.
    CopyIn(CopyMsg),
}
