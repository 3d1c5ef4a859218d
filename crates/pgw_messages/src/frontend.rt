//! Messages of a client.

mod bind;
mod execute;
mod message;
mod parse;
mod part;
mod reading;
mod writing;

pub use bind::BindMsg;
pub use execute::ExecuteMsg;
pub use message::FrontMsg;
pub use parse::ParseMsg;
pub use part::Part;
pub use reading::read_front;
pub use writing::write_front;
