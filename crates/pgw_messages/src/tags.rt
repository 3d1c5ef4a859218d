//! The types of messages, by the manual's names. PostgreSQL manual, "Message Formats".

// Of a client.

pub const QUERY: u8 = b'Q';

pub const PARSE: u8 = b'P';

pub const BIND: u8 = b'B';

pub const DESCRIBE: u8 = b'D';

pub const EXECUTE: u8 = b'E';

pub const SYNC: u8 = b'S';

pub const FLUSH: u8 = b'H';

pub const CLOSE: u8 = b'C';

pub const FUNCTION_CALL: u8 = b'F';

pub const COPY_DATA: u8 = b'd';

pub const COPY_DONE: u8 = b'c';

pub const COPY_FAIL: u8 = b'f';
/// PasswordMessage, and with it SASLInitialResponse, SASLResponse and GSSResponse.
pub const PASSWORD_MESSAGE: u8 = b'p';

pub const TERMINATE: u8 = b'X';

// Of a server.

/// AuthenticationOk, and each other step of authentication.
pub const AUTHENTICATION: u8 = b'R';

pub const PARAMETER_STATUS: u8 = b'S';

pub const BACKEND_KEY_DATA: u8 = b'K';

pub const READY_FOR_QUERY: u8 = b'Z';

pub const ROW_DESCRIPTION: u8 = b'T';

pub const DATA_ROW: u8 = b'D';

pub const COMMAND_COMPLETE: u8 = b'C';

pub const EMPTY_QUERY_RESPONSE: u8 = b'I';

pub const ERROR_RESPONSE: u8 = b'E';

pub const NOTICE_RESPONSE: u8 = b'N';

pub const NOTIFICATION_RESPONSE: u8 = b'A';

pub const PARSE_COMPLETE: u8 = b'1';

pub const BIND_COMPLETE: u8 = b'2';

pub const CLOSE_COMPLETE: u8 = b'3';

pub const PARAMETER_DESCRIPTION: u8 = b't';

pub const NO_DATA: u8 = b'n';

pub const PORTAL_SUSPENDED: u8 = b's';

pub const COPY_IN_RESPONSE: u8 = b'G';
