//! What clients and pods say.

/// User `koala`, database `happy-koala-7.db`: tenant 7.
pub(crate) const STARTUP: &[u8] =
    b"\0\0\0\x2e\0\x03\0\0user\0koala\0database\0happy-koala-7.db\0\0";

/// The same and a Query, and then a second one and a Terminate.
pub(crate) const STARTUP_AND_QUERY: &[u8] =
    b"\0\0\0\x2e\0\x03\0\0user\0koala\0database\0happy-koala-7.db\0\0Q\0\0\0\x061\0";

pub(crate) const QUERY: &[u8] = b"Q\0\0\0\x062\0";

pub(crate) const TERMINATE: &[u8] = b"X\0\0\0\x04";

/// The same and two Queries and a Terminate.
pub(crate) const STARTUP_AND_QUERIES: &[u8] =
    b"\0\0\0\x2e\0\x03\0\0user\0koala\0database\0happy-koala-7.db\0\0\
    Q\0\0\0\x061\0Q\0\0\0\x062\0X\0\0\0\x04";

/// What a client hears of a tally: the greeting with its own key, and one reply, or two.
pub(crate) const HEARD_ONE: &[u8] =
    b"R\0\0\0\x08\0\0\0\0K\0\0\0\x0c\0\0\0\x01\x01\x02\x03\x04Z\0\0\0\x05I\
    C\0\0\0\x0cTALLY 1\0Z\0\0\0\x05I";

pub(crate) const HEARD_TWO: &[u8] =
    b"R\0\0\0\x08\0\0\0\0K\0\0\0\x0c\0\0\0\x01\x01\x02\x03\x04Z\0\0\0\x05I\
    C\0\0\0\x0cTALLY 1\0Z\0\0\0\x05IC\0\0\0\x0cTALLY 2\0Z\0\0\0\x05I";
