//! The codes of errors.

ghost use Rattle.std.specs.Prelude.{◌≡◌};
ghost use Rattle.mini_store.specs.Codes.{digits_of, message_of};

/// Why a statement is refused. The names are those of the PostgreSQL manual, "PostgreSQL Error Codes";
/// a statement is retried where it is `SerializationFailure`.
#[derive(Clone, Copy, Debug, PartialEq, Eq)]
pub enum SqlCode {
    SyntaxError,
    UndefinedTable,
    DuplicateTable,
    DuplicateColumn,
    UndefinedColumn,
    DatatypeMismatch,
    InvalidTextRepresentation,
    BadCopyFileFormat,
    UniqueViolation,
    ProgramLimitExceeded,
    SerializationFailure,
    InFailedSqlTransaction,
    InvalidSqlStatementName,
    DuplicatePreparedStatement,
    InvalidCursorName,
    UndefinedObject,
    FeatureNotSupported,
    ProtocolViolation,
    QueryCanceled,
    InvalidParameterValue,
}

impl SqlCode {
    /// The code of five characters, and the text that goes with it.
    pub fn texts(self) -> (&'static str, &'static str)
        ensures digits { result.0.now ≡ digits_of self }
        ensures message { result.1.now ≡ message_of self }
    {
        match self {
            SqlCode::SyntaxError => ("42601", "syntax error"),
            SqlCode::UndefinedTable => ("42P01", "no such table"),
            SqlCode::DuplicateTable => ("42P07", "table exists"),
            SqlCode::DuplicateColumn => ("42701", "column named twice"),
            SqlCode::UndefinedColumn => ("42703", "no such column"),
            SqlCode::DatatypeMismatch => ("42804", "wrong kind of value"),
            SqlCode::InvalidTextRepresentation => ("22P02", "not a number"),
            SqlCode::BadCopyFileFormat => ("22P04", "bad copy line"),
            SqlCode::UniqueViolation => ("23505", "key exists"),
            SqlCode::ProgramLimitExceeded => ("54000", "limit passed"),
            SqlCode::SerializationFailure => ("40001", "transaction must be retried"),
            SqlCode::InFailedSqlTransaction => ("25P02", "transaction has failed"),
            SqlCode::InvalidSqlStatementName => ("26000", "no such statement"),
            SqlCode::DuplicatePreparedStatement => ("42P05", "statement exists"),
            SqlCode::InvalidCursorName => ("34000", "no such portal"),
            SqlCode::UndefinedObject => ("42704", "no such variable"),
            SqlCode::FeatureNotSupported => ("0A000", "not supported"),
            SqlCode::ProtocolViolation => ("08P01", "bad message"),
            SqlCode::QueryCanceled => ("57014", "copy failed"),
            SqlCode::InvalidParameterValue => ("22023", "bad session state"),
        }
    }

    /// The code of five characters.
    pub fn digits(self) -> &'static str
        ensures { result.now ≡ digits_of self }
    {
        self.texts().0
    }

    /// The text that an error of this code says.
    pub fn message(self) -> &'static str
        ensures { result.now ≡ message_of self }
    {
        self.texts().1
    }
}
