//! Why a client isn't served, and what it is told: one table of causes, codes and messages.

ghost use Rattle.std.specs.Prelude.{◌≡◌, ◌≤◌, ◌++◌, length, IfOk};
ghost use Rattle.std.specs.Fmt.{decimal};
ghost use Rattle.pgw_messages.specs.Backend.{CanWriteBack};
ghost use Rattle.pgw_messages.specs.declared.backend.message.BackMsg.TheVariants as back;
ghost use Rattle.startup_route.specs.Rejections.{code_of, message_of, with_number, fields_of, frame_of, IsPlain};

use pgw_frames::{Frame, MOST_BODY, NoMemory, Text};
use pgw_messages::{BackMsg, Field, Fields, Items, write_back};
use std::alloc::Global;

/// Why a client isn't served. Each cause has its code and its message.
#[derive(Clone, Copy, Debug, PartialEq, Eq)]
pub enum Rejection {
    /// The packet's length is bad, or its body isn't names and values.
    BadPacket,
    /// The packet's code is none that is known.
    BadVersion,
    /// It asked for encryption a third time.
    TooManyRequests,
    /// It gives a parameter that is the proxy's and the pods' own.
    ReservedParam,
    NoUser,
    TwoClusters,
    NoCluster,
    /// Its cluster's name ends in no tenant's number.
    BadTenant,
    /// The deny entry at this place, counted from 0, keeps it out.
    Denied(u32),
    /// The tenant has an allow list, and no network of it has the client's address.
    NotAllowed,
    /// Its logins failed, and it may not try again before this moment, in seconds.
    Throttled(u64),
    NoTenant,
    /// No pod of the tenant is running.
    NoPod,
    /// Every number of a session was given.
    NoNumbers,
    /// The journal of those who came has no room.
    JournalFull,
    /// No pod that was dialed answered.
    DialFault,
}

/// The code, the words of the message, and the number that stands at its end, where there is one.
type Row = (&'static str, &'static str, Option<u64>);

/// The words, and the number behind them.
fn numbered(alloc: Global, words: &str, number: u64) -> Result<Text, NoMemory>
    requires { IsPlain 50 words.now }
    ensures value { IfOk result (λ t. t ≡ words.now ++ decimal number) }
    ensures plain { IfOk result (IsPlain 100) }
{
    Ok(Text::from_string(format!(in alloc; "{words}{number}")?))
}

/// The words, and the number behind them, where there is one.
fn message(alloc: Global, words: &str, number: Option<u64>) -> Result<Text, NoMemory>
    requires { IsPlain 50 words.now }
    ensures value { IfOk result (λ t. t ≡ with_number words.now number) }
    ensures plain { IfOk result (IsPlain 100) }
{
    match number {
        Some(n) => numbered(alloc, words, n),
        None => Text::of(alloc, words),
    }
}

fn field(alloc: Global, code: u8, value: &str) -> Result<Field, NoMemory>
    ensures { IfOk result (λ f. f ≡ record { code = code; value = value.now }) }
{
    Ok(Field {
        code,
        value: Text::of(alloc, value)?,
    })
}

impl Rejection {
    /// The row of this cause.
    fn row(self) -> Row
        ensures code { result.0.now ≡ code_of self }
        ensures message { with_number result.1.now result.2 ≡ message_of self }
        ensures plain { IsPlain 50 result.0.now × IsPlain 50 result.1.now }
    {
        match self {
            Rejection::BadPacket => ("08P01", "bad startup packet", None),
            Rejection::BadVersion => ("0A000", "protocol version not supported", None),
            Rejection::TooManyRequests => ("08P01", "too many encryption requests", None),
            Rejection::ReservedParam => ("08P01", "reserved parameter", None),
            Rejection::NoUser => ("08P01", "no user is named", None),
            Rejection::TwoClusters => ("08004", "two clusters are named", None),
            Rejection::NoCluster => ("08004", "no cluster is named", None),
            Rejection::BadTenant => ("08004", "bad cluster name", None),
            Rejection::Denied(place) => ("08004", "denied by entry ", Some(place as u64)),
            Rejection::NotAllowed => ("08004", "address is not allowed", None),
            Rejection::Throttled(until) => (
                "08004",
                "too many failed logins, wait until ",
                Some(until),
            ),
            Rejection::NoTenant => ("08004", "no such tenant", None),
            Rejection::NoPod => ("08004", "no pod is running", None),
            Rejection::NoNumbers => ("53300", "too many connections", None),
            Rejection::JournalFull => ("53300", "too many connections", None),
            Rejection::DialFault => ("08004", "no pod could be reached", None),
        }
    }

    /// The code of the cause, as the manual's "PostgreSQL Error Codes" has them.
    pub fn code(self) -> &'static str
        ensures { result.now ≡ code_of self }
    {
        self.row().0
    }

    /// The message for a human reader.
    pub fn message(self, alloc: Global) -> Result<Text, NoMemory>
        ensures { IfOk result (λ t. t ≡ message_of self) }
    {
        let (_, words, number) = self.row();
        message(alloc, words, number)
    }

    /// The fields of the ErrorResponse.
    fn fields(self, alloc: Global) -> Result<Fields, NoMemory>
        ensures value { IfOk result (λ fs. fs ≡ fields_of (code_of self) (message_of self)) }
        ensures plain { IfOk result (λ fs. CanWriteBack (back.Fault fs)) }
    {
        let (code, words, number) = self.row();
        let value = message(alloc, words, number)?;
        let mut fields = Items::new(alloc);
        fields.push(field(alloc, b'S', "FATAL")?)?;
        fields.push(field(alloc, b'V', "FATAL")?)?;
        fields.push(field(alloc, b'C', code)?)?;
        fields.push(Field { code: b'M', value })?;
        Ok(fields)
    }

    /// The ErrorResponse that the client is told, of severity `FATAL`. It is short enough to be written.
    pub fn frame(self, alloc: Global) -> Result<Frame, NoMemory>
        ensures value { IfOk result (λ f. f ≡ frame_of self) }
        ensures room { IfOk result (λ f. length f.body ≤ MOST_BODY) }
    {
        let fields = self.fields(alloc)?;
        write_back(alloc, &BackMsg::Fault(fields))
    }
}
