use super::*;
use pgw_frames::{Bytes, Frame, NoMemory};
use pgw_messages::{OwnedFields, Params};
use session_model::TransferKey;
use std::alloc::Global;
use std::test::*;
use transfer_stages::{Cut, Outcome, Want};

mod new_pod;
mod old_pod;
mod texts;

/// What happens to a transfer.
#[derive(Clone, Copy)]
enum Step<'a> {
    Send,
    Dial(bool),
    /// A link fails.
    Cut,
    /// A frame of this type and body.
    Frame(u8, &'a [u8]),
    /// A RowDescription of these names, whose other fields are 0.
    Columns(&'a [&'a [u8]]),
    /// A DataRow.
    Row(&'a [Option<&'a [u8]>]),
}

use Step::{Columns, Dial, Row, Send};

const KEY: &[u8] = b"0000000000000001000000000000000a";

/// The columns of the two replies.
const OLD: &[&[u8]] = &[
    b"error",
    b"session_state_base64",
    b"session_revival_token_base64",
    b"transfer_key",
];

/// Its name doesn't matter.
const NEW: &[&[u8]] = &[b"restored"];

fn message(alloc: Global, tag: u8, body: &[u8]) -> Result<Frame, NoMemory> {
    Ok(Frame {
        tag,
        body: Bytes::of(alloc, body)?,
    })
}

fn columns(alloc: Global, names: &[&[u8]]) -> Result<Frame, NoMemory> {
    let mut body = Vec::from_slice(alloc, &[0, names.len().min(255) as u8])?;
    for name in names {
        body.extend_from_slice(name)?;
        body.extend_from_slice(&[0; 19])?;
    }
    message(alloc, b'T', body.as_slice())
}

fn add_value(body: &mut Vec<u8>, value: Option<&[u8]>) -> Result<(), NoMemory> {
    match value {
        Some(v) => {
            body.extend_from_slice(&[0, 0, 0, v.len().min(255) as u8])?;
            body.extend_from_slice(v)?;
        }
        None => body.extend_from_slice(b"\xff\xff\xff\xff")?,
    }
    Ok(())
}

fn row(alloc: Global, values: &[Option<&[u8]>]) -> Result<Frame, NoMemory> {
    let mut body = Vec::from_slice(alloc, &[0, values.len().min(255) as u8])?;
    for value in values {
        add_value(&mut body, *value)?;
    }
    message(alloc, b'D', body.as_slice())
}

fn send(x: &mut Exchange) {
    match x.want() {
        Want::SendOld | Want::SendNew => x.sent(),
        Want::AwaitOld | Want::Dial | Want::AwaitNew | Want::Ended => {}
    }
}

/// Gives it a message, where one is awaited.
fn give(x: &mut Exchange, f: Frame) -> Result<(), NoMemory> {
    match x.want() {
        Want::AwaitOld | Want::AwaitNew => x.take(f),
        Want::SendOld | Want::Dial | Want::SendNew | Want::Ended => Ok(()),
    }
}

fn dial(x: &mut Exchange, ok: bool) {
    if x.want() == Want::Dial {
        x.dialed(ok);
    }
}

fn fail(x: &mut Exchange) {
    match x.want() {
        Want::SendOld | Want::SendNew | Want::AwaitOld | Want::AwaitNew => x.cut(Cut::Ended),
        Want::Dial | Want::Ended => {}
    }
}

fn take_step(alloc: Global, x: &mut Exchange, s: Step<'_>) -> Result<(), NoMemory> {
    match s {
        Step::Send => send(x),
        Step::Dial(ok) => dial(x, ok),
        Step::Cut => fail(x),
        Step::Frame(tag, body) => give(x, message(alloc, tag, body)?)?,
        Step::Columns(names) => give(x, columns(alloc, names)?)?,
        Step::Row(values) => give(x, row(alloc, values)?)?,
    }
    Ok(())
}

fn go(alloc: Global, x: &mut Exchange, steps: &[Step<'_>]) -> Result<(), NoMemory> {
    for s in steps {
        take_step(alloc, x, *s)?;
    }
    Ok(())
}

/// A transfer with the key of `KEY`, of a session whose only parameter is user `u`.
fn begun(alloc: Global) -> Result<Exchange, NoMemory> {
    let mut params = Params::new(alloc);
    params.put("user", "u")?;
    if params.value("crdb:session_revival_token_base64").is_some() {
        return Err(NoMemory);
    }
    Exchange::start(alloc, &TransferKey { high: 1, low: 10 }, &params)
}

/// The same one after these steps.
fn after(alloc: Global, mut x: Exchange, steps: &[Step<'_>]) -> Result<Exchange, NoMemory> {
    match go(alloc, &mut x, steps) {
        Ok(()) => Ok(x),
        Err(e) => {
            drop(x);
            Err(e)
        }
    }
}

/// One whose old pod has replied with a state.
fn up_to_dial(alloc: Global) -> Result<Exchange, NoMemory> {
    let steps = [
        Send,
        Columns(OLD),
        Row(&[None, Some(b"AQ=="), Some(b"dG9r"), Some(KEY)]),
        Step::Frame(b'C', b"SHOW TRANSFER STATE 1\0"),
        Step::Frame(b'Z', b"I"),
    ];
    after(alloc, begun(alloc)?, &steps)
}

/// One whose new pod has begun to greet.
fn up_to_greeting(alloc: Global) -> Result<Exchange, NoMemory> {
    let steps = [Dial(true), Send, Step::Frame(b'R', b"\0\0\0\0")];
    after(alloc, up_to_dial(alloc)?, &steps)
}

/// An end, with a number that tells more.
type End = (&'static str, u32);

fn cut_word(c: &Cut) -> End {
    match c {
        Cut::Unexpected(f) => ("unexpected", f.tag as u32),
        _ => ("cut", 0),
    }
}

/// What the first field of a refusal is.
fn refusal(fields: &OwnedFields) -> End {
    match fields.view().split_first() {
        Some((code, _, _)) => ("revival refused", code as u32),
        None => ("revival refused without a field", 0),
    }
}

/// What it came to.
fn came_to(x: &Exchange) -> End {
    match x.outcome() {
        None => ("goes on", 0),
        Some(Outcome::Moved(Some(key))) => ("moved", key.process),
        Some(Outcome::Moved(None)) => ("moved without a key", 0),
        Some(Outcome::Refused(t)) => ("refused", t.as_str().len().min(99) as u32),
        Some(Outcome::RevivalRefused(fields)) => refusal(fields),
        Some(Outcome::DialFault) => ("dial fault", 0),
        Some(Outcome::NewCut(c)) => cut_word(c),
        Some(Outcome::OldCut(c)) => cut_word(c),
    }
}

/// What a transfer wants to send.
fn text(alloc: Global, x: &Exchange) -> Result<Bytes, NoMemory> {
    match x.want() {
        Want::SendOld | Want::SendNew => x.text(),
        Want::AwaitOld | Want::Dial | Want::AwaitNew | Want::Ended => Ok(Bytes::new(alloc)),
    }
}

/// What an exchange comes to by these steps.
fn end_of(alloc: Global, mut x: Exchange, steps: &[Step<'_>]) -> Result<End, NoMemory> {
    let gone = go(alloc, &mut x, steps);
    let end = came_to(&x);
    drop(x);
    gone?;
    Ok(end)
}

/// What an exchange wants to send after these steps.
fn text_after(alloc: Global, mut x: Exchange, steps: &[Step<'_>]) -> Result<Bytes, NoMemory> {
    let gone = go(alloc, &mut x, steps);
    let text = text(alloc, &x);
    drop(x);
    gone?;
    text
}
