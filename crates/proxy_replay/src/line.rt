//! Lines of a schedule.

ghost use Rattle.std.specs.Prelude.{IfOk};
ghost use Rattle.std.specs.Option.{IfSome, IfNone};
ghost use Rattle.proxy_replay.specs.Lines.{IsTextOf, IsNoPlain, IsNoDelivery, IsNoCut, IsNoNumbered, IsNoGiven, IsNoStart, IsNoOther, SpellsEvent};

use crate::commands::Commands;
use crate::hex_text::{bytes_behind, key_behind};
use crate::number::number_behind;
use crate::word::behind;
use forwarder_world::Event;
use pgw_frames::NoMemory;
use std::alloc::Global;

/// The most bytes of a line, its newline not counted.
const MOST_OF_A_LINE: usize = 16_384;

/// The event that is fixed words.
fn plain_event<C, T: Commands<C>>(line: &[u8]) -> Option<Event<C>>
    ensures found { IfSome result (IsTextOf T.says line.now) }
    ensures none { IfNone result (IsNoPlain line.now) }
{
    match line {
        b"forward" => Some(Event::Forward),
        b"pod" => Some(Event::Pod),
        b"pass" => Some(Event::Pass),
        b"eof" => Some(Event::Eof),
        b"stop" => Some(Event::Stop),
        b"park" => Some(Event::Park),
        b"hold" => Some(Event::Hold),
        b"move" => Some(Event::Move),
        b"pod new" => Some(Event::PodNew),
        b"nodial" => Some(Event::NoDial),
        _ => None,
    }
}

/// What reaches a pod: the current one, or the new one.
fn delivery<C, T: Commands<C>>(line: &[u8]) -> Option<Event<C>>
    ensures found { IfSome result (IsTextOf T.says line.now) }
    ensures none { IfNone result (IsNoDelivery line.now) }
{
    if let Some(n) = number_behind(b"deliver ", line) {
        return Some(Event::Deliver(n));
    }
    Some(Event::DeliverNew(number_behind(b"deliver new ", line)?))
}

/// Which link is cut: the current one, or the new one.
fn cut<C, T: Commands<C>>(line: &[u8]) -> Option<Event<C>>
    ensures found { IfSome result (IsTextOf T.says line.now) }
    ensures none { IfNone result (IsNoCut line.now) }
{
    if let Some(n) = number_behind(b"cut ", line) {
        return Some(Event::Cut(n));
    }
    Some(Event::CutNew(number_behind(b"cut new ", line)?))
}

/// The event that is words and a number.
fn numbered_event<C, T: Commands<C>>(line: &[u8]) -> Option<Event<C>>
    ensures found { IfSome result (IsTextOf T.says line.now) }
    ensures none { IfNone result (IsNoNumbered line.now) }
{
    match line.first() {
        Some(b'r') => Some(Event::Read(number_behind(b"read ", line)?)),
        Some(b'd') => delivery::<C, T>(line),
        Some(b'b') => Some(Event::Back(number_behind(b"back ", line)?)),
        Some(b'c') => cut::<C, T>(line),
        _ => None,
    }
}

/// The event that is a word and bytes. It is kept apart, since most others need no memory.
#[inline(never)]
fn given_event<C, T: Commands<C>>(alloc: Global, line: &[u8]) -> Result<Option<Event<C>>, NoMemory>
    ensures found { IfOk result (λ r. IfSome r (IsTextOf T.says line.now)) }
    ensures none { IfOk result (λ r. IfNone r (IsNoGiven line.now)) }
{
    match bytes_behind(alloc, b"give ", line)? {
        Some(bytes) => Ok(Some(Event::Give(bytes))),
        None => Ok(None),
    }
}

/// The event that is a word and a key.
#[inline(never)]
fn started_event<C, T: Commands<C>>(
    alloc: Global,
    line: &[u8],
) -> Result<Option<Event<C>>, NoMemory>
    ensures found { IfOk result (λ r. IfSome r (IsTextOf T.says line.now)) }
    ensures none { IfOk result (λ r. IfNone r (IsNoStart line.now)) }
{
    match key_behind(alloc, b"start ", line)? {
        Some(key) => Ok(Some(Event::Start(key))),
        None => Ok(None),
    }
}

/// The event that is a word and a command.
#[inline(never)]
fn other_event<C, T: Commands<C>>(alloc: Global, line: &[u8]) -> Result<Option<Event<C>>, NoMemory>
    ensures found { IfOk result (λ r. IfSome r (IsTextOf T.says line.now)) }
    ensures none { IfOk result (λ r. IfNone r (IsNoOther T.says line.now)) }
{
    let Some(text) = behind(b"other ", line) else {
        return Ok(None);
    };
    match T::read(alloc, text)? {
        Some(command) => Ok(Some(Event::Other(command))),
        None => Ok(None),
    }
}

/// The event that a line spells, if any. A line is any bytes, without its newline.
pub fn event_of<C, T: Commands<C>>(alloc: Global, line: &[u8]) -> Result<Option<Event<C>>, NoMemory>
    ensures event { IfOk result (SpellsEvent T.says line.now) }
{
    if line.len() > MOST_OF_A_LINE {
        return Ok(None);
    }
    match line.first() {
        Some(b'g') => given_event::<C, T>(alloc, line),
        Some(b'r' | b'd' | b'b' | b'c') => Ok(numbered_event::<C, T>(line)),
        Some(b'o') => other_event::<C, T>(alloc, line),
        Some(b's') if line != b"stop".as_slice() => started_event::<C, T>(alloc, line),
        _ => Ok(plain_event::<C, T>(line)),
    }
}
