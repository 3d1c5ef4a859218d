//! The steps of a transfer: what is sent and read on which link.

ghost use Rattle.std.specs.Prelude.{◌≡◌, None, if◌then◌else◌, OnOk, OnErr};
ghost use Rattle.transfer_stages.specs.Exchange.{wants, ended};
ghost use Rattle.transfer_stages.specs.declared.stage.Want.TheVariants as want;
ghost use Rattle.transfer_exchange.specs.Course.{stage_of, goes, cut_at, IsAwaiting};
ghost use Rattle.forwarder_core.specs.Transfers.{Advances, AdvancesNew};

use crate::connection::Connection;
use crate::link::Link;
use pgw_frames::NoMemory;
use session_model::Session;
use transfer_exchange::Exchange;
use transfer_stages::{Cut, Want};

/// The transfer's link was cut, where it was.
fn note_cut(exchange: &mut Exchange, is_cut: bool, why: Cut)
    requires { IsAwaiting (wants (stage_of exchange.old)) }
    ensures { exchange.new ≡ (if is_cut then goes exchange.old (cut_at why (stage_of exchange.old)) else exchange.old) }
{
    if is_cut {
        exchange.cut(why);
    }
}

/// Sends the old pod the transfer's text.
fn send_old<S: Session>(
    exchange: &mut Exchange,
    connection: &mut Connection<S>,
) -> Result<(), NoMemory>
    requires { wants (stage_of exchange.old) ≡ want.SendOld }
    ensures stands { OnOk result (Advances S.state S.Store.stands_for exchange.old exchange.new connection.old connection.new) }
    ensures err { OnErr result (connection.new.received ≡ connection.old.received) }
{
    if connection.is_cut() {
        exchange.cut(Cut::WriteFault);
        return Ok(());
    }
    let text = exchange.text()?;
    connection.send_bytes(text.as_slice())?;
    exchange.sent();
    Ok(())
}

/// Takes a message of the old pod.
fn await_old<S: Session>(
    exchange: &mut Exchange,
    connection: &mut Connection<S>,
) -> Result<(), NoMemory>
    requires { wants (stage_of exchange.old) ≡ want.AwaitOld }
    ensures stands { OnOk result (Advances S.state S.Store.stands_for exchange.old exchange.new connection.old connection.new) }
    ensures err { OnErr result (connection.new.received ≡ connection.old.received) }
{
    match connection.take_frame()? {
        Some(f) => {
            exchange.take(f)?;
            Ok(())
        }
        None => {
            note_cut(exchange, connection.is_cut(), Cut::Ended);
            Ok(())
        }
    }
}

/// Dials the new pod.
fn dial<S: Session>(exchange: &mut Exchange, connection: &mut Connection<S>)
    requires { wants (stage_of exchange.old) ≡ want.Dial }
    ensures stands { Advances S.state S.Store.stands_for exchange.old exchange.new connection.old connection.new }
    ensures kept { connection.new.received ≡ connection.old.received }
{
    let linked = connection.dial();
    exchange.dialed(linked);
}

/// Sends a text on the new link.
fn send_on<S: Session>(exchange: &mut Exchange, link: &mut Link<S>) -> Result<(), NoMemory>
    requires { wants (stage_of exchange.old) ≡ want.SendNew }
    ensures { OnOk result (AdvancesNew S.state S.Store.stands_for exchange.old exchange.new link.old link.new) }
{
    if link.is_cut() {
        exchange.cut(Cut::WriteFault);
        return Ok(());
    }
    let text = exchange.text()?;
    if exchange.is_startup() {
        link.send_startup(text.as_slice());
        exchange.sent();
        return Ok(());
    }
    link.send_bytes(text.as_slice())?;
    exchange.sent();
    Ok(())
}

/// Takes a message of the new link.
fn await_on<S: Session>(exchange: &mut Exchange, link: &mut Link<S>) -> Result<(), NoMemory>
    requires { wants (stage_of exchange.old) ≡ want.AwaitNew }
    ensures { OnOk result (AdvancesNew S.state S.Store.stands_for exchange.old exchange.new link.old link.new) }
{
    match link.take_frame()? {
        Some(f) => {
            exchange.take(f)?;
            Ok(())
        }
        None => {
            note_cut(exchange, link.is_cut(), Cut::Ended);
            Ok(())
        }
    }
}

/// Sends the new pod a text, where there is a link to it.
fn send_new<S: Session>(
    exchange: &mut Exchange,
    connection: &mut Connection<S>,
) -> Result<(), NoMemory>
    requires { wants (stage_of exchange.old) ≡ want.SendNew }
    ensures stands { OnOk result (Advances S.state S.Store.stands_for exchange.old exchange.new connection.old connection.new) }
    ensures err { OnErr result (connection.new.received ≡ connection.old.received) }
{
    match &mut connection.fresh {
        None => Ok(()),
        Some(link) => {
            send_on(exchange, link)?;
            Ok(())
        }
    }
}

/// Takes a message of the new pod, where there is a link to it.
fn await_new<S: Session>(
    exchange: &mut Exchange,
    connection: &mut Connection<S>,
) -> Result<(), NoMemory>
    requires { wants (stage_of exchange.old) ≡ want.AwaitNew }
    ensures stands { OnOk result (Advances S.state S.Store.stands_for exchange.old exchange.new connection.old connection.new) }
    ensures err { OnErr result (connection.new.received ≡ connection.old.received) }
{
    match &mut connection.fresh {
        None => Ok(()),
        Some(link) => {
            await_on(exchange, link)?;
            Ok(())
        }
    }
}

/// One step of a transfer that has not ended.
pub(crate) fn step<S: Session>(
    exchange: &mut Exchange,
    connection: &mut Connection<S>,
) -> Result<(), NoMemory>
    ensures stands { OnOk result (ended (stage_of exchange.old) ≡ None → Advances S.state S.Store.stands_for exchange.old exchange.new connection.old connection.new) }
    ensures err { OnErr result (connection.new.received ≡ connection.old.received) }
{
    match exchange.want() {
        Want::SendOld => send_old(exchange, connection),
        Want::AwaitOld => await_old(exchange, connection),
        Want::Dial => {
            dial(exchange, connection);
            Ok(())
        }
        Want::SendNew => send_new(exchange, connection),
        Want::AwaitNew => await_new(exchange, connection),
        Want::Ended => Ok(()),
    }
}
