//! What a message sees of a session.

ghost use Rattle.std.specs.Prelude.{◌≡◌, false, IfOk};
ghost use Rattle.std.specs.Option.{option_copied, option_map};
ghost use Rattle.std.specs.Str.{bytes_eq};
ghost use Rattle.pgw_messages.specs.Params.{value_of};
ghost use Rattle.session_blob.specs.Blob.{IsSpelling, blob_of};
ghost use Rattle.session_blob.specs.Faults.{Gives};
ghost use Rattle.session_blob.specs.Entries.{is_among, prepared, prepared_names};
ghost use Rattle.session_blob.specs.Prepared.{find_prepared};
ghost use Rattle.session_model.specs.declared.transfer.Dump.TheVariants as dump;
ghost use Rattle.mini_portals.specs.Entries.{portal};
ghost use Rattle.mini_kind.specs.Dumps.{dump_of, is_quiet, state_in};
ghost use Rattle.mini_kind.specs.Mini.{Usual, failing, find_portal, has_failed, in_turn, status_of};
ghost use Rattle.mini_parts.specs.NoBlob.{HasNoBlob, is_memory};
ghost use Rattle.mini_parts.specs.Parts.{mini_of};
ghost use Rattle.mini_parts.specs.Seen.{dropped_if, seen};

use crate::named::{blob_without, get_left, has_left};
use crate::parts::Parts;
use mini_portals::BoundStmt;
use mini_store::PastStep;
use pgw_frames::{Bytes, NoMemory, Text};
use session_blob::{BlobFault, Query, encode};
use session_model::Dump;
use std::alloc::Global;
use std::marker::Model;

/// Why a state can't be had.
fn reason(alloc: Global, why: &str) -> Result<Dump, NoMemory>
    ensures { IfOk result (λ d. d ≡ dump.Not why.now) }
{
    Ok(Dump::Not(Text::of(alloc, why)?))
}

/// Whether memory ran out.
fn is_memory(fault: BlobFault) -> bool
    ensures { result ≡ is_memory fault }
{
    match fault {
        BlobFault::NoMemory => true,
        BlobFault::BadVersion(_)
        | BlobFault::Short
        | BlobFault::Trailing
        | BlobFault::NotCanonical
        | BlobFault::TooLarge(_) => false,
    }
}

/// What is told of a state that has no blob.
fn without_blob(alloc: Global, fault: BlobFault) -> Result<Dump, NoMemory>
    ensures { IfOk result (λ d. HasNoBlob fault d) }
{
    if is_memory(fault) {
        return Err(NoMemory);
    }
    reason(alloc, "session state is too large")
}

/// A session outside a copy, while nothing is discarded, without what a message first does away with.
/// Contracts see that session.
#[derive(Drop)]
pub struct View<'a> {
    parts: &'a Parts,
    /// Whether an error came before.
    fails: bool,
    /// Whether the portals went before.
    clears: bool,
    /// Whether the unnamed statement went before.
    named: bool,
}

impl<'a> Model for View<'a> {
    ghost use Rattle.mini_kind.specs.Mini.{Mini};
    ghost use Rattle.mini_parts.specs.Parts.{mini_of};
    ghost use Rattle.mini_parts.specs.Seen.{seen};

    ghost Value = { Mini };

    ghost view = { λ v. seen (mini_of v.parts.now) v.fails v.clears v.named };
}

impl<'a> View<'a> {
    /// The whole session, as one that is in no copy and discards nothing.
    pub fn of(parts: &'a Parts) -> View<'a>
        ensures { result ≡ seen (mini_of parts.now) false false false }
    {
        View {
            parts,
            fails: false,
            clears: false,
            named: false,
        }
    }

    /// The session as a message sees it that broke a copy off: behind an error, and without portals, each where it
    /// is so.
    pub fn behind(parts: &'a Parts, fails: bool, clears: bool) -> View<'a>
        ensures { result ≡ seen (mini_of parts.now) fails clears false }
    {
        View {
            parts,
            fails,
            clears,
            named: false,
        }
    }

    /// The same behind an error, which makes a transaction failed.
    pub fn failing(&self) -> View<'a>
        ensures { result ≡ record self.now { turn = failing self.now.turn } }
    {
        View {
            parts: self.parts,
            fails: true,
            clears: self.clears,
            named: self.named,
        }
    }

    /// The same without portals and without the unnamed statement, where a Query does away with them.
    pub fn dropping(&self, drops: bool) -> View<'a>
        ensures { result ≡ dropped_if drops self.now }
    {
        if drops {
            View {
                parts: self.parts,
                fails: self.fails,
                clears: true,
                named: true,
            }
        } else {
            View {
                parts: self.parts,
                fails: self.fails,
                clears: self.clears,
                named: self.named,
            }
        }
    }

    pub fn in_turn(&self) -> bool
        ensures { result ≡ in_turn self.now.turn }
    {
        self.parts.turn.is_some()
    }

    pub fn has_failed(&self) -> bool
        ensures { result ≡ has_failed self.now.turn }
    {
        match &self.parts.turn {
            None => false,
            Some(turn) => self.fails || turn.failed,
        }
    }

    /// What the transaction did so far, where there is one.
    pub fn past(&self) -> Option<&'a [PastStep]>
        ensures { option_copied result ≡ option_map (λ t. t.past) self.now.turn }
    {
        match &self.parts.turn {
            None => None,
            Some(turn) => Some(turn.past.as_slice()),
        }
    }

    /// `I` outside a transaction, `T` inside one, `E` inside a failed one.
    pub fn status(&self) -> u8
        ensures value { result ≡ status_of self.now.turn }
        ensures usual { self.now.mode ≡ Usual }
    {
        match &self.parts.turn {
            None => b'I',
            Some(turn) => {
                if self.fails || turn.failed {
                    b'E'
                } else {
                    b'T'
                }
            }
        }
    }

    /// Whether there is no portal.
    pub fn is_quiet(&self) -> bool
        ensures { result ≡ is_quiet self.now }
    {
        self.clears || self.parts.portals.is_empty()
    }

    /// The statement of the portal of this name, with its texts.
    pub fn portal(&self, name: &str) -> Option<&'a BoundStmt>
        ensures { option_map (λ b. portal name.now b.now) result ≡ find_portal name.now self.now.portals }
    {
        if self.clears {
            return None;
        }
        self.parts.portals.find(name)
    }

    /// Whether a statement of this name is prepared.
    pub fn has_statement(&self, name: &str) -> bool
        ensures { result ≡ is_among name.now (prepared_names self.now.statements) }
    {
        has_left(self.named, &self.parts.kept.statements, name)
    }

    /// The prepared statement of this name.
    pub fn statement(&self, name: &str) -> Option<&'a Query>
        ensures { option_map (λ q. prepared name.now q.now) result ≡ find_prepared name.now self.now.statements }
    {
        get_left(self.named, &self.parts.kept.statements, name)
    }

    /// The value of a variable.
    pub fn variable(&self, name: &str) -> Option<&'a str>
        ensures { option_copied result ≡ value_of name.now self.now.variables }
    {
        self.parts.kept.variables.get(name)
    }

    pub fn is_user(&self, name: &str) -> bool
        ensures { result ≡ bytes_eq name.now self.now.user }
    {
        name == self.parts.kept.user.as_str()
    }

    pub fn is_database(&self, name: &str) -> bool
        ensures { result ≡ bytes_eq name.now self.now.database }
    {
        name == self.parts.kept.database.as_str()
    }

    /// The text with which the session may be revived.
    pub fn token(&self) -> &'a str
        ensures { result.now ≡ self.now.token }
    {
        self.parts.token.as_str()
    }

    /// The session's state as a blob.
    fn blob(&self, alloc: Global) -> Result<Bytes, BlobFault>
        ensures value { Gives result (blob_of (state_in self.now)) }
        ensures spelled { IfOk result (λ b. IsSpelling (state_in self.now) b) }
    {
        if self.named {
            blob_without(alloc, &self.parts.kept, "")
        } else {
            encode(alloc, &self.parts.kept)
        }
    }

    /// The session's state, or why it can't be had.
    pub fn dump(&self, alloc: Global) -> Result<Dump, NoMemory>
        ensures { IfOk result (λ d. d ≡ dump_of self.now) }
    {
        if !self.is_quiet() {
            return reason(alloc, "session is busy");
        }
        if self.in_turn() {
            return reason(alloc, "session is in a transaction");
        }
        match self.blob(alloc) {
            Ok(blob) => Ok(Dump::Blob(blob)),
            Err(fault) => without_blob(alloc, fault),
        }
    }
}
