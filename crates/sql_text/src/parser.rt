//! Reading the tokens of a statement from left to right.

ghost use Rattle.std.specs.Prelude.{◌≡◌, length};
ghost use Rattle.sql_text.specs.Grammar.{Reads, after, fault_at, sees, sees_both, is_empty, skip, name_form, quoted_form, literal_form, value_form, key_form};

use crate::fault::SqlFault;
use crate::lexer::place;
use crate::stmt::Value;
use crate::token::{Token, TokenKind};
use crate::values::{key_of, lowered, unquoted, value_of};
use pgw_frames::Text;
use std::alloc::Global;
use std::marker::Model;

/// The tokens that are still to be read, and the length of the text that they stand in. Contracts see
/// them as a cursor.
#[derive(Drop)]
pub(crate) struct Parser<'a> {
    alloc: Global,
    rest: &'a [Token],
    end: usize,
}

impl<'a> Model for Parser<'a> {
    ghost use Rattle.sql_text.specs.Grammar.{Cursor};

    ghost Value = { Cursor };

    ghost view = { λ p. record { rest = p.rest.now; end = p.end } };
}

impl<'a> Parser<'a> {
    pub(crate) fn new(alloc: Global, rest: &'a [Token], end: usize) -> Parser<'a>
        ensures { result ≡ record { rest = rest.now; end = end } }
    {
        Parser { alloc, rest, end }
    }

    pub(crate) fn allocator(&self) -> Global {
        self.alloc
    }

    /// How many tokens are left.
    pub(crate) fn len(&self) -> usize
        ensures { result ≡ length self.now.rest }
    {
        self.rest.len()
    }

    pub(crate) fn is_empty(&self) -> bool
        ensures { result ≡ is_empty self.now.rest }
    {
        match self.rest.split_first() {
            Some(_) => false,
            None => true,
        }
    }

    /// The next token is at fault, or the text's end where there is none.
    pub(crate) fn wrong(&self) -> SqlFault
        ensures { result ≡ fault_at self.now }
    {
        match self.rest.split_first() {
            Some((token, _)) => SqlFault::BadSyntax(place(token.from)),
            None => SqlFault::BadSyntax(place(self.end)),
        }
    }

    /// Whether this word or mark stands next.
    pub(crate) fn sees(&self, word: &str) -> bool
        ensures { result ≡ sees word.now self.now }
    {
        match self.rest.split_first() {
            Some((token, _)) => token.spells(word),
            None => false,
        }
    }

    /// Takes a word or mark where it stands next, and says whether it did.
    pub(crate) fn takes(&mut self, word: &str) -> bool
        ensures value { result ≡ sees word.now self.old }
        ensures left { self.new ≡ after word.now self.old }
    {
        let Some((token, rest)) = self.rest.split_first() else {
            return false;
        };
        if !token.spells(word) {
            return false;
        }
        self.rest = rest;
        true
    }

    /// Takes this word or mark.
    pub(crate) fn skip(&mut self, word: &str) -> Result<(), SqlFault>
        ensures { Reads result self.new (skip word.now self.old) }
    {
        if !self.takes(word) {
            return Err(self.wrong());
        }
        Ok(())
    }

    /// Whether these two stand next.
    pub(crate) fn sees_both(&self, first: &str, second: &str) -> bool
        ensures { result ≡ sees_both first.now second.now self.now }
    {
        let Some((token, rest)) = self.rest.split_first() else {
            return false;
        };
        let Some((next, _)) = rest.split_first() else {
            return false;
        };
        token.spells(first) && next.spells(second)
    }

    /// A name, in lower case.
    pub(crate) fn name(&mut self) -> Result<Text, SqlFault>
        ensures { Reads result self.new (name_form self.old) }
    {
        let Some((token, rest)) = self.rest.split_first() else {
            return Err(self.wrong());
        };
        if token.kind != TokenKind::Word {
            return Err(self.wrong());
        }
        let name = lowered(self.alloc, token.text.as_str())?;
        self.rest = rest;
        Ok(name)
    }

    /// A text in quotes.
    pub(crate) fn quoted(&mut self) -> Result<Text, SqlFault>
        ensures { Reads result self.new (quoted_form self.old) }
    {
        let Some((token, rest)) = self.rest.split_first() else {
            return Err(self.wrong());
        };
        if token.kind != TokenKind::Quoted {
            return Err(self.wrong());
        }
        let text = unquoted(self.alloc, token.text.as_str())?;
        self.rest = rest;
        Ok(text)
    }

    /// A token that is written so, letter by letter.
    pub(crate) fn literal(&mut self, text: &str) -> Result<(), SqlFault>
        ensures { Reads result self.new (literal_form text.now self.old) }
    {
        let Some((token, rest)) = self.rest.split_first() else {
            return Err(self.wrong());
        };
        if token.text.as_str() != text {
            return Err(self.wrong());
        }
        self.rest = rest;
        Ok(())
    }

    /// A number, a text or a parameter.
    pub(crate) fn value(&mut self) -> Result<Value, SqlFault>
        ensures { Reads result self.new (value_form self.old) }
    {
        let Some((token, rest)) = self.rest.split_first() else {
            return Err(self.wrong());
        };
        let Some(value) = value_of(self.alloc, token.kind, token.text.as_str())? else {
            return Err(self.wrong());
        };
        self.rest = rest;
        Ok(value)
    }

    /// A key of 32 lower-case hexadecimal digits in quotes.
    pub(crate) fn key(&mut self) -> Result<(u64, u64), SqlFault>
        ensures { Reads result self.new (key_form self.old) }
    {
        let Some((token, rest)) = self.rest.split_first() else {
            return Err(self.wrong());
        };
        let Some(key) = key_of(token.text.as_str().as_bytes()) else {
            return Err(self.wrong());
        };
        self.rest = rest;
        Ok(key)
    }
}
