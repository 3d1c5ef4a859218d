//! What the words of a check ask.

ghost use Rattle.std.specs.Prelude.{◌≡◌, ◌≢◌, ◌↔◌, ◌<◌, ◌^◌, ℕ, map, option_map, IfOk, IsTrue, MatchOption};
ghost use Rattle.std.specs.Fmt.{decimal};
ghost use Rattle.std.specs.Option.{option_copied};
ghost use Rattle.clap.specs.declared.error.kind.ErrorKind.TheVariants as Kind;
ghost use Rattle.clap.specs.Walk.{rows_of};
ghost use Rattle.clap.specs.Matches.{found_of};
ghost use Rattle.clap.specs.Simple.{app_of};
ghost use Rattle.proxy_config.specs.Reading.{within};
ghost use Rattle.proxy_config.specs.Settings.{most_number, most_moment};
ghost use Rattle.proxy_config.specs.Texts.{addr_of};
ghost use Rattle.settings_check.specs.Questions.{check_app, rows_given, number_in, client_of, asked_by, asked_in, is_check, question_of};

use access_lists::read_addr;
use clap::error::ErrorKind;
use clap::{Arg, ArgMatches, Command};
use itoa::Buffer;
use pgw_frames::{NoMemory, Text};
use proxy_outside::{Addr, TenantId};
use std::alloc::{AllocError, Global};

/// The greatest number of a tenant.
const MOST_NUMBER: u64 = 4_294_967_295;

/// The last moment, in seconds.
const MOST_MOMENT: u64 = 9_223_372_036_854_775_807;

/// A client that comes at a moment, in seconds.
#[derive(Clone, Copy, Debug, PartialEq, Eq)]
pub struct Client {
    pub addr: Addr,
    pub tenant: TenantId,
    pub moment: u64,
}

/// What is asked of settings.
#[derive(Clone, Copy, Debug, PartialEq, Eq)]
pub enum Question {
    /// How much stands in them.
    Counts,
    /// That, and whether this client would be the first to be admitted.
    Admission(Client),
}

/// The command that reads the words.
fn command<'a>(alloc: Global) -> Result<Command<'a>, AllocError>
    ensures { IfOk result (λ c. app_of c ≡ check_app) }
{
    let addr = Arg::new(alloc, "addr").long("addr");
    let tenant = Arg::new(alloc, "tenant").long("tenant");
    let now = Arg::new(alloc, "now").long("now");
    let command = Command::new(alloc, "check")
        .arg(addr)?
        .arg(tenant)?
        .arg(now)?;
    Ok(command)
}

/// A number in decimal, without a sign or a leading zero.
fn number_of(text: &str) -> Option<u64>
    ensures { MatchOption result ((n : ℕ) → n < 2 ^ 64 → text.now ≢ decimal n) (λ n. text.now ≡ decimal n) }
{
    let Ok(n) = text.parse::<u64>() else {
        return None;
    };
    let mut buffer = Buffer::new();
    if buffer.format(n) == text {
        Some(n)
    } else {
        None
    }
}

fn tenant_in(n: u64) -> Option<u32>
    ensures { result ≡ within 1 most_number n }
{
    if 1 <= n && n <= MOST_NUMBER {
        return Some(n as u32);
    }
    None
}

fn moment_in(n: u64) -> Option<u64>
    ensures { result ≡ within 0 most_moment n }
{
    if n <= MOST_MOMENT {
        return Some(n);
    }
    None
}

/// The number of a tenant, in decimal.
fn tenant_of(text: &str) -> Option<u32>
    ensures { result ≡ number_in 1 most_number text.now }
{
    let n = number_of(text)?;
    tenant_in(n)
}

/// A moment, in decimal.
fn moment_of(text: &str) -> Option<u64>
    ensures { result ≡ number_in 0 most_moment text.now }
{
    let n = number_of(text)?;
    moment_in(n)
}

/// The address that the text spells.
fn addr_of(text: &str) -> Option<Addr>
    ensures { result ≡ addr_of text.now }
{
    match read_addr(text) {
        Ok(addr) => Some(addr),
        Err(_) => None,
    }
}

fn client_of(addr: Option<Addr>, tenant: Option<u32>, now: Option<u64>) -> Option<Question>
    ensures { result ≡ client_of addr tenant now }
{
    let addr = addr?;
    let tenant = tenant?;
    let now = now?;
    Some(Question::Admission(Client {
        addr,
        tenant: TenantId(tenant),
        moment: now,
    }))
}

/// All three options are given, or none.
fn asked_by(addr: Option<&str>, tenant: Option<&str>, now: Option<&str>) -> Option<Question>
    ensures { result ≡ asked_by (option_copied addr.entry) (option_copied tenant.entry) (option_copied now.entry) }
{
    match (addr, tenant, now) {
        (None, None, None) => Some(Question::Counts),
        (Some(addr), Some(tenant), Some(now)) => {
            client_of(addr_of(addr), tenant_of(tenant), moment_of(now))
        }
        _ => None,
    }
}

fn asked_in(matches: &ArgMatches<'_>) -> Option<Question>
    ensures { result ≡ asked_in (rows_of (found_of matches.now)) }
{
    asked_by(
        matches.get_str("addr"),
        matches.get_str("tenant"),
        matches.get_str("now"),
    )
}

fn is_memory(kind: ErrorKind) -> bool
    ensures { IsTrue result ↔ (kind ≡ Kind.OutOfMemory) }
{
    match kind {
        ErrorKind::OutOfMemory => true,
        _ => false,
    }
}

/// What stands at the options, unless a word is at fault.
fn parsed<'a>(alloc: Global, words: &'a [&'a str]) -> Result<Option<ArgMatches<'a>>, NoMemory>
    ensures { IfOk result (λ m. option_map (λ m. rows_of (found_of m)) m ≡ rows_given (map (λ w. w.now) words.entry.now)) }
{
    match command(alloc)?.try_get_matches_from(words) {
        Ok(matches) => Ok(Some(matches)),
        Err(e) => {
            if is_memory(e.kind()) {
                return Err(NoMemory);
            }
            Ok(None)
        }
    }
}

fn texts<'a>(alloc: Global, words: &'a [Text]) -> Result<Vec<&'a str>, NoMemory>
    ensures { IfOk result (λ v. map (λ w. w.now) v.items ≡ words.entry.now) }
{
    let mut texts = Vec::new(alloc);
    for word in words {
        texts.push(word.as_str())?;
    }
    Ok(texts)
}

/// Whether the first word is `check`.
fn is_check(words: &[Text]) -> bool
    ensures { result ≡ is_check words.now }
{
    match words {
        [word, ..] => word.as_str() == "check",
        [] => false,
    }
}

/// What the words ask: `check` alone, or with all of `--addr`, `--tenant` and `--now`, an address and two
/// numbers in decimal. Other words ask nothing.
pub fn question_of(alloc: Global, words: &[Text]) -> Result<Option<Question>, NoMemory>
    ensures { IfOk result (λ q. q ≡ question_of words.now) }
{
    if !is_check(words) {
        return Ok(None);
    }
    let texts = texts(alloc, words)?;
    let Some(matches) = parsed(alloc, texts.as_slice())? else {
        return Ok(None);
    };
    Ok(asked_in(&matches))
}
