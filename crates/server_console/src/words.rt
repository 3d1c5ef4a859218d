//! What the program's words ask.

ghost use Rattle.std.specs.Prelude.{◌≡◌, ◌≢◌, ◌↔◌, ◌<◌, ◌≤◌, ◌^◌, ℕ, map, option_map, IfOk, IsTrue};
ghost use Rattle.std.specs.Fmt.{decimal};
ghost use Rattle.std.specs.Option.{option_copied};
ghost use Rattle.clap.specs.declared.error.kind.ErrorKind.TheVariants as Kind;
ghost use Rattle.clap.specs.Walk.{rows_of};
ghost use Rattle.clap.specs.Matches.{found_of};
ghost use Rattle.clap.specs.Simple.{app_of};
ghost use Rattle.server_console.specs.declared.words.Asked.TheVariants as asked;
ghost use Rattle.server_console.specs.Asking.{serve_app, rows_given, IsCount, Serves, ServesBy, one_word, two_words, more_words, first_word, Asks};

use clap::error::ErrorKind;
use clap::{Arg, ArgMatches, Command};
use itoa::Buffer;
use pgw_frames::{NoMemory, Text};
use std::alloc::{AllocError, Global};

/// What `sqlproxy serve` is to do.
#[derive(Debug, Drop)]
pub struct ServeWords {
    /// The name of the file with the settings.
    pub config: Text,
    /// It ends once so many connections have ended. At least 1.
    pub sessions: Option<u64>,
}

/// What the program is asked.
#[derive(Debug, Drop)]
pub enum Asked {
    /// To print what it can be asked.
    Help,
    Serve(ServeWords),
    /// Words that begin with `serve`, and ask nothing that there is.
    BadServe,
    /// Something else, as to check settings.
    Other,
}

/// The command that reads the words.
fn command<'a>(alloc: Global) -> Result<Command<'a>, AllocError>
    ensures { IfOk result (λ c. app_of c ≡ serve_app) }
{
    let config = Arg::new(alloc, "config").long("config");
    let sessions = Arg::new(alloc, "sessions").long("sessions");
    let command = Command::new(alloc, "serve").arg(config)?.arg(sessions)?;
    Ok(command)
}

fn is_memory(kind: ErrorKind) -> bool
    ensures { IsTrue result ↔ (kind ≡ Kind.OutOfMemory) }
{
    match kind {
        ErrorKind::OutOfMemory => true,
        _ => false,
    }
}

/// What stands at the options, unless a word is at fault.
fn parsed<'a>(alloc: Global, words: &'a [&'a str]) -> Result<Option<ArgMatches<'a>>, NoMemory>
    ensures { IfOk result (λ m. option_map (λ m. rows_of (found_of m)) m ≡ rows_given (map (λ w. w.now) words.entry.now)) }
{
    match command(alloc)?.try_get_matches_from(words) {
        Ok(matches) => Ok(Some(matches)),
        Err(e) => {
            if is_memory(e.kind()) {
                return Err(NoMemory);
            }
            Ok(None)
        }
    }
}

/// A number from 1 on in decimal, without a sign or a leading zero.
fn count_of(text: &str) -> Option<u64>
    ensures { IsCount text.now result }
{
    let Ok(n) = text.parse::<u64>() else {
        return None;
    };
    if n < 1 {
        return None;
    }
    let mut buffer = Buffer::new();
    if buffer.format(n) == text {
        Some(n)
    } else {
        None
    }
}

fn texts<'a>(alloc: Global, words: &'a [Text]) -> Result<Vec<&'a str>, NoMemory>
    ensures { IfOk result (λ v. map (λ w. w.now) v.items ≡ words.entry.now) }
{
    let mut texts = Vec::new(alloc);
    for word in words {
        texts.push(word.as_str())?;
    }
    Ok(texts)
}

fn served(alloc: Global, config: &str, sessions: Option<u64>) -> Result<Asked, NoMemory>
    ensures { IfOk result (λ a. a ≡ asked.Serve (record { config = config.now; sessions = sessions })) }
{
    Ok(Asked::Serve(ServeWords {
        config: Text::of(alloc, config)?,
        sessions,
    }))
}

/// With a file, and this text for the number of sessions.
fn counted(alloc: Global, config: &str, count: &str) -> Result<Asked, NoMemory>
    ensures { IfOk result (Serves (Some config.now) (Some count.now)) }
{
    match count_of(count) {
        Some(n) => Ok(served(alloc, config, Some(n))?),
        None => Ok(Asked::BadServe),
    }
}

fn asked_by(alloc: Global, config: Option<&str>, count: Option<&str>) -> Result<Asked, NoMemory>
    ensures { IfOk result (Serves (option_copied config.entry) (option_copied count.entry)) }
{
    match (config, count) {
        (None, _) => Ok(Asked::BadServe),
        (Some(config), None) => Ok(served(alloc, config, None)?),
        (Some(config), Some(count)) => Ok(counted(alloc, config, count)?),
    }
}

fn serve_asked(alloc: Global, words: &[Text]) -> Result<Asked, NoMemory>
    ensures { IfOk result (ServesBy (rows_given words.now)) }
{
    let texts = texts(alloc, words)?;
    let Some(matches) = parsed(alloc, texts.as_slice())? else {
        return Ok(Asked::BadServe);
    };
    let asked = asked_by(
        alloc,
        matches.get_str("config"),
        matches.get_str("sessions"),
    )?;
    Ok(asked)
}

/// The word that says what is asked.
#[derive(Clone, Copy, Debug, PartialEq, Eq)]
enum First {
    Help,
    Serve,
    Other,
}

fn one_word(word: &str) -> First
    ensures { result ≡ one_word word.now }
{
    if word == "--help" {
        return First::Help;
    }
    if word == "serve" {
        return First::Serve;
    }
    First::Other
}

fn two_words(word: &str, next: &str) -> First
    ensures { result ≡ two_words word.now next.now }
{
    if word == "serve" {
        if next == "--help" {
            return First::Help;
        }
        return First::Serve;
    }
    First::Other
}

fn more_words(word: &str) -> First
    ensures { result ≡ more_words word.now }
{
    if word == "serve" {
        return First::Serve;
    }
    First::Other
}

fn first_word(words: &[Text]) -> First
    ensures { result ≡ first_word words.now }
{
    match words {
        [] => First::Other,
        [word] => one_word(word.as_str()),
        [word, next] => two_words(word.as_str(), next.as_str()),
        [word, ..] => more_words(word.as_str()),
    }
}

/// What the words behind the program's name ask: `--help`, alone or behind `serve`; or `serve` with `--config` and a
/// file's name, and maybe `--sessions` and a number from 1 on in decimal.
pub fn read_words(alloc: Global, words: &[Text]) -> Result<Asked, NoMemory>
    ensures { IfOk result (Asks words.now) }
{
    match first_word(words) {
        First::Help => Ok(Asked::Help),
        First::Serve => Ok(serve_asked(alloc, words)?),
        First::Other => Ok(Asked::Other),
    }
}
