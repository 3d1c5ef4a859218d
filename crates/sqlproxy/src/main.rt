//! `sqlproxy`: with `serve`, the proxy; with `check`, settings on standard input, and what they hold on standard output.
//!
//! Everything that matters stands in `proxy_server` and `settings_check`. Here are the words, the streams, and the one
//! line on standard error that says why the program ended.
#![tactic(auto)]

use pgw_frames::{NoMemory, Text};
use proxy_outside::{ReaderSource, WriterSink};
use proxy_server::serve;
use server_console::{
    Asked, ServeStatus, ServeWords, fault_line, help_text, read_words, usage_line,
};
use server_host::Host;
use settings_check::{CheckStatus, check_config};
use std::alloc::Global;
use std::env;
use std::io::ErrorKind;
use std::net::{TcpListener, TcpStream};
use std::process::ExitCode;
use std::rt::{Env, Files};

/// The most bytes that are read at once.
const ROOM: usize = 65_536;

/// The words behind the program's name. Words that can't be had as text are none of the program's.
fn words(rt: &(impl Env + AllocGlobal)) -> Result<Vec<Text>, NoMemory> {
    let mut words = Vec::new(rt.alloc());
    match env::args(rt) {
        Ok(args) => {
            for arg in args.skip(1) {
                words.push(Text::from_string(arg))?;
            }
        }
        Err(e) => {
            if e.kind() == ErrorKind::OutOfMemory {
                return Err(NoMemory);
            }
        }
    }
    Ok(words)
}

/// Checks the settings on standard input.
fn check(rt: &HostRuntime, alloc: Global, words: &[Text]) -> Result<CheckStatus, NoMemory> {
    let mut settings = ReaderSource::make(alloc, rt.stdin(), ROOM)?;
    let mut out = WriterSink::new(rt.stdout());
    Ok(check_config(alloc, words, &mut settings, &mut out))
}

/// Says on standard error why there is no answer. Whether that can be written changes nothing.
fn explain(rt: &impl Eprint, status: &CheckStatus) {
    let _ = match status {
        CheckStatus::Done => Ok(()),
        CheckStatus::Usage => eprintln!(rt; "usage: sqlproxy check [--addr A --tenant T --now N]"),
        CheckStatus::BadSettings(fault) => eprintln!(rt; "bad settings: {fault}"),
        CheckStatus::ReadFault => eprintln!(rt; "read fault"),
        CheckStatus::WriteFault => eprintln!(rt; "write fault"),
        CheckStatus::NoMemory => eprintln!(rt; "no memory"),
        CheckStatus::TooLong => eprintln!(rt; "too long"),
        CheckStatus::Late(_) => eprintln!(rt; "late"),
    };
}

/// Says on standard error what went wrong with a server. Whether that can be written changes nothing.
fn explain_server(rt: &impl Eprint, alloc: Global, file: &str, status: &ServeStatus) {
    let _ = match fault_line(alloc, file, status) {
        Ok(line) => eprint!(rt; "{line}"),
        Err(_) => eprintln!(rt; "no memory"),
    };
}

fn checked(rt: &HostRuntime, alloc: Global, words: &[Text]) -> u8 {
    let status = match check(rt, alloc, words) {
        Ok(status) => status,
        Err(_) => CheckStatus::NoMemory,
    };
    explain(rt, &status);
    settings_check::code_of(&status)
}

fn help(rt: &HostRuntime) -> u8 {
    match print!(rt; "{}", help_text()) {
        Ok(()) => 0,
        Err(_) => {
            let _ = eprintln!(rt; "write fault");
            settings_check::code_of(&CheckStatus::WriteFault)
        }
    }
}

fn served<R: Host + Files + 'static>(rt: &R, alloc: Global, words: &ServeWords) -> u8 {
    let status = serve(rt, alloc, words);
    explain_server(rt, alloc, words.config.as_str(), &status);
    server_console::code_of(&status)
}

fn main(rt: HostRuntime) -> ExitCode {
    // The checker knows the types of the runtime's sockets here only where they are named here.
    let no_sockets: Option<(TcpListener, TcpStream)> = None;
    drop(no_sockets);
    let alloc = rt.alloc();
    let Ok(words) = words(&rt) else {
        let _ = eprintln!(rt; "no memory");
        return ExitCode::from(settings_check::code_of(&CheckStatus::NoMemory));
    };
    let code = match read_words(alloc, words.as_slice()) {
        Ok(Asked::Help) => help(&rt),
        Ok(Asked::Serve(words)) => served(&rt, alloc, &words),
        Ok(Asked::BadServe) => {
            let _ = eprint!(rt; "{}", usage_line());
            settings_check::code_of(&CheckStatus::Usage)
        }
        Ok(Asked::Other) => checked(&rt, alloc, words.as_slice()),
        Err(_) => {
            let _ = eprintln!(rt; "no memory");
            settings_check::code_of(&CheckStatus::NoMemory)
        }
    };
    ExitCode::from(code)
}
