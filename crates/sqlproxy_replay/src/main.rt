//! `sqlproxy-replay`: a written schedule on standard input, the report of its World on standard output.
//!
//! Everything that matters stands in `proxy_replay`. Here are the words, the streams, and the one line
//! on standard error.
#![tactic(auto)]

use pgw_frames::{NoMemory, Text};
use proxy_outside::{ReaderSource, WriterSink};
use proxy_replay::{Status, code_of, replay};
use std::alloc::Global;
use std::env;
use std::io::ErrorKind;
use std::process::ExitCode;
use std::rt::Env;

/// The most bytes that are read at once.
const ROOM: usize = 65_536;

/// The words behind the program's name. Words that can't be had as text are none of the program's.
fn words(rt: &(impl Env + AllocGlobal)) -> Result<Vec<Text>, NoMemory> {
    let mut words = Vec::new(rt.alloc());
    match env::args(rt) {
        Ok(args) => {
            for arg in args.skip(1) {
                words.push(Text::from_string(arg))?;
            }
        }
        Err(e) => {
            if e.kind() == ErrorKind::OutOfMemory {
                return Err(NoMemory);
            }
        }
    }
    Ok(words)
}

/// Replays standard input to standard output.
fn run(rt: &HostRuntime, alloc: Global) -> Result<Status, NoMemory> {
    let words = words(rt)?;
    let mut schedule = ReaderSource::make(alloc, rt.stdin(), ROOM)?;
    let mut report = WriterSink::new(rt.stdout());
    Ok(replay(alloc, words.as_slice(), &mut schedule, &mut report))
}

/// Says on standard error why there is no report. Whether that can be written changes nothing.
fn explain(rt: &impl Eprint, status: Status) {
    let _ = match status {
        Status::Done => Ok(()),
        Status::Usage => eprintln!(rt; "usage: sqlproxy-replay run [tally|mini] | gen N M"),
        Status::BadLine(n) => eprintln!(rt; "bad line {n}"),
        Status::ReadFault => eprintln!(rt; "read fault"),
        Status::WriteFault => eprintln!(rt; "write fault"),
        Status::NoMemory => eprintln!(rt; "no memory"),
        Status::TooLong => eprintln!(rt; "too long"),
        Status::Late(_) => eprintln!(rt; "late"),
    };
}

fn main(rt: HostRuntime) -> ExitCode {
    let status = match run(&rt, rt.alloc()) {
        Ok(status) => status,
        Err(_) => Status::NoMemory,
    };
    explain(&rt, status);
    ExitCode::from(code_of(status))
}
