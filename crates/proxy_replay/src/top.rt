//! The top call: a schedule in, a report out.

ghost use Rattle.std.specs.Prelude.{◌≡◌, ◌≢◌, ◌↔◌, ◌≤◌, List, length, IfOk};
ghost use Rattle.proxy_outside.specs.declared.identity.ClientKey.{ClientKey as Key};
ghost use Rattle.forwarder_world.specs.World.{World as model};
ghost use Rattle.pgw_messages.specs.declared.params.Pair.{Pair};
ghost use Rattle.forwarder_core.specs.Stands.{WorldStands};
ghost use Rattle.proxy_replay.specs.Generating.{HasBegun};
ghost use Rattle.proxy_replay.specs.Generations.{IsNoGen};
ghost use Rattle.proxy_replay.specs.Inputs.{most_bytes};
ghost use Rattle.proxy_replay.specs.Replaying.{report_by, IsRun, IsAnsweredBy, RunCase, GenCase, ReplaysText, CompletesText, Replays, Completes, CompletesGenerated};

use crate::commands::TallyCommands;
use crate::generation::{Generation, generation_of};
use crate::input::{Input, read_all};
use crate::output::write_all;
use crate::play::play;
use crate::report::report_of;
use crate::status::Status;
use crate::words::is_run;
use crate::{client, generated};
use forwarder_core::World;
use pgw_frames::{Bytes, NoMemory, Text};
use proxy_outside::{Sink, Source};
use session_model::Session;
use std::alloc::Global;
use tally_session::TallySession;

/// What a schedule is answered by.
#[derive(Debug, Drop)]
pub(crate) enum Answer {
    Report(Bytes),
    BadLine(u64),
}

/// The report of a World.
#[tactic(auto, unfolding(crate::specs::Replaying::report_by))]
fn report_for<S: Session>(alloc: Global, world: &World<S>) -> Result<Bytes, NoMemory>
    ensures { IfOk result (λ b. (key : Key) (p : List Pair) (d : model S.State S.Store.State S.Store.Command) → WorldStands S.state S.Store.stands_for key p world.now d → b ≡ report_by d) }
{
    let report = report_of(alloc, world.phase(), &world.counts(), world.received())?;
    Ok(report)
}

/// Plays a text to a World that has just begun, and answers it.
fn answer_by(
    alloc: Global,
    world: &mut World<TallySession>,
    text: &[u8],
) -> Result<Answer, NoMemory>
    requires { length text.now ≤ most_bytes }
    ensures { IfOk result (λ a. HasBegun world.old → IsAnsweredBy text.now a) }
{
    if let Some(n) = play::<TallySession, TallyCommands>(alloc, world, text)? {
        return Ok(Answer::BadLine(n));
    }
    let report = report_for(alloc, world)?;
    Ok(Answer::Report(report))
}

/// What a schedule is answered by over a tally session.
fn answer_to(alloc: Global, text: &[u8]) -> Result<Answer, NoMemory>
    requires { length text.now ≤ most_bytes }
    ensures { IfOk result (IsAnsweredBy text.now) }
{
    let params = client::params(alloc)?;
    let mut world = World::start(alloc, params, client::key())?;
    let answer = answer_by(alloc, &mut world, text);
    drop(world);
    answer
}

/// Answers a schedule to a sink.
fn run<K: Sink>(alloc: Global, text: &[u8], report: &mut K) -> Status
    requires { length text.now ≤ most_bytes }
    ensures { RunCase text.now (K.target report.old) (K.target report.new) result }
{
    match answer_to(alloc, text) {
        Err(_) => Status::NoMemory,
        Ok(Answer::BadLine(n)) => Status::BadLine(n),
        Ok(Answer::Report(text)) => {
            if write_all(report, text.as_slice()) {
                return Status::Done;
            }
            Status::WriteFault
        }
    }
}

/// Plays a schedule that is made from a number, and writes its summary.
fn generate<K: Sink>(alloc: Global, g: &Generation, report: &mut K) -> Status
    ensures { GenCase g.now.number g.now.messages (K.target report.old) (K.target report.new) result }
{
    match generated::summary(alloc, g) {
        Err(_) => Status::NoMemory,
        Ok(text) => {
            if write_all(report, text.as_slice()) {
                return Status::Done;
            }
            Status::WriteFault
        }
    }
}

/// Reads a schedule to its end, and writes the report of its World.
fn replay_text<S: Source, K: Sink>(alloc: Global, schedule: &mut S, report: &mut K) -> Status
    ensures causes { ReplaysText (S.origin schedule.old) (S.origin schedule.new) (K.target report.old) (K.target report.new) result }
    ensures complete { CompletesText (S.origin schedule.old) (S.origin schedule.new) (K.target report.old) (K.target report.new) result }
    ensures usage { result ≢ Status.Usage }
{
    match read_all(alloc, schedule) {
        Input::All(text) => run(alloc, text.as_slice(), report),
        Input::ReadFault => Status::ReadFault,
        Input::TooLong => Status::TooLong,
        Input::Late(n) => Status::Late(n),
        Input::NoMemory => Status::NoMemory,
    }
}

/// Reads a schedule to its end, and writes the report of its World: the words are `run`
/// or `run tally`. Of the World that is reported the answer says the headline. With `gen`, a number below 2^64 and a count from 1 to 100,000 it reads nothing, and
/// writes the summary of the World after the schedule of that number with so many messages.
pub fn replay<S: Source, K: Sink>(
    alloc: Global,
    words: &[Text],
    schedule: &mut S,
    report: &mut K,
) -> Status
    ensures causes { Replays words.now (S.origin schedule.old) (S.origin schedule.new) (K.target report.old) (K.target report.new) result }
    ensures usage { (result ≡ Status.Usage) ↔ ((¬ IsRun words.now) × IsNoGen words.now) }
    ensures complete { Completes words.now (S.origin schedule.old) (S.origin schedule.new) (K.target report.old) (K.target report.new) result }
    ensures complete_generated { CompletesGenerated words.now (K.target report.old) (K.target report.new) result }
{
    if let Some(g) = generation_of(words) {
        return generate(alloc, &g, report);
    }
    if is_run(words) {
        return replay_text(alloc, schedule, report);
    }
    Status::Usage
}

#[cfg(test)]
mod tests;
