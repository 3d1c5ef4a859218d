//! The top call: settings in, an answer out.

ghost use Rattle.std.specs.Prelude.{◌≡◌, ◌≤◌, length};
ghost use Rattle.settings_check.specs.Inputs.{most_bytes};
ghost use Rattle.settings_check.specs.Checking.{AnswersBy, ChecksText, Checks, CompletesText, Completes};

use crate::answer::answer_to;
use crate::input::{Input, read_text};
use crate::question::{Question, question_of};
use crate::status::CheckStatus;
use link_io::write_all;
use pgw_frames::{NoMemory, Text};
use proxy_config::{Settings, SettingsFault, read_settings};
use proxy_outside::{Sink, Source};
use std::alloc::Global;

/// Answers a question on settings to a sink.
fn answer<K: Sink>(alloc: Global, text: &[u8], question: &Question, out: &mut K) -> CheckStatus
    ensures { AnswersBy result text.now question.now (K.target out.old) (K.target out.new) }
{
    match read_settings(alloc, text) {
        Err(SettingsFault::NoMemory) => CheckStatus::NoMemory,
        Err(fault) => CheckStatus::BadSettings(fault),
        Ok(settings) => {
            let answer = answer_to(alloc, &settings, question);
            drop(settings);
            match answer {
                Err(_) => CheckStatus::NoMemory,
                Ok(lines) => if write_all(out, lines.as_bytes()) {
                    CheckStatus::Done
                } else {
                    CheckStatus::WriteFault
                },
            }
        }
    }
}

/// Reads settings to their end, and answers a question on them.
fn check_text<S: Source, K: Sink>(
    alloc: Global,
    question: &Question,
    settings: &mut S,
    out: &mut K,
) -> CheckStatus
    ensures causes { ChecksText question.now (S.origin settings.old) (S.origin settings.new) (K.target out.old) (K.target out.new) result }
    ensures complete { CompletesText (S.origin settings.old) (S.origin settings.new) (K.target out.old) (K.target out.new) result }
{
    match read_text(alloc, settings) {
        Input::All(text) => answer(alloc, text.as_slice(), question, out),
        Input::ReadFault => CheckStatus::ReadFault,
        Input::TooLong => CheckStatus::TooLong,
        Input::Late(n) => CheckStatus::Late(n),
        Input::NoMemory => CheckStatus::NoMemory,
    }
}

/// Checks settings. The words are `check`, and then nothing or an address, a tenant and a moment, as
/// `--addr 10.1.2.3 --tenant 7 --now 1700000000`: then the answer of a new hub with these settings to its first
/// client is printed too. The settings are read to their end before anything is written.
pub fn check_config<S: Source, K: Sink>(
    alloc: Global,
    words: &[Text],
    settings: &mut S,
    out: &mut K,
) -> CheckStatus
    ensures causes { Checks words.now (S.origin settings.old) (S.origin settings.new) (K.target out.old) (K.target out.new) result }
    ensures complete { Completes words.now (S.origin settings.old) (S.origin settings.new) (K.target out.old) (K.target out.new) result }
{
    match question_of(alloc, words) {
        Err(_) => CheckStatus::NoMemory,
        Ok(None) => CheckStatus::Usage,
        Ok(Some(question)) => check_text(alloc, &question, settings, out),
    }
}
