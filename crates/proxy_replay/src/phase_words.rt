//! The words for where a world stands.

ghost use Rattle.std.specs.Prelude.{◌≡◌, ◌++◌, IfOk};
ghost use Rattle.proxy_replay.specs.Report.{cut_word, close_words, phase_words};

use crate::number::add_number;
use forwarder_world::{Close, Phase};
use pgw_frames::{Bytes, NoMemory};
use transfer_stages::Cut;

fn word_of_cut(cut: &Cut) -> &'static [u8]
    ensures { result.now ≡ cut_word cut.now }
{
    match cut {
        Cut::Ended => b"ended",
        Cut::WriteFault => b"write",
        Cut::ReadFault | Cut::BadLength(_) | Cut::Unexpected(_) | Cut::Strayed(_) | Cut::Late(_) =>
            b"other",
    }
}

fn add_close(out: &mut Bytes, close: &Close) -> Result<(), NoMemory>
    ensures { IfOk result (λ _. out.new ≡ out.old ++ close_words close.now) }
{
    match close {
        Close::Bye => out.extend(b"bye"),
        Close::ClientCut => out.extend(b"clientcut"),
        Close::BadClient(n) => {
            out.extend(b"badclient ")?;
            add_number(out, *n as u64)
        }
        Close::PodEnded => out.extend(b"podended"),
        Close::PodWrite => out.extend(b"podwrite"),
        Close::ExchangeCut(cut) => {
            out.extend(b"exchangecut ")?;
            out.extend(word_of_cut(cut))?;
            Ok(())
        }
    }
}

/// The words for a phase.
pub(crate) fn add_phase(out: &mut Bytes, phase: &Phase) -> Result<(), NoMemory>
    ensures { IfOk result (λ _. out.new ≡ out.old ++ phase_words phase.now) }
{
    match phase {
        Phase::Running => out.extend(b"running"),
        Phase::Stop => out.extend(b"stop"),
        Phase::Parked => out.extend(b"parked"),
        Phase::Exchange => out.extend(b"exchange"),
        Phase::Closed(close) => {
            out.extend(b"closed ")?;
            add_close(out, close)
        }
    }
}
