//! Reading the settings again, and having sessions moved.

use crate::common::Common;
use crate::seated::Seated;
use crate::settings::open;
use bell_hub::BellRinger;
use pgw_frames::{NoMemory, Text};
use pod_drain::{DrainFault, Watch, drain_round};
use proxy_config::Settings;
use proxy_hub::{DeskPort, HubPort};
use server_console::{ServeStatus, drain_line, settings_line, trouble_line};
use server_host::moment;
use settings_reread::{LastText, Reread};
use std::alloc::Global;
use std::rt::Files;
use std::sync::Wait;
use std::time::{Clock, Duration};

/// What the drain controller goes by.
#[derive(Drop)]
pub(crate) struct Plan {
    /// The name of the file with the settings.
    pub(crate) file: Text,
    /// Its text as it was read last.
    pub(crate) last: LastText,
    /// Settings that the hub hasn't been told whole.
    pub(crate) fresh: Option<Settings>,
    pub(crate) watch: Watch,
    /// The seconds between two readings.
    pub(crate) period: u64,
}

/// What a reading has to say, if anything.
fn news_of(plan: &mut Plan, alloc: Global, news: Reread) -> Result<Option<String>, NoMemory> {
    Ok(match news {
        Reread::Same => None,
        Reread::Changed(settings) => {
            plan.fresh = Some(settings);
            Some(format!(in alloc; "changed")?)
        }
        Reread::BadSettings(fault) => Some(format!(in alloc; "{fault}")?),
        Reread::ReadFault => Some(format!(in alloc; "read fault")?),
        Reread::TooLong => Some(format!(in alloc; "too long")?),
        Reread::Late(_) => Some(format!(in alloc; "late")?),
        Reread::NoMemory => Some(format!(in alloc; "no memory")?),
    })
}

/// Reads the settings again.
fn reread<R: Files>(rt: &R, alloc: Global, plan: &mut Plan) -> Result<Option<String>, NoMemory> {
    match open(rt, alloc, plan.file.as_str()) {
        Ok(mut source) => {
            let news = plan.last.reread(alloc, &mut source);
            drop(source);
            news_of(plan, alloc, news)
        }
        Err(ServeStatus::NoFile(cause)) => Ok(Some(cause.into_string())),
        Err(other) => {
            drop(other);
            Err(NoMemory)
        }
    }
}

fn say_news<R: Wait + Clock + Eprint>(
    rt: &R,
    alloc: Global,
    common: &Common,
    news: Result<Option<String>, NoMemory>,
) {
    match news {
        Ok(None) => {}
        Ok(Some(text)) => {
            let line = settings_line(alloc, moment(rt), text.as_str());
            common.console.say(rt, line);
        }
        Err(_) => {
            let line = settings_line(alloc, moment(rt), "no memory");
            common.console.say(rt, line);
        }
    }
}

fn fault_word(fault: DrainFault) -> &'static str {
    match fault {
        DrainFault::NoMemory => "no memory",
        DrainFault::Hub(_) => "the hub takes no more commands",
    }
}

/// Tells the hub what is new, and rings the sessions that shall move.
fn round<R: Wait + Clock + Eprint, H: HubPort>(
    rt: &R,
    alloc: Global,
    common: &Common,
    plan: &mut Plan,
    hub: &mut H,
) {
    let mut bells = BellRinger::new(rt, &common.bells);
    let is_new = plan.fresh.is_some();
    let answer = drain_round(
        rt,
        alloc,
        plan.fresh.as_ref(),
        &mut plan.watch,
        hub,
        &mut bells,
    );
    match answer {
        Ok(rung) => {
            plan.fresh = None;
            if is_new || rung > 0 {
                common.console.say(rt, drain_line(alloc, moment(rt), rung));
            }
        }
        Err(fault) => {
            let line = trouble_line(alloc, moment(rt), "drain", fault_word(fault));
            common.console.say(rt, line);
        }
    }
}

/// Reads the settings again and again, and has sessions moved, until so many connections have ended.
pub(crate) fn drain_all<R>(
    rt: &R,
    alloc: Global,
    seated: Seated,
    mut plan: Plan,
    sessions: Option<u64>,
)
where
    R: Wait + Clock + Files + Eprint,
{
    let (common, seat) = seated.parts();
    let mut hub = DeskPort::make(&common.desk, seat);
    let period = Duration::from_secs(plan.period);
    for _ in rt.forever() {
        if common.ends.wait_at_most(rt, sessions, period) {
            return;
        }
        let news = reread(rt, alloc, &mut plan);
        say_news(rt, alloc, &common, news);
        round(rt, alloc, &common, &mut plan, &mut hub);
    }
}
