//! What a check prints.

ghost use Rattle.std.specs.Prelude.{◌≡◌, IfOk, string_bytes};
ghost use Rattle.settings_check.specs.Answers.{pods_of, counts_line, trial_line, IsAnswer};

use crate::question::Question;
use crate::trial::{Trial, try_admission};
use pgw_frames::NoMemory;
use proxy_config::Settings;
use std::alloc::Global;
use tenant_directory::TenantRow;

/// The pods of all tenants.
fn pods_of(rows: &[TenantRow]) -> u128
    ensures { result ≡ pods_of rows.now }
{
    let mut pods = 0u128;
    for row in rows {
        pods += row.pods().len() as u128;
    }
    pods
}

fn counts_line(alloc: Global, settings: &Settings) -> Result<String, NoMemory>
    ensures { IfOk result (λ s. string_bytes s ≡ counts_line settings.now) }
{
    let tenants = settings.tenants.len();
    let pods = pods_of(settings.tenants.as_slice());
    let deny = settings.deny.len();
    let allow = settings.allow.len();
    Ok(format!(in alloc; "tenants {tenants} pods {pods} deny {deny} allow {allow}\n")?)
}

fn trial_line(alloc: Global, trial: Trial) -> Result<String, NoMemory>
    ensures { IfOk result (λ s. string_bytes s ≡ trial_line trial) }
{
    Ok(match trial {
        Trial::Pass => format!(in alloc; "admit pass\n")?,
        Trial::Denied(place) => format!(in alloc; "admit denied {place}\n")?,
        Trial::NotAllowed => format!(in alloc; "admit not-allowed\n")?,
        Trial::NoTenant => format!(in alloc; "admit no-tenant\n")?,
        Trial::NoPod => format!(in alloc; "admit no-pod\n")?,
    })
}

/// The lines that answer the question.
pub fn answer_to(
    alloc: Global,
    settings: &Settings,
    question: &Question,
) -> Result<String, NoMemory>
    ensures { IfOk result (λ s. IsAnswer settings.now question.now (string_bytes s)) }
{
    let mut text = counts_line(alloc, settings)?;
    match question {
        Question::Counts => Ok(text),
        Question::Admission(client) => {
            let trial = try_admission(alloc, settings, client)?;
            let line = trial_line(alloc, trial)?;
            text.push_str(line.as_str())?;
            Ok(text)
        }
    }
}
