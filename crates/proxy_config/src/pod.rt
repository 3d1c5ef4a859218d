//! Pods of a tenant.

ghost use Rattle.std.specs.Prelude.{◌≡◌, ◌==◌};
ghost use Rattle.std.specs.List.{list_any};
ghost use Rattle.proxy_config.specs.Reading.{Gives};
ghost use Rattle.proxy_config.specs.Sections.{part_of};
ghost use Rattle.proxy_config.specs.Settings.{state_of, state, pod_by, pod_of, pod_at};

use crate::allow::once;
use crate::deny::MOST_NUMBER;
use crate::entry::Entry;
use crate::fault::SettingsFault;
use crate::section::{Section, path_below, table_at};
use crate::settings::Spot;
use proxy_outside::{Place, PodNo};
use std::alloc::Global;
use tenant_directory::{Pod, PodState};
use toml::Value;

fn state_of(word: &str) -> Option<PodState>
    ensures { result ≡ state_of word.now }
{
    if word == "running" {
        return Some(PodState::Running);
    }
    if word == "draining" {
        return Some(PodState::Draining);
    }
    None
}

fn is_there(before: &[Pod], number: u64) -> bool
    ensures { result ≡ list_any (λ p. p.place.pod.0 == number) before.now }
{
    before.iter().any(|p| p.place.pod.0 as u64 == number)
}

fn pod_by(number: u32, spot: Spot, state: PodState) -> Pod
    ensures { result ≡ pod_by number spot state }
{
    Pod {
        place: Place {
            pod: PodNo(number),
            addr: spot.addr,
            port: spot.port,
        },
        state,
    }
}

fn state(section: &Section<'_>) -> Result<PodState, SettingsFault>
    ensures { Gives result (state (part_of section.now)) }
{
    let word = section.text("state")?;
    let Some(state) = state_of(word) else {
        return Err(SettingsFault::OutOfRange(section.key("state")?));
    };
    Ok(state)
}

fn pod_of(before: &[Pod], section: &Section<'_>) -> Result<Pod, SettingsFault>
    ensures { Gives result (pod_of before.now (part_of section.now)) }
{
    section.known(&["number", "place", "state"])?;
    let number = section.number("number", 1, MOST_NUMBER)?;
    let pod = once(section, "number", is_there(before, number), number)?;
    let spot = section.spot("place")?;
    let state = state(section)?;
    Ok(pod_by(pod, spot, state))
}

impl Entry for Pod {
    ghost at = { pod_at };

    fn read(alloc: Global, before: &[Pod], key: &str, value: &Value) -> Result<Pod, SettingsFault> {
        let table = table_at(alloc, key, value)?;
        let path = path_below(alloc, key)?;
        pod_of(before, &Section::new(alloc, path.as_str(), table))
    }
}
