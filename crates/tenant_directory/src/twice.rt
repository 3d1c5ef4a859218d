//! Pods that are listed twice.

ghost use Rattle.std.specs.Prelude.{IfOk};
ghost use Rattle.tenant_directory.specs.Pods.{TellsTwice};

use crate::pod::Pod;
use pgw_frames::NoMemory;
use proxy_outside::PodNo;
use std::alloc::Global;
use std::collections::BTreeSet;

/// The number at the first place whose number stands at an earlier place too.
pub(crate) fn first_twice(alloc: Global, pods: &[Pod]) -> Result<Option<PodNo>, NoMemory>
    ensures { IfOk result (TellsTwice pods.now) }
{
    let mut seen = BTreeSet::new(alloc);
    for pod in pods {
        let number = pod.place.pod;
        if !seen.insert(number)? {
            return Ok(Some(number));
        }
    }
    Ok(None)
}
