//! Another message, an error, a bad length, an end, a fault or no word, at each place of the exchange.

use crate::pods::{Then, new_pod, old_reply, pod_of};
use crate::trial::{Told, Trial, Why, tried};
use pgw_frames::NoMemory;
use std::test::*;

/// What may come at a place, and what it is for a link.
const ROWS: [(Then, Why); 7] = [
    (Then::Other, Why::Unexpected(b'1')),
    (Then::Error, Why::Unexpected(b'E')),
    (Then::Bad, Why::BadLength(3)),
    (Then::End, Why::Ended),
    (Then::Inside, Why::Ended),
    (Then::Fault, Why::ReadFault),
    (Then::Idle, Why::Late(2)),
];

/// What of the texts went to a new pod that sent so many messages.
fn sent_behind(count: usize) -> usize {
    if count < 3 { 55 } else { 126 }
}

#[test]
fn of_the_old_pod(rt: HostRuntime) -> Result<(), NoMemory> {
    let reply = old_reply();
    for count in 0..4usize {
        for (then, why) in &ROWS {
            let trial = tried(rt.alloc(), pod_of(&reply, count, *then), None, 10)?;
            assert_eq!(rt; trial.told, Told::OldCut(*why), "{then:?} behind {count}");
            assert_eq!(rt; (trial.asked, trial.dials, trial.sent), (true, 0, None));
        }
    }
    Ok(())
}

#[test]
fn of_the_new_pod(rt: HostRuntime) -> Result<(), NoMemory> {
    let reply = old_reply();
    let messages = new_pod();
    let old = pod_of(&reply, 4, Then::Other);
    for count in 0..7usize {
        for (then, why) in &ROWS {
            let trial = tried(rt.alloc(), old, Some(pod_of(&messages, count, *then)), 10)?;
            let told = if *then == Then::Error {
                Told::RevivalRefused
            } else {
                Told::NewCut(*why)
            };
            let want = Trial {
                told,
                asked: true,
                dials: 1,
                sent: Some(sent_behind(count)),
                next: Some(b'1'),
            };
            assert_eq!(rt; trial, want, "{then:?} behind {count}");
        }
    }
    Ok(())
}
