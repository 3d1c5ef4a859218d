use super::*;
use forwarder_world::Event;
use std::test::*;

/// Turn 0 of the number 42: by the first words of PCG's reference output, 0xa15c02b7, 0x7b47f409,
/// 0xba1d3330, 0x83d2f293, 0xbfa4784b and 0xcbed606e, a whole transfer whose key is the last four.
#[test]
fn a_transfer_by_reference_words(rt: HostRuntime) -> Result<(), Fail> {
    let mut words = Words::of(42);
    let events = turn(rt.alloc(), 0, &mut words)?;
    assert_eq!(rt; events.len(), 25);
    match events.get(3) {
        Some(Event::Start(key)) => {
            assert_eq!(rt; key.high, 0xba1d333083d2f293);
            assert_eq!(rt; key.low, 0xbfa4784bcbed606e);
        }
        _ => assert!(rt; false),
    }
    assert_eq!(rt; first_events(rt.alloc())?.len(), 4);
    Ok(())
}
