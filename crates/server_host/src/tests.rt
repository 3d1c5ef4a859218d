use super::*;
use std::test::*;
use std::time::Duration;

#[test]
fn connections_that_begin_and_end(rt: HostRuntime) {
    let ends = Ends::new();
    assert_eq!(rt; ends.begin(&rt), 1);
    assert_eq!(rt; ends.begin(&rt), 2);
    ends.end(&rt);
    assert_eq!(rt; ends.begin(&rt), 2);
    ends.end(&rt);
    ends.wait(&rt, Some(2));
    assert!(rt; ends.wait_at_most(&rt, Some(2), Duration::from_secs(60)));
    assert!(rt; !ends.wait_at_most(&rt, Some(3), Duration::from_millis(1)));
}
