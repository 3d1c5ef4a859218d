use super::*;
use std::test::*;

#[test]
fn a_job_that_is_handed_back_is_counted(rt: HostRuntime) {
    let mut spawner = StartBy {
        start: |job: u8| {
            if job < 2 {
                Started::Started
            } else {
                Started::Failed(job)
            }
        },
        faults: 0,
    };
    for (job, faults) in [(1, 0), (2, 1), (3, 2), (0, 2)] {
        match spawner.start(job) {
            Started::Started => assert!(rt; job < 2, "at {job}"),
            Started::Failed(back) => assert_eq!(rt; back, job),
        }
        assert_eq!(rt; spawner.faults, faults, "at {job}");
    }
}
