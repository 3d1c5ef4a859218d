use super::*;
use pgw_frames::{NoMemory, Text};
use proxy_outside::{MemSink, MemSource};
use std::alloc::Global;
use std::test::*;

const SAMPLE: &str = r#"
listen = "127.0.0.1:26257"
period = 10
patience = 150
login_waits = 600

[[deny]]
network = "10.0.0.0/8"
until = 1700000000
reason = "abuse"

[[allow]]
tenant = 7
networks = ["10.0.0.0/8"]

[[tenant]]
id = 7
version = 1

[[tenant.pod]]
number = 1
place = "127.0.0.1:26301"
state = "running"

[[tenant.pod]]
number = 2
place = "127.0.0.1:26302"
state = "draining"

[[tenant]]
id = 9
version = 9223372036854775807
"#;

/// A check, with the numbers of the read and of the write that fail. The answer is the exit status.
fn checked(
    alloc: Global,
    line: &str,
    text: &str,
    failing: (u64, u64),
    out: &mut MemSink,
) -> Result<u8, NoMemory> {
    let mut words = Vec::new(alloc);
    for word in line.split(' ') {
        words.push(Text::of(alloc, word)?)?;
    }
    let mut settings = MemSource::make(alloc, text.as_bytes(), 100, &[2], &[failing.0])?;
    let status = check_config(alloc, words.as_slice(), &mut settings, out);
    drop(settings);
    let code = code_of(&status);
    drop(status);
    Ok(code)
}

#[test]
fn runs_of_the_program(rt: HostRuntime) -> Result<(), NoMemory> {
    let counts = "tenants 2 pods 2 deny 1 allow 1\n";
    let rows = [
        ("check", SAMPLE, (0, 0), 0, counts, ""),
        (
            "check --addr 10.1.2.3 --tenant 7 --now 1699999999",
            SAMPLE,
            (0, 0),
            0,
            counts,
            "admit denied 0\n",
        ),
        (
            "check --now=1700000000 --tenant=7 --addr=10.1.2.3",
            SAMPLE,
            (0, 0),
            0,
            counts,
            "admit pass\n",
        ),
        (
            "check --addr ::1 --tenant 7 --now 1700000000",
            SAMPLE,
            (0, 0),
            0,
            counts,
            "admit not-allowed\n",
        ),
        (
            "check --addr 10.1.2.3 --tenant 8 --now 1700000000",
            SAMPLE,
            (0, 0),
            0,
            counts,
            "admit no-tenant\n",
        ),
        (
            "check --addr 10.1.2.3 --tenant 9 --now 1700000000",
            SAMPLE,
            (0, 0),
            0,
            counts,
            "admit no-pod\n",
        ),
        // Words that ask for nothing.
        ("", SAMPLE, (1, 1), 2, "", ""),
        ("serve", SAMPLE, (1, 1), 2, "", ""),
        ("check --help", SAMPLE, (1, 1), 2, "", ""),
        ("check check", SAMPLE, (1, 1), 2, "", ""),
        (
            "check --addr 10.1.2.3 --tenant 7",
            SAMPLE,
            (1, 1),
            2,
            "",
            "",
        ),
        (
            "check --addr 10.1.2.3 --tenant 07 --now 0",
            SAMPLE,
            (1, 1),
            2,
            "",
            "",
        ),
        (
            "check --addr 10.1.2.3 --tenant 0 --now 0",
            SAMPLE,
            (1, 1),
            2,
            "",
            "",
        ),
        (
            "check --addr 10.1.2.3 --tenant 7 --now 9223372036854775808",
            SAMPLE,
            (1, 1),
            2,
            "",
            "",
        ),
        (
            "check --addr 10.1.2.256 --tenant 7 --now 0",
            SAMPLE,
            (1, 1),
            2,
            "",
            "",
        ),
        // Settings at fault, and streams.
        ("check", "listen = 1", (0, 0), 3, "", ""),
        ("check", SAMPLE, (3, 0), 4, "", ""),
        ("check", SAMPLE, (0, 1), 5, "", ""),
        ("check", SAMPLE, (0, 2), 5, "tenants 2 pods 2", ""),
    ];
    for (line, text, failing, status, first, second) in rows {
        let mut out = MemSink::make(rt.alloc(), 16, &[failing.1])?;
        let code = checked(rt.alloc(), line, text, failing, &mut out);
        assert_eq!(rt; code, Ok(status), "at {line}");
        let written = out.contents();
        assert!(rt; written.starts_with(first.as_bytes()), "at {line}");
        assert!(rt; written.ends_with(second.as_bytes()), "at {line}");
        assert_eq!(rt; written.len(), first.len() + second.len(), "at {line}");
    }
    Ok(())
}
