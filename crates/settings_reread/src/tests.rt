use super::*;
use pgw_frames::{Bytes, NoMemory};
use proxy_outside::MemSource;
use std::alloc::Global;
use std::test::*;

const FIRST: &str = "listen = \"127.0.0.1:1\"\n";

/// What comes of a reading, as a word.
fn word(news: Reread) -> &'static str {
    let word = match &news {
        Reread::Same => "same",
        Reread::Changed(_) => "changed",
        Reread::BadSettings(_) => "bad settings",
        Reread::ReadFault => "read fault",
        Reread::TooLong => "too long",
        Reread::Late(_) => "late",
        Reread::NoMemory => "no memory",
    };
    drop(news);
    word
}

fn read_again(
    last: &mut LastText,
    alloc: Global,
    text: &str,
    failing: u64,
) -> Result<&'static str, NoMemory> {
    let mut source = MemSource::make(alloc, text.as_bytes(), 16, &[2], &[failing])?;
    let news = last.reread(alloc, &mut source);
    drop(source);
    Ok(word(news))
}

#[test]
fn readings_one_after_another(rt: HostRuntime) -> Result<(), NoMemory> {
    let mut last = LastText::new(Bytes::of(rt.alloc(), FIRST.as_bytes())?);
    // What is at fault is told once, and a text that counted before is new again behind it.
    let rows = [
        (FIRST, 0, "same"),
        ("listen = \"127.0.0.1:2\"", 0, "changed"),
        ("listen = \"127.0.0.1:2\"", 0, "same"),
        ("listen = 3", 0, "bad settings"),
        ("listen = 3", 0, "same"),
        (FIRST, 1, "read fault"),
        ("listen = 3", 0, "same"),
        (FIRST, 0, "changed"),
    ];
    for (text, failing, want) in rows {
        let got = read_again(&mut last, rt.alloc(), text, failing);
        assert_eq!(rt; got, Ok(want), "at {text}");
    }
    Ok(())
}
