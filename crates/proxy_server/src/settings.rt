//! The file with the settings.

use pgw_frames::{Bytes, NoMemory, Text};
use proxy_config::{Settings, SettingsFault, read_settings};
use proxy_outside::ReaderSource;
use server_console::ServeStatus;
use settings_check::{Input, read_text};
use std::alloc::Global;
use std::fs;
use std::rt::Files;

/// The most bytes that are read at once.
const ROOM: usize = 4096;

fn text_of<E: std::fmt::Display + Drop>(alloc: Global, e: E) -> Result<Text, NoMemory> {
    Ok(Text::from_string(format!(in alloc; "{e}")?))
}

/// Opens the file.
pub(crate) fn open<R: Files>(
    rt: &R,
    alloc: Global,
    file: &str,
) -> Result<ReaderSource<R::File>, ServeStatus> {
    match fs::open(rt, file) {
        Ok(reader) => match ReaderSource::make(alloc, reader, ROOM) {
            Ok(source) => Ok(source),
            Err(_) => Err(ServeStatus::NoMemory),
        },
        Err(e) => Err(match text_of(alloc, e) {
            Ok(cause) => ServeStatus::NoFile(cause),
            Err(_) => ServeStatus::NoMemory,
        }),
    }
}

fn settings_of(alloc: Global, text: &Bytes) -> Result<Settings, ServeStatus> {
    match read_settings(alloc, text.as_slice()) {
        Ok(settings) => Ok(settings),
        Err(SettingsFault::NoMemory) => Err(ServeStatus::NoMemory),
        Err(fault) => Err(match text_of(alloc, fault) {
            Ok(fault) => ServeStatus::BadSettings(fault),
            Err(_) => ServeStatus::NoMemory,
        }),
    }
}

/// Reads the file for the first time: its text, and the settings.
pub(crate) fn first_settings<R: Files>(
    rt: &R,
    alloc: Global,
    file: &str,
) -> Result<(Bytes, Settings), ServeStatus> {
    let mut source = open(rt, alloc, file)?;
    let input = read_text(alloc, &mut source);
    drop(source);
    match input {
        Input::All(text) => {
            let settings = settings_of(alloc, &text)?;
            Ok((text, settings))
        }
        Input::ReadFault => Err(ServeStatus::ReadFault),
        Input::TooLong => Err(ServeStatus::TooLong),
        Input::Late(_) => Err(ServeStatus::Late),
        Input::NoMemory => Err(ServeStatus::NoMemory),
    }
}
