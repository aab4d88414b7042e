//! `settings_rows`: words of the command line and what they ask for, row by row. Its stored run is their table of cases.
#![tactic(auto)]

use mt_rows::{Row, Rows, Stop, print_table, put_escaped};
use mt_settings::{Mode, Settings, SettingsError, UsageFault};
use std::alloc::{AllocError, Global};
use std::io;

#[derive(Drop)]
struct Words;

impl Rows for Words {
    fn answer(
        &mut self,
        alloc: Global,
        _line: &str,
        row: &Row,
        out: &mut String,
    ) -> Result<(), Stop> {
        if row.call() != b"words".as_slice() {
            return Err(Stop::NoSuchRow);
        }
        let words = words_of(alloc, row)?;
        match Settings::read(alloc, &words) {
            Ok(settings) => put_settings(out, &settings)?,
            Err(SettingsError::Usage(fault)) => put_fault(out, fault)?,
            Err(SettingsError::Memory) => return Err(Stop::Memory),
        }
        Ok(())
    }
}

// The words of a row, behind its first.
fn words_of(alloc: Global, row: &Row) -> Result<Vec<String>, Stop> {
    let mut words = Vec::new(alloc);
    for place in 1..row.len() {
        words.push(String::from_str(alloc, row.text(place)?)?)?;
    }
    Ok(words)
}

fn put_settings(out: &mut String, settings: &Settings) -> Result<(), AllocError> {
    put_mode(out, &settings.mode)?;
    out.push_str(", login ")?;
    put_escaped(out, settings.login.as_bytes())?;
    out.push_str(", store ")?;
    put_escaped(out, settings.store.as_bytes())?;
    write!(out, ", {} slots", settings.slots)?;
    write!(out, ", {} bytes, helper ", settings.log_limit)?;
    put_escaped(out, settings.helper.as_bytes())?;
    out.push_str(", work ")?;
    put_escaped(out, settings.work.as_bytes())?;
    if let Some(moment) = settings.at {
        write!(out, ", at {moment}")?;
    }
    if let Some(launcher) = &settings.launcher {
        out.push_str(", launcher ")?;
        put_escaped(out, launcher.as_bytes())?;
    }
    Ok(())
}

fn put_mode(out: &mut String, mode: &Mode) -> Result<(), AllocError> {
    match mode {
        Mode::Session => out.push_str("session"),
        Mode::Serve {
            connections,
            listen,
        } => {
            write!(out, "serve {connections} at ")?;
            put_escaped(out, listen.as_bytes())
        }
    }
}

fn put_fault(out: &mut String, fault: UsageFault) -> Result<(), AllocError> {
    write!(out, "{fault:?}")
}

fn main(rt: HostRuntime) -> io::Result<()> {
    print_table(&rt, &mut Words)
}
