//! Commands: the calls of `mt_codec`, and copies of commands.
ghost use Rattle.std.specs.Prelude.{IfOk};
ghost use Rattle.mt_codec.specs.Spelling.{HasSpelling};

use crate::copies::{self, put_copy};
use crate::hex::{bytes_from, put_hex};
use crate::show::Show;
use mt_codec::{DecodeError, decode, encode, is_piece, laws};
use mt_rows::{Row, Rows, Stop};
use mt_types::{Body, Command};
use std::alloc::Global;

/// The bytes of the row `decode` that came last.
#[derive(Drop)]
pub struct Commands {
    bytes: Vec<u8>,
}

impl Commands {
    /// No bytes.
    pub fn new(alloc: Global) -> Commands {
        Commands {
            bytes: Vec::new(alloc),
        }
    }
}

// What is decoded, or `None` where no command is. Memory stops the row.
fn decoded(alloc: Global, bytes: &[u8]) -> Result<Option<Command<Body>>, Stop> {
    match decode(alloc, bytes) {
        Ok(command) => Ok(Some(command)),
        Err(DecodeError::NotACommand) => Ok(None),
        Err(DecodeError::Memory) => Err(Stop::Memory),
    }
}

// The command of bytes that are one.
fn command_of(alloc: Global, bytes: &[u8]) -> Result<Command<Body>, Stop>
    ensures { IfOk result (λ command. HasSpelling command) }
{
    match decode(alloc, bytes) {
        Ok(command) => Ok(command),
        Err(DecodeError::NotACommand) => Err(Stop::NoSuchRow),
        Err(DecodeError::Memory) => Err(Stop::Memory),
    }
}

// A value on a line of its own.
fn put_line<T: Drop + Show>(value: T, out: &mut String) -> Result<(), Stop> {
    out.push_str("\n    ")?;
    Ok(value.show(out)?)
}

fn put_decoded(alloc: Global, bytes: &[u8], out: &mut String) -> Result<(), Stop> {
    match decoded(alloc, bytes)? {
        Some(command) => put_line(command, out),
        None => Ok(out.push_str("NotACommand")?),
    }
}

fn put_copied(alloc: Global, bytes: &[u8], out: &mut String) -> Result<(), Stop> {
    match decoded(alloc, bytes)? {
        Some(command) => put_copy(alloc, command, "\n    ", out),
        None => Ok(out.push_str("NotACommand")?),
    }
}

// The text of what is decoded from the bytes of the command that was decoded.
fn put_again(alloc: Global, bytes: &[u8], out: &mut String) -> Result<(), Stop> {
    match again(alloc, bytes)? {
        Some(command) => put_line(command, out),
        None => Err(Stop::Memory),
    }
}

// What is decoded again, or `None` without memory.
fn again(alloc: Global, bytes: &[u8]) -> Result<Option<Command<Body>>, Stop> {
    let command = command_of(alloc, bytes)?;
    Ok(laws::decoded_again(alloc, &command).ok())
}

// The bytes of the command that was decoded.
fn encoded(alloc: Global, bytes: &[u8]) -> Result<Vec<u8>, Stop> {
    let command = command_of(alloc, bytes)?;
    laws::spelled_within_limits();
    match encode(alloc, &command) {
        Ok(bytes) => Ok(bytes),
        Err(_) => Err(Stop::Memory),
    }
}

fn put_encoded(alloc: Global, bytes: &[u8], out: &mut String) -> Result<(), Stop> {
    let again = encoded(alloc, bytes)?;
    write!(out, "\n    {} bytes: ", again.len())?;
    Ok(put_hex(out, &again)?)
}

fn is_command(alloc: Global, bytes: &[u8]) -> Result<bool, Stop> {
    Ok(decoded(alloc, bytes)?.is_some())
}

// How many bytes the command has, written again.
fn put_length(alloc: Global, bytes: &[u8], out: &mut String) -> Result<(), Stop> {
    if !is_command(alloc, bytes)? {
        return Ok(out.push_str("NotACommand")?);
    }
    Ok(write!(out, "{}", encoded(alloc, bytes)?.len())?)
}

// The lengths of the fronts that are commands, where bytes stand behind others.
fn put_fronts(alloc: Global, first: &[u8], behind: &[u8], out: &mut String) -> Result<(), Stop> {
    let mut bytes = Vec::from_slice(alloc, first)?;
    bytes.extend_from_slice(behind)?;
    out.push_str("commands at")?;
    for n in 0..=bytes.len() {
        if is_command(alloc, &bytes[..n])? {
            write!(out, " {n}")?;
        }
    }
    Ok(())
}

impl Rows for Commands {
    fn answer(
        &mut self,
        alloc: Global,
        _line: &str,
        row: &Row,
        out: &mut String,
    ) -> Result<(), Stop> {
        match row.text(0)? {
            "decode" => {
                self.bytes = bytes_from(alloc, row, 1)?;
                put_decoded(alloc, &self.bytes, out)
            }
            "copied" => put_copied(alloc, &self.bytes, out),
            "again" => put_again(alloc, &self.bytes, out),
            "encoded" => put_encoded(alloc, &self.bytes, out),
            "length" => put_length(alloc, &bytes_from(alloc, row, 1)?, out),
            "fronts" => put_fronts(alloc, &self.bytes, &bytes_from(alloc, row, 1)?, out),
            "piece" => Ok(write!(out, "{}", is_piece(&bytes_from(alloc, row, 1)?))?),
            _ => copies::answer(alloc, row, out),
        }
    }
}
