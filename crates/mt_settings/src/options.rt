//! The options of a command, each read by its name.
ghost use Rattle.std.specs.Prelude.{◌≡◌, ◌==◌, IfOk};
ghost use Rattle.std.specs.List.{list_any};
ghost use Rattle.mt_settings.specs.Words.{is_program, no_option, number_within, once, option_named, taken, text_if, with_option};

use crate::fault::{OptionFault, OptionName};
use mt_base::{LAST_MOMENT, Text};
use mt_bytes::read_decimal;
use mt_path::is_login;
use std::alloc::{AllocError, Global};

/// The most tasks that run at once.
const MOST_SLOTS: u64 = 64;

/// The bytes of a log without a record: a log has no lower limit.
const LEAST_LIMIT: u64 = 9;

/// The largest limit of a log, in bytes.
const GREATEST_LIMIT: u64 = 1 << 36;

/// The most connections that are served.
const MOST_CONNECTIONS: u64 = 1_000_000;

/// The options so far.
#[derive(Debug, PartialEq, Eq, Drop)]
pub(crate) struct Given {
    pub(crate) login: Option<Text>,
    pub(crate) store: Option<Text>,
    pub(crate) slots: Option<u64>,
    pub(crate) log_limit: Option<u64>,
    pub(crate) work: Option<Text>,
    pub(crate) helper: Option<Text>,
    pub(crate) launcher: Option<Text>,
    pub(crate) at: Option<u64>,
    pub(crate) connections: Option<u64>,
    pub(crate) listen: Option<Text>,
}

/// The option of this name, among those of a session or, where it serves, of a serve.
pub(crate) fn option_named(serves: bool, name: &str) -> Option<OptionName>
    ensures { result ≡ option_named serves name.now }
{
    if name == "--login" {
        Some(OptionName::Login)
    } else if name == "--store" {
        Some(OptionName::Store)
    } else if name == "--slots" {
        Some(OptionName::Slots)
    } else if name == "--log-limit" {
        Some(OptionName::LogLimit)
    } else if name == "--work" {
        Some(OptionName::Work)
    } else if name == "--helper" {
        Some(OptionName::Helper)
    } else if name == "--launcher" {
        Some(OptionName::Launcher)
    } else if name == "--at" {
        Some(OptionName::At)
    } else if serves && name == "--connections" {
        Some(OptionName::Connections)
    } else if serves && name == "--listen" {
        Some(OptionName::Listen)
    } else {
        None
    }
}

// Whether a `/` is among the bytes.
fn has_slash(name: &[u8]) -> bool
    ensures { result ≡ list_any (λ b. b == 47) name.now }
{
    name.iter().any(|byte| *byte == b'/')
}

// Whether a word names a program: by its name alone, or by its path from the root.
fn is_program(name: &str) -> bool
    ensures { result ≡ is_program name.now }
{
    !name.is_empty() && (name.starts_with("/") || !has_slash(name.as_bytes()))
}

// The number that a word writes, where it is between two bounds.
fn number_within(least: u64, most: u64, word: &str) -> Option<u64>
    ensures { result ≡ number_within least most word.now }
{
    match read_decimal(word.as_bytes()) {
        Some(number) => {
            if least <= number && number <= most {
                Some(number)
            } else {
                None
            }
        }
        None => None,
    }
}

// Takes a number, unless one came before.
fn take_number(slot: &mut Option<u64>, number: Option<u64>) -> Result<(), OptionFault>
    ensures { taken result slot.new ≡ once slot.old number }
{
    if slot.is_some() {
        return Err(OptionFault::Twice);
    }
    match number {
        None => Err(OptionFault::BadValue),
        Some(number) => {
            *slot = Some(number);
            Ok(())
        }
    }
}

// Takes a text that is fine, unless one came before.
fn take_text(
    alloc: Global,
    slot: &mut Option<Text>,
    is_fine: bool,
    text: &str,
) -> Result<Result<(), OptionFault>, AllocError>
    ensures { IfOk result (λ done. taken done slot.new ≡ once slot.old (text_if is_fine text.now)) }
{
    if slot.is_some() {
        return Ok(Err(OptionFault::Twice));
    }
    if !is_fine {
        return Ok(Err(OptionFault::BadValue));
    }
    *slot = Some(Text::from_str(alloc, text)?);
    Ok(Ok(()))
}

impl Given {
    /// No option.
    pub(crate) fn none() -> Given
        ensures { result ≡ no_option }
    {
        Given {
            login: None,
            store: None,
            slots: None,
            log_limit: None,
            work: None,
            helper: None,
            launcher: None,
            at: None,
            connections: None,
            listen: None,
        }
    }

    /// Takes an option with its value. After a refusal the options are not to be used.
    pub(crate) fn add(
        &mut self,
        alloc: Global,
        option: OptionName,
        value: &str,
    ) -> Result<Result<(), OptionFault>, AllocError>
        ensures { IfOk result (λ done. taken done self.new ≡ with_option self.old option value.now) }
    {
        match option {
            OptionName::Login => take_text(
                alloc,
                &mut self.login,
                is_login(value.as_bytes()),
                value,
            ),
            OptionName::Store => take_text(alloc, &mut self.store, !value.is_empty(), value),
            OptionName::Slots => Ok(take_number(
                &mut self.slots,
                number_within(1, MOST_SLOTS, value),
            )),
            OptionName::LogLimit => Ok(take_number(
                &mut self.log_limit,
                number_within(LEAST_LIMIT, GREATEST_LIMIT, value),
            )),
            OptionName::Work => take_text(alloc, &mut self.work, !value.is_empty(), value),
            OptionName::Helper => take_text(alloc, &mut self.helper, is_program(value), value),
            OptionName::Launcher => take_text(alloc, &mut self.launcher, is_program(value), value),
            OptionName::At => Ok(take_number(&mut self.at, number_within(0, LAST_MOMENT, value))),
            OptionName::Connections => Ok(take_number(
                &mut self.connections,
                number_within(1, MOST_CONNECTIONS, value),
            )),
            OptionName::Listen => take_text(alloc, &mut self.listen, !value.is_empty(), value),
        }
    }
}
