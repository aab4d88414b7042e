//! The words behind `certify` and `check`.
ghost use Rattle.std.specs.Prelude.{◌≡◌, ◌+◌, ◌<◌, ◌^◌, IfOk, OnOk, Ok, Err, map, string_bytes, true, false};
ghost use Rattle.mt_ident.specs.Identifiers.{identifier_number};
ghost use Rattle.mt_path.specs.AccountPath.{IsLogin};
ghost use Rattle.mt_settings.specs.declared.fault.UsageFault.{UsageFault};
ghost use Rattle.mt_certify.specs.CertifyWords.{HasLogin, alone, begins_option, both_of, certify_words, check_words, no_option, options_from, with_login, with_option, with_store};
ghost use Rattle.mt_certify.specs.declared.words.WordsFault.{WordsFault};

use mt_base::Text;
use mt_ident::uuid_number;
use mt_path::is_login;
use mt_settings::{OptionName, SettingsError, UsageFault};
use std::alloc::Global;

/// The kind of a job's identifier.
const JOB: u8 = 2;

/// Which certificate is asked for.
#[derive(Debug, PartialEq, Eq, Drop)]
pub struct CertifyWords {
    /// The number of the job, where the word is an identifier of one.
    pub job: Option<u64>,
    /// The login of the account.
    pub login: Text,
    /// The folder of the store, which is not empty.
    pub store: Text,
}

/// The first fault of the words behind `certify`, from their front.
#[derive(Clone, Copy, Debug, PartialEq, Eq)]
pub enum WordsFault {
    /// The first word behind the command is missing, or begins an option.
    NoJob,
    /// The fault of an option: the words behind the job are counted from 0.
    Usage(UsageFault),
}

/// Why words ask for no certificate.
#[derive(Clone, Copy, Debug, PartialEq, Eq)]
pub enum WordsError {
    /// They are not of the grammar.
    Words(WordsFault),
    /// Out of memory.
    Memory,
}

/// The options so far.
#[derive(Drop)]
pub(crate) struct Chosen {
    pub(crate) login: Option<Text>,
    pub(crate) store: Option<Text>,
}

// Takes the login, from the option at a place.
fn take_login(
    alloc: Global,
    chosen: &mut Chosen,
    place: usize,
    value: &str,
) -> Result<(), SettingsError>
    requires { place + 1 < 2 ^ 64 }
    ensures ok { OnOk result (with_login chosen.old place value.now ≡ Ok chosen.new) }
    ensures usage { (fault : UsageFault) → result ≡ Err (SettingsError.Usage fault) → with_login chosen.old place value.now ≡ Err fault }
    ensures login { OnOk result (HasLogin chosen.new) }
{
    if chosen.login.is_some() {
        return Err(SettingsError::Usage(UsageFault::Twice { word: place }));
    }
    if !is_login(value.as_bytes()) {
        return Err(SettingsError::Usage(UsageFault::BadValue { word: place + 1 }));
    }
    chosen.login = Some(Text::from_str(alloc, value)?);
    Ok(())
}

// Takes the folder of the store, from the option at a place.
fn take_store(
    alloc: Global,
    chosen: &mut Chosen,
    place: usize,
    value: &str,
) -> Result<(), SettingsError>
    requires { place + 1 < 2 ^ 64 }
    ensures ok { OnOk result (with_store chosen.old place value.now ≡ Ok chosen.new) }
    ensures usage { (fault : UsageFault) → result ≡ Err (SettingsError.Usage fault) → with_store chosen.old place value.now ≡ Err fault }
    ensures same { chosen.new.login ≡ chosen.old.login }
{
    if chosen.store.is_some() {
        return Err(SettingsError::Usage(UsageFault::Twice { word: place }));
    }
    if value.is_empty() {
        return Err(SettingsError::Usage(UsageFault::BadValue { word: place + 1 }));
    }
    chosen.store = Some(Text::from_str(alloc, value)?);
    Ok(())
}

// Takes the option at a place, with its value.
fn add_option(
    alloc: Global,
    stored: bool,
    chosen: &mut Chosen,
    place: usize,
    name: &str,
    value: &str,
) -> Result<(), SettingsError>
    requires { place + 1 < 2 ^ 64 }
    ensures ok { OnOk result (with_option stored chosen.old place name.now value.now ≡ Ok chosen.new) }
    ensures usage { (fault : UsageFault) → result ≡ Err (SettingsError.Usage fault) → with_option stored chosen.old place name.now value.now ≡ Err fault }
    ensures login { HasLogin chosen.old → OnOk result (HasLogin chosen.new) }
{
    if name == "--login" {
        take_login(alloc, chosen, place, value)
    } else if stored && name == "--store" {
        take_store(alloc, chosen, place, value)
    } else {
        Err(SettingsError::Usage(UsageFault::UnknownOption { word: place }))
    }
}

// Why the last word, at a place, stands alone.
fn alone(stored: bool, place: usize, name: &str) -> UsageFault
    ensures { result ≡ alone stored place name.now }
{
    if name == "--login" || (stored && name == "--store") {
        UsageFault::NoValue { word: place }
    } else {
        UsageFault::UnknownOption { word: place }
    }
}

// The options among words, the first of which has place 0: a login, and a store where one may be named.
fn read_options(alloc: Global, stored: bool, words: &[String]) -> Result<Chosen, SettingsError>
    ensures ok { IfOk result (λ chosen. options_from stored no_option 0 (map string_bytes words.now) ≡ Ok chosen) }
    ensures usage { (fault : UsageFault) → result ≡ Err (SettingsError.Usage fault) → options_from stored no_option 0 (map string_bytes words.now) ≡ Err fault }
    ensures login { IfOk result HasLogin }
{
    let mut chosen = Chosen {
        login: None,
        store: None,
    };
    let mut place = 0;
    let mut rest = words;
    'options: loop {
        match rest {
            [] => return Ok(chosen),
            [name] => return Err(SettingsError::Usage(alone(stored, place, name.as_str()))),
            [name, value, more @ ..] => {
                add_option(
                    alloc,
                    stored,
                    &mut chosen,
                    place,
                    name.as_str(),
                    value.as_str(),
                )?;
                place += 2;
                rest = more;
            }
        }
    }
}

// An option that the command needs is not there.
fn missing(option: OptionName) -> UsageFault
    ensures { result ≡ UsageFault.Missing option }
{
    UsageFault::Missing(option)
}

// Whether a word begins an option.
fn begins_option(word: &str) -> bool
    ensures { result ≡ begins_option word.now }
{
    match word.as_bytes() {
        [b'-', ..] => true,
        _ => false,
    }
}

// The login and the store that words name, both of which are needed.
fn read_both(alloc: Global, words: &[String]) -> Result<(Text, Text), SettingsError>
    ensures ok { IfOk result (λ both. both_of (options_from true no_option 0 (map string_bytes words.now)) ≡ Ok both) }
    ensures usage { (fault : UsageFault) → result ≡ Err (SettingsError.Usage fault) → both_of (options_from true no_option 0 (map string_bytes words.now)) ≡ Err fault }
    ensures login { IfOk result (λ both. IsLogin both.0) }
{
    let Chosen { login, store } = read_options(alloc, true, words)?;
    let Some(login) = login else {
        return Err(SettingsError::Usage(missing(OptionName::Login)));
    };
    let Some(store) = store else {
        return Err(SettingsError::Usage(missing(OptionName::Store)));
    };
    Ok((login, store))
}

impl CertifyWords {
    /// Which certificate the words behind `certify` ask for: a job's identifier, and then options in any order, each at most once and
    /// with its value behind it. Where they ask for none, the first fault from their front. A word that is no identifier of a job
    /// names no job.
    pub fn read(alloc: Global, words: &[String]) -> Result<CertifyWords, WordsError>
        ensures ok { IfOk result (λ w. certify_words (map string_bytes words.now) ≡ Ok w) }
        ensures fault { (fault : WordsFault) → result ≡ Err (WordsError.Words fault) → certify_words (map string_bytes words.now) ≡ Err fault }
        ensures login { IfOk result (λ w. IsLogin w.login) }
    {
        let [job, options @ ..] = words else {
            return Err(WordsError::Words(WordsFault::NoJob));
        };
        if begins_option(job.as_str()) {
            return Err(WordsError::Words(WordsFault::NoJob));
        }
        match read_both(alloc, options) {
            Ok((login, store)) => Ok(CertifyWords {
                job: uuid_number(JOB, job.as_str().as_bytes()),
                login,
                store,
            }),
            Err(SettingsError::Usage(fault)) => Err(WordsError::Words(WordsFault::Usage(fault))),
            Err(SettingsError::Memory) => Err(WordsError::Memory),
        }
    }
}

/// The login that the words behind `check` name: `--login` and its value, and no other word.
pub fn read_check(alloc: Global, words: &[String]) -> Result<Text, SettingsError>
    ensures ok { IfOk result (λ login. check_words (map string_bytes words.now) ≡ Ok login) }
    ensures usage { (fault : UsageFault) → result ≡ Err (SettingsError.Usage fault) → check_words (map string_bytes words.now) ≡ Err fault }
    ensures login { IfOk result IsLogin }
{
    let Chosen { login, .. } = read_options(alloc, false, words)?;
    match login {
        Some(login) => Ok(login),
        None => Err(SettingsError::Usage(missing(OptionName::Login))),
    }
}
