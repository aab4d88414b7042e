//! What the words of the command line ask for.
ghost use Rattle.std.specs.Prelude.{ℕ, List, ◌≡◌, ◌+◌, ◌<◌, ◌≤◌, ◌^◌, IfOk, IfSome, OnOk, Ok, Err, codes, map, string_bytes};
ghost use Rattle.mt_base.specs.declared.limits.TheConstants.{LAST_MOMENT};
ghost use Rattle.mt_settings.specs.Words.{AreWithin, given_or, lonely, mode_by, no_option, option_named, options_from, serves_by, settings_by, settings_of, tasks_in, with_named};

use crate::fault::{OptionFault, OptionName, SettingsError, UsageFault};
use crate::options::{Given, option_named};
use mt_base::Text;
use std::alloc::{AllocError, Global};

/// The tasks that run at once, unless the words say so.
const USUAL_SLOTS: u64 = 4;

/// The bytes that a log may have, unless the words say so.
const USUAL_LIMIT: u64 = 1 << 30;

/// The connections after which a serve ends, unless the words say so: the largest count of 64 bits.
const USUAL_CONNECTIONS: u64 = 18_446_744_073_709_551_615;

/// What is to be done.
#[derive(Debug, PartialEq, Eq, Drop)]
pub enum Mode {
    /// The requests of standard input are answered.
    Session,
    /// The requests of connections are answered, one connection after another.
    Serve {
        /// The number of connections after which it ends, 1 to 1,000,000; 18,446,744,073,709,551,615 unless given.
        connections: u64,
        /// The address that is listened at, which is not empty.
        listen: Text,
    },
}

/// What the words ask for.
#[derive(Debug, PartialEq, Eq, Drop)]
pub struct Settings {
    /// What is to be done.
    pub mode: Mode,
    /// The account's login, of 1 to 64 letters, digits, `_` or `-`.
    pub login: Text,
    /// The folder of the store, which is not empty.
    pub store: Text,
    /// How many tasks run at once, 1 to 64; 4 unless given.
    pub slots: u64,
    /// The bytes that the log may have, 9 to 68,719,476,736; 1,073,741,824 unless given.
    pub log_limit: u64,
    /// The folder of the tasks, which is not empty; `tasks` in that of the store unless given.
    pub work: Text,
    /// The program of the helpers: a name without `/`, or a path from the root; `marlin_helper` unless given.
    pub helper: Text,
    /// The program that runs tasks elsewhere: a name without `/`, or a path from the root, and not empty. Without it they run here.
    pub launcher: Option<Text>,
    /// The one moment of the clock, in seconds since 1970, at most 253,402,300,799; the system's time without it.
    pub at: Option<u64>,
}

// Whether the command serves connections, or is a session.
fn serves_by(command: &str) -> Option<bool>
    ensures { result ≡ serves_by command.now }
{
    if command == "session" {
        Some(false)
    } else if command == "serve" {
        Some(true)
    } else {
        None
    }
}

// Takes the option at a place, with its value.
fn add_named(
    alloc: Global,
    given: &mut Given,
    serves: bool,
    place: usize,
    name: &str,
    value: &str,
) -> Result<(), SettingsError>
    requires { place + 1 < 2 ^ 64 }
    ensures ok { OnOk result (with_named given.old (option_named serves name.now) place value.now ≡ Ok given.new) }
    ensures usage { (fault : UsageFault) → result ≡ Err (SettingsError.Usage fault) → with_named given.old (option_named serves name.now) place value.now ≡ Err fault }
{
    let Some(option) = option_named(serves, name) else {
        return Err(SettingsError::Usage(UsageFault::UnknownOption { word: place }));
    };
    match given.add(alloc, option, value)? {
        Ok(()) => Ok(()),
        Err(OptionFault::Twice) => Err(SettingsError::Usage(UsageFault::Twice { word: place })),
        Err(OptionFault::BadValue) => Err(SettingsError::Usage(UsageFault::BadValue {
            word: place + 1,
        })),
    }
}

// Why the last word, at a place, stands alone.
fn lonely(serves: bool, place: usize, name: &str) -> UsageFault
    ensures { result ≡ lonely (option_named serves name.now) place }
{
    match option_named(serves, name) {
        None => UsageFault::UnknownOption { word: place },
        Some(_) => UsageFault::NoValue { word: place },
    }
}

// The options among words, the first of which has place 0.
fn read_options(alloc: Global, serves: bool, words: &[String]) -> Result<Given, SettingsError>
    ensures ok { IfOk result (λ given. options_from serves no_option 0 (map string_bytes words.now) ≡ Ok given) }
    ensures usage { (fault : UsageFault) → result ≡ Err (SettingsError.Usage fault) → options_from serves no_option 0 (map string_bytes words.now) ≡ Err fault }
    ensures within { IfOk result AreWithin }
{
    let mut given = Given::none();
    let mut place = 0;
    let mut rest = words;
    'options: loop {
        match rest {
            [] => return Ok(given),
            [name] => return Err(SettingsError::Usage(lonely(serves, place, name.as_str()))),
            [name, value, more @ ..] => {
                add_named(
                    alloc,
                    &mut given,
                    serves,
                    place,
                    name.as_str(),
                    value.as_str(),
                )?;
                place += 2;
                rest = more;
            }
        }
    }
}

// What is to be done, by the options that a serve needs.
fn mode_by(serves: bool, connections: Option<u64>, listen: Option<Text>) -> Result<Mode, UsageFault>
    ensures { result ≡ mode_by serves connections listen }
{
    if !serves {
        return Ok(Mode::Session);
    }
    let Some(listen) = listen else {
        return Err(UsageFault::Missing(OptionName::Listen));
    };
    Ok(Mode::Serve {
        connections: connections.unwrap_or(USUAL_CONNECTIONS),
        listen,
    })
}

// The folder of tasks in that of the store.
fn tasks_in(alloc: Global, store: &str) -> Result<Text, AllocError>
    ensures { IfOk result (λ folder. folder ≡ tasks_in store.now) }
{
    let mut folder = String::from_str(alloc, store)?;
    folder.push_str("/tasks")?;
    Ok(Text::from_string(folder))
}

// The folder of tasks, where none was given that of the store.
fn work_or(alloc: Global, work: Option<Text>, store: &str) -> Result<Text, AllocError>
    ensures { IfOk result (λ folder. folder ≡ given_or work (tasks_in store.now)) }
{
    match work {
        Some(work) => Ok(work),
        None => tasks_in(alloc, store),
    }
}

// The program of the helpers.
fn helper_or(alloc: Global, helper: Option<Text>) -> Result<Text, AllocError>
    ensures { IfOk result (λ name. name ≡ given_or helper (codes "marlin_helper")) }
{
    match helper {
        Some(helper) => Ok(helper),
        None => Text::from_str(alloc, "marlin_helper"),
    }
}

// The settings by the options.
fn settings_from(alloc: Global, serves: bool, given: Given) -> Result<Settings, SettingsError>
    ensures ok { IfOk result (λ s. settings_by serves (Ok given) ≡ Ok s) }
    ensures usage { (fault : UsageFault) → result ≡ Err (SettingsError.Usage fault) → settings_by serves (Ok given) ≡ Err fault }
    ensures at { IfOk result (λ s. s.at ≡ given.at) }
{
    let Given {
        login,
        store,
        slots,
        log_limit,
        work,
        helper,
        launcher,
        at,
        connections,
        listen,
    } = given;
    let Some(login) = login else {
        return Err(SettingsError::Usage(UsageFault::Missing(OptionName::Login)));
    };
    let Some(store) = store else {
        return Err(SettingsError::Usage(UsageFault::Missing(OptionName::Store)));
    };
    let mode = match mode_by(serves, connections, listen) {
        Ok(mode) => mode,
        Err(fault) => return Err(SettingsError::Usage(fault)),
    };
    let work = work_or(alloc, work, store.as_str())?;
    let helper = helper_or(alloc, helper)?;
    Ok(Settings {
        mode,
        login,
        store,
        slots: slots.unwrap_or(USUAL_SLOTS),
        log_limit: log_limit.unwrap_or(USUAL_LIMIT),
        work,
        helper,
        launcher,
        at,
    })
}

impl Settings {
    /// What the words of the command line ask for: a command, and then options in any order, each at most once and with its value
    /// behind it. Where they ask for nothing, the first fault from their front.
    pub fn read(alloc: Global, words: &[String]) -> Result<Settings, SettingsError>
        ensures ok { IfOk result (λ s. settings_of (map string_bytes words.now) ≡ Ok s) }
        ensures usage { (fault : UsageFault) → result ≡ Err (SettingsError.Usage fault) → settings_of (map string_bytes words.now) ≡ Err fault }
        // A moment that is given is one that a clock has, at least one task runs at once, and at least one connection is served.
        ensures moment { IfOk result (λ s. IfSome s.at (λ moment. moment ≤ LAST_MOMENT)) }
        ensures slots { IfOk result (λ s. (0 < s.slots) × (s.slots ≤ 64)) }
        ensures connections { IfOk result (λ s. (n : ℕ) (listen : List ℕ) → s.mode ≡ Mode.Serve n listen → 0 < n) }
    {
        let [command, options @ ..] = words else {
            return Err(SettingsError::Usage(UsageFault::NoCommand));
        };
        let Some(serves) = serves_by(command.as_str()) else {
            return Err(SettingsError::Usage(UsageFault::UnknownCommand));
        };
        let given = read_options(alloc, serves, options)?;
        settings_from(alloc, serves, given)
    }
}
