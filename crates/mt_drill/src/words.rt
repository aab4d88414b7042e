//! The words of a drill, behind its command.
ghost use Rattle.std.specs.Prelude.{◌≡◌, ◌+◌, ◌<◌, ◌≤◌, ◌^◌, IfOk, IfSome, OnOk, Ok, Err, map, string_bytes};
ghost use Rattle.mt_base.specs.declared.limits.TheConstants.{LAST_MOMENT};
ghost use Rattle.mt_settings.specs.Words.{number_within};
ghost use Rattle.mt_settings.specs.declared.fault.UsageFault.{UsageFault};
ghost use Rattle.mt_drill.specs.DrillWords.{AreWithin, alone, no_option, options_from, with_at, with_option, with_store, words_of};
ghost use Rattle.mt_drill.specs.declared.words.WordsFault.{WordsFault};

use mt_base::{LAST_MOMENT, Text};
use mt_bytes::read_decimal;
use mt_settings::{OptionName, SettingsError, UsageFault};
use std::alloc::{AllocError, Global};

/// A drill has at most so many objects.
const MOST_OBJECTS: u64 = 10_000;

/// What a drill is asked to do.
#[derive(Debug, PartialEq, Eq, Drop)]
pub struct DrillWords {
    /// How many objects it has, 1 to 10,000.
    pub count: u32,
    /// The folder of the store, which is not empty.
    pub store: Text,
    /// The one moment of the clock, in seconds since 1970, at most 253,402,300,799; the system's time without it.
    pub at: Option<u64>,
}

/// The first fault of the words, from their front.
#[derive(Clone, Copy, Debug, PartialEq, Eq)]
pub enum WordsFault {
    /// There is no word behind the command.
    NoCount,
    /// The word behind the command is no decimal from 1 to 10,000.
    BadCount,
    /// The fault of an option: the words behind the number are counted from 0.
    Usage(UsageFault),
}

/// Why words ask for no drill.
#[derive(Clone, Copy, Debug, PartialEq, Eq)]
pub enum WordsError {
    /// They are not of the grammar.
    Words(WordsFault),
    /// Out of memory.
    Memory,
}

/// The options so far.
#[derive(Drop)]
pub(crate) struct Chosen {
    pub(crate) store: Option<Text>,
    pub(crate) at: Option<u64>,
}

// The number that a word writes, where it is between two bounds.
fn number_within(least: u64, most: u64, word: &str) -> Option<u64>
    ensures number { result ≡ number_within least most word.now }
    ensures within { IfSome result (λ n. (least ≤ n) × (n ≤ most)) }
{
    match read_decimal(word.as_bytes()) {
        Some(number) => {
            if least <= number && number <= most {
                Some(number)
            } else {
                None
            }
        }
        None => None,
    }
}

// Takes the folder of the store, from the option at a place.
fn take_store(
    alloc: Global,
    chosen: &mut Chosen,
    place: usize,
    value: &str,
) -> Result<(), SettingsError>
    requires { place + 1 < 2 ^ 64 }
    ensures ok { OnOk result (with_store chosen.old place value.now ≡ Ok chosen.new) }
    ensures usage { (fault : UsageFault) → result ≡ Err (SettingsError.Usage fault) → with_store chosen.old place value.now ≡ Err fault }
    ensures same { chosen.new.at ≡ chosen.old.at }
{
    if chosen.store.is_some() {
        return Err(SettingsError::Usage(UsageFault::Twice { word: place }));
    }
    if value.is_empty() {
        return Err(SettingsError::Usage(UsageFault::BadValue { word: place + 1 }));
    }
    chosen.store = Some(Text::from_str(alloc, value)?);
    Ok(())
}

// Takes the moment of the clock, from the option at a place.
fn take_at(chosen: &mut Chosen, place: usize, value: &str) -> Result<(), SettingsError>
    requires { place + 1 < 2 ^ 64 }
    ensures ok { OnOk result (with_at chosen.old place value.now ≡ Ok chosen.new) }
    ensures usage { (fault : UsageFault) → result ≡ Err (SettingsError.Usage fault) → with_at chosen.old place value.now ≡ Err fault }
    ensures within { OnOk result (AreWithin chosen.new) }
{
    if chosen.at.is_some() {
        return Err(SettingsError::Usage(UsageFault::Twice { word: place }));
    }
    match number_within(0, LAST_MOMENT, value) {
        None => Err(SettingsError::Usage(UsageFault::BadValue { word: place + 1 })),
        Some(moment) => {
            chosen.at = Some(moment);
            Ok(())
        }
    }
}

// Takes the option at a place, with its value.
fn add_option(
    alloc: Global,
    chosen: &mut Chosen,
    place: usize,
    name: &str,
    value: &str,
) -> Result<(), SettingsError>
    requires { place + 1 < 2 ^ 64 }
    ensures ok { OnOk result (with_option chosen.old place name.now value.now ≡ Ok chosen.new) }
    ensures usage { (fault : UsageFault) → result ≡ Err (SettingsError.Usage fault) → with_option chosen.old place name.now value.now ≡ Err fault }
    ensures within { AreWithin chosen.old → OnOk result (AreWithin chosen.new) }
{
    if name == "--store" {
        take_store(alloc, chosen, place, value)
    } else if name == "--at" {
        take_at(chosen, place, value)
    } else {
        Err(SettingsError::Usage(UsageFault::UnknownOption { word: place }))
    }
}

// Why the last word, at a place, stands alone.
fn alone(place: usize, name: &str) -> UsageFault
    ensures { result ≡ alone place name.now }
{
    if name == "--store" || name == "--at" {
        UsageFault::NoValue { word: place }
    } else {
        UsageFault::UnknownOption { word: place }
    }
}

// The options among words, the first of which has place 0.
fn read_options(alloc: Global, words: &[String]) -> Result<Chosen, SettingsError>
    ensures ok { IfOk result (λ chosen. options_from no_option 0 (map string_bytes words.now) ≡ Ok chosen) }
    ensures usage { (fault : UsageFault) → result ≡ Err (SettingsError.Usage fault) → options_from no_option 0 (map string_bytes words.now) ≡ Err fault }
    ensures within { IfOk result AreWithin }
{
    let mut chosen = Chosen {
        store: None,
        at: None,
    };
    let mut place = 0;
    let mut rest = words;
    'options: loop {
        match rest {
            [] => return Ok(chosen),
            [name] => return Err(SettingsError::Usage(alone(place, name.as_str()))),
            [name, value, more @ ..] => {
                add_option(alloc, &mut chosen, place, name.as_str(), value.as_str())?;
                place += 2;
                rest = more;
            }
        }
    }
}

impl DrillWords {
    /// What the words behind `drill` ask for: a number of objects, and then options in any order, each at most once and with its
    /// value behind it. Where they ask for nothing, the first fault from their front.
    pub fn read(alloc: Global, words: &[String]) -> Result<DrillWords, WordsError>
        ensures ok { IfOk result (λ w. words_of (map string_bytes words.now) ≡ Ok w) }
        ensures fault { (fault : WordsFault) → result ≡ Err (WordsError.Words fault) → words_of (map string_bytes words.now) ≡ Err fault }
        // There is an object, and a moment that is given is one that a clock has.
        ensures count { IfOk result (λ w. (0 < w.count) × (w.count ≤ 10000)) }
        ensures moment { IfOk result (λ w. IfSome w.at (λ moment. moment ≤ LAST_MOMENT)) }
    {
        let [count, options @ ..] = words else {
            return Err(WordsError::Words(WordsFault::NoCount));
        };
        let Some(count) = number_within(1, MOST_OBJECTS, count.as_str()) else {
            return Err(WordsError::Words(WordsFault::BadCount));
        };
        let Chosen { store, at } = match read_options(alloc, options) {
            Ok(chosen) => chosen,
            Err(SettingsError::Usage(fault)) => return Err(WordsError::Words(WordsFault::Usage(
                fault,
            ))),
            Err(SettingsError::Memory) => return Err(WordsError::Memory),
        };
        let Some(store) = store else {
            return Err(WordsError::Words(WordsFault::Usage(UsageFault::Missing(
                OptionName::Store,
            ))));
        };
        Ok(DrillWords {
            count: count as u32,
            store,
            at,
        })
    }
}
