//! The words of a helper, and what they ask for.
ghost use Rattle.std.specs.Prelude.{◌≡◌, ◌==◌, Ok, Err, IfOk, IfSome, map, string_bytes};
ghost use Rattle.std.specs.List.{slice_split};
ghost use Rattle.mt_helper.specs.Words.{all_some, asked_by, byte_in, cat_of, field_in, fields_among, fields_in, no_option, number_within, once, options_from, pipe_of, piped, piped_to, reducer_in, rule_by, split_by, split_of, taken, tee_of, tool_of, with_option};

use crate::limits::{LAST_FIELD, MOST_FIELDS, MOST_PARTS};
use crate::options::SplitOptions;
use crate::tool::Tool;
use mt_base::{Sequence, Text};
use mt_bytes::read_decimal;
use mt_split::KeyRule;
use std::alloc::{AllocError, Global};

// The number that a text writes, where it is between two bounds.
fn number_within(least: u32, most: u32, text: &[u8]) -> Option<u32>
    ensures { result ≡ number_within least most text.now }
{
    let number = read_decimal(text)?;
    if least as u64 <= number && number <= most as u64 {
        Some(number as u32)
    } else {
        None
    }
}

// The byte that a word is.
fn byte_in(word: &[u8]) -> Option<u8>
    ensures { result ≡ byte_in word.now }
{
    match word {
        [byte] => Some(*byte),
        _ => None,
    }
}

// The numbers of fields.
fn all_fields(alloc: Global, pieces: &[&[u8]]) -> Result<Option<Sequence<u32>>, AllocError>
    ensures { IfOk result (λ r. r ≡ all_some (map field_in (map (λ x. x.now) pieces.now))) }
{
    let mut numbers = Vec::new(alloc);
    for piece in pieces {
        match number_within(1, LAST_FIELD, piece) {
            Some(number) => numbers.push(number)?,
            None => return Ok(None),
        }
    }
    Ok(Some(Sequence::from_vec(numbers)))
}

// The pieces between commas.
fn between_commas<'a>(alloc: Global, text: &'a [u8]) -> Result<Vec<&'a [u8]>, AllocError>
    ensures { IfOk result (λ v. map (λ x. x.now) v.items ≡ slice_split (λ b. b == 44) text.now) }
{
    text.split(|b| *b == b',').collect(alloc)
}

// The numbers of fields that stand between commas.
fn fields_in(alloc: Global, text: &[u8]) -> Result<Option<Sequence<u32>>, AllocError>
    ensures { IfOk result (λ r. r ≡ fields_in text.now) }
{
    let pieces = between_commas(alloc, text)?;
    if pieces.len() > MOST_FIELDS {
        return Ok(None);
    }
    all_fields(alloc, &pieces)
}

// ---- mpipe, mtee and mcat

// `[PATH]`, behind a reducer, if there is one.
fn piped(alloc: Global, reducer: Option<u32>, words: &[String]) -> Result<Option<Tool>, AllocError>
    ensures { IfOk result (λ r. r ≡ piped reducer (map string_bytes words.now)) }
{
    match words {
        [] => Ok(Some(Tool::Pipe {
            place: None,
            reducer,
        })),
        [word] => {
            if word.as_str() == "-r" {
                return Ok(None);
            }
            let place = Some(Text::from_str(alloc, word.as_str())?);
            Ok(Some(Tool::Pipe { place, reducer }))
        }
        _ => Ok(None),
    }
}

// `N [PATH]`.
fn piped_to(alloc: Global, words: &[String]) -> Result<Option<Tool>, AllocError>
    ensures { IfOk result (λ r. r ≡ piped_to (map string_bytes words.now)) }
{
    let [value, words @ ..] = words else {
        return Ok(None);
    };
    match number_within(0, u32::MAX, value.as_bytes()) {
        Some(reducer) => piped(alloc, Some(reducer), words),
        None => Ok(None),
    }
}

// `[-r N] [PATH]`.
fn pipe_of(alloc: Global, words: &[String]) -> Result<Option<Tool>, AllocError>
    ensures { IfOk result (λ r. r ≡ pipe_of (map string_bytes words.now)) }
{
    if let [word, others @ ..] = words
        && word.as_str() == "-r"
    {
        return piped_to(alloc, others);
    }
    piped(alloc, None, words)
}

// `PATH`.
fn tee_of(alloc: Global, words: &[String]) -> Result<Option<Tool>, AllocError>
    ensures { IfOk result (λ r. r ≡ tee_of (map string_bytes words.now)) }
{
    match words {
        [word] => {
            let place = Text::from_str(alloc, word.as_str())?;
            Ok(Some(Tool::Tee { place }))
        }
        _ => Ok(None),
    }
}

// Copies of words.
fn texts(alloc: Global, words: &[String]) -> Result<Sequence<Text>, AllocError>
    ensures { IfOk result (λ r. r ≡ map string_bytes words.now) }
{
    let mut texts = Vec::new(alloc);
    for word in words {
        texts.push(Text::from_str(alloc, word.as_str())?)?;
    }
    Ok(Sequence::from_vec(texts))
}

// `PATH ..`, at least one.
fn cat_of(alloc: Global, words: &[String]) -> Result<Option<Tool>, AllocError>
    ensures { IfOk result (λ r. r ≡ cat_of (map string_bytes words.now)) }
{
    if words.is_empty() {
        return Ok(None);
    }
    let names = texts(alloc, words)?;
    Ok(Some(Tool::Cat { names }))
}

// ---- msplit

// Takes the value of an option, unless one came before; whether it did.
fn take_number(slot: &mut Option<u32>, value: Option<u32>) -> bool
    ensures { taken result slot.new ≡ once slot.old value }
{
    if slot.is_some() || value.is_none() {
        return false;
    }
    *slot = value;
    true
}

// The same of a byte.
fn take_byte(slot: &mut Option<u8>, value: Option<u8>) -> bool
    ensures { taken result slot.new ≡ once slot.old value }
{
    if slot.is_some() || value.is_none() {
        return false;
    }
    *slot = value;
    true
}

// The same of numbers of fields.
fn take_fields(slot: &mut Option<Sequence<u32>>, value: Option<Sequence<u32>>) -> bool
    ensures { taken result slot.new ≡ once slot.old value }
{
    if slot.is_some() || value.is_none() {
        return false;
    }
    *slot = value;
    true
}

// Takes an option with its value; whether it is one, and came for the first time. The options are of no use after a refusal.
fn add_option(
    alloc: Global,
    options: &mut SplitOptions,
    name: &str,
    value: &[u8],
) -> Result<bool, AllocError>
    ensures { IfOk result (λ done. taken done options.new ≡ with_option options.old name.now value.now) }
{
    if name == "-n" {
        Ok(take_number(&mut options.count, number_within(1, MOST_PARTS, value)))
    } else if name == "-d" {
        Ok(take_byte(&mut options.delimiter, byte_in(value)))
    } else if name == "-f" {
        let fields = fields_in(alloc, value)?;
        Ok(take_fields(&mut options.fields, fields))
    } else {
        Ok(false)
    }
}

// Options, each with its value behind it, and nothing else.
fn read_options(alloc: Global, words: &[String]) -> Result<Option<SplitOptions>, AllocError>
    ensures { IfOk result (λ r. r ≡ options_from no_option (map string_bytes words.now)) }
{
    let mut options = SplitOptions {
        count: None,
        delimiter: None,
        fields: None,
    };
    let mut rest = words;
    'options: loop {
        match rest {
            [] => return Ok(Some(options)),
            [_] => return Ok(None),
            [name, value, more @ ..] => {
                if !add_option(alloc, &mut options, name.as_str(), value.as_bytes())? {
                    return Ok(None);
                }
                rest = more;
            }
        }
    }
}

// The key of a line.
fn rule_by(delimiter: Option<u8>, fields: Option<Sequence<u32>>) -> Option<KeyRule>
    ensures { result ≡ rule_by delimiter fields }
{
    match (delimiter, fields) {
        (None, None) => Some(KeyRule::Line),
        (Some(_), None) => None,
        (None, Some(numbers)) => Some(KeyRule::Fields {
            delimiter: b'\t',
            numbers,
        }),
        (Some(delimiter), Some(numbers)) => Some(KeyRule::Fields { delimiter, numbers }),
    }
}

// What options ask for.
fn split_by(options: SplitOptions) -> Option<Tool>
    ensures { result ≡ split_by options }
{
    let SplitOptions {
        count,
        delimiter,
        fields,
    } = options;
    let rule = rule_by(delimiter, fields)?;
    Some(Tool::Split {
        count: count?,
        rule,
    })
}

// `-n N [-d C] [-f LIST]`, in any order.
fn split_of(alloc: Global, words: &[String]) -> Result<Option<Tool>, AllocError>
    ensures { IfOk result (λ r. r ≡ split_of (map string_bytes words.now)) }
{
    match read_options(alloc, words)? {
        Some(options) => Ok(split_by(options)),
        None => Ok(None),
    }
}

/// What a tool is asked for, if the words behind its name are of the grammar.
pub(crate) fn tool_of(
    alloc: Global,
    name: &str,
    words: &[String],
) -> Result<Option<Tool>, AllocError>
    ensures { IfOk result (λ r. r ≡ tool_of name.now (map string_bytes words.now)) }
{
    if name == "mpipe" {
        pipe_of(alloc, words)
    } else if name == "mtee" {
        tee_of(alloc, words)
    } else if name == "mcat" {
        cat_of(alloc, words)
    } else if name == "msplit" {
        split_of(alloc, words)
    } else {
        Ok(None)
    }
}
