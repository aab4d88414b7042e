//! The paths of a tool.
ghost use Rattle.std.specs.Prelude.{◌≡◌, Ok, Err, IfOk, map, string_bytes};
ghost use Rattle.std.specs.Result.{result_ok};
ghost use Rattle.mt_path.specs.Names.{path_of_text};
ghost use Rattle.mt_helper.specs.Words.{asked_by, place_text, place_texts, placed};

use crate::status::{Refusal, WordsError};
use crate::tool::Tool;
use crate::words::tool_of;
use mt_base::{Sequence, Text};
use mt_path::{Path, PathError, is_login};
use std::alloc::{AllocError, Global};

// The path that a text names, if it names one of this account.
fn path_in(alloc: Global, login: &str, text: &Text) -> Result<Option<Path>, AllocError>
    ensures { IfOk result (λ p. p ≡ result_ok (path_of_text login.now text.now)) }
{
    match Path::plain(alloc, login, text.as_bytes()) {
        Ok(path) => Ok(Some(path)),
        Err(PathError::Memory) => Err(AllocError),
        Err(_) => Ok(None),
    }
}

// The text of the path that a text names, if it names one.
fn place_text(alloc: Global, login: &str, text: &Text) -> Result<Option<Text>, AllocError>
    ensures { IfOk result (λ p. p ≡ place_text login.now text.now) }
{
    match path_in(alloc, login, text)? {
        Some(path) => Ok(Some(path.print(alloc, login)?)),
        None => Ok(None),
    }
}

// The same of texts.
fn place_texts(
    alloc: Global,
    login: &str,
    texts: &[Text],
) -> Result<Option<Sequence<Text>>, AllocError>
    ensures { IfOk result (λ p. p ≡ place_texts login.now texts.now) }
{
    let mut places = Vec::new(alloc);
    for text in texts {
        match place_text(alloc, login, text)? {
            Some(place) => places.push(place)?,
            None => return Ok(None),
        }
    }
    Ok(Some(Sequence::from_vec(places)))
}

// An output at the path that a text names, or without a place.
fn placed_pipe(
    alloc: Global,
    login: &str,
    place: Option<Text>,
    reducer: Option<u32>,
) -> Result<Option<Tool>, AllocError>
    ensures { IfOk result (λ t. t ≡ placed login.now (Tool.Pipe place reducer)) }
{
    let Some(place) = place else {
        return Ok(Some(Tool::Pipe {
            place: None,
            reducer,
        }));
    };
    match place_text(alloc, login, &place)? {
        Some(place) => Ok(Some(Tool::Pipe {
            place: Some(place),
            reducer,
        })),
        None => Ok(None),
    }
}

// A tool with the texts of its paths, where each is one.
fn placed(alloc: Global, login: &str, tool: Tool) -> Result<Option<Tool>, AllocError>
    ensures { IfOk result (λ t. t ≡ placed login.now tool) }
{
    match tool {
        Tool::Pipe { place, reducer } => placed_pipe(alloc, login, place, reducer),
        Tool::Tee { place } => match place_text(alloc, login, &place)? {
            Some(place) => Ok(Some(Tool::Tee { place })),
            None => Ok(None),
        },
        Tool::Cat { names } => match place_texts(alloc, login, names.as_slice())? {
            Some(names) => Ok(Some(Tool::Cat { names })),
            None => Ok(None),
        },
        Tool::Split { count, rule } => Ok(Some(Tool::Split { count, rule })),
    }
}

/// What words ask for: a login, the name of a tool, and what it is asked for.
pub(crate) fn asked_by(alloc: Global, words: &[String]) -> Result<Tool, WordsError>
    ensures ok { IfOk result (λ tool. asked_by (map string_bytes words.now) ≡ Ok tool) }
    ensures refused { (e : Refusal) → result ≡ Err (WordsError.Refused e) → asked_by (map string_bytes words.now) ≡ Err e }
{
    let [login, name, others @ ..] = words else {
        return Err(WordsError::Refused(Refusal::Usage));
    };
    let login = login.as_str();
    if !is_login(login.as_bytes()) {
        return Err(WordsError::Refused(Refusal::Usage));
    }
    let Some(tool) = tool_of(alloc, name.as_str(), others)? else {
        return Err(WordsError::Refused(Refusal::Usage));
    };
    match placed(alloc, login, tool)? {
        Some(tool) => Ok(tool),
        None => Err(WordsError::Refused(Refusal::BadPath)),
    }
}
