//! Paths, read from request targets and from texts.
ghost use Rattle.std.specs.Prelude.{◌≡◌, ◌||◌, bytes_eq, codes, map};
ghost use Rattle.std.specs.List.{list_all};
ghost use Rattle.percent_encoding.specs.Percent.{percent_decode};
ghost use Rattle.mt_path.specs.AccountPath.{is_component};
ghost use Rattle.mt_path.specs.Names.{AreNames, IsUnlessMemory, judged_names, names_of, path_of, path_of_target, path_of_text, target_pieces, text_pieces, with_login};

use crate::area::Area;
use crate::component::is_component;
use crate::error::PathError;
use crate::path::Path;
use crate::pieces;
use mt_base::{Bytes, Sequence};
use std::alloc::Global;

impl Path {
    /// The path that a request target names: what stands before the first `?`, split at each slash, empty
    /// pieces dropped, each piece percent-decoded. The first piece has to be the login. It takes memory for
    /// a path and a login alone, however long the target is.
    pub fn parse(alloc: Global, login: &str, raw: &[u8]) -> Result<Path, PathError>
        ensures { IsUnlessMemory (path_of_target login.now raw.now) result }
    {
        path_of(alloc, target_names(alloc, login, raw)?)
    }

    /// The path that a name in a text names: split as a target is, but neither cut nor decoded. A first
    /// piece `~~` stands for the login, and the text may begin with `~~/` in place of a slash. It takes
    /// memory for a path alone, however long the text is.
    pub fn plain(alloc: Global, login: &str, text: &[u8]) -> Result<Path, PathError>
        ensures { IsUnlessMemory (path_of_text login.now text.now) result }
    {
        path_of(alloc, text_names(alloc, login.as_bytes(), text)?)
    }
}

/// The pieces of a request target behind the login: that of the area, or of another folder of the account,
/// and the components. It refuses as [`Path::parse`] does, but for `NoArea`.
pub fn target_names(alloc: Global, login: &str, raw: &[u8]) -> Result<Sequence<Bytes>, PathError>
    ensures { IsUnlessMemory (names_of login.now (target_pieces raw.now)) result }
{
    let pieces = pieces::target_pieces(alloc, raw)?;
    judged_target(alloc, login.as_bytes(), &pieces)
}

// The pieces of a name in a text behind the login.
fn text_names(alloc: Global, login: &[u8], text: &[u8]) -> Result<Sequence<Bytes>, PathError>
    ensures { IsUnlessMemory (names_of login.now (text_pieces login.now text.now)) result }
{
    let pieces = pieces::text_pieces(alloc, text)?;
    judged_text(alloc, login, &pieces)
}

// The decoded pieces behind the login, or the first refusal.
#[tactic(auto, unfolding(crate::specs::Names::names_of))]
fn judged_target(
    alloc: Global,
    login: &[u8],
    pieces: &[&[u8]],
) -> Result<Sequence<Bytes>, PathError>
    ensures { IsUnlessMemory (names_of login.now (map percent_decode (map (λ x. x.now) pieces.now))) result }
{
    let [first, rest @ ..] = pieces else {
        return Err(PathError::Empty);
    };
    let names = pieces::decoded_names(alloc, rest)?;
    let is_own = pieces::decodes_to(alloc, first, login)?;
    judged(names, is_own)
}

// The pieces behind the login as they stand, or the first refusal. A first piece `~~` stands for the login.
#[tactic(auto, unfolding(crate::specs::Names::names_of))]
fn judged_text(alloc: Global, login: &[u8], pieces: &[&[u8]]) -> Result<Sequence<Bytes>, PathError>
    ensures { IsUnlessMemory (names_of login.now (with_login login.now (map (λ x. x.now) pieces.now))) result }
{
    let [first, rest @ ..] = pieces else {
        return Err(PathError::Empty);
    };
    let names = pieces::copied_names(alloc, rest)?;
    judged(names, is_own(first, login))
}

// Whether a first piece of a text stands for the login.
fn is_own(first: &[u8], login: &[u8]) -> bool
    ensures { result ≡ (bytes_eq first.now (codes "~~") || bytes_eq first.now login.now) }
{
    first == b"~~".as_slice() || first == login
}

// Names that are not too long, behind a first piece that is the login or isn't.
fn judged(names: Vec<Bytes>, is_own: bool) -> Result<Sequence<Bytes>, PathError>
    ensures { result ≡ judged_names is_own names.items }
{
    if !names.is_empty() && !are_components(&names[1..]) {
        return Err(PathError::BadComponent);
    }
    if !is_own {
        return Err(PathError::OtherLogin);
    }
    Ok(Sequence::from_vec(names))
}

// The path of the names behind a login.
#[tactic(auto, unfolding(crate::specs::Names::path_of))]
fn path_of(alloc: Global, names: Sequence<Bytes>) -> Result<Path, PathError>
    requires { AreNames names }
    ensures { IsUnlessMemory (path_of names) result }
{
    let [name, parts @ ..] = names.as_slice() else {
        return Err(PathError::NoArea);
    };
    match Area::named(name.as_slice()) {
        Some(area) => Ok(Path::from_parts(alloc, area, parts)?),
        None => Err(PathError::NoArea),
    }
}

fn are_components(names: &[Bytes]) -> bool
    ensures { result ≡ list_all is_component names.now }
{
    names.iter().all(|name| is_component(name.as_slice()))
}
