//! A path.
ghost use Rattle.std.specs.Prelude.{◌≡◌, ◌<◌, ◌≤◌, ◌-◌, ◌+◌, ◌↔◌, [], ◌∷◌, ◌++◌, Err, length, take, slice_index_or, IsTrue, IfErr, IfOk, OnOk};
ghost use Rattle.mt_path.specs.AccountPath.{IsComponent, IsPath, IsUnder, SameParent, area_name, local_text, parent_of, path_text, root_of, slash};
ghost use Rattle.mt_path.specs.Keys.{IsKey, key_bytes, parts_of, path_at};
ghost use Rattle.mt_path.specs.Names.{IsUnlessMemory, child_of};

use crate::area::Area;
use crate::component::is_component;
use crate::error::PathError;
use crate::key::{before, key_of, parent_of, part_count, part_of, put_part, put_shown};
use crate::limits::LONGEST_PATH;
use mt_base::{Bytes, Duplicate, Text};
use std::alloc::{AllocError, Global};
use std::marker::Model;

/// A path of an account, which contracts see as its area and the list of its components. The text behind
/// the login has at most 1,024 bytes. It is held as one byte string, its key.
#[derive(Debug, Drop)]
pub struct Path {
    area: Area,
    key: Vec<u8>,
}

impl Model for Path {
    ghost use Rattle.mt_path.specs.AccountPath.{AccountPath};
    ghost use Rattle.mt_path.specs.Keys.{IsPathKey, path_at};

    ghost Value = { AccountPath };

    ghost view = { λ a. path_at a.area a.key.items };

    ghost invariant = { λ a. IsPathKey a.area a.key.items };
}

impl Path {
    /// The root of an area. It takes no memory yet.
    pub fn root(alloc: Global, area: Area) -> Path
        ensures { result ≡ root_of area }
    {
        Path {
            area,
            key: Vec::new(alloc),
        }
    }

    /// The path of an area and components.
    pub fn from_parts(alloc: Global, area: Area, parts: &[Bytes]) -> Result<Path, AllocError>
        requires { IsPath (record { area = area; parts = parts.now }) }
        ensures { IfOk result (λ p. p ≡ record { area = area; parts = parts.now }) }
    {
        let key = key_of(alloc, parts)?;
        Ok(Path { area, key })
    }

    /// The path of an area and a key, without taking memory.
    pub fn from_key(area: Area, key: Vec<u8>) -> Path
        requires path { IsPath (path_at area key.items) }
        requires key { IsKey key.items }
        ensures { result ≡ path_at area key.items }
    {
        Path { area, key }
    }

    /// The area.
    pub fn area(&self) -> Area
        ensures { result ≡ self.now.area }
    {
        self.area
    }

    /// The components, each behind a byte 0, as one byte string. The keys of an area are in the order of its paths.
    pub fn key(&self) -> &[u8]
        ensures value { result.now ≡ key_bytes self.now.parts }
        ensures parts { parts_of result.now ≡ self.now.parts }
        ensures key { IsKey result.now }
        ensures path { IsPath self.now }
    {
        self.key.as_slice()
    }

    /// The key of the path one above; of a root, its own.
    pub fn parent_key(&self) -> &[u8]
        ensures value { result.now ≡ key_bytes (take (length self.now.parts - 1) self.now.parts) }
        ensures parts { parts_of result.now ≡ take (length self.now.parts - 1) self.now.parts }
        ensures key { IsKey result.now }
    {
        parent_of(&self.key)
    }

    /// The number of components; 0 at a root.
    pub fn len(&self) -> usize
        ensures { result ≡ length self.now.parts }
    {
        part_count(&self.key)
    }

    /// The component at a place, from 0 for the one below the root.
    pub fn part(&self, k: usize) -> &[u8]
        requires { k < length self.now.parts }
        ensures value { result.now ≡ slice_index_or self.now.parts k [] }
        ensures component { IsComponent result.now }
    {
        part_of(&self.key, k)
    }

    /// Whether it is the root of its area.
    pub fn is_root(&self) -> bool
        ensures { IsTrue result ↔ (self.now.parts ≡ []) }
    {
        self.key.is_empty()
    }

    /// The path of the first components, so many, or of all where there are fewer.
    pub fn front(&self, alloc: Global, count: usize) -> Result<Path, AllocError>
        ensures { IfOk result (λ p. p ≡ record { area = self.now.area; parts = take count self.now.parts }) }
    {
        let key = Vec::from_slice(alloc, before(&self.key, count))?;
        Ok(Path {
            area: self.area,
            key,
        })
    }

    /// The path one above, or `None` at a root.
    pub fn parent(&self, alloc: Global) -> Result<Option<Path>, AllocError>
        ensures { IfOk result (λ p. p ≡ parent_of self.now) }
    {
        if self.key.is_empty() {
            return Ok(None);
        }
        let key = Vec::from_slice(alloc, parent_of(&self.key))?;
        Ok(Some(Path {
            area: self.area,
            key,
        }))
    }

    /// The path of a name one below. `TooLong` is looked for before `BadComponent`.
    pub fn child(&self, alloc: Global, name: &[u8]) -> Result<Path, PathError>
        ensures { IsUnlessMemory (child_of self.now name.now) result }
    {
        self.may_have(name)?;
        let mut key = Vec::with_capacity(alloc, self.key.len() + name.len() + 1)?;
        key.extend_from_slice(&self.key)?;
        put_part(&mut key, name)?;
        Ok(Path {
            area: self.area,
            key,
        })
    }

    /// The path of a name one below, in the place of this one. `TooLong` is looked for before `BadComponent`.
    pub fn extended(self, name: &[u8]) -> Result<Path, PathError>
        ensures { IsUnlessMemory (child_of self name.now) result }
    {
        self.may_have(name)?;
        let Path { area, mut key } = self;
        put_part(&mut key, name)?;
        Ok(Path { area, key })
    }

    /// Whether this path is some components below another, and not the other itself. Takes no memory.
    pub fn is_under(&self, other: &Path) -> bool
        ensures { IsTrue result ↔ IsUnder self.now other.now }
    {
        let n = other.len();
        same_area(self.area, other.area)
            && n < self.len()
            && same_bytes(before(&self.key, n), &other.key)
    }

    /// Whether both have a parent, and it is the same; never at a root. Takes no memory.
    pub fn same_parent(&self, other: &Path) -> bool
        ensures { IsTrue result ↔ SameParent self.now other.now }
    {
        if self.key.is_empty() || other.key.is_empty() {
            return false;
        }
        same_area(self.area, other.area) && same_bytes(parent_of(&self.key), parent_of(&other.key))
    }

    /// The text behind a login, as `/login/stor/a/b`.
    pub fn print(&self, alloc: Global, login: &str) -> Result<Text, AllocError>
        ensures text { IfOk result (λ t. t ≡ path_text login.now self.now) }
        ensures path { IsPath self.now }
    {
        let text = path_bytes(alloc, login.as_bytes(), self.area, &self.key)?;
        match String::from_utf8(text) {
            Ok(string) => Ok(Text::from_string(string)),
            Err(_) => unreachable!(),
        }
    }

    // The number of bytes of the text without the login.
    fn text_len(&self) -> usize
        ensures value { result ≡ length (local_text self.now) }
        ensures short { result ≤ LONGEST_PATH }
    {
        self.area.name().len() + 1 + self.key.len()
    }

    // Whether a name may stand one below.
    fn may_have(&self, name: &[u8]) -> Result<(), PathError>
        ensures fits { IfOk result (λ _. length (local_text self.now) + length name.now + 1 ≤ LONGEST_PATH) }
        ensures named { IfOk result (λ _. IsComponent name.now) }
        ensures err { IfErr result (λ e. child_of self.now name.now ≡ Err e) }
    {
        if name.len() >= LONGEST_PATH - self.text_len() {
            return Err(PathError::TooLong);
        }
        if !is_component(name) {
            return Err(PathError::BadComponent);
        }
        Ok(())
    }
}

impl Duplicate for Path {
    fn copy(&self, alloc: Global) -> Result<Path, AllocError> {
        let key = Vec::from_slice(alloc, &self.key)?;
        Ok(Path {
            area: self.area,
            key,
        })
    }
}

fn same_area(a: Area, b: Area) -> bool
    ensures { IsTrue result ↔ (a ≡ b) }
{
    a == b
}

fn same_bytes(a: &[u8], b: &[u8]) -> bool
    ensures { IsTrue result ↔ (a.now ≡ b.now) }
{
    a == b
}

// The text of a path.
fn path_bytes(alloc: Global, login: &[u8], area: Area, key: &[u8]) -> Result<Vec<u8>, AllocError>
    requires { IsKey key.now }
    ensures { IfOk result (λ t. t.items ≡ path_text login.now (path_at area key.now)) }
{
    let mut text = Vec::new(alloc);
    put_name(&mut text, login)?;
    put_name(&mut text, area.name().as_bytes())?;
    put_shown(&mut text, key)?;
    Ok(text)
}

// A slash and a name, at the end of a text.
fn put_name(text: &mut Vec<u8>, name: &[u8]) -> Result<(), AllocError>
    ensures { OnOk result (text.new.items ≡ text.old.items ++ slash ∷ name.now) }
{
    text.push(b'/')?;
    text.extend_from_slice(name)
}
