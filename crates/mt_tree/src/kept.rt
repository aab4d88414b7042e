//! The rows of one area, each at its key, beside the number of its children.
ghost use Rattle.std.specs.Prelude.{◌≡◌, ℕ, ◌<◌, ◌≤◌, ◌^◌, true, false, Some, IfOk, IfNone, IfSome, IsSome, OnOk, OnErr, length, option_copied, option_map, not};
ghost use Rattle.std.specs.Map.{keys_of, lookup, remove_entry};
ghost use Rattle.std.specs.BTreeMap.{insert_entry};
ghost use Rattle.mt_model.specs.Rows.{is_directory};
ghost use Rattle.mt_tree.specs.AreaRows.{IsRootAlone, changed, childless, has_directory, is_key, lowered, made_room, parts_above, parts_cmp, raised};
ghost use Rattle.mt_tree.specs.Keys.{AreKeys, opened};
ghost use Rattle.mt_path.specs.Keys.{IsKey, parts_of};

use mt_types::Entry;
use std::alloc::{AllocError, Global};
use std::collections::BTreeMap;
use std::marker::Model;

/// A row, and the number of rows one below it.
#[derive(Drop)]
pub struct KeptRow<B> {
    /// What stands there.
    pub entry: Entry<B>,
    /// The number of rows one below it.
    pub children: u64,
}

impl<B> KeptRow<B> {
    /// What stands there.
    pub fn entry(&self) -> &Entry<B>
        ensures { result.now ≡ self.now.entry }
    {
        &self.entry
    }

    // Whether it is a directory.
    fn is_directory(&self) -> bool
        ensures { result ≡ is_directory (Some self.now.entry) }
    {
        match self.entry {
            Entry::Directory { .. } => true,
            Entry::Object(_) => false,
        }
    }
}

/// Rows by their keys. A row has an allocation of its own, so that a node that has room for more costs little.
pub type Map<B> = BTreeMap<Vec<u8>, Box<KeptRow<B>>>;

/// The rows of one area, which contracts see by the components of their paths, in the order of these.
#[derive(Drop)]
pub struct AreaRows<B> {
    alloc: Global,
    rows: Map<B>,
}

impl<B> Model for AreaRows<B> {
    ghost use Rattle.std.specs.Prelude.{List};
    ghost use Rattle.mt_tree.specs.declared.kept.KeptRow.{KeptRow};
    ghost use Rattle.mt_path.specs.Keys.{Parts};
    ghost use Rattle.mt_tree.specs.Keys.{AreKeys, opened};

    ghost Value = { List (Parts × KeptRow B) };

    ghost view = { λ k. opened k.rows.entries };

    ghost invariant = { λ k. AreKeys k.rows.entries };
}

impl<B> AreaRows<B> {
    /// A root alone, made at moment 0.
    pub fn root_alone(alloc: Global) -> Result<AreaRows<B>, AllocError>
    where
        B: Drop,
        ensures { IfOk result (λ kept. IsRootAlone kept) }
    {
        let rows = root_rows(alloc)?;
        Ok(AreaRows { alloc, rows })
    }

    /// The rows by their keys.
    pub fn map(&self) -> &Map<B>
        ensures rows { opened result.now.entries ≡ self.now }
        ensures keys { AreKeys result.now.entries }
    {
        &self.rows
    }

    /// The row at a key.
    pub fn get(&self, key: &[u8]) -> Option<&KeptRow<B>>
        requires { IsKey key.now }
        ensures { option_copied result ≡ lookup (is_key (parts_of key.now)) self.now }
    {
        row_at(&self.rows, key)
    }

    /// Puts an entry without children at a key where no directory stands, and counts it at the key of the path above where no row
    /// stood there. Whether it was put: where a directory stands, and on an error, all is as it was.
    pub fn put(&mut self, key: &[u8], above: &[u8], entry: Entry<B>) -> Result<bool, AllocError>
    where
        B: Drop,
        requires key { IsKey key.now }
        requires above { IsKey above.now }
        requires parent { parts_of above.now ≡ parts_above (parts_of key.now) }
        requires below { 0 < length (parts_of key.now) }
        requires counted { IfSome (lookup (is_key (parts_of above.now)) self.old) (λ row. row.children ≤ length self.old) }
        ensures answer { IfOk result (λ is_put. is_put ≡ not (has_directory (parts_of key.now) self.old)) }
        ensures put { has_directory (parts_of key.now) self.old ≡ false → OnOk result (self.new ≡ insert_entry parts_cmp (made_room (parts_of key.now) self.old) (parts_of key.now) (childless entry)) }
        ensures refused { has_directory (parts_of key.now) self.old ≡ true → self.new ≡ self.old }
        ensures err { OnErr result (self.new ≡ self.old) }
    {
        put_kept(self.alloc, &mut self.rows, key, above, entry)
    }

    /// Removes the row at a key, and takes it from the count at the key of the path above.
    pub fn remove(&mut self, key: &[u8], above: &[u8])
    where
        B: Drop,
        requires key { IsKey key.now }
        requires above { IsKey above.now }
        requires parent { parts_of above.now ≡ parts_above (parts_of key.now) }
        requires counted { IfSome (lookup (is_key (parts_of above.now)) self.old) (λ row. 0 < row.children) }
        ensures { self.new ≡ remove_entry (is_key (parts_of key.now)) (changed (is_key (parts_above (parts_of key.now))) lowered self.old) }
    {
        remove_kept(&mut self.rows, key, above);
    }
}

// The map of a root alone.
fn root_rows<B: Drop>(alloc: Global) -> Result<Map<B>, AllocError>
    ensures rows { IfOk result (λ rows. IsRootAlone (opened rows.entries)) }
    ensures keys { IfOk result (λ rows. AreKeys rows.entries) }
{
    let mut rows = BTreeMap::new(alloc);
    let row = KeptRow {
        entry: Entry::Directory { mtime: 0 },
        children: 0,
    };
    rows.insert(Vec::new(alloc), Box::new(alloc, row)?)?;
    Ok(rows)
}

// The row at a key.
fn row_at<'a, B>(rows: &'a Map<B>, key: &[u8]) -> Option<&'a KeptRow<B>>
    requires keys { AreKeys rows.now.entries }
    requires key { IsKey key.now }
    ensures { option_copied result ≡ lookup (is_key (parts_of key.now)) (opened rows.now.entries) }
{
    match rows.get(key) {
        Some(row) => Some(&**row),
        None => None,
    }
}

// Puts an entry without children at a key where no directory stands, and counts it at the key above where no row stood there.
fn put_kept<B: Drop>(
    alloc: Global,
    rows: &mut Map<B>,
    key: &[u8],
    above: &[u8],
    entry: Entry<B>,
) -> Result<bool, AllocError>
    requires keys { AreKeys rows.old.entries }
    requires key { IsKey key.now }
    requires above { IsKey above.now }
    requires parent { parts_of above.now ≡ parts_above (parts_of key.now) }
    requires below { 0 < length (parts_of key.now) }
    requires counted { IfSome (lookup (is_key (parts_of above.now)) (opened rows.old.entries)) (λ row. row.children ≤ length (opened rows.old.entries)) }
    ensures answer { IfOk result (λ is_put. is_put ≡ not (has_directory (parts_of key.now) (opened rows.old.entries))) }
    ensures put { has_directory (parts_of key.now) (opened rows.old.entries) ≡ false → OnOk result (opened rows.new.entries ≡ insert_entry parts_cmp (made_room (parts_of key.now) (opened rows.old.entries)) (parts_of key.now) (childless entry)) }
    ensures refused { has_directory (parts_of key.now) (opened rows.old.entries) ≡ true → opened rows.new.entries ≡ opened rows.old.entries }
    ensures err { OnErr result (opened rows.new.entries ≡ opened rows.old.entries) }
    ensures keys { AreKeys rows.new.entries }
{
    let owned = Vec::from_slice(alloc, key)?;
    let row = Box::new(alloc, KeptRow { entry, children: 0 })?;
    prove!(rows.len() < usize::MAX);
    let old = put_row(rows, owned, row)?;
    let is_put = settle(rows, key, above, old);
    Ok(is_put)
}

// Puts a row at its key, and gives the one that stood there.
fn put_row<B: Drop>(
    rows: &mut Map<B>,
    key: Vec<u8>,
    row: Box<KeptRow<B>>,
) -> Result<Option<Box<KeptRow<B>>>, AllocError>
    requires keys { AreKeys rows.old.entries }
    requires key { IsKey key.items }
    ensures ok { OnOk result (opened rows.new.entries ≡ insert_entry parts_cmp (opened rows.old.entries) (parts_of key.items) row.value) }
    ensures old { IfOk result (λ old. option_map (λ r. r.value) old ≡ lookup (is_key (parts_of key.items)) (opened rows.old.entries)) }
    ensures same_keys { IfOk result (λ old. IsSome old → keys_of (opened rows.new.entries) ≡ keys_of (opened rows.old.entries)) }
    ensures err { OnErr result (rows.new.entries ≡ rows.old.entries) }
    ensures keys { AreKeys rows.new.entries }
{
    match rows.insert(key, row) {
        Ok(old) => Ok(old),
        Err(_) => Err(AllocError),
    }
}

// Ends a put by what stood at its key: a new row is counted at the key above, and a directory takes its place again. Whether the put stays.
fn settle<B: Drop>(
    rows: &mut Map<B>,
    key: &[u8],
    above: &[u8],
    old: Option<Box<KeptRow<B>>>,
) -> bool
    requires keys { AreKeys rows.old.entries }
    requires key { IsKey key.now }
    requires above { IsKey above.now }
    requires few { IfSome (lookup (is_key (parts_of above.now)) (opened rows.old.entries)) (λ row. row.children < 2 ^ 63) }
    ensures answer { result ≡ not (is_directory (option_map (λ r. r.value.entry) old)) }
    ensures raised { IfNone old (opened rows.new.entries ≡ changed (is_key (parts_of above.now)) raised (opened rows.old.entries)) }
    ensures stays { IfSome old (λ row. is_directory (Some row.value.entry) ≡ false → opened rows.new.entries ≡ opened rows.old.entries) }
    ensures back { IfSome old (λ row. is_directory (Some row.value.entry) ≡ true → opened rows.new.entries ≡ changed (is_key (parts_of key.now)) (λ r. row.value) (opened rows.old.entries)) }
    ensures keys { AreKeys rows.new.entries }
{
    match old {
        None => {
            raise(rows, above);
            true
        }
        Some(row) => {
            if !row.is_directory() {
                return true;
            }
            put_back(rows, key, row);
            false
        }
    }
}

// Puts a row in the place of the one at a key.
fn put_back<B: Drop>(rows: &mut Map<B>, key: &[u8], row: Box<KeptRow<B>>)
    requires keys { AreKeys rows.old.entries }
    requires key { IsKey key.now }
    ensures back { opened rows.new.entries ≡ changed (is_key (parts_of key.now)) (λ r. row.value) (opened rows.old.entries) }
    ensures keys { AreKeys rows.new.entries }
{
    if let Some(place) = rows.get_mut(key) {
        *place = row;
    }
}

// Removes the row at a key, and takes it from the count at the key above.
fn remove_kept<B: Drop>(rows: &mut Map<B>, key: &[u8], above: &[u8])
    requires keys { AreKeys rows.old.entries }
    requires key { IsKey key.now }
    requires above { IsKey above.now }
    requires parent { parts_of above.now ≡ parts_above (parts_of key.now) }
    requires counted { IfSome (lookup (is_key (parts_of above.now)) (opened rows.old.entries)) (λ row. 0 < row.children) }
    ensures rows { opened rows.new.entries ≡ remove_entry (is_key (parts_of key.now)) (changed (is_key (parts_above (parts_of key.now))) lowered (opened rows.old.entries)) }
    ensures keys { AreKeys rows.new.entries }
{
    lower(rows, above);
    remove_row(rows, key);
}

// Removes the row at a key.
fn remove_row<B: Drop>(rows: &mut Map<B>, key: &[u8])
    requires keys { AreKeys rows.old.entries }
    requires key { IsKey key.now }
    ensures rows { opened rows.new.entries ≡ remove_entry (is_key (parts_of key.now)) (opened rows.old.entries) }
    ensures keys { AreKeys rows.new.entries }
{
    let _ = rows.remove(key);
}

// Counts one child more at a key.
fn raise<B>(rows: &mut Map<B>, key: &[u8])
    requires keys { AreKeys rows.old.entries }
    requires key { IsKey key.now }
    requires few { IfSome (lookup (is_key (parts_of key.now)) (opened rows.old.entries)) (λ row. row.children < 2 ^ 63) }
    ensures raised { opened rows.new.entries ≡ changed (is_key (parts_of key.now)) raised (opened rows.old.entries) }
    ensures keys { AreKeys rows.new.entries }
{
    if let Some(row) = rows.get_mut(key) {
        row.children += 1;
    }
}

// Counts one child less at a key.
fn lower<B>(rows: &mut Map<B>, key: &[u8])
    requires keys { AreKeys rows.old.entries }
    requires key { IsKey key.now }
    requires counted { IfSome (lookup (is_key (parts_of key.now)) (opened rows.old.entries)) (λ row. 0 < row.children) }
    ensures lowered { opened rows.new.entries ≡ changed (is_key (parts_of key.now)) lowered (opened rows.old.entries) }
    ensures keys { AreKeys rows.new.entries }
{
    if let Some(row) = rows.get_mut(key) {
        row.children -= 1;
    }
}
