//! The rows of an account, area by area.
ghost use Rattle.std.specs.Prelude.{◌≡◌, ◌<◌, true, false, IfOk, OnOk, OnErr, Some, None, length, not, option_copied};
ghost use Rattle.std.specs.Map.{lookup};
ghost use Rattle.mt_path.specs.AccountPath.{AccountPath, parent_of};
ghost use Rattle.mt_path.specs.Keys.{IsKey, path_at};
ghost use Rattle.mt_model.specs.Rows.{at, first_rows, is_directory, is_path, remove_refusal, with_row, without_row};
ghost use Rattle.mt_tree.specs.Areas.{all_of, kept_of, map_of};
ghost use Rattle.mt_tree.specs.AreaRows.{IsKept};

use crate::kept::{AreaRows, KeptRow};
use mt_types::{Area, Entry, Path};
use std::alloc::{AllocError, Global};

/// The rows of an account.
#[derive(Drop)]
pub struct Areas<B> {
    /// Those of `stor`.
    pub stor: AreaRows<B>,
    /// Those of `public`.
    pub public: AreaRows<B>,
    /// Those of `jobs`.
    pub jobs: AreaRows<B>,
}

impl<B> Areas<B> {
    /// The three roots, made at moment 0.
    pub fn new(alloc: Global) -> Result<Areas<B>, AllocError>
    where
        B: Drop,
        ensures rows { IfOk result (λ areas. all_of areas ≡ first_rows) }
        ensures kept { IfOk result (λ areas. IsKept (kept_of areas)) }
    {
        Ok(Areas {
            stor: AreaRows::root_alone(alloc)?,
            public: AreaRows::root_alone(alloc)?,
            jobs: AreaRows::root_alone(alloc)?,
        })
    }

    /// The rows of an area.
    pub fn kept(&self, area: Area) -> &AreaRows<B>
        ensures { result.now ≡ map_of self.now area }
    {
        match area {
            Area::Stor => &self.stor,
            Area::Public => &self.public,
            Area::Jobs => &self.jobs,
        }
    }

    /// The row at the path of this key.
    pub fn get(&self, area: Area, key: &[u8]) -> Option<&KeptRow<B>>
        requires { IsKey key.now }
        ensures { option_copied result ≡ lookup (is_path (path_at area key.now)) (kept_of self.now) }
    {
        self.kept(area).get(key)
    }

    /// Puts an entry without children at a path, in the place of an object that stood there. Whether it was put: where a directory
    /// stands, and on an error, all is as it was.
    pub fn put(&mut self, path: Path, entry: Entry<B>) -> Result<bool, AllocError>
    where
        B: Drop,
        requires kept { IsKept (kept_of self.old) }
        requires below { 0 < length path.parts }
        requires parent { (d : AccountPath) → parent_of path ≡ Some d → is_directory (at (all_of self.old) d) ≡ true }
        ensures answer { IfOk result (λ is_put. is_put ≡ not (is_directory (at (all_of self.old) path))) }
        ensures put { is_directory (at (all_of self.old) path) ≡ false → OnOk result (all_of self.new ≡ with_row (all_of self.old) path entry) }
        ensures refused { is_directory (at (all_of self.old) path) ≡ true → all_of self.new ≡ all_of self.old }
        ensures err { OnErr result (all_of self.new ≡ all_of self.old) }
        ensures kept { IsKept (kept_of self.new) }
    {
        let key = path.key();
        let above = path.parent_key();
        match path.area() {
            Area::Stor => self.stor.put(key, above, entry),
            Area::Public => self.public.put(key, above, entry),
            Area::Jobs => self.jobs.put(key, above, entry),
        }
    }

    /// Removes the row at a path.
    pub fn remove(&mut self, path: &Path)
    where
        B: Drop,
        requires kept { IsKept (kept_of self.old) }
        requires allowed { remove_refusal (all_of self.old) path.now ≡ None }
        ensures removed { all_of self.new ≡ without_row (all_of self.old) path.now }
        ensures kept { IsKept (kept_of self.new) }
    {
        let key = path.key();
        let above = path.parent_key();
        match path.area() {
            Area::Stor => self.stor.remove(key, above),
            Area::Public => self.public.remove(key, above),
            Area::Jobs => self.jobs.remove(key, above),
        }
    }
}
