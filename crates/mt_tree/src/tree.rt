//! The tree of an account.
ghost use Rattle.std.specs.Prelude.{◌≡◌, ◌≢◌, All, IfOk, OnOk, OnErr, None, is_some, option_copied, length, map, take};
ghost use Rattle.std.specs.Map.{lookup};
ghost use Rattle.mt_path.specs.AccountPath.{IsComponent};
ghost use Rattle.mt_path.specs.Keys.{IsKey, path_at};
ghost use Rattle.mt_model.specs.Listing.{listing, result_set_size};
ghost use Rattle.mt_model.specs.Rows.{at, first_rows, make_directory_refusal, object_at, parent_refusal, put_refusal, remove_refusal, row_of, source_refusal, with_row, without_row};
ghost use Rattle.mt_types.specs.declared.object.Entry.TheVariants as entry;
ghost use Rattle.mt_tree.specs.Answer.{answer};
ghost use Rattle.mt_tree.specs.Lent.{lent};
ghost use Rattle.mt_tree.specs.Walk.{listed_row, rows_after};

use crate::areas::Areas;
use crate::listing::{Listed, copy_rows, page_rows};
use mt_types::{Area, Duplicate, Entry, Object, Path, Refusal, RowList, Sequence};
use std::alloc::{AllocError, Global};
use std::marker::Model;

/// The tree of an account, generic in what a body is. Contracts see it as its rows, in the order of their
/// paths: each path once, three roots that are directories, and below each directory its children.
#[derive(Drop)]
pub struct Tree<B> {
    areas: Areas<B>,
}

impl<B> Model for Tree<B> {
    ghost use Rattle.mt_model.specs.Rows.{Rows};
    ghost use Rattle.mt_tree.specs.Areas.{all_of, kept_of};
    ghost use Rattle.mt_tree.specs.AreaRows.{IsKept};

    ghost Value = { Rows B };

    ghost view = { λ t. all_of t.areas };

    ghost invariant = { λ t. IsKept (kept_of t.areas) };
}

impl<B> Tree<B> {
    /// The three roots, made at moment 0.
    pub fn new(alloc: Global) -> Result<Tree<B>, AllocError>
    where
        B: Drop,
        ensures { IfOk result (λ t. t ≡ first_rows) }
    {
        Ok(Tree {
            areas: Areas::new(alloc)?,
        })
    }

    /// What stands at a path. Takes no memory, at the cost of a look-up.
    pub fn get(&self, path: &Path) -> Option<&Entry<B>>
        ensures { option_copied result ≡ at self.now path.now }
    {
        self.entry(path.area(), path.key())
    }

    /// The object at a path, if one stands there. Takes no memory, at the cost of a look-up.
    pub fn object_at(&self, path: &Path) -> Option<&Object<B>>
        ensures { option_copied result ≡ object_at self.now path.now }
    {
        match self.get(path) {
            Some(Entry::Object(object)) => Some(object),
            _ => None,
        }
    }

    /// Whether a link may be made to what stands at a path. Takes no memory, at the cost of a look-up.
    pub fn may_be_linked(&self, source: &Path) -> Result<(), Refusal>
        ensures { result ≡ answer (source_refusal (at self.now source.now)) }
    {
        match self.get(source) {
            None => Err(Refusal::LinkNotFound),
            Some(Entry::Directory { .. }) => Err(Refusal::LinkNotObject),
            Some(Entry::Object(_)) => Ok(()),
        }
    }

    /// Whether an object may be put at a path. Takes no memory, at the cost of two look-ups.
    pub fn may_put(&self, path: &Path) -> Result<(), Refusal>
        ensures { result ≡ answer (put_refusal self.now path.now) }
    {
        if path.is_root() {
            return Err(Refusal::RootDirectory);
        }
        self.may_stand(path)?;
        match self.get(path) {
            Some(Entry::Directory { .. }) => Err(Refusal::DirectoryOperation),
            _ => Ok(()),
        }
    }

    /// Whether a directory may be made at a path. Takes no memory, at the cost of two look-ups.
    pub fn may_make_directory(&self, path: &Path) -> Result<(), Refusal>
        ensures { result ≡ answer (make_directory_refusal self.now path.now) }
    {
        if self.get(path).is_some() {
            return Err(Refusal::EntityExists);
        }
        self.may_stand(path)
    }

    /// Whether the row at a path may be removed. Takes no memory, at the cost of two look-ups.
    pub fn may_remove(&self, path: &Path) -> Result<(), Refusal>
        ensures { result ≡ answer (remove_refusal self.now path.now) }
    {
        if path.is_root() {
            return Err(Refusal::RootDirectory);
        }
        if self.get(path).is_none() {
            return Err(Refusal::NotFound);
        }
        if self.count(path) > 0 {
            return Err(Refusal::DirectoryNotEmpty);
        }
        Ok(())
    }

    /// Puts an object at a path, in the place of one that stood there. [`Tree::may_put`] has to allow it.
    /// On an error, which is want of memory, the tree is as it was.
    pub fn put_object(&mut self, path: Path, object: Object<B>) -> Result<(), AllocError>
    where
        B: Drop,
        requires { put_refusal self.old path ≡ None }
        ensures ok { OnOk result (self.new ≡ with_row self.old path (entry.Object object)) }
        ensures err { OnErr result (self.new ≡ self.old) }
    {
        self.areas.put(path, Entry::Object(object))?;
        Ok(())
    }

    /// Puts an object at a path where that is allowed, and answers as [`Tree::may_put`] does. It costs one look-up, of the row above, and
    /// a put: what stands at the path is seen as the row goes in. On a refusal, and on an error, which is want of memory, the tree is
    /// as it was.
    pub fn put_if_allowed(
        &mut self,
        path: Path,
        object: Object<B>,
    ) -> Result<Result<(), Refusal>, AllocError>
    where
        B: Drop,
        ensures answer { IfOk result (λ may. may ≡ answer (put_refusal self.old path)) }
        ensures put { put_refusal self.old path ≡ None → OnOk result (self.new ≡ with_row self.old path (entry.Object object)) }
        ensures refused { put_refusal self.old path ≢ None → self.new ≡ self.old }
        ensures err { OnErr result (self.new ≡ self.old) }
    {
        if path.is_root() {
            return Ok(Err(Refusal::RootDirectory));
        }
        if let Err(refusal) = self.may_stand(&path) {
            return Ok(Err(refusal));
        }
        if self.areas.put(path, Entry::Object(object))? {
            return Ok(Ok(()));
        }
        Ok(Err(Refusal::DirectoryOperation))
    }

    /// Makes a directory at a path, at a moment in seconds since 1970. [`Tree::may_make_directory`] has to allow it.
    /// On an error, which is want of memory, the tree is as it was.
    pub fn make_directory(&mut self, path: Path, moment: u64) -> Result<(), AllocError>
    where
        B: Drop,
        requires { make_directory_refusal self.old path ≡ None }
        ensures ok { OnOk result (self.new ≡ with_row self.old path (entry.Directory moment)) }
        ensures err { OnErr result (self.new ≡ self.old) }
    {
        self.areas.put(path, Entry::Directory { mtime: moment })?;
        Ok(())
    }

    /// Removes the row at a path. [`Tree::may_remove`] has to allow it. Takes no memory.
    pub fn remove(&mut self, path: &Path)
    where
        B: Drop,
        requires { remove_refusal self.old path.now ≡ None }
        ensures { self.new ≡ without_row self.old path.now }
    {
        self.areas.remove(path);
    }

    /// The number of children of a directory; 0 where no directory stands. Takes no memory, at the cost of
    /// a look-up.
    pub fn count(&self, dir: &Path) -> u64
        ensures { result ≡ result_set_size self.now dir.now }
    {
        match self.areas.get(dir.area(), dir.key()) {
            Some(row) => row.children,
            None => 0,
        }
    }

    /// At most `limit` children of a directory in the order of their names, from the first whose name is not
    /// below the marker; none where no directory stands. The marker need not be a name of a child. Names and
    /// entries are lent, and none is copied. It costs a look-up for each row, however many rows stand below the
    /// children.
    pub fn page<'a>(
        &'a self,
        alloc: Global,
        dir: &Path,
        marker: &[u8],
        limit: usize,
    ) -> Result<Vec<Listed<'a, B>>, AllocError>
        ensures rows { IfOk result (λ page. map lent page.items ≡ map listed_row (listing self.now dir.now marker.now limit)) }
        ensures names { IfOk result (λ page. All (λ x. IsComponent x.name.now) page.items) }
    {
        let rows = self.areas.kept(dir.area()).map();
        page_rows(alloc, rows, dir.key(), marker, limit)
    }

    /// At most `limit` rows in the order of their paths, from the first above a path, or from the first of
    /// all: a walk over all rows takes page after page, each after the last path of the one before.
    pub fn rows_after(
        &self,
        alloc: Global,
        after: Option<&Path>,
        limit: usize,
    ) -> Result<RowList<B>, AllocError>
    where
        B: Duplicate,
        ensures { IfOk result (λ rows. rows ≡ map row_of (take limit (rows_after (option_copied after.entry) self.now))) }
    {
        let areas = &self.areas;
        let mut out = Vec::new(alloc);
        copy_rows(alloc, Area::Stor, areas.stor.map(), after, limit, &mut out)?;
        copy_rows(
            alloc,
            Area::Public,
            areas.public.map(),
            after,
            limit,
            &mut out,
        )?;
        copy_rows(alloc, Area::Jobs, areas.jobs.map(), after, limit, &mut out)?;
        Ok(Sequence::from_vec(out))
    }

    // What stands at the path of this key.
    fn entry(&self, area: Area, key: &[u8]) -> Option<&Entry<B>>
        requires { IsKey key.now }
        ensures { option_copied result ≡ at self.now (path_at area key.now) }
    {
        match self.areas.get(area, key) {
            Some(row) => Some(row.entry()),
            None => None,
        }
    }

    // Whether a row may stand at a path: a directory above it, or none where it is a root.
    fn may_stand(&self, path: &Path) -> Result<(), Refusal>
        ensures { result ≡ answer (parent_refusal self.now path.now) }
    {
        if path.is_root() {
            return Ok(());
        }
        match self.entry(path.area(), path.parent_key()) {
            None => Err(Refusal::DirectoryDoesNotExist),
            Some(Entry::Object(_)) => Err(Refusal::ParentNotDirectory),
            Some(Entry::Directory { .. }) => Ok(()),
        }
    }
}
