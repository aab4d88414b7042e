//! An account: its rows and its uploads after so many commands. It is lawful, since each change is asked for before it is made.
ghost use Rattle.std.specs.Prelude.{◌≡◌, ◌<◌, true};
ghost use Rattle.mt_types.specs.Limits.{is_index};
ghost use Rattle.mt_types.specs.declared.limits.TheConstants.{MOST_COMMANDS};
ghost use Rattle.mt_model.specs.CommandStep.{outside_jobs};
ghost use Rattle.mt_model.specs.Rows.{make_directory_refusal, put_refusal, remove_refusal};
ghost use Rattle.mt_tree.specs.Answer.{answer};

use mt_rows::Stop;
use mt_tree::Tree;
use mt_types::{
    Area, Body, MOST_COMMANDS, NUMBERS_A_COMMAND, Object, Path, Refusal, Sequence, Text,
};
use mt_upload::{Uploads, may_begin};
use std::alloc::{AllocError, Global};
use std::marker::Model;

/// The moment of the first command.
const FIRST_MOMENT: u64 = 1000;

/// An account.
#[derive(Drop)]
pub struct Account {
    tree: Tree<Body>,
    uploads: Uploads<Body>,
    position: u64,
}

impl Model for Account {
    ghost use Rattle.mt_model.specs.Lawful.{Lawful};
    ghost use Rattle.mt_model.specs.State.{State};
    ghost use Rattle.mt_types.specs.declared.body.Body.{Body};
    ghost use Rattle.mt_upload.specs.Shown.{state_of};

    ghost Value = { State Body };

    ghost view = { λ a. state_of a.position a.tree a.uploads };

    ghost invariant = { λ a. Lawful (state_of a.position a.tree a.uploads) };
}

/// The account after a command, and why it was not taken, if so.
pub type Changed = Result<(Account, Result<(), Refusal>), Stop>;

/// A body of so many bytes, of which nothing else matters.
pub fn body(len: u64) -> Body {
    Body {
        first: 0,
        len,
        md5: [0; 16],
    }
}

// Whether an object may be put at a path.
fn may_put(tree: &Tree<Body>, path: &Path) -> Result<(), Refusal>
    ensures { result ≡ answer (outside_jobs path.now (put_refusal tree.now path.now)) }
{
    match path.area() {
        Area::Jobs => Err(Refusal::RootDirectory),
        Area::Stor | Area::Public => tree.may_put(path),
    }
}

// Whether a directory may be made there.
fn may_make_directory(tree: &Tree<Body>, path: &Path) -> Result<(), Refusal>
    ensures { result ≡ answer (outside_jobs path.now (make_directory_refusal tree.now path.now)) }
{
    match path.area() {
        Area::Jobs => Err(Refusal::RootDirectory),
        Area::Stor | Area::Public => tree.may_make_directory(path),
    }
}

// Whether what stands there may be removed.
fn may_remove(tree: &Tree<Body>, path: &Path) -> Result<(), Refusal>
    ensures { result ≡ answer (outside_jobs path.now (remove_refusal tree.now path.now)) }
{
    match path.area() {
        Area::Jobs => Err(Refusal::RootDirectory),
        Area::Stor | Area::Public => tree.may_remove(path),
    }
}

impl Account {
    /// An empty account.
    pub fn new(alloc: Global) -> Result<Account, AllocError> {
        Ok(Account {
            tree: Tree::new(alloc)?,
            uploads: Uploads::new(alloc),
            position: 0,
        })
    }

    pub fn tree(&self) -> &Tree<Body> {
        &self.tree
    }

    pub fn uploads(&self) -> &Uploads<Body> {
        &self.uploads
    }

    pub fn position(&self) -> u64
        ensures { result ≡ self.now.count }
    {
        self.position
    }

    /// Puts an object of so many bytes.
    pub fn put(self, alloc: Global, path: Path, len: u64) -> Changed
        requires { self.count < MOST_COMMANDS }
    {
        match may_put(&self.tree, &path) {
            Err(refusal) => Ok((self, Err(refusal))),
            Ok(()) => {
                let Account {
                    mut tree,
                    uploads,
                    position,
                } = self;
                let _key = path.key();
                let object = Object {
                    number: position * NUMBERS_A_COMMAND,
                    body: body(len),
                    content_type: Text::from_str(alloc, "text/plain")?,
                    durability: None,
                    metadata: Sequence::new(alloc),
                    mtime: FIRST_MOMENT + position,
                };
                tree.put_object(path, object)?;
                let account = Account {
                    tree,
                    uploads,
                    position: position + 1,
                };
                Ok((account, Ok(())))
            }
        }
    }

    /// Makes a directory.
    pub fn make_directory(self, path: Path) -> Changed
        requires { self.count < MOST_COMMANDS }
    {
        match may_make_directory(&self.tree, &path) {
            Err(refusal) => Ok((self, Err(refusal))),
            Ok(()) => {
                let Account {
                    mut tree,
                    uploads,
                    position,
                } = self;
                let _key = path.key();
                tree.make_directory(path, FIRST_MOMENT + position)?;
                let account = Account {
                    tree,
                    uploads,
                    position: position + 1,
                };
                Ok((account, Ok(())))
            }
        }
    }

    /// Removes what stands there.
    pub fn remove(self, path: &Path) -> Changed
        requires { self.count < MOST_COMMANDS }
    {
        match may_remove(&self.tree, path) {
            Err(refusal) => Ok((self, Err(refusal))),
            Ok(()) => {
                let Account {
                    mut tree,
                    uploads,
                    position,
                } = self;
                tree.remove(path);
                let account = Account {
                    tree,
                    uploads,
                    position: position + 1,
                };
                Ok((account, Ok(())))
            }
        }
    }

    /// Begins an upload.
    pub fn begin(self, alloc: Global, path: Path, content_type: Text) -> Changed
        requires { self.count < MOST_COMMANDS }
    {
        match may_begin(&path) {
            Err(refusal) => Ok((self, Err(refusal))),
            Ok(()) => {
                let Account {
                    tree,
                    mut uploads,
                    position,
                } = self;
                let _key = path.key();
                uploads.begin(alloc, position, path, content_type, FIRST_MOMENT + position)?;
                let account = Account {
                    tree,
                    uploads,
                    position: position + 1,
                };
                Ok((account, Ok(())))
            }
        }
    }

    /// Puts a part of so many bytes.
    pub fn put_part(self, alloc: Global, upload: u64, index: u16, len: u64) -> Changed
        requires room { self.count < MOST_COMMANDS }
        requires index { is_index index ≡ true }
    {
        match self.uploads.may_put_part(upload) {
            Err(refusal) => Ok((self, Err(refusal))),
            Ok(()) => {
                let Account {
                    tree,
                    mut uploads,
                    position,
                } = self;
                uploads.put_part(alloc, position, upload, index, body(len))?;
                let account = Account {
                    tree,
                    uploads,
                    position: position + 1,
                };
                Ok((account, Ok(())))
            }
        }
    }

    /// Commits an upload of the parts of these numbers.
    pub fn commit(self, alloc: Global, upload: u64, numbers: &[u64]) -> Changed
        requires { self.count < MOST_COMMANDS }
    {
        match self.uploads.may_commit(&self.tree, upload, numbers) {
            Err(refusal) => Ok((self, Err(refusal))),
            Ok(()) => {
                let Account {
                    mut tree,
                    mut uploads,
                    position,
                } = self;
                let len = uploads.joined_len(upload, numbers.len());
                uploads.commit(
                    alloc,
                    &mut tree,
                    position,
                    upload,
                    body(len),
                    FIRST_MOMENT + position,
                )?;
                let account = Account {
                    tree,
                    uploads,
                    position: position + 1,
                };
                Ok((account, Ok(())))
            }
        }
    }

    /// Gives an upload up.
    pub fn abort(self, alloc: Global, upload: u64) -> Changed
        requires { self.count < MOST_COMMANDS }
    {
        match self.uploads.may_abort(upload) {
            Err(refusal) => Ok((self, Err(refusal))),
            Ok(()) => {
                let Account {
                    tree,
                    mut uploads,
                    position,
                } = self;
                uploads.abort(alloc, upload);
                let account = Account {
                    tree,
                    uploads,
                    position: position + 1,
                };
                Ok((account, Ok(())))
            }
        }
    }
}
