//! An account: its rows and its jobs after so many commands. It is lawful, since each change is asked for before it is made.
ghost use Rattle.std.specs.Prelude.{◌≡◌, ◌<◌};
ghost use Rattle.std.specs.List.{AllByRecursion};
ghost use Rattle.mt_types.specs.WellMade.{IsDocument, IsWellMadeFate, IsWellMadeLine};
ghost use Rattle.mt_types.specs.declared.limits.TheConstants.{MOST_COMMANDS};
ghost use Rattle.mt_model.specs.CommandStep.{outside_jobs};
ghost use Rattle.mt_model.specs.Rows.{make_directory_refusal, put_refusal};
ghost use Rattle.mt_tree.specs.Answer.{answer};

use mt_jobs::{Jobs, may_make_job};
use mt_rows::Stop;
use mt_tree::Tree;
use mt_types::{
    Archive, Area, Body, Fate, InputLine, Job, JobDocument, MOST_COMMANDS, NUMBERS_A_COMMAND,
    Object, Path, Refusal, Sequence, Task, Text,
};
use std::alloc::{AllocError, Global};
use std::marker::Model;

/// The moment of the first command.
const FIRST_MOMENT: u64 = 1000;

/// An account.
#[derive(Drop)]
pub struct Account {
    tree: Tree<Body>,
    jobs: Jobs<Body>,
    position: u64,
}

impl Model for Account {
    ghost use Rattle.mt_model.specs.Lawful.{Lawful};
    ghost use Rattle.mt_model.specs.State.{State};
    ghost use Rattle.mt_types.specs.declared.body.Body.{Body};
    ghost use Rattle.mt_jobs.specs.Shown.{state_of};

    ghost Value = { State Body };

    ghost view = { λ a. state_of a.position a.tree a.jobs };

    ghost invariant = { λ a. Lawful (state_of a.position a.tree a.jobs) };
}

/// The account after a command, and why it was not taken, if so.
pub type Changed = Result<(Account, Result<(), Refusal>), Stop>;

/// A body of so many bytes, of which nothing else matters.
pub fn body(len: u64) -> Body {
    Body {
        first: 0,
        len,
        md5: [0; 16],
    }
}

// Whether an object may be put at a path.
fn may_put(tree: &Tree<Body>, path: &Path) -> Result<(), Refusal>
    ensures { result ≡ answer (outside_jobs path.now (put_refusal tree.now path.now)) }
{
    match path.area() {
        Area::Jobs => Err(Refusal::RootDirectory),
        Area::Stor | Area::Public => tree.may_put(path),
    }
}

// Whether a directory may be made there.
fn may_make_directory(tree: &Tree<Body>, path: &Path) -> Result<(), Refusal>
    ensures { result ≡ answer (outside_jobs path.now (make_directory_refusal tree.now path.now)) }
{
    match path.area() {
        Area::Jobs => Err(Refusal::RootDirectory),
        Area::Stor | Area::Public => tree.may_make_directory(path),
    }
}

// Of bodies of 10 to 14 bytes.
fn archive() -> Archive<Body> {
    Archive {
        err: body(10),
        fail: body(11),
        input: body(12),
        status: body(13),
        out: body(14),
    }
}

impl Account {
    ghost use Rattle.std.specs.Prelude.{◌≡◌, ◌<◌, ℕ, IfSome};
    ghost use Rattle.mt_types.specs.declared.body.Body.{Body};
    ghost use Rattle.mt_model.specs.Lawful.{LawfulJob};

    /// An empty account.
    pub fn new(alloc: Global) -> Result<Account, AllocError> {
        Ok(Account {
            tree: Tree::new(alloc)?,
            jobs: Jobs::new(alloc),
            position: 0,
        })
    }

    pub fn tree(&self) -> &Tree<Body> {
        &self.tree
    }

    pub fn jobs(&self) -> &Jobs<Body> {
        &self.jobs
    }

    /// The job at a place, in the order in which they were made.
    pub fn job(&self, place: usize) -> Option<&Job<Body>>
        ensures { IfSome result (λ j. (count : ℕ) × LawfulJob count j.now) }
    {
        self.jobs.at(place)
    }

    pub fn position(&self) -> u64
        ensures { result ≡ self.now.count }
    {
        self.position
    }

    /// Puts an object of so many bytes.
    pub fn put(self, alloc: Global, path: Path, len: u64) -> Changed
        requires { self.count < MOST_COMMANDS }
    {
        match may_put(&self.tree, &path) {
            Err(refusal) => Ok((self, Err(refusal))),
            Ok(()) => {
                let Account {
                    mut tree,
                    jobs,
                    position,
                } = self;
                let _key = path.key();
                let object = Object {
                    number: position * NUMBERS_A_COMMAND,
                    body: body(len),
                    content_type: Text::from_str(alloc, "text/plain")?,
                    durability: None,
                    metadata: Sequence::new(alloc),
                    mtime: FIRST_MOMENT + position,
                };
                tree.put_object(path, object)?;
                let account = Account {
                    tree,
                    jobs,
                    position: position + 1,
                };
                Ok((account, Ok(())))
            }
        }
    }

    /// Makes a directory.
    pub fn make_directory(self, path: Path) -> Changed
        requires { self.count < MOST_COMMANDS }
    {
        match may_make_directory(&self.tree, &path) {
            Err(refusal) => Ok((self, Err(refusal))),
            Ok(()) => {
                let Account {
                    mut tree,
                    jobs,
                    position,
                } = self;
                let _key = path.key();
                tree.make_directory(path, FIRST_MOMENT + position)?;
                let account = Account {
                    tree,
                    jobs,
                    position: position + 1,
                };
                Ok((account, Ok(())))
            }
        }
    }

    /// Makes a job.
    pub fn make(self, alloc: Global, document: JobDocument) -> Changed
        requires room { self.count < MOST_COMMANDS }
        requires document { IsDocument document }
    {
        match may_make_job(&self.tree, &document) {
            Err(refusal) => Ok((self, Err(refusal))),
            Ok(()) => {
                let Account {
                    mut tree,
                    mut jobs,
                    position,
                } = self;
                jobs.make_job(
                    alloc,
                    &mut tree,
                    document,
                    position,
                    FIRST_MOMENT + position,
                )?;
                let account = Account {
                    tree,
                    jobs,
                    position: position + 1,
                };
                Ok((account, Ok(())))
            }
        }
    }

    /// Posts lines.
    pub fn add(self, alloc: Global, job: u64, lines: &[InputLine]) -> Changed
        requires room { self.count < MOST_COMMANDS }
        requires lines { AllByRecursion IsWellMadeLine lines.now }
    {
        match self.jobs.may_add_inputs(job, lines) {
            Err(refusal) => Ok((self, Err(refusal))),
            Ok(()) => {
                let Account {
                    tree,
                    mut jobs,
                    position,
                } = self;
                jobs.add_inputs(alloc, &tree, job, lines)?;
                let account = Account {
                    tree,
                    jobs,
                    position: position + 1,
                };
                Ok((account, Ok(())))
            }
        }
    }

    /// Ends the input of a job.
    pub fn end(self, alloc: Global, job: u64) -> Changed
        requires { self.count < MOST_COMMANDS }
    {
        match self.jobs.may_end_input(job) {
            Err(refusal) => Ok((self, Err(refusal))),
            Ok(()) => {
                let Account {
                    tree,
                    mut jobs,
                    position,
                } = self;
                jobs.end_input(alloc, job)?;
                let account = Account {
                    tree,
                    jobs,
                    position: position + 1,
                };
                Ok((account, Ok(())))
            }
        }
    }

    /// Commits a task.
    pub fn commit(self, alloc: Global, task: &Task, fate: &Fate<Body>) -> Changed
        requires room { self.count < MOST_COMMANDS }
        requires fate { IsWellMadeFate fate.now }
    {
        match self.jobs.may_commit(task) {
            Err(refusal) => Ok((self, Err(refusal))),
            Ok(()) => {
                let Account {
                    mut tree,
                    mut jobs,
                    position,
                } = self;
                jobs.commit(
                    alloc,
                    &mut tree,
                    task,
                    fate,
                    position,
                    FIRST_MOMENT + position,
                )?;
                let account = Account {
                    tree,
                    jobs,
                    position: position + 1,
                };
                Ok((account, Ok(())))
            }
        }
    }

    /// Finishes a job.
    pub fn finish(self, job: u64) -> Changed
        requires { self.count < MOST_COMMANDS }
    {
        match self.jobs.may_finish(job) {
            Err(refusal) => Ok((self, Err(refusal))),
            Ok(()) => {
                let Account {
                    tree,
                    mut jobs,
                    position,
                } = self;
                jobs.finish(job, FIRST_MOMENT + position)?;
                let account = Account {
                    tree,
                    jobs,
                    position: position + 1,
                };
                Ok((account, Ok(())))
            }
        }
    }

    /// Cancels a job.
    pub fn cancel(self, job: u64) -> Changed
        requires { self.count < MOST_COMMANDS }
    {
        match self.jobs.may_cancel(job) {
            Err(refusal) => Ok((self, Err(refusal))),
            Ok(()) => {
                let Account {
                    tree,
                    mut jobs,
                    position,
                } = self;
                jobs.cancel(job, FIRST_MOMENT + position)?;
                let account = Account {
                    tree,
                    jobs,
                    position: position + 1,
                };
                Ok((account, Ok(())))
            }
        }
    }

    /// Closes a job with its archive.
    pub fn close(self, alloc: Global, job: u64, cancelled: bool) -> Changed
        requires { self.count < MOST_COMMANDS }
    {
        match self.jobs.may_close(job, cancelled) {
            Err(refusal) => Ok((self, Err(refusal))),
            Ok(()) => {
                let Account {
                    mut tree,
                    mut jobs,
                    position,
                } = self;
                jobs.close(
                    alloc,
                    &mut tree,
                    job,
                    cancelled,
                    archive(),
                    position,
                    FIRST_MOMENT + position,
                )?;
                let account = Account {
                    tree,
                    jobs,
                    position: position + 1,
                };
                Ok((account, Ok(())))
            }
        }
    }
}
