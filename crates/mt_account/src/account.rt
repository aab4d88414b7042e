//! The state of an account over references to bodies, as one value.
ghost use Rattle.std.specs.Prelude.{◌≡◌, ◌≢◌, ◌<◌, ◌≤◌, ◌⊎◌, IfOk, OnOk, OnErr, None, []};
ghost use Rattle.mt_codec.specs.Spelling.{HasSpelling};
ghost use Rattle.mt_model.specs.CommandStep.{allowed, step};
ghost use Rattle.mt_model.specs.Keeping.{KeepsLimits};
ghost use Rattle.mt_model.specs.Lawful.{Lawful};
ghost use Rattle.mt_model.specs.Rows.{first_rows};
ghost use Rattle.mt_model.specs.State.{first_state};
ghost use Rattle.mt_jobs.specs.Shown.{state_of};
ghost use Rattle.mt_snapshot.specs.Listing.{IsListable};
ghost use Rattle.mt_tree.specs.Answer.{answer};
ghost use Rattle.mt_types.specs.Kinds.{OnRows, kind_of};
ghost use Rattle.mt_types.specs.declared.limits.TheConstants.{MOST_COMMANDS};
ghost use Rattle.mt_account.specs.Kept.{Keeps, lost_account};
ghost use Rattle.mt_account.specs.Taken.{IsOfJobs, IsTaken};

use crate::jobs::is_of_jobs;
use crate::{jobs, rows};
use mt_jobs::Jobs;
use mt_tree::Tree;
use mt_types::{Body, Command, MOST_COMMANDS, Refusal};
use std::alloc::{AllocError, Global};
use std::marker::Model;
use std::mem;

/// The state of an account. Contracts see it as a state whose bodies are references into the log, without uploads. It is lawful,
/// keeps its limits, and can be listed record by record.
#[derive(Drop)]
pub struct Account {
    count: u64,
    tree: Tree<Body>,
    jobs: Jobs<Body>,
    // an empty tree, for the day on which memory is wanting
    spare: Tree<Body>,
}

impl Model for Account {
    ghost use Rattle.mt_model.specs.State.{State};
    ghost use Rattle.mt_types.specs.declared.body.Body.{Body};
    ghost use Rattle.mt_jobs.specs.Shown.{state_of};
    ghost use Rattle.mt_account.specs.Kept.{Keeps};

    ghost Value = { State Body };

    ghost view = { λ a. state_of a.count a.tree a.jobs };

    ghost invariant = { λ a. Keeps a.count a.tree a.jobs a.spare };
}

// Leaves a lost account: the rows of the spare tree, no jobs, and no room for a command. It takes no memory.
fn lose(
    alloc: Global,
    count: &mut u64,
    tree: &mut Tree<Body>,
    jobs: &mut Jobs<Body>,
    spare: &mut Tree<Body>,
)
    requires { spare.old ≡ first_rows }
    ensures count { count.new ≡ MOST_COMMANDS }
    ensures rows { tree.new ≡ first_rows }
    ensures jobs { jobs.new ≡ [] }
{
    mem::swap(tree, spare);
    *jobs = Jobs::new(alloc);
    *count = MOST_COMMANDS;
}

// Takes an allowed command on jobs. On an error, which is want of memory, the account is lost.
fn take_on_jobs(
    alloc: Global,
    count: &mut u64,
    tree: &mut Tree<Body>,
    jobs: &mut Jobs<Body>,
    spare: &mut Tree<Body>,
    command: Command<Body>,
) -> Result<(), AllocError>
    requires kind { IsOfJobs (kind_of command) }
    requires spelled { HasSpelling command }
    requires kept { Keeps count.old tree.old jobs.old spare.old }
    requires few { count.old < MOST_COMMANDS }
    requires allowed { allowed (λ b. b.len) (state_of count.old tree.old jobs.old) command ≡ None }
    ensures kept { Keeps count.new tree.new jobs.new spare.new }
    ensures ok { OnOk result (state_of count.new tree.new jobs.new ≡ step (state_of count.old tree.old jobs.old) command) }
    ensures err { OnErr result (state_of count.new tree.new jobs.new ≡ lost_account) }
{
    match jobs::change(alloc, *count, tree, jobs, command) {
        Ok(()) => {
            *count += 1;
            Ok(())
        }
        Err(error) => {
            lose(alloc, count, tree, jobs, spare);
            Err(error)
        }
    }
}

impl Account {
    /// The empty account.
    pub fn new(alloc: Global) -> Result<Account, AllocError>
        ensures { IfOk result (λ a. a ≡ first_state) }
    {
        Ok(Account {
            count: 0,
            tree: Tree::new(alloc)?,
            jobs: Jobs::new(alloc),
            spare: Tree::new(alloc)?,
        })
    }

    /// What stands at its paths: a lawful tree within its limits, of a state that can be listed.
    pub fn tree(&self) -> &Tree<Body>
        ensures rows { result.now ≡ self.now.rows }
        ensures lawful { Lawful self.now }
        ensures limits { KeepsLimits self.now }
        ensures listable { IsListable self.now }
    {
        &self.tree
    }

    /// Its jobs, which are lawful and within their limits.
    pub fn jobs(&self) -> &Jobs<Body>
        ensures jobs { result.now ≡ self.now.jobs }
        ensures lawful { Lawful self.now }
        ensures limits { KeepsLimits self.now }
    {
        &self.jobs
    }

    /// The number of commands so far, 2 ^ 50 - 1 at most.
    pub fn count(&self) -> u64
        ensures count { result ≡ self.now.count }
        ensures most { result ≤ MOST_COMMANDS }
    {
        self.count
    }

    /// Whether a command is allowed. It takes no memory.
    pub fn judge(&self, command: &Command<Body>) -> Result<(), Refusal>
        requires kind { IsTaken (kind_of command.now) }
        ensures { result ≡ answer (allowed (λ b. b.len) self.now command.now) }
    {
        if is_of_jobs(command) {
            jobs::judge(&self.tree, &self.jobs, command)
        } else {
            rows::judge(&self.tree, self.count, command)
        }
    }

    // Takes an allowed command on jobs.
    fn change_jobs(&mut self, alloc: Global, command: Command<Body>) -> Result<(), AllocError>
        requires kind { IsOfJobs (kind_of command) }
        requires spelled { HasSpelling command }
        requires few { self.old.count < MOST_COMMANDS }
        requires allowed { allowed (λ b. b.len) self.old command ≡ None }
        ensures ok { OnOk result (self.new ≡ step self.old command) }
        ensures err { OnErr result (self.new ≡ lost_account) }
    {
        take_on_jobs(
            alloc,
            &mut self.count,
            &mut self.tree,
            &mut self.jobs,
            &mut self.spare,
            command,
        )
    }

    // Takes an allowed command on rows.
    fn change_rows(&mut self, alloc: Global, command: Command<Body>) -> Result<(), AllocError>
        requires kind { kind_of command ≡ OnRows }
        requires spelled { HasSpelling command }
        requires few { self.old.count < MOST_COMMANDS }
        requires allowed { allowed (λ b. b.len) self.old command ≡ None }
        ensures ok { OnOk result (self.new ≡ step self.old command) }
        ensures err { OnErr result (self.new ≡ self.old) }
    {
        rows::change(&mut self.tree, alloc, self.count, command)?;
        self.count += 1;
        Ok(())
    }

    /// Makes of the state what an allowed command makes of it. On an error, which is want of memory, a command on rows has changed
    /// nothing; one on jobs may have lost the account, which is empty then and takes no command any more.
    pub fn change(&mut self, alloc: Global, command: Command<Body>) -> Result<(), AllocError>
        requires kind { IsTaken (kind_of command) }
        requires spelled { HasSpelling command }
        requires few { self.old.count < MOST_COMMANDS }
        requires allowed { allowed (λ b. b.len) self.old command ≡ None }
        ensures ok { OnOk result (self.new ≡ step self.old command) }
        ensures err { OnErr result ((self.new ≡ self.old) ⊎ (self.new ≡ lost_account)) }
        ensures rows { kind_of command ≡ OnRows → OnErr result (self.new ≡ self.old) }
    {
        if is_of_jobs(&command) {
            self.change_jobs(alloc, command)
        } else {
            self.change_rows(alloc, command)
        }
    }

    // Judges a command on jobs, and takes it where it is allowed.
    fn change_jobs_if_allowed(
        &mut self,
        alloc: Global,
        command: Command<Body>,
    ) -> Result<Result<(), Refusal>, AllocError>
        requires kind { IsOfJobs (kind_of command) }
        requires spelled { HasSpelling command }
        requires few { self.old.count < MOST_COMMANDS }
        ensures answer { IfOk result (λ may. may ≡ answer (allowed (λ b. b.len) self.old command)) }
        ensures ok { allowed (λ b. b.len) self.old command ≡ None → OnOk result (self.new ≡ step self.old command) }
        ensures refused { allowed (λ b. b.len) self.old command ≢ None → self.new ≡ self.old }
        ensures err { OnErr result (self.new ≡ lost_account) }
    {
        if let Err(refusal) = jobs::judge(&self.tree, &self.jobs, &command) {
            return Ok(Err(refusal));
        }
        self.change_jobs(alloc, command)?;
        Ok(Ok(()))
    }

    // Takes a command on rows where it is allowed.
    fn change_rows_if_allowed(
        &mut self,
        alloc: Global,
        command: Command<Body>,
    ) -> Result<Result<(), Refusal>, AllocError>
        requires kind { kind_of command ≡ OnRows }
        requires spelled { HasSpelling command }
        requires few { self.old.count < MOST_COMMANDS }
        ensures answer { IfOk result (λ may. may ≡ answer (allowed (λ b. b.len) self.old command)) }
        ensures ok { allowed (λ b. b.len) self.old command ≡ None → OnOk result (self.new ≡ step self.old command) }
        ensures refused { allowed (λ b. b.len) self.old command ≢ None → self.new ≡ self.old }
        ensures err { OnErr result (self.new ≡ self.old) }
    {
        match rows::change_if_allowed(&mut self.tree, alloc, self.count, command)? {
            Ok(()) => {
                self.count += 1;
                Ok(Ok(()))
            }
            Err(refusal) => Ok(Err(refusal)),
        }
    }

    /// Makes of the state what a command makes of it where that is allowed, and answers as [`Account::judge`] does. A put costs a look-up
    /// less than the two. On a refusal it is as it was; on an error, which is want of memory, as behind one of [`Account::change`].
    pub fn change_if_allowed(
        &mut self,
        alloc: Global,
        command: Command<Body>,
    ) -> Result<Result<(), Refusal>, AllocError>
        requires kind { IsTaken (kind_of command) }
        requires spelled { HasSpelling command }
        requires few { self.old.count < MOST_COMMANDS }
        ensures answer { IfOk result (λ may. may ≡ answer (allowed (λ b. b.len) self.old command)) }
        ensures ok { allowed (λ b. b.len) self.old command ≡ None → OnOk result (self.new ≡ step self.old command) }
        ensures refused { allowed (λ b. b.len) self.old command ≢ None → self.new ≡ self.old }
        ensures err { OnErr result ((self.new ≡ self.old) ⊎ (self.new ≡ lost_account)) }
    {
        if is_of_jobs(&command) {
            self.change_jobs_if_allowed(alloc, command)
        } else {
            self.change_rows_if_allowed(alloc, command)
        }
    }
}
