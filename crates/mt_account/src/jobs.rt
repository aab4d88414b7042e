//! Commands on jobs, over a tree and the jobs: whether one is allowed, and what it makes of them.
ghost use Rattle.std.specs.Prelude.{◌≡◌, ◌<◌, ◌↔◌, ℕ, true, false, IsTrue, OnOk, None};
ghost use Rattle.mt_model.specs.CommandStep.{allowed, change};
ghost use Rattle.mt_model.specs.Lawful.{Lawful};
ghost use Rattle.mt_tree.specs.Answer.{answer};
ghost use Rattle.mt_types.specs.Kinds.{OnRows, kind_of};
ghost use Rattle.mt_types.specs.WellMade.{IsWellMade};
ghost use Rattle.mt_types.specs.declared.limits.TheConstants.{MOST_COMMANDS};
ghost use Rattle.mt_jobs.specs.Shown.{state_of};
ghost use Rattle.mt_account.specs.Taken.{IsOfJobs, IsTaken};

use mt_jobs::{Jobs, may_make_job};
use mt_tree::Tree;
use mt_types::{Body, Command, Refusal, Task};
use std::alloc::{AllocError, Global};

/// Whether an account takes such a command: any but one on an upload.
pub fn is_taken(command: &Command<Body>) -> bool
    ensures { IsTrue result ↔ IsTaken (kind_of command.now) }
{
    match command {
        Command::NewUpload { .. }
        | Command::PutPart { .. }
        | Command::CommitUpload { .. }
        | Command::AbortUpload { .. } => false,
        _ => true,
    }
}

/// Whether a command that an account takes is on jobs; else it is on rows.
pub fn is_of_jobs(command: &Command<Body>) -> bool
    requires kind { IsTaken (kind_of command.now) }
    ensures jobs { result ≡ true → IsOfJobs (kind_of command.now) }
    ensures rows { result ≡ false → kind_of command.now ≡ OnRows }
{
    match command {
        Command::Put { .. }
        | Command::MakeDirectory { .. }
        | Command::Link { .. }
        | Command::Delete { .. } => false,
        _ => true,
    }
}

/// Whether a command on jobs is allowed. It takes no memory.
#[tactic(auto, unfolding(mt_model::specs::CommandStep::allowed))]
pub fn judge(tree: &Tree<Body>, jobs: &Jobs<Body>, command: &Command<Body>) -> Result<(), Refusal>
    requires kind { IsOfJobs (kind_of command.now) }
    ensures { (count : ℕ) → result ≡ answer (allowed (λ b. b.len) (state_of count tree.now jobs.now) command.now) }
{
    match command {
        Command::NewJob { document, .. } => may_make_job(tree, document),
        Command::AddInputs { job, lines, .. } => jobs.may_add_inputs(*job, lines.as_slice()),
        Command::EndInput { job, .. } => jobs.may_end_input(*job),
        Command::Commit {
            job,
            phase,
            place,
            ..
        } => jobs.may_commit(&Task {
            job: *job,
            phase: *phase,
            place: *place,
        }),
        Command::Finish { job, .. } => jobs.may_finish(*job),
        Command::Cancel { job, .. } => jobs.may_cancel(*job),
        Command::Close { job, cancelled, .. } => jobs.may_close(*job, *cancelled),
        _ => unreachable!(),
    }
}

/// Changes rows and jobs as an allowed command on jobs does that is the next after so many. On an error, which is want of memory, they
/// may be any.
#[tactic(auto, unfolding(mt_model::specs::CommandStep::allowed))]
pub fn change(
    alloc: Global,
    count: u64,
    tree: &mut Tree<Body>,
    jobs: &mut Jobs<Body>,
    command: Command<Body>,
) -> Result<(), AllocError>
    requires kind { IsOfJobs (kind_of command) }
    requires made { IsWellMade command }
    requires few { count < MOST_COMMANDS }
    requires lawful { Lawful (state_of count tree.old jobs.old) }
    requires allowed { allowed (λ b. b.len) (state_of count tree.old jobs.old) command ≡ None }
    ensures { OnOk result (state_of count tree.new jobs.new ≡ change (state_of count tree.old jobs.old) command) }
{
    match command {
        Command::NewJob { document, moment } => jobs.make_job(alloc, tree, document, count, moment),
        Command::AddInputs { job, lines, .. } => jobs.add_inputs(
            alloc,
            tree,
            job,
            lines.as_slice(),
        ),
        Command::EndInput { job, .. } => jobs.end_input(alloc, job),
        Command::Commit {
            job,
            phase,
            place,
            fate,
            moment,
        } => {
            let task = Task { job, phase, place };
            jobs.commit(alloc, tree, &task, &fate, count, moment)
        }
        Command::Finish { job, moment } => jobs.finish(job, moment),
        Command::Cancel { job, moment } => jobs.cancel(job, moment),
        Command::Close {
            job,
            cancelled,
            archive,
            moment,
        } => jobs.close(alloc, tree, job, cancelled, archive, count, moment),
        _ => unreachable!(),
    }
}
