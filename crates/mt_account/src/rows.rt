//! Commands on rows, over a tree: whether one is allowed, and what it makes of the rows.
ghost use Rattle.std.specs.Prelude.{◌≡◌, ◌≢◌, ◌<◌, List, [], IfOk, OnOk, OnErr, None, option_map};
ghost use Rattle.mt_model.specs.CommandStep.{allowed, change, linked, outside_jobs, put_object};
ghost use Rattle.mt_model.specs.Names.{number_at};
ghost use Rattle.mt_model.specs.Rows.{link_refusal, object_at, put_refusal, refuse_if, with_row};
ghost use Rattle.mt_model.specs.UploadSteps.{is_jobs};
ghost use Rattle.mt_tree.specs.Answer.{answer};
ghost use Rattle.mt_types.specs.Kinds.{OnRows, kind_of};
ghost use Rattle.mt_types.specs.declared.body.Body.{Body};
ghost use Rattle.mt_types.specs.declared.job.Job.{Job};
ghost use Rattle.mt_types.specs.declared.object.Entry.TheVariants as entry;
ghost use Rattle.mt_types.specs.declared.limits.TheConstants.{MOST_COMMANDS};
ghost use Rattle.mt_jobs.specs.Shown.{state_of};
ghost use Rattle.mt_account.specs.Kept.{moved_to};

use mt_tree::Tree;
use mt_types::{
    Area, Body, Command, Duplicate, Entry, Fields, NUMBERS_A_COMMAND, Object, Path, Refusal, Text,
};
use std::alloc::{AllocError, Global};

// A request changes nothing in the area of jobs.
fn outside_jobs(path: &Path) -> Result<(), Refusal>
    ensures { result ≡ answer (refuse_if (is_jobs path.now.area) Refusal.RootDirectory) }
{
    match path.area() {
        Area::Jobs => Err(Refusal::RootDirectory),
        Area::Stor | Area::Public => Ok(()),
    }
}

// Whether a link may be put at a path.
fn may_link(tree: &Tree<Body>, path: &Path, source: &Path) -> Result<(), Refusal>
    ensures { result ≡ answer (link_refusal tree.now path.now source.now) }
{
    tree.may_be_linked(source)?;
    tree.may_put(path)
}

/// Whether a command on rows is allowed, after so many commands.
#[tactic(auto, unfolding(mt_model::specs::CommandStep::allowed))]
pub fn judge(tree: &Tree<Body>, count: u64, command: &Command<Body>) -> Result<(), Refusal>
    requires kind { kind_of command.now ≡ OnRows }
    ensures { (jobs : List (Job Body)) → result ≡ answer (allowed (λ b. b.len) (state_of count tree.now jobs) command.now) }
{
    let _ = count;
    match command {
        Command::Put { path, .. } => {
            outside_jobs(path)?;
            tree.may_put(path)
        }
        Command::MakeDirectory { path, .. } => {
            outside_jobs(path)?;
            tree.may_make_directory(path)
        }
        Command::Link { path, source, .. } => {
            outside_jobs(path)?;
            may_link(tree, path, source)
        }
        Command::Delete { path, .. } => {
            outside_jobs(path)?;
            tree.may_remove(path)
        }
        _ => unreachable!(),
    }
}

// A copy of the object at a path, with a moment of its own.
fn linked_object(
    tree: &Tree<Body>,
    alloc: Global,
    source: &Path,
    moment: u64,
) -> Result<Option<Object<Body>>, AllocError>
    ensures { IfOk result (λ o. o ≡ option_map (moved_to moment) (object_at tree.now source.now)) }
{
    match tree.get(source) {
        Some(Entry::Object(object)) => {
            let mut copy = object.copy(alloc)?;
            copy.mtime = moment;
            Ok(Some(copy))
        }
        _ => Ok(None),
    }
}

// Puts a link: what stands at the source.
fn link(
    tree: &mut Tree<Body>,
    alloc: Global,
    path: Path,
    source: &Path,
    moment: u64,
) -> Result<(), AllocError>
    requires { put_refusal tree.old path ≡ None }
    ensures ok { OnOk result (tree.new ≡ linked tree.old path (object_at tree.old source.now) moment) }
    ensures err { OnErr result (tree.new ≡ tree.old) }
{
    match linked_object(tree, alloc, source, moment)? {
        Some(object) => tree.put_object(path, object),
        None => Ok(()),
    }
}

// The object of a put that is the next command after so many.
fn new_object(
    count: u64,
    content_type: Text,
    body: Body,
    durability: Option<u8>,
    metadata: Fields,
    moment: u64,
) -> Object<Body>
    requires { count < MOST_COMMANDS }
    ensures { result ≡ put_object (number_at count 0) body content_type durability metadata moment }
{
    Object {
        number: count * NUMBERS_A_COMMAND,
        body,
        content_type,
        durability,
        metadata,
        mtime: moment,
    }
}

/// Changes the rows as a command on rows does that is the next after so many. On an error, which is want of memory, they are as
/// they were.
#[tactic(auto, unfolding(mt_model::specs::CommandStep::change))]
pub fn change(
    tree: &mut Tree<Body>,
    alloc: Global,
    count: u64,
    command: Command<Body>,
) -> Result<(), AllocError>
    requires kind { kind_of command ≡ OnRows }
    requires few { count < MOST_COMMANDS }
    requires allowed { allowed (λ b. b.len) (state_of count tree.old []) command ≡ None }
    ensures ok { (jobs : List (Job Body)) → OnOk result (state_of count tree.new jobs ≡ change (state_of count tree.old jobs) command) }
    ensures err { OnErr result (tree.new ≡ tree.old) }
{
    match command {
        Command::Put {
            path,
            content_type,
            body,
            durability,
            metadata,
            moment,
        } => {
            let object = new_object(count, content_type, body, durability, metadata, moment);
            tree.put_object(path, object)
        }
        Command::MakeDirectory { path, moment } => tree.make_directory(path, moment),
        Command::Link {
            path,
            source,
            moment,
        } => link(tree, alloc, path, &source, moment),
        Command::Delete { path, .. } => {
            tree.remove(&path);
            Ok(())
        }
        _ => unreachable!(),
    }
}

// Puts an object at a path outside jobs where that is allowed.
fn put_if_allowed(
    tree: &mut Tree<Body>,
    path: Path,
    object: Object<Body>,
) -> Result<Result<(), Refusal>, AllocError>
    ensures answer { IfOk result (λ may. may ≡ answer (outside_jobs path (put_refusal tree.old path))) }
    ensures ok { outside_jobs path (put_refusal tree.old path) ≡ None → OnOk result (tree.new ≡ with_row tree.old path (entry.Object object)) }
    ensures refused { outside_jobs path (put_refusal tree.old path) ≢ None → tree.new ≡ tree.old }
    ensures err { OnErr result (tree.new ≡ tree.old) }
{
    if let Err(refusal) = outside_jobs(&path) {
        return Ok(Err(refusal));
    }
    tree.put_if_allowed(path, object)
}

// Judges a command on rows, and changes the rows where it is allowed.
fn judge_and_change(
    tree: &mut Tree<Body>,
    alloc: Global,
    count: u64,
    command: Command<Body>,
) -> Result<Result<(), Refusal>, AllocError>
    requires kind { kind_of command ≡ OnRows }
    requires few { count < MOST_COMMANDS }
    ensures answer { (jobs : List (Job Body)) → IfOk result (λ may. may ≡ answer (allowed (λ b. b.len) (state_of count tree.old jobs) command)) }
    ensures ok { (jobs : List (Job Body)) → allowed (λ b. b.len) (state_of count tree.old jobs) command ≡ None → OnOk result (state_of count tree.new jobs ≡ change (state_of count tree.old jobs) command) }
    ensures refused { (jobs : List (Job Body)) → allowed (λ b. b.len) (state_of count tree.old jobs) command ≢ None → tree.new ≡ tree.old }
    ensures err { OnErr result (tree.new ≡ tree.old) }
{
    if let Err(refusal) = judge(tree, count, &command) {
        return Ok(Err(refusal));
    }
    change(tree, alloc, count, command)?;
    Ok(Ok(()))
}

/// Changes the rows as a command on rows does that is the next after so many, where it is allowed, and answers as [`judge`] does. A put
/// costs a look-up less than the two. On a refusal, and on an error, which is want of memory, they are as they were.
#[tactic(auto, unfolding(mt_model::specs::CommandStep::allowed, mt_model::specs::CommandStep::change))]
pub fn change_if_allowed(
    tree: &mut Tree<Body>,
    alloc: Global,
    count: u64,
    command: Command<Body>,
) -> Result<Result<(), Refusal>, AllocError>
    requires kind { kind_of command ≡ OnRows }
    requires few { count < MOST_COMMANDS }
    ensures answer { (jobs : List (Job Body)) → IfOk result (λ may. may ≡ answer (allowed (λ b. b.len) (state_of count tree.old jobs) command)) }
    ensures ok { (jobs : List (Job Body)) → allowed (λ b. b.len) (state_of count tree.old jobs) command ≡ None → OnOk result (state_of count tree.new jobs ≡ change (state_of count tree.old jobs) command) }
    ensures refused { (jobs : List (Job Body)) → allowed (λ b. b.len) (state_of count tree.old jobs) command ≢ None → tree.new ≡ tree.old }
    ensures err { OnErr result (tree.new ≡ tree.old) }
{
    match command {
        Command::Put {
            path,
            content_type,
            body,
            durability,
            metadata,
            moment,
        } => {
            let object = new_object(count, content_type, body, durability, metadata, moment);
            put_if_allowed(tree, path, object)
        }
        other => judge_and_change(tree, alloc, count, other),
    }
}
