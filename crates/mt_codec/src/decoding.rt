//! Commands, read from bytes.
ghost use Rattle.std.specs.Prelude.{◌≡◌, ◌≢◌, ◌∷◌, Some, IfOk, IsErrOf};
ghost use Rattle.mt_types.specs.declared.body.Body.{Body};
ghost use Rattle.mt_types.specs.declared.command.Command.{Command};
ghost use Rattle.mt_codec.specs.Spelling.{HasSpelling, Spells, is_marked, spelling, undigested};
ghost use Rattle.mt_codec.specs.Reading.{Gives, Makes};
ghost use Rattle.mt_codec.specs.Readers.{abort_upload_at, add_inputs_at, cancel_at, close_at, command_at, commit_at, commit_upload_at, delete_at, end_input_at, finish_at, job_command_at, link_at, make_directory_at, marked_put_at, new_job_at, new_upload_at, put_at, put_part_at, upload_command_at, whole_command};

use crate::error::DecodeError;
use crate::numbers::{byte, durability, eight, flag, four, index, job, moment};
use crate::pieces::{body, content_type, metadata, path};
use crate::values::{archive, document, fate, lines, parts};
use mt_bytes::Cursor;
use mt_types::{Body, Command, Field, Fields};
use std::alloc::Global;

/// The command that the bytes spell, with sixteen zero bytes in the place of each body's digest. It takes
/// memory in proportion to the bytes, whatever numbers stand in them.
pub fn decode(alloc: Global, bytes: &[u8]) -> Result<Command<Body>, DecodeError>
    // What is decoded is spelled so, each byte of it.
    ensures found { IfOk result (λ command. Spells bytes.now command) }
    // What is spelled so is decoded, unless memory is wanting.
    ensures only { (command : Command Body) → HasSpelling command → bytes.now ≡ spelling command
        → Makes result (Some (undigested command)) }
    // Bytes are refused where no command is spelled so.
    ensures refused { IsErrOf result DecodeError.NotACommand → (command : Command Body) → HasSpelling command
        → bytes.now ≢ spelling command }
{
    whole(alloc, bytes)
}

// A command, and nothing behind it.
#[tactic(auto, unfolding(crate::specs::Readers::whole_command))]
fn whole(alloc: Global, bytes: &[u8]) -> Result<Command<Body>, DecodeError>
    ensures { Makes result (whole_command bytes.now) }
{
    let mut cursor = Cursor::new(bytes);
    let mark = byte(&mut cursor)?;
    let command = command(alloc, mark, &mut cursor)?;
    if !cursor.at_end() {
        return Err(DecodeError::NotACommand);
    }
    Ok(command)
}

// A command behind its first byte.
#[tactic(auto, unfolding(crate::specs::Readers::command_at))]
fn command(alloc: Global, mark: u8, cursor: &mut Cursor) -> Result<Command<Body>, DecodeError>
    ensures { Gives result cursor.new (command_at (mark ∷ cursor.old)) }
{
    match mark {
        1 => put(alloc, cursor),
        2 => make_directory(alloc, cursor),
        3 => link(alloc, cursor),
        4 => delete(alloc, cursor),
        11 => marked_put(alloc, cursor),
        _ => job_command(alloc, mark, cursor),
    }
}

// A command of a job behind its first byte.
#[tactic(auto, unfolding(crate::specs::Readers::job_command_at))]
fn job_command(alloc: Global, mark: u8, cursor: &mut Cursor) -> Result<Command<Body>, DecodeError>
    ensures { Gives result cursor.new (job_command_at (mark ∷ cursor.old)) }
{
    match mark {
        5 => new_job(alloc, cursor),
        6 => add_inputs(alloc, cursor),
        7 => end_input(cursor),
        8 => commit(alloc, cursor),
        9 => finish(cursor),
        10 => cancel(cursor),
        12 => close(cursor),
        _ => upload_command(alloc, mark, cursor),
    }
}

// A command of an upload behind its first byte.
#[tactic(auto, unfolding(crate::specs::Readers::upload_command_at))]
fn upload_command(
    alloc: Global,
    mark: u8,
    cursor: &mut Cursor,
) -> Result<Command<Body>, DecodeError>
    ensures { Gives result cursor.new (upload_command_at (mark ∷ cursor.old)) }
{
    match mark {
        13 => new_upload(alloc, cursor),
        14 => put_part(cursor),
        15 => commit_upload(alloc, cursor),
        16 => abort_upload(cursor),
        _ => Err(DecodeError::NotACommand),
    }
}

#[tactic(auto, unfolding(crate::specs::Readers::put_at))]
fn put(alloc: Global, cursor: &mut Cursor) -> Result<Command<Body>, DecodeError>
    ensures { Gives result cursor.new (put_at cursor.old) }
{
    let moment = moment(cursor)?;
    let path = path(alloc, cursor)?;
    let content_type = content_type(alloc, cursor)?;
    let body = body(cursor)?;
    Ok(Command::Put {
        path,
        content_type,
        body,
        durability: None,
        metadata: Fields::new(alloc),
        moment,
    })
}

#[tactic(auto, unfolding(crate::specs::Readers::marked_put_at))]
fn marked_put(alloc: Global, cursor: &mut Cursor) -> Result<Command<Body>, DecodeError>
    ensures { Gives result cursor.new (marked_put_at cursor.old) }
{
    let moment = moment(cursor)?;
    let path = path(alloc, cursor)?;
    let content_type = content_type(alloc, cursor)?;
    let durability = durability(cursor)?;
    let metadata = metadata(alloc, cursor)?;
    let body = body(cursor)?;
    if !is_marked(durability, metadata.as_slice()) {
        return Err(DecodeError::NotACommand);
    }
    Ok(Command::Put {
        path,
        content_type,
        body,
        durability,
        metadata,
        moment,
    })
}

/// Whether a put has a durability or metadata.
pub fn is_marked(durability: Option<u8>, metadata: &[Field]) -> bool
    ensures { result ≡ is_marked durability metadata.now }
{
    match durability {
        Some(_) => true,
        None => !metadata.is_empty(),
    }
}

#[tactic(auto, unfolding(crate::specs::Readers::make_directory_at))]
fn make_directory(alloc: Global, cursor: &mut Cursor) -> Result<Command<Body>, DecodeError>
    ensures { Gives result cursor.new (make_directory_at cursor.old) }
{
    let moment = moment(cursor)?;
    let path = path(alloc, cursor)?;
    Ok(Command::MakeDirectory { path, moment })
}

#[tactic(auto, unfolding(crate::specs::Readers::link_at))]
fn link(alloc: Global, cursor: &mut Cursor) -> Result<Command<Body>, DecodeError>
    ensures { Gives result cursor.new (link_at cursor.old) }
{
    let moment = moment(cursor)?;
    let target = path(alloc, cursor)?;
    let source = path(alloc, cursor)?;
    Ok(Command::Link {
        path: target,
        source,
        moment,
    })
}

#[tactic(auto, unfolding(crate::specs::Readers::delete_at))]
fn delete(alloc: Global, cursor: &mut Cursor) -> Result<Command<Body>, DecodeError>
    ensures { Gives result cursor.new (delete_at cursor.old) }
{
    let moment = moment(cursor)?;
    let path = path(alloc, cursor)?;
    Ok(Command::Delete { path, moment })
}

#[tactic(auto, unfolding(crate::specs::Readers::new_job_at))]
fn new_job(alloc: Global, cursor: &mut Cursor) -> Result<Command<Body>, DecodeError>
    ensures { Gives result cursor.new (new_job_at cursor.old) }
{
    let moment = moment(cursor)?;
    let document = document(alloc, cursor)?;
    Ok(Command::NewJob { document, moment })
}

#[tactic(auto, unfolding(crate::specs::Readers::add_inputs_at))]
fn add_inputs(alloc: Global, cursor: &mut Cursor) -> Result<Command<Body>, DecodeError>
    ensures { Gives result cursor.new (add_inputs_at cursor.old) }
{
    let moment = moment(cursor)?;
    let job = job(cursor)?;
    let lines = lines(alloc, cursor)?;
    Ok(Command::AddInputs { job, lines, moment })
}

#[tactic(auto, unfolding(crate::specs::Readers::end_input_at))]
fn end_input(cursor: &mut Cursor) -> Result<Command<Body>, DecodeError>
    ensures { Gives result cursor.new (end_input_at cursor.old) }
{
    let moment = moment(cursor)?;
    let job = job(cursor)?;
    Ok(Command::EndInput { job, moment })
}

#[tactic(auto, unfolding(crate::specs::Readers::commit_at))]
fn commit(alloc: Global, cursor: &mut Cursor) -> Result<Command<Body>, DecodeError>
    ensures { Gives result cursor.new (commit_at cursor.old) }
{
    let moment = moment(cursor)?;
    let job = job(cursor)?;
    let phase = four(cursor)?;
    let place = eight(cursor)?;
    let fate = fate(alloc, cursor)?;
    Ok(Command::Commit {
        job,
        phase,
        place,
        fate,
        moment,
    })
}

#[tactic(auto, unfolding(crate::specs::Readers::finish_at))]
fn finish(cursor: &mut Cursor) -> Result<Command<Body>, DecodeError>
    ensures { Gives result cursor.new (finish_at cursor.old) }
{
    let moment = moment(cursor)?;
    let job = job(cursor)?;
    Ok(Command::Finish { job, moment })
}

#[tactic(auto, unfolding(crate::specs::Readers::cancel_at))]
fn cancel(cursor: &mut Cursor) -> Result<Command<Body>, DecodeError>
    ensures { Gives result cursor.new (cancel_at cursor.old) }
{
    let moment = moment(cursor)?;
    let job = job(cursor)?;
    Ok(Command::Cancel { job, moment })
}

#[tactic(auto, unfolding(crate::specs::Readers::close_at))]
fn close(cursor: &mut Cursor) -> Result<Command<Body>, DecodeError>
    ensures { Gives result cursor.new (close_at cursor.old) }
{
    let moment = moment(cursor)?;
    let job = job(cursor)?;
    let cancelled = flag(cursor)?;
    let archive = archive(cursor)?;
    Ok(Command::Close {
        job,
        cancelled,
        archive,
        moment,
    })
}

#[tactic(auto, unfolding(crate::specs::Readers::new_upload_at))]
fn new_upload(alloc: Global, cursor: &mut Cursor) -> Result<Command<Body>, DecodeError>
    ensures { Gives result cursor.new (new_upload_at cursor.old) }
{
    let moment = moment(cursor)?;
    let path = path(alloc, cursor)?;
    let content_type = content_type(alloc, cursor)?;
    Ok(Command::NewUpload {
        path,
        content_type,
        moment,
    })
}

#[tactic(auto, unfolding(crate::specs::Readers::put_part_at))]
fn put_part(cursor: &mut Cursor) -> Result<Command<Body>, DecodeError>
    ensures { Gives result cursor.new (put_part_at cursor.old) }
{
    let moment = moment(cursor)?;
    let upload = job(cursor)?;
    let index = index(cursor)?;
    let body = body(cursor)?;
    Ok(Command::PutPart {
        upload,
        index,
        body,
        moment,
    })
}

#[tactic(auto, unfolding(crate::specs::Readers::commit_upload_at))]
fn commit_upload(alloc: Global, cursor: &mut Cursor) -> Result<Command<Body>, DecodeError>
    ensures { Gives result cursor.new (commit_upload_at cursor.old) }
{
    let moment = moment(cursor)?;
    let upload = job(cursor)?;
    let parts = parts(alloc, cursor)?;
    let body = body(cursor)?;
    Ok(Command::CommitUpload {
        upload,
        parts,
        body,
        moment,
    })
}

#[tactic(auto, unfolding(crate::specs::Readers::abort_upload_at))]
fn abort_upload(cursor: &mut Cursor) -> Result<Command<Body>, DecodeError>
    ensures { Gives result cursor.new (abort_upload_at cursor.old) }
{
    let moment = moment(cursor)?;
    let upload = job(cursor)?;
    Ok(Command::AbortUpload { upload, moment })
}
