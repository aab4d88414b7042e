//! Commands, written as bytes.
ghost use Rattle.std.specs.Prelude.{◌≡◌, ◌≢◌, ◌<◌, ◌^◌, ◌++◌, ◌∷◌, false, length, IfOk, IsTrue, OnOk};
ghost use Rattle.std.specs.List.{flat_map, AllByRecursion};
ghost use Rattle.mt_base.specs.Numbers.{big_endian_16, big_endian_32, big_endian_64};
ghost use Rattle.mt_types.specs.Kinds.{OnRows, OnUploads, kind_of};
ghost use Rattle.mt_types.specs.Limits.{is_content_type};
ghost use Rattle.mt_codec.specs.Fields.{body_spelling, path_spelling, text_spelling};
ghost use Rattle.mt_codec.specs.Spelling.{FitsDocument, FitsFate, FitsLine, FitsPut, IsWithinLimits, archive_spelling, byte_spelling, document_spelling, fate_spelling, flag_number, is_marked, line_spelling, put_spelling, spelling};

use crate::decoding::is_marked;
use crate::values::{put_archive, put_document, put_fate, put_lines, put_parts};
use crate::writing::{put_body, put_content_type, put_durability, put_metadata, put_path};
use mt_bytes::{put_u8, put_u16, put_u32, put_u64};
use mt_types::{Archive, Body, Command, Fate, Field, Fields, InputLine, JobDocument, Path, Text};
use std::alloc::{AllocError, Global};

/// The room that is made at first for a command, in bytes.
const FIRST_ROOM: usize = 256;

/// The bytes that spell a command. The digests of its bodies are not looked at. It takes 256 bytes of memory, and more
/// in proportion to their number.
#[tactic(auto, unfolding(crate::specs::Spelling::spelling))]
pub fn encode(alloc: Global, command: &Command<Body>) -> Result<Vec<u8>, AllocError>
    requires { IsWithinLimits command.now }
    ensures { IfOk result (λ bytes. bytes.items ≡ spelling command.now) }
{
    let mut out = Vec::with_capacity(alloc, FIRST_ROOM)?;
    put_command(&mut out, command)?;
    Ok(out)
}

// A command.
#[tactic(auto, unfolding(crate::specs::Spelling::spelling))]
fn put_command(out: &mut Vec<u8>, command: &Command<Body>) -> Result<(), AllocError>
    requires { IsWithinLimits command.now }
    ensures { OnOk result (out.new.items ≡ out.old.items ++ spelling command.now) }
{
    match command {
        Command::Put {
            path,
            content_type,
            body,
            durability,
            metadata,
            moment,
        } => {
            let fields = metadata.as_slice();
            put_put(out, path, content_type, body, *durability, fields, *moment)
        }
        Command::MakeDirectory { path, moment } => put_at_path(out, 2, *moment, path),
        Command::Link {
            path,
            source,
            moment,
        } => put_link(out, *moment, path, source),
        Command::Delete { path, moment } => put_at_path(out, 4, *moment, path),
        _ => put_job_command(out, command),
    }
}

// A command of a job.
#[tactic(auto, unfolding(crate::specs::Spelling::spelling))]
fn put_job_command(out: &mut Vec<u8>, command: &Command<Body>) -> Result<(), AllocError>
    requires limits { IsWithinLimits command.now }
    requires kind { kind_of command.now ≢ OnRows }
    ensures { OnOk result (out.new.items ≡ out.old.items ++ spelling command.now) }
{
    match command {
        Command::NewJob { document, moment } => put_new_job(out, *moment, document),
        Command::AddInputs { job, lines, moment } => {
            put_add_inputs(out, *moment, *job, lines.as_slice())
        }
        Command::EndInput { job, moment } => put_of_job(out, 7, *moment, *job),
        Command::Commit {
            job,
            phase,
            place,
            fate,
            moment,
        } => put_commit(out, *moment, *job, *phase, *place, fate),
        Command::Finish { job, moment } => put_of_job(out, 9, *moment, *job),
        Command::Cancel { job, moment } => put_of_job(out, 10, *moment, *job),
        Command::Close {
            job,
            cancelled,
            archive,
            moment,
        } => put_close(out, *moment, *job, *cancelled, archive),
        _ => put_upload_command(out, command),
    }
}

// A command of an upload.
#[tactic(auto, unfolding(crate::specs::Spelling::spelling))]
fn put_upload_command(out: &mut Vec<u8>, command: &Command<Body>) -> Result<(), AllocError>
    requires limits { IsWithinLimits command.now }
    requires kind { kind_of command.now ≡ OnUploads }
    ensures { OnOk result (out.new.items ≡ out.old.items ++ spelling command.now) }
{
    match command {
        Command::NewUpload {
            path,
            content_type,
            moment,
        } => put_new_upload(out, *moment, path, content_type),
        Command::PutPart {
            upload,
            index,
            body,
            moment,
        } => put_put_part(out, *moment, *upload, *index, body),
        Command::CommitUpload {
            upload,
            parts,
            body,
            moment,
        } => put_commit_upload(out, *moment, *upload, parts.as_slice(), body),
        Command::AbortUpload { upload, moment } => put_of_job(out, 16, *moment, *upload),
        _ => unreachable!(),
    }
}

// A put.
fn put_put(
    out: &mut Vec<u8>,
    path: &Path,
    content_type: &Text,
    body: &Body,
    durability: Option<u8>,
    metadata: &[Field],
    moment: u64,
) -> Result<(), AllocError>
    requires { FitsPut false path.now content_type.now body.now durability metadata.now }
    ensures { OnOk result (out.new.items ≡ out.old.items
        ++ put_spelling path.now content_type.now body.now durability metadata.now moment) }
{
    if !is_marked(durability, metadata) {
        put_typed(out, 1, moment, path, content_type)?;
        return put_body(out, body);
    }
    put_typed(out, 11, moment, path, content_type)?;
    put_durability(out, durability)?;
    put_metadata(out, metadata)?;
    put_body(out, body)
}

// A first byte, a moment, a path and a content type.
fn put_typed(
    out: &mut Vec<u8>,
    mark: u8,
    moment: u64,
    path: &Path,
    content_type: &Text,
) -> Result<(), AllocError>
    requires { IsTrue (is_content_type content_type.now) }
    ensures { OnOk result (out.new.items ≡ out.old.items
        ++ mark ∷ (big_endian_64 moment ++ path_spelling path.now ++ text_spelling content_type.now)) }
{
    put_at_path(out, mark, moment, path)?;
    put_content_type(out, content_type)
}

// A first byte, a moment and a path.
fn put_at_path(out: &mut Vec<u8>, mark: u8, moment: u64, path: &Path) -> Result<(), AllocError>
    ensures { OnOk result (out.new.items ≡ out.old.items ++ mark ∷ (big_endian_64 moment ++ path_spelling path.now)) }
{
    put_u8(out, mark)?;
    put_u64(out, moment)?;
    put_path(out, path)
}

// A first byte, a moment and the number of a job or of an upload.
fn put_of_job(out: &mut Vec<u8>, mark: u8, moment: u64, job: u64) -> Result<(), AllocError>
    ensures { OnOk result (out.new.items ≡ out.old.items ++ mark ∷ (big_endian_64 moment ++ big_endian_64 job)) }
{
    put_u8(out, mark)?;
    put_u64(out, moment)?;
    put_u64(out, job)
}

fn put_link(out: &mut Vec<u8>, moment: u64, path: &Path, source: &Path) -> Result<(), AllocError>
    ensures { OnOk result (out.new.items ≡ out.old.items
        ++ 3 ∷ (big_endian_64 moment ++ path_spelling path.now ++ path_spelling source.now)) }
{
    put_at_path(out, 3, moment, path)?;
    put_path(out, source)
}

fn put_new_job(out: &mut Vec<u8>, moment: u64, document: &JobDocument) -> Result<(), AllocError>
    requires { FitsDocument false document.now }
    ensures { OnOk result (out.new.items ≡ out.old.items ++ 5 ∷ (big_endian_64 moment ++ document_spelling document.now)) }
{
    put_u8(out, 5)?;
    put_u64(out, moment)?;
    put_document(out, document)
}

fn put_add_inputs(
    out: &mut Vec<u8>,
    moment: u64,
    job: u64,
    lines: &[InputLine],
) -> Result<(), AllocError>
    requires few { length lines.now < 2 ^ 32 }
    requires each { AllByRecursion (FitsLine false) lines.now }
    ensures { OnOk result (out.new.items ≡ out.old.items ++ 6 ∷ (big_endian_64 moment ++ big_endian_64 job
        ++ (big_endian_32 (length lines.now) ++ flat_map line_spelling lines.now))) }
{
    put_of_job(out, 6, moment, job)?;
    put_lines(out, lines)
}

fn put_commit(
    out: &mut Vec<u8>,
    moment: u64,
    job: u64,
    phase: u32,
    place: u64,
    fate: &Fate<Body>,
) -> Result<(), AllocError>
    requires { FitsFate false fate.now }
    ensures { OnOk result (out.new.items ≡ out.old.items ++ 8 ∷ (big_endian_64 moment ++ big_endian_64 job
        ++ big_endian_32 phase ++ big_endian_64 place ++ fate_spelling fate.now)) }
{
    put_of_job(out, 8, moment, job)?;
    put_u32(out, phase)?;
    put_u64(out, place)?;
    put_fate(out, fate)
}

fn put_close(
    out: &mut Vec<u8>,
    moment: u64,
    job: u64,
    cancelled: bool,
    archive: &Archive<Body>,
) -> Result<(), AllocError>
    ensures { OnOk result (out.new.items ≡ out.old.items ++ 12 ∷ (big_endian_64 moment ++ big_endian_64 job
        ++ byte_spelling (flag_number cancelled) ++ archive_spelling archive.now)) }
{
    put_of_job(out, 12, moment, job)?;
    put_u8(out, flag_code(cancelled))?;
    put_archive(out, archive)
}

// The number of a flag.
fn flag_code(flag: bool) -> u8
    ensures { result ≡ flag_number flag }
{
    if flag { 1 } else { 0 }
}

fn put_new_upload(
    out: &mut Vec<u8>,
    moment: u64,
    path: &Path,
    content_type: &Text,
) -> Result<(), AllocError>
    requires { IsTrue (is_content_type content_type.now) }
    ensures { OnOk result (out.new.items ≡ out.old.items
        ++ 13 ∷ (big_endian_64 moment ++ path_spelling path.now ++ text_spelling content_type.now)) }
{
    put_typed(out, 13, moment, path, content_type)
}

fn put_put_part(
    out: &mut Vec<u8>,
    moment: u64,
    upload: u64,
    index: u16,
    body: &Body,
) -> Result<(), AllocError>
    ensures { OnOk result (out.new.items ≡ out.old.items ++ 14 ∷ (big_endian_64 moment ++ big_endian_64 upload
        ++ big_endian_16 index ++ body_spelling body.now)) }
{
    put_of_job(out, 14, moment, upload)?;
    put_u16(out, index)?;
    put_body(out, body)
}

fn put_commit_upload(
    out: &mut Vec<u8>,
    moment: u64,
    upload: u64,
    parts: &[u64],
    body: &Body,
) -> Result<(), AllocError>
    requires { length parts.now < 2 ^ 16 }
    ensures { OnOk result (out.new.items ≡ out.old.items ++ 15 ∷ (big_endian_64 moment ++ big_endian_64 upload
        ++ (big_endian_16 (length parts.now) ++ flat_map big_endian_64 parts.now) ++ body_spelling body.now)) }
{
    put_of_job(out, 15, moment, upload)?;
    put_parts(out, parts)?;
    put_body(out, body)
}
