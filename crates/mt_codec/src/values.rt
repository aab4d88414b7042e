//! Documents, lines, fates and archives, read from a cursor.
ghost use Rattle.std.specs.Prelude.{◌≡◌, ◌<◌, ◌^◌, ◌++◌, false, length, OnOk};
ghost use Rattle.std.specs.List.{flat_map, AllByRecursion};
ghost use Rattle.mt_base.specs.Numbers.{big_endian_16, big_endian_32, big_endian_64};
ghost use Rattle.mt_codec.specs.Fields.{body_spelling, path_spelling};
ghost use Rattle.mt_codec.specs.Spelling.{FitsDocument, FitsFate, FitsLine, FitsPhase, archive_spelling, document_spelling, failure_number, fate_spelling, kind_spelling, line_spelling, phase_spelling, record_spelling};
ghost use Rattle.std.specs.Int.{w16, w32, w64};
ghost use Rattle.mt_codec.specs.Reading.{Gives, Shows, byte_at, counted, named, number_at, optional, sized, tested};
ghost use Rattle.mt_codec.specs.Readers.{archive_at, bad_at, command_line_at, document_at, emit_at, failure_numbered, fate_at, good_at, is_few_assets, is_few_records, is_phases, is_short_stderr, keep_at, kind_at, line_at, path_at, phase_at, record_at};

use crate::error::DecodeError;
use crate::numbers::{byte, bytes, count, eight, four, reducer, two};
use crate::pieces::{body, command_line, job_name, line_text, path};
use crate::spelled::{Spelled, put_all, times};
use crate::writing::{
    put_body, put_command_line, put_init, put_long_text, put_path, put_place, put_reducer, put_text,
};
use mt_bytes::{Cursor, put_u8, put_u16, put_u32, put_u64};
use mt_types::{
    Archive, Body, Bytes, Fate, InputLine, JobDocument, LONGEST_STDERR, Lines, MOST_ASSETS,
    MOST_PHASES, MOST_RECORDS, PartNumbers, Path, Paths, Phase, PhaseKind, Phases, TaskFailure,
    TaskRecord, TaskRecords, Text,
};
use std::alloc::{AllocError, Global};

// How a phase cuts its feed.
#[tactic(auto, unfolding(crate::specs::Readers::kind_at))]
fn kind(cursor: &mut Cursor) -> Result<PhaseKind, DecodeError>
    ensures { Gives result cursor.new (kind_at cursor.old) }
{
    match byte(cursor)? {
        0 => Ok(PhaseKind::Map),
        1 => Ok(PhaseKind::Reduce {
            count: count(cursor)?,
        }),
        _ => Err(DecodeError::NotACommand),
    }
}

// A command line that is run before, where there is one.
fn init(alloc: Global, cursor: &mut Cursor) -> Result<Option<Text>, DecodeError>
    ensures { Gives result cursor.new (optional command_line_at cursor.old) }
{
    match byte(cursor)? {
        0 => Ok(None),
        1 => Ok(Some(command_line(alloc, cursor)?)),
        _ => Err(DecodeError::NotACommand),
    }
}

// The assets of a phase.
fn assets(alloc: Global, cursor: &mut Cursor) -> Result<Paths, DecodeError>
    ensures { Gives result cursor.new (counted (tested is_few_assets byte_at) path_at cursor.old) }
{
    let n = byte(cursor)? as usize;
    if n > MOST_ASSETS {
        return Err(DecodeError::NotACommand);
    }
    times(alloc, n, cursor)
}

// A phase.
#[tactic(auto, unfolding(crate::specs::Readers::phase_at))]
fn phase(alloc: Global, cursor: &mut Cursor) -> Result<Phase, DecodeError>
    ensures { Gives result cursor.new (phase_at cursor.old) }
{
    let kind = kind(cursor)?;
    let exec = command_line(alloc, cursor)?;
    let init = init(alloc, cursor)?;
    let assets = assets(alloc, cursor)?;
    Ok(Phase {
        kind,
        exec,
        init,
        assets,
    })
}

impl Spelled for Phase {
    ghost use Rattle.std.specs.Prelude.{false};
    ghost use Rattle.mt_codec.specs.Spelling.{FitsPhase, phase_spelling};
    ghost use Rattle.mt_codec.specs.Readers.{phase_at};

    ghost read_at = { phase_at };

    ghost spelling = { phase_spelling };

    ghost fits = { FitsPhase false };

    fn read(alloc: Global, cursor: &mut Cursor) -> Result<Phase, DecodeError> {
        phase(alloc, cursor)
    }

    fn write(&self, out: &mut Vec<u8>) -> Result<(), AllocError> {
        put_phase(out, self)
    }
}

// The phases of a job.
fn phases(alloc: Global, cursor: &mut Cursor) -> Result<Phases, DecodeError>
    ensures { Gives result cursor.new (counted (tested is_phases byte_at) phase_at cursor.old) }
{
    let n = byte(cursor)? as usize;
    if n == 0 || n > MOST_PHASES {
        return Err(DecodeError::NotACommand);
    }
    times(alloc, n, cursor)
}

/// A job's document.
#[tactic(auto, unfolding(crate::specs::Readers::document_at))]
pub fn document(alloc: Global, cursor: &mut Cursor) -> Result<JobDocument, DecodeError>
    ensures { Gives result cursor.new (document_at cursor.old) }
{
    let name = job_name(alloc, cursor)?;
    let phases = phases(alloc, cursor)?;
    Ok(JobDocument { name, phases })
}

/// A posted line.
#[tactic(auto, unfolding(crate::specs::Readers::line_at))]
pub fn line(alloc: Global, cursor: &mut Cursor) -> Result<InputLine, DecodeError>
    ensures { Gives result cursor.new (line_at cursor.old) }
{
    match byte(cursor)? {
        0 => Ok(InputLine::Named(path(alloc, cursor)?)),
        1 => Ok(InputLine::Other(line_text(alloc, cursor)?)),
        _ => Err(DecodeError::NotACommand),
    }
}

impl Spelled for InputLine {
    ghost use Rattle.std.specs.Prelude.{false};
    ghost use Rattle.mt_codec.specs.Spelling.{FitsLine, line_spelling};
    ghost use Rattle.mt_codec.specs.Readers.{line_at};

    ghost read_at = { line_at };

    ghost spelling = { line_spelling };

    ghost fits = { FitsLine false };

    fn read(alloc: Global, cursor: &mut Cursor) -> Result<InputLine, DecodeError> {
        line(alloc, cursor)
    }

    fn write(&self, out: &mut Vec<u8>) -> Result<(), AllocError> {
        put_line(out, self)
    }
}

/// Posted lines.
pub fn lines(alloc: Global, cursor: &mut Cursor) -> Result<Lines, DecodeError>
    ensures { Gives result cursor.new (counted (number_at w32) line_at cursor.old) }
{
    let n = four(cursor)?;
    times(alloc, n as usize, cursor)
}

// A place, where one is named.
fn place(alloc: Global, cursor: &mut Cursor) -> Result<Option<Path>, DecodeError>
    ensures { Gives result cursor.new (optional path_at cursor.old) }
{
    match byte(cursor)? {
        0 => Ok(None),
        1 => Ok(Some(path(alloc, cursor)?)),
        _ => Err(DecodeError::NotACommand),
    }
}

// A new object that is an output.
fn emit(alloc: Global, cursor: &mut Cursor) -> Result<TaskRecord<Body>, DecodeError>
    ensures { Gives result cursor.new (emit_at cursor.old) }
{
    let place = place(alloc, cursor)?;
    let reducer = reducer(cursor)?;
    let body = body(cursor)?;
    Ok(TaskRecord::Emit {
        place,
        reducer,
        body,
    })
}

// A new object that is none.
fn keep(alloc: Global, cursor: &mut Cursor) -> Result<TaskRecord<Body>, DecodeError>
    ensures { Gives result cursor.new (keep_at cursor.old) }
{
    let place = path(alloc, cursor)?;
    let body = body(cursor)?;
    Ok(TaskRecord::Keep { place, body })
}

/// A record of a task.
#[tactic(auto, unfolding(crate::specs::Readers::record_at))]
pub fn record_of(alloc: Global, cursor: &mut Cursor) -> Result<TaskRecord<Body>, DecodeError>
    ensures { Gives result cursor.new (record_at cursor.old) }
{
    match byte(cursor)? {
        1 => emit(alloc, cursor),
        2 => keep(alloc, cursor),
        3 => Ok(TaskRecord::Ref {
            name: path(alloc, cursor)?,
        }),
        _ => Err(DecodeError::NotACommand),
    }
}

impl Spelled for TaskRecord<Body> {
    ghost use Rattle.std.specs.Prelude.{false};
    ghost use Rattle.mt_codec.specs.Spelling.{FitsRecord, record_spelling};
    ghost use Rattle.mt_codec.specs.Readers.{record_at};

    ghost read_at = { record_at };

    ghost spelling = { record_spelling };

    ghost fits = { FitsRecord false };

    fn read(alloc: Global, cursor: &mut Cursor) -> Result<TaskRecord<Body>, DecodeError> {
        record_of(alloc, cursor)
    }

    fn write(&self, out: &mut Vec<u8>) -> Result<(), AllocError> {
        put_record(out, self)
    }
}

/// Why a task failed.
pub fn failure(cursor: &mut Cursor) -> Result<TaskFailure, DecodeError>
    ensures { Gives result cursor.new (named failure_numbered byte_at cursor.old) }
{
    match byte(cursor)? {
        1 => Ok(TaskFailure::UserTaskError),
        2 => Ok(TaskFailure::TaskOutputTooLarge),
        3 => Ok(TaskFailure::TaskRecordError),
        4 => Ok(TaskFailure::TaskPlaceRefused),
        5 => Ok(TaskFailure::TaskObjectMissing),
        _ => Err(DecodeError::NotACommand),
    }
}

/// A front of standard error.
pub fn stderr(alloc: Global, cursor: &mut Cursor) -> Result<Bytes, DecodeError>
    ensures { Gives result cursor.new (sized (tested is_short_stderr (number_at w16)) cursor.old) }
{
    let n = two(cursor)? as usize;
    if n > LONGEST_STDERR {
        return Err(DecodeError::NotACommand);
    }
    Ok(Bytes::from_slice(alloc, bytes(n, cursor)?)?)
}

// The records of a task that did well.
fn good(alloc: Global, cursor: &mut Cursor) -> Result<Fate<Body>, DecodeError>
    ensures { Gives result cursor.new (good_at cursor.old) }
{
    let n = two(cursor)? as usize;
    if n > MOST_RECORDS {
        return Err(DecodeError::NotACommand);
    }
    let records: TaskRecords<Body> = times(alloc, n, cursor)?;
    Ok(Fate::Good(records))
}

// How a task failed.
fn bad(alloc: Global, cursor: &mut Cursor) -> Result<Fate<Body>, DecodeError>
    ensures { Gives result cursor.new (bad_at cursor.old) }
{
    let failure = failure(cursor)?;
    let status = four(cursor)?;
    let stderr = stderr(alloc, cursor)?;
    Ok(Fate::Bad {
        failure,
        status,
        stderr,
    })
}

/// The fate of a task.
#[tactic(auto, unfolding(crate::specs::Readers::fate_at))]
pub fn fate(alloc: Global, cursor: &mut Cursor) -> Result<Fate<Body>, DecodeError>
    ensures { Gives result cursor.new (fate_at cursor.old) }
{
    match byte(cursor)? {
        0 => good(alloc, cursor),
        1 => bad(alloc, cursor),
        _ => Err(DecodeError::NotACommand),
    }
}

/// The bodies that a job leaves when it ends.
#[tactic(auto, unfolding(crate::specs::Readers::archive_at))]
pub fn archive(cursor: &mut Cursor) -> Result<Archive<Body>, DecodeError>
    ensures { Gives result cursor.new (archive_at cursor.old) }
{
    let err = body(cursor)?;
    let fail = body(cursor)?;
    let input = body(cursor)?;
    let status = body(cursor)?;
    let out = body(cursor)?;
    Ok(Archive {
        err,
        fail,
        input,
        status,
        out,
    })
}

impl Spelled for u64 {
    ghost use Rattle.std.specs.Prelude.{⊤};
    ghost use Rattle.mt_base.specs.Numbers.{big_endian_64};
    ghost use Rattle.std.specs.Int.{w64};
    ghost use Rattle.mt_codec.specs.Reading.{number_at};

    ghost read_at = { number_at w64 };

    ghost spelling = { big_endian_64 };

    ghost fits = { λ n. ⊤ };

    fn read(_alloc: Global, cursor: &mut Cursor) -> Result<u64, DecodeError> {
        eight(cursor)
    }

    fn write(&self, out: &mut Vec<u8>) -> Result<(), AllocError> {
        put_u64(out, *self)
    }
}

/// The numbers of the parts of an upload.
pub fn parts(alloc: Global, cursor: &mut Cursor) -> Result<PartNumbers, DecodeError>
    ensures { Gives result cursor.new (counted (number_at w16) (number_at w64) cursor.old) }
{
    let n = two(cursor)?;
    times(alloc, n as usize, cursor)
}

// How a phase cuts its feed.
#[tactic(auto, unfolding(crate::specs::Spelling::kind_spelling))]
fn put_kind(out: &mut Vec<u8>, kind: PhaseKind) -> Result<(), AllocError>
    ensures { OnOk result (out.new.items ≡ out.old.items ++ kind_spelling kind) }
{
    match kind {
        PhaseKind::Map => put_u8(out, 0),
        PhaseKind::Reduce { count } => {
            put_u8(out, 1)?;
            put_u32(out, count)
        }
    }
}

// A phase.
#[tactic(auto, unfolding(crate::specs::Spelling::phase_spelling))]
fn put_phase(out: &mut Vec<u8>, phase: &Phase) -> Result<(), AllocError>
    requires { FitsPhase false phase.now }
    ensures { OnOk result (out.new.items ≡ out.old.items ++ phase_spelling phase.now) }
{
    put_kind(out, phase.kind)?;
    put_command_line(out, &phase.exec)?;
    put_init(out, &phase.init)?;
    put_u8(out, phase.assets.len() as u8)?;
    put_all(out, phase.assets.as_slice())
}

/// A job's document.
#[tactic(auto, unfolding(crate::specs::Spelling::document_spelling))]
pub fn put_document(out: &mut Vec<u8>, document: &JobDocument) -> Result<(), AllocError>
    requires { FitsDocument false document.now }
    ensures { OnOk result (out.new.items ≡ out.old.items ++ document_spelling document.now) }
{
    put_long_text(out, document.name.as_bytes())?;
    put_u8(out, document.phases.len() as u8)?;
    put_all(out, document.phases.as_slice())
}

/// A posted line.
#[tactic(auto, unfolding(crate::specs::Spelling::line_spelling))]
pub fn put_line(out: &mut Vec<u8>, line: &InputLine) -> Result<(), AllocError>
    requires { FitsLine false line.now }
    ensures { OnOk result (out.new.items ≡ out.old.items ++ line_spelling line.now) }
{
    match line {
        InputLine::Named(path) => {
            put_u8(out, 0)?;
            put_path(out, path)
        }
        InputLine::Other(text) => {
            put_u8(out, 1)?;
            put_long_text(out, text.as_bytes())
        }
    }
}

/// Posted lines.
pub fn put_lines(out: &mut Vec<u8>, lines: &[InputLine]) -> Result<(), AllocError>
    requires few { length lines.now < 2 ^ 32 }
    requires each { AllByRecursion (FitsLine false) lines.now }
    ensures { OnOk result (out.new.items ≡ out.old.items ++ (big_endian_32 (length lines.now) ++ flat_map line_spelling lines.now)) }
{
    put_u32(out, lines.len() as u32)?;
    put_all(out, lines)
}

/// A record of a task.
#[tactic(auto, unfolding(crate::specs::Spelling::record_spelling))]
pub fn put_record(out: &mut Vec<u8>, record_of: &TaskRecord<Body>) -> Result<(), AllocError>
    ensures { OnOk result (out.new.items ≡ out.old.items ++ record_spelling record_of.now) }
{
    match record_of {
        TaskRecord::Emit {
            place,
            reducer,
            body,
        } => {
            put_u8(out, 1)?;
            put_place(out, place)?;
            put_reducer(out, *reducer)?;
            put_body(out, body)
        }
        TaskRecord::Keep { place, body } => {
            put_u8(out, 2)?;
            put_kept(out, place, body)
        }
        TaskRecord::Ref { name } => {
            put_u8(out, 3)?;
            put_path(out, name)
        }
    }
}

// A place, and the body that is to stand there.
fn put_kept(out: &mut Vec<u8>, place: &Path, body: &Body) -> Result<(), AllocError>
    ensures { OnOk result (out.new.items ≡ out.old.items ++ (path_spelling place.now ++ body_spelling body.now)) }
{
    put_path(out, place)?;
    put_body(out, body)
}

/// The number of a failure.
pub fn failure_code(failure: TaskFailure) -> u8
    ensures { result ≡ failure_number failure }
{
    match failure {
        TaskFailure::UserTaskError => 1,
        TaskFailure::TaskOutputTooLarge => 2,
        TaskFailure::TaskRecordError => 3,
        TaskFailure::TaskPlaceRefused => 4,
        TaskFailure::TaskObjectMissing => 5,
    }
}

/// The fate of a task.
#[tactic(auto, unfolding(crate::specs::Spelling::fate_spelling))]
pub fn put_fate(out: &mut Vec<u8>, fate: &Fate<Body>) -> Result<(), AllocError>
    requires { FitsFate false fate.now }
    ensures { OnOk result (out.new.items ≡ out.old.items ++ fate_spelling fate.now) }
{
    match fate {
        Fate::Good(records) => {
            put_u8(out, 0)?;
            put_u16(out, records.len() as u16)?;
            put_all(out, records.as_slice())
        }
        Fate::Bad {
            failure,
            status,
            stderr,
        } => {
            put_u8(out, 1)?;
            put_u8(out, failure_code(*failure))?;
            put_u32(out, *status)?;
            put_text(out, stderr.as_slice())
        }
    }
}

/// The bodies that a job leaves when it ends.
#[tactic(auto, unfolding(crate::specs::Spelling::archive_spelling))]
pub fn put_archive(out: &mut Vec<u8>, archive: &Archive<Body>) -> Result<(), AllocError>
    ensures { OnOk result (out.new.items ≡ out.old.items ++ archive_spelling archive.now) }
{
    put_body(out, &archive.err)?;
    put_body(out, &archive.fail)?;
    put_body(out, &archive.input)?;
    put_body(out, &archive.status)?;
    put_body(out, &archive.out)
}

/// The numbers of the parts of an upload.
pub fn put_parts(out: &mut Vec<u8>, parts: &[u64]) -> Result<(), AllocError>
    requires { length parts.now < 2 ^ 16 }
    ensures { OnOk result (out.new.items ≡ out.old.items ++ (big_endian_16 (length parts.now) ++ flat_map big_endian_64 parts.now)) }
{
    put_u16(out, parts.len() as u16)?;
    put_all(out, parts)
}
