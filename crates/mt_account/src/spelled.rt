//! Each command of the program whose values are within their limits has a spelling: its paths, texts and numbers are what their types say.
ghost use Rattle.std.specs.Prelude.{◌≡◌, ◌<◌, ◌^◌, true, false, IfSome};
ghost use Rattle.std.specs.List.{AllByRecursion};
ghost use Rattle.mt_codec.specs.Spelling.{FitsArchive, FitsBody, FitsCommandLine, FitsDocument, FitsFate, FitsLine, FitsPath, FitsPhase, FitsRecord, FitsReducer, FitsText, HasSpelling, IsWithinLimits};
ghost use Rattle.mt_types.specs.Kinds.{OnRows, kind_of};
ghost use Rattle.mt_account.specs.Taken.{IsOfJobs, IsTaken};

use crate::jobs::is_of_jobs;
use mt_types::{
    Archive, Body, Command, Fate, InputLine, JobDocument, Path, Phase, TaskRecord, Text,
};

// A number of eight bytes.
fn is_number(n: u64)
    ensures { n < 2 ^ 64 }
{
    let _ = n;
}

// A number of four bytes.
fn is_short_number(n: u32)
    ensures { n < 2 ^ 32 }
{
    let _ = n;
}

// A path.
fn path_fits(path: &Path)
    ensures { FitsPath true path.now }
{
    let _key = path.key();
}

// A text.
fn text_fits(text: &Text)
    ensures { FitsText true text.now }
{
    let _text = text.as_str();
}

// A body.
fn body_fits(body: &Body)
    requires limits { FitsBody false body.now }
    ensures { FitsBody true body.now }
{
    is_number(body.first);
    is_number(body.len);
}

// Paths.
fn paths_fit(paths: &[Path])
    ensures { AllByRecursion (FitsPath true) paths.now }
{
    for path in paths {
        path_fits(path);
    }
}

// A command line, if there is one.
fn command_line_fits(line: &Option<Text>)
    requires limits { IfSome line.now (FitsCommandLine false) }
    ensures { IfSome line.now (FitsCommandLine true) }
{
    match line {
        Some(text) => text_fits(text),
        None => {}
    }
}

// A phase.
fn phase_fits(phase: &Phase)
    requires limits { FitsPhase false phase.now }
    ensures { FitsPhase true phase.now }
{
    text_fits(&phase.exec);
    command_line_fits(&phase.init);
    paths_fit(phase.assets.as_slice());
}

// Phases.
fn phases_fit(phases: &[Phase])
    requires limits { AllByRecursion (FitsPhase false) phases.now }
    ensures { AllByRecursion (FitsPhase true) phases.now }
{
    for phase in phases {
        phase_fits(phase);
    }
}

// A document.
fn document_fits(document: &JobDocument)
    requires limits { FitsDocument false document.now }
    ensures { FitsDocument true document.now }
{
    text_fits(&document.name);
    phases_fit(document.phases.as_slice());
}

// A line.
fn line_fits(line: &InputLine)
    requires limits { FitsLine false line.now }
    ensures { FitsLine true line.now }
{
    match line {
        InputLine::Named(path) => path_fits(path),
        InputLine::Other(text) => text_fits(text),
    }
}

// Lines.
fn lines_fit(lines: &[InputLine])
    requires limits { AllByRecursion (FitsLine false) lines.now }
    ensures { AllByRecursion (FitsLine true) lines.now }
{
    for line in lines {
        line_fits(line);
    }
}

// A place, if there is one.
fn place_fits(place: &Option<Path>)
    ensures { IfSome place.now (FitsPath true) }
{
    match place {
        Some(path) => path_fits(path),
        None => {}
    }
}

// The number of a reducer, if there is one.
fn reducer_fits(reducer: Option<u32>)
    ensures { FitsReducer true reducer }
{
    match reducer {
        Some(number) => is_short_number(number),
        None => {}
    }
}

// A record.
fn record_fits(written: &TaskRecord<Body>)
    requires limits { FitsRecord false written.now }
    ensures { FitsRecord true written.now }
{
    match written {
        TaskRecord::Emit {
            place,
            reducer,
            body,
        } => {
            place_fits(place);
            reducer_fits(*reducer);
            body_fits(body);
        }
        TaskRecord::Keep { place, body } => {
            path_fits(place);
            body_fits(body);
        }
        TaskRecord::Ref { name } => path_fits(name),
    }
}

// Records.
fn records_fit(records: &[TaskRecord<Body>])
    requires limits { AllByRecursion (FitsRecord false) records.now }
    ensures { AllByRecursion (FitsRecord true) records.now }
{
    for record in records {
        record_fits(record);
    }
}

// A fate.
fn fate_fits(fate: &Fate<Body>)
    requires limits { FitsFate false fate.now }
    ensures { FitsFate true fate.now }
{
    match fate {
        Fate::Good(records) => records_fit(records.as_slice()),
        Fate::Bad { status, .. } => is_short_number(*status),
    }
}

// An archive.
fn archive_fits(archive: &Archive<Body>)
    requires limits { FitsArchive false archive.now }
    ensures { FitsArchive true archive.now }
{
    body_fits(&archive.err);
    body_fits(&archive.fail);
    body_fits(&archive.input);
    body_fits(&archive.status);
    body_fits(&archive.out);
}

// A command on rows.
fn rows_fit(command: &Command<Body>)
    requires kind { kind_of command.now ≡ OnRows }
    requires limits { IsWithinLimits command.now }
    ensures { HasSpelling command.now }
{
    match command {
        Command::Put { path, body, .. } => {
            path_fits(path);
            body_fits(body);
        }
        Command::MakeDirectory { path, .. } => path_fits(path),
        Command::Link { path, source, .. } => {
            path_fits(path);
            path_fits(source);
        }
        Command::Delete { path, .. } => path_fits(path),
        _ => unreachable!(),
    }
}

// A command on jobs.
fn jobs_fit(command: &Command<Body>)
    requires kind { IsOfJobs (kind_of command.now) }
    requires limits { IsWithinLimits command.now }
    ensures { HasSpelling command.now }
{
    match command {
        Command::NewJob { document, .. } => document_fits(document),
        Command::AddInputs { lines, .. } => lines_fit(lines.as_slice()),
        Command::Commit {
            phase,
            place,
            fate,
            ..
        } => {
            is_short_number(*phase);
            is_number(*place);
            fate_fits(fate);
        }
        Command::Close { archive, .. } => archive_fits(archive),
        _ => {}
    }
}

/// A command that an account takes, whose values are within their limits, has a spelling. It costs a step for each line, record and path.
pub fn has_spelling(command: &Command<Body>)
    requires kind { IsTaken (kind_of command.now) }
    requires limits { IsWithinLimits command.now }
    ensures { HasSpelling command.now }
{
    if is_of_jobs(command) {
        jobs_fit(command)
    } else {
        rows_fit(command)
    }
}
