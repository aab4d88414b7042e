//! `jobtext_bench N ROUNDS [TEXT]`: makes a job of N outputs, or of N failed tasks that read one each, and prints a text of it so often.
//! It takes no time by itself: a script does.
#![tactic(auto)]

ghost use Rattle.std.specs.Prelude.{◌≡◌, ◌<◌, ◌^◌, length, IfOk, None};
ghost use Rattle.mt_feeds.specs.FedJob.{AreFeeds};

use mt_base::{Bytes, Sequence, Text};
use mt_edge::{ReadStep, Source};
use mt_feeds::FedJob;
use mt_ident::uuid_text;
use mt_jobtext::{Lines, LiveText, closed_len, line_count, text_len};
use mt_path::{Area, Path};
use mt_types::{Body, Item, Job, JobDocument, Outcome, Phase, PhaseKind, TaskFailure, TraceEntry};
use std::alloc::{AllocError, Global};
use std::env;
use std::io::{self, Write};
use std::process::ExitCode;

/// The status where the words are no two numbers and a text.
const USAGE: u8 = 1;

/// The status where standard output failed.
const OUTPUT_FAILED: u8 = 4;

/// The status where memory was wanted.
const OUT_OF_MEMORY: u8 = 8;

/// Whose names they are.
const LOGIN: &str = "me";

/// The job's number.
const NUMBER: u64 = 4_096;

/// The bytes of a read.
const PIECE: usize = 65_536;

/// The texts that a job leaves, in the order of their names.
const ARCHIVE: [LiveText; 5] = [
    LiveText::Err,
    LiveText::Fail,
    LiveText::In,
    LiveText::Status,
    LiveText::Out,
];

/// What is printed of a job.
#[derive(Clone, Copy)]
enum Shown {
    /// A text as it stands.
    Live(LiveText),
    /// How many lines and bytes there are of what failed.
    Counts,
    /// How long the texts are that it leaves, and then they.
    Closed,
}

/// How much is printed.
#[derive(Clone, Copy)]
struct Work {
    tasks: u32,
    rounds: u32,
    shown: Shown,
}

// What a third word asks for: with none, the names of outputs.
fn wanted(word: Option<&str>) -> Option<Shown> {
    match word {
        None => Some(Shown::Live(LiveText::Out)),
        Some("fail") => Some(Shown::Live(LiveText::Fail)),
        Some("err") => Some(Shown::Live(LiveText::Err)),
        Some("counts") => Some(Shown::Counts),
        Some("closed") => Some(Shown::Closed),
        Some(_) => None,
    }
}

// What the words say.
fn asked(rt: &HostRuntime) -> Option<Work> {
    let args = env::args(rt).ok()?;
    let mut words = args.skip(1);
    let tasks = words.next()?.parse::<u32>().ok()?;
    let rounds = words.next()?.parse::<u32>().ok()?;
    let word = words.next();
    let shown = wanted(word.as_deref())?;
    Some(Work {
        tasks,
        rounds,
        shown,
    })
}

// Whether the tasks of a second phase fail, whose texts are asked for.
fn is_of_failures(shown: Shown) -> bool {
    match shown {
        Shown::Live(LiveText::Out) => false,
        Shown::Live(_) | Shown::Counts | Shown::Closed => true,
    }
}

// The name of an output, below the job.
fn name(alloc: Global, k: u32) -> Result<Path, AllocError> {
    let job = Path::root(alloc, Area::Jobs);
    let job = child(alloc, &job, &uuid_text(2, NUMBER))?;
    let stor = child(alloc, &job, b"stor")?;
    let mut last = Vec::from_slice(alloc, b"a.0.")?;
    last.extend_from_slice(&uuid_text(3, u64::from(k) * NUMBER))?;
    child(alloc, &stor, &last)
}

fn child(alloc: Global, path: &Path, name: &[u8]) -> Result<Path, AllocError> {
    match path.child(alloc, name) {
        Ok(child) => Ok(child),
        Err(_) => Err(AllocError),
    }
}

// A task that made one output, in no more memory than that takes.
fn entry(alloc: Global, k: u32) -> Result<TraceEntry<Body>, AllocError> {
    let item = Item {
        name: name(alloc, k)?,
        root: Text::from_str(alloc, "a")?,
        body: Body {
            first: 0,
            len: 0,
            md5: [0; 16],
        },
        reducer: None,
    };
    let mut items = Vec::with_capacity(alloc, 1)?;
    if items.push(item).is_err() {
        return Err(AllocError);
    }
    Ok(TraceEntry {
        phase: 0,
        place: u64::from(k),
        position: u64::from(k),
        outcome: Outcome::Good(Sequence::from_vec(items)),
    })
}

// A task of a second phase that failed at the same place.
fn failed(alloc: Global, k: u32) -> Result<TraceEntry<Body>, AllocError> {
    let stderr = Bytes::from_slice(alloc, b"cat: it is \"gone\"\n")?;
    Ok(TraceEntry {
        phase: 1,
        place: u64::from(k),
        position: u64::from(k),
        outcome: Outcome::Bad {
            failure: TaskFailure::UserTaskError,
            status: 1,
            stderr,
        },
    })
}

// The committed tasks: those that made an output each, and then, where they fail, those that read them.
fn trace(alloc: Global, work: Work) -> Result<Sequence<TraceEntry<Body>>, AllocError> {
    let mut trace = Sequence::new(alloc);
    for k in 0..work.tasks {
        trace.push(entry(alloc, k)?)?;
    }
    if is_of_failures(work.shown) {
        for k in 0..work.tasks {
            trace.push(failed(alloc, k)?)?;
        }
    }
    Ok(trace)
}

fn phase(alloc: Global) -> Result<Phase, AllocError> {
    Ok(Phase {
        kind: PhaseKind::Map,
        exec: Text::from_str(alloc, "cat")?,
        init: None,
        assets: Sequence::new(alloc),
    })
}

fn document(alloc: Global, work: Work) -> Result<JobDocument, AllocError> {
    let mut phases = Sequence::new(alloc);
    phases.push(phase(alloc)?)?;
    if is_of_failures(work.shown) {
        phases.push(phase(alloc)?)?;
    }
    Ok(JobDocument {
        name: Text::from_str(alloc, "")?,
        phases,
    })
}

// Prints a text.
fn put(rt: &HostRuntime, lines: &mut Lines<Body>, piece: &mut [u8]) -> Result<(), u8>
    requires { 0 < length piece.old }
{
    for _ in 0..lines.len() {
        match lines.read(piece) {
            ReadStep::Took(count) => match rt.stdout().write_all(&piece[..count]) {
                Ok(()) => {}
                Err(_) => return Err(OUTPUT_FAILED),
            },
            ReadStep::End | ReadStep::Failed => return Ok(()),
        }
    }
    Ok(())
}

// Prints a text of a job as it stands.
fn put_live(
    rt: &HostRuntime,
    kept: &FedJob<Body>,
    text: LiveText,
    piece: &mut [u8],
) -> Result<(), u8>
    requires number { kept.now.job.number < 2 ^ 62 }
    requires created { kept.now.job.created ≡ 0 }
    requires done { kept.now.job.done ≡ None }
    requires feeds { AreFeeds kept.now.job kept.now.feeds.items }
    requires some { 0 < length piece.old }
{
    let Ok(mut lines) = Lines::live(rt.alloc(), LOGIN, kept, text) else {
        return Err(OUT_OF_MEMORY);
    };
    put(rt, &mut lines, piece)
}

// Prints how many lines and bytes there are of names, and of causes.
fn put_counts(rt: &HostRuntime, kept: &FedJob<Body>) -> Result<(), u8>
    requires number { kept.now.job.number < 2 ^ 62 }
    requires created { kept.now.job.created ≡ 0 }
    requires done { kept.now.job.done ≡ None }
    requires feeds { AreFeeds kept.now.job kept.now.feeds.items }
{
    let alloc = rt.alloc();
    for text in [LiveText::Fail, LiveText::Err] {
        let (Ok(lines), Ok(len)) = (line_count(kept, text), text_len(alloc, LOGIN, kept, text))
        else {
            return Err(OUT_OF_MEMORY);
        };
        if writeln!(rt.stdout(), "{lines} {len}").is_err() {
            return Err(OUTPUT_FAILED);
        }
    }
    Ok(())
}

// Prints how long a text is that a job leaves, and then the text.
fn put_closed(
    rt: &HostRuntime,
    kept: &FedJob<Body>,
    text: LiveText,
    piece: &mut [u8],
) -> Result<(), u8>
    requires number { kept.now.job.number < 2 ^ 62 }
    requires created { kept.now.job.created ≡ 0 }
    requires done { kept.now.job.done ≡ None }
    requires feeds { AreFeeds kept.now.job kept.now.feeds.items }
    requires some { 0 < length piece.old }
{
    let alloc = rt.alloc();
    let Ok(len) = closed_len(alloc, LOGIN, kept, text, false, 0) else {
        return Err(OUT_OF_MEMORY);
    };
    if writeln!(rt.stdout(), "{len}").is_err() {
        return Err(OUTPUT_FAILED);
    }
    let Ok(mut lines) = Lines::closed(alloc, LOGIN, kept, text, false, 0) else {
        return Err(OUT_OF_MEMORY);
    };
    put(rt, &mut lines, piece)
}

// Prints what is asked for once.
fn print(rt: &HostRuntime, kept: &FedJob<Body>, shown: Shown, piece: &mut [u8]) -> Result<(), u8>
    requires number { kept.now.job.number < 2 ^ 62 }
    requires created { kept.now.job.created ≡ 0 }
    requires done { kept.now.job.done ≡ None }
    requires feeds { AreFeeds kept.now.job kept.now.feeds.items }
    requires some { 0 < length piece.old }
{
    match shown {
        Shown::Live(text) => put_live(rt, kept, text, piece),
        Shown::Counts => put_counts(rt, kept),
        Shown::Closed => {
            for text in ARCHIVE {
                put_closed(rt, kept, text, piece)?;
            }
            Ok(())
        }
    }
}

// The job, with what is kept beside it.
fn made(alloc: Global, work: Work) -> Result<FedJob<Body>, AllocError>
    ensures number { IfOk result (λ k. k.job.number < 2 ^ 62) }
    ensures created { IfOk result (λ k. k.job.created ≡ 0) }
    ensures done { IfOk result (λ k. k.job.done ≡ None) }
    ensures feeds { IfOk result (λ k. AreFeeds k.job k.feeds.items) }
{
    let document = document(alloc, work)?;
    let trace = trace(alloc, work)?;
    let job = Job {
        number: NUMBER,
        document,
        assets: Sequence::new(alloc),
        inputs: Sequence::new(alloc),
        missing: Sequence::new(alloc),
        ended: true,
        cancelled: false,
        created: 0,
        done: None,
        trace,
    };
    FedJob::with_feeds(alloc, job)
}

// Prints it so often.
fn run(rt: &HostRuntime, work: Work) -> Result<(), u8> {
    let Ok(kept) = made(rt.alloc(), work) else {
        return Err(OUT_OF_MEMORY);
    };
    let mut piece = [0u8; PIECE];
    for _ in 0..work.rounds {
        print(rt, &kept, work.shown, &mut piece)?;
    }
    Ok(())
}

fn main(rt: HostRuntime) -> ExitCode {
    let Some(work) = asked(&rt) else {
        return ExitCode::from(USAGE);
    };
    match run(&rt, work) {
        Ok(()) => ExitCode::from(0),
        Err(status) => ExitCode::from(status),
    }
}
