//! A file disk's refusals, and readers, writers and clocks that fail.
use mt_adapters::{Counted, FileDisk, SystemClock};
use mt_disk::{Disk, DiskFault, FileNo};
use mt_edge::{Clock, LAST_MOMENT, ReadStep, Source, write_all};
use std::alloc::Global;
use std::io::{ErrorKind, Read, Write};
use std::test::Fail;
use std::time::Duration;
use std::{fs, io, time};

// A path that no other test has.
fn scratch(rt: &HostRuntime, name: &str) -> Result<String, Fail> {
    let moment = time::Clock::since_1970(rt)?.as_nanos();
    Ok(format!(in rt.alloc(); "/tmp/mt_adapters_{name}_{moment}")?)
}

fn write_and_sync<D: Disk>(disk: &mut D, piece: &[u8]) -> Result<u64, DiskFault> {
    disk.write_at(FileNo::One, 0, piece)?;
    disk.sync(FileNo::One)?;
    disk.len(FileNo::One)
}

#[test]
fn a_call_that_does_not_fit_changes_nothing(rt: HostRuntime) -> Result<(), Fail> {
    let folder = scratch(&rt, "fits")?;
    let mut disk = FileDisk::new(rt.alloc(), rt, &folder)?;
    assert_eq!(rt; write_and_sync(&mut disk, b"hello"), Ok(5));
    let mut into = [0; 2];
    assert!(rt; disk.read(FileNo::One, 4, &mut into).is_err());
    assert!(rt; disk.write_at(FileNo::One, 6, b"x").is_err());
    assert!(rt; disk.cut(FileNo::One, 6).is_err());
    assert!(rt;
        disk.write_at(FileNo::One, 5, b"!").is_ok(),
        "at the end it fits"
    );
    assert_eq!(rt; disk.len(FileNo::One), Ok(6));
    assert_eq!(rt; disk.faults(), 3);
    fs::remove_dir_all(&rt, &folder)?;
    Ok(())
}

// Answers each call in turn, and then the end.
#[derive(Drop)]
struct Fake {
    calls: u64,
    answers: &'static [Answer],
}

#[derive(Clone, Copy)]
enum Answer {
    Bytes(&'static [u8]),
    Count(usize),
    Interrupted,
    Broken,
}

impl Fake {
    fn of(answers: &'static [Answer]) -> Fake {
        Fake { calls: 0, answers }
    }

    fn next(&mut self) -> Answer {
        let answer = match self.answers.get(self.calls as usize) {
            Some(answer) => *answer,
            None => Answer::Count(0),
        };
        self.calls = self.calls.saturating_add(1);
        answer
    }
}

impl Read for Fake {
    fn read(&mut self, into: &mut [u8]) -> io::Result<usize> {
        match self.next() {
            Answer::Bytes(bytes) => {
                let count = bytes.len().min(into.len());
                into[..count].copy_from_slice(&bytes[..count]);
                Ok(count)
            }
            Answer::Count(_) => Ok(0),
            Answer::Interrupted => Err(io::Error::from(ErrorKind::Interrupted)),
            Answer::Broken => Err(io::Error::from(ErrorKind::BrokenPipe)),
        }
    }
}

impl Write for Fake {
    fn write(&mut self, piece: &[u8]) -> io::Result<usize> {
        match self.next() {
            Answer::Bytes(bytes) => Ok(bytes.len().min(piece.len())),
            Answer::Count(count) => Ok(count.min(piece.len())),
            Answer::Interrupted => Err(io::Error::from(ErrorKind::Interrupted)),
            Answer::Broken => Err(io::Error::from(ErrorKind::BrokenPipe)),
        }
    }

    fn flush(&mut self) -> io::Result<()> {
        Ok(())
    }
}

// Reads pieces of two bytes until the end, and notes each answer.
fn read_through<S: Source>(
    alloc: Global,
    source: &mut S,
) -> Result<(Vec<ReadStep>, Vec<u8>), Fail> {
    let mut steps = Vec::new(alloc);
    let mut bytes = Vec::new(alloc);
    for _ in 0..9 {
        let mut into = [0; 2];
        let step = source.read(&mut into);
        steps.push(step)?;
        match step {
            ReadStep::Took(count) => bytes.extend_from_slice(&into[..count])?,
            ReadStep::End => break,
            ReadStep::Failed => {}
        }
    }
    Ok((steps, bytes))
}

#[test]
fn a_source_reads_ahead_and_loses_nothing(rt: HostRuntime) -> Result<(), Fail> {
    use Answer::{Broken, Bytes, Interrupted};
    use ReadStep::{End, Failed, Took};
    let answers: &'static [Answer] = &[
        Interrupted,
        Bytes(b"hel"),
        Broken,
        Bytes(b"lo"),
        Interrupted,
    ];
    let mut source = Counted::reading(rt.alloc(), Fake::of(answers))?;
    let (steps, bytes) = read_through(rt.alloc(), &mut source)?;
    assert_eq!(rt;
        steps.as_slice(),
        [Took(2), Took(1), Failed, Took(2), End].as_slice()
    );
    assert_eq!(rt; bytes.as_slice(), b"hello".as_slice());
    assert_eq!(rt; source.faults(), 1);
    Ok(())
}

#[test]
fn a_line_is_given_whole_and_nothing_behind_it(rt: HostRuntime) -> Result<(), Fail> {
    use Answer::{Broken, Bytes, Interrupted};
    use ReadStep::{End, Failed, Took};
    let answers: &'static [Answer] = &[
        Bytes(b"GET /\r\nHost: ab\r"),
        Broken,
        Interrupted,
        Bytes(b"\n\r\nbody"),
    ];
    let mut source = Counted::reading(rt.alloc(), Fake::of(answers))?;
    // what reads into pieces of eight bytes answer and give; one with nothing read ahead gives a byte
    let table: [(ReadStep, &'static [u8]); 9] = [
        (Took(1), b"G"),
        (Took(6), b"ET /\r\n"),
        (Took(8), b"Host: ab"),
        (Took(1), b"\r"),
        (Failed, b""),
        (Took(1), b"\n"),
        (Took(2), b"\r\n"),
        (Took(4), b"body"),
        (End, b""),
    ];
    for (step, bytes) in table {
        let mut into = [0; 8];
        assert_eq!(rt; source.read_line(&mut into), step);
        assert!(rt; into.starts_with(bytes));
        assert!(rt; into[bytes.len()..].iter().all(|byte| *byte == 0));
    }
    assert_eq!(rt; source.faults(), 1);
    Ok(())
}

#[test]
fn a_sink_that_takes_nothing_fails(rt: HostRuntime) -> Result<(), Fail> {
    use Answer::{Broken, Count, Interrupted};
    // what the device answers, whether all of five bytes was written, the faults
    let table: [(&'static [Answer], bool, u64); 4] = [
        (&[Count(5)], true, 0),
        (&[Count(2), Interrupted, Count(3)], true, 0),
        (&[Count(2), Count(0)], false, 1),
        (&[Broken, Count(5)], false, 1),
    ];
    for (answers, whole, faults) in table {
        let mut sink = Counted::of(Fake::of(answers));
        assert_eq!(rt; write_all(&mut sink, b"hello").is_ok(), whole);
        assert_eq!(rt; sink.faults(), faults);
    }
    Ok(())
}

// A clock of the system that stands or fails.
#[derive(Drop)]
struct Standing {
    since_1970: Option<Duration>,
}

impl time::Clock for Standing {
    fn monotonic(&self) -> io::Result<Duration> {
        self.since_1970()
    }

    fn since_1970(&self) -> io::Result<Duration> {
        self.since_1970
            .ok_or(io::Error::from(ErrorKind::Unsupported))
    }
}

fn moment<C: Clock>(clock: &mut C) -> u64 {
    clock.now()
}

#[test]
fn the_clock_tells_the_systems_moment(rt: HostRuntime) -> Result<(), Fail> {
    let now = moment(&mut SystemClock::new(rt));
    let later = time::Clock::since_1970(&rt)?.as_secs();
    assert!(rt;
        now <= later && later <= now.saturating_add(9),
        "{now} and {later}"
    );
    // what the system's clock tells, in seconds, and the moment
    let table = [
        (None, 0),
        (Some(1_700_000_000), 1_700_000_000),
        (Some(253_402_300_799), LAST_MOMENT),
        (Some(253_402_300_800), LAST_MOMENT),
        (Some(u64::MAX), LAST_MOMENT),
    ];
    for (told, wanted) in table {
        let since_1970 = told.map(|seconds| Duration::from_secs(seconds));
        assert_eq!(rt;
            moment(&mut SystemClock::new(Standing { since_1970 })),
            wanted
        );
    }
    Ok(())
}
