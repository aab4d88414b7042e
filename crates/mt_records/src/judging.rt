//! The fate of a task, from what is told of it and from the fronts and ends of its record files.
ghost use Rattle.std.specs.Prelude.{◌≡◌, length, IfOk, OnOk};
ghost use Rattle.mt_records.specs.Seen.{output_range, sizes_in, with_record};
ghost use Rattle.mt_records.specs.Fate.{failed, judged};

use crate::asking::few_records;
use crate::range::Range;
use crate::record::RawRecord;
use crate::told::told_failure;
use crate::window::range_record;
use mt_base::{Bytes, Sequence, Text};
use mt_spawn::{FileSize, Left, Part, Sizes};
use mt_types::{Fate, LONGEST_STDERR, TaskFailure};
use std::alloc::{AllocError, Global};
use std::marker::Model;

/// A task that is judged. Its files are looked at in turn: of each its first 1,209 bytes and its last 12, or all where it is
/// shorter. What it keeps of a file is its head, so it grows with the places and names in them.
#[derive(Debug, Drop)]
pub struct Judging {
    login: Text,
    left: Left,
    count: u64,
    records: Option<Sequence<RawRecord<Range>>>,
}

impl Model for Judging {
    ghost use Rattle.mt_records.specs.Seen.{Judgement};

    ghost Value = { Judgement };

    ghost view = { λ j. record { login = j.login; left = j.left; count = j.count; records = j.records } };
}

// The range of standard output.
fn output_range(left: &Left) -> Range
    ensures { result ≡ output_range left.now }
{
    let len = match &left.made {
        Sizes::Whole { out, .. } => *out,
        Sizes::TooLarge { .. } => 0,
    };
    Range {
        part: Part::Out,
        from: 0,
        len,
    }
}

// How many files are told of.
fn file_count(left: &Left) -> usize
    ensures { result ≡ length (sizes_in left.now.made) }
{
    match &left.made {
        Sizes::Whole { files, .. } => files.len(),
        Sizes::TooLarge { .. } => 0,
    }
}

// The fate of a task that failed.
#[tactic(auto, using(std::proofs::lemmas::List::take_min))]
fn failed(alloc: Global, left: &Left, failure: TaskFailure) -> Result<Fate<Range>, AllocError>
    ensures { IfOk result (λ f. f ≡ failed left.now failure) }
{
    let len = LONGEST_STDERR.min(left.stderr.len());
    Ok(Fate::Bad {
        failure,
        status: left.status,
        stderr: Bytes::from_slice(alloc, &left.stderr.as_slice()[..len])?,
    })
}

// One record more, if it is one.
fn with_record(
    records: &mut Option<Sequence<RawRecord<Range>>>,
    found: Option<RawRecord<Range>>,
) -> Result<(), AllocError>
    ensures { OnOk result (records.new ≡ with_record records.old found) }
{
    let Some(raw) = found else {
        *records = None;
        return Ok(());
    };
    match records {
        Some(list) => list.push(raw),
        None => Ok(()),
    }
}

// The fate of a task whose records are these, where each file is one.
#[tactic(auto, unfolding(crate::specs::Fate::judged))]
fn judged(
    alloc: Global,
    login: &str,
    left: &Left,
    records: Option<Sequence<RawRecord<Range>>>,
) -> Result<Fate<Range>, AllocError>
    ensures { IfOk result (λ f. f ≡ judged login.now left.now (output_range left.now) records) }
{
    if let Some(failure) = told_failure(left) {
        return failed(alloc, left, failure);
    }
    let Some(records) = records else {
        return failed(alloc, left, TaskFailure::TaskRecordError);
    };
    match few_records(alloc, login, output_range(left), records)? {
        Ok(records) => Ok(Fate::Good(records)),
        Err(failure) => failed(alloc, left, failure),
    }
}

impl Judging {
    ghost use Rattle.std.specs.Prelude.{◌≡◌, List, Some, None, IfOk, OnOk};
    ghost use Rattle.mt_types.specs.Values.{fate_with};
    ghost use Rattle.mt_types.specs.declared.task.Raw.{Raw};
    ghost use Rattle.mt_spawn.specs.Orders.{told_of};
    ghost use Rattle.mt_records.specs.Fate.{fate, files_of};
    ghost use Rattle.mt_records.specs.Seen.{HasSeen, after_file, begun, bytes_in, fate_of, next_file};
    ghost use Rattle.mt_records.specs.Windows.{AreSeen, Window};

    /// Judges by what is told. No file is looked at yet.
    pub fn new(alloc: Global, login: &str, left: Left) -> Result<Judging, AllocError>
        ensures { IfOk result (λ j. j ≡ begun login.now left) }
    {
        let records = match told_failure(&left) {
            Some(_) => None,
            None => Some(Sequence::new(alloc)),
        };
        Ok(Judging {
            login: Text::from_str(alloc, login)?,
            left,
            count: 0,
            records,
        })
    }

    /// The file whose window is wanted, which is the one at the place of [`Judging::count`]; none where the fate shows. It
    /// takes no memory.
    #[tactic(auto, unfolding(crate::specs::Seen::next_file))]
    pub fn next(&self) -> Option<FileSize>
        ensures { result ≡ next_file self.now }
    {
        let (Some(_), Sizes::Whole { files, .. }) = (&self.records, &self.left.made) else {
            return None;
        };
        match files.as_slice().get(self.count as usize) {
            Some(size) => Some(*size),
            None => None,
        }
    }

    /// How many files were looked at, which is the place of the next.
    pub fn count(&self) -> u64
        ensures { result ≡ self.now.count }
    {
        self.count
    }

    /// Looks at the next file, of `size`, by its first 1,209 bytes, or more, and its last 12. On an error, which is want of
    /// memory, nothing more is said of the judging.
    pub fn file(
        &mut self,
        alloc: Global,
        size: FileSize,
        front: &[u8],
        end: &[u8],
    ) -> Result<(), AllocError>
        requires next { next_file self.old ≡ Some size }
        ensures { OnOk result (self.new ≡ after_file self.old (record { len = size.len; front = front.now; end = end.now })) }
    {
        let found = range_record(alloc, self.count, size.len, front, end)?;
        with_record(&mut self.records, found)?;
        // The place behind that of a file fits, as the number of files does.
        let _files = file_count(&self.left);
        self.count += 1;
        Ok(())
    }

    /// The fate of the task, by what was looked at: all of it, where no file is wanted.
    pub fn fate(self, alloc: Global) -> Result<Fate<Range>, AllocError>
        ensures value { IfOk result (λ f. f ≡ fate_of self) }
        ensures judged { (ws : List Window) (raw : Raw) → HasSeen self ws → next_file self ≡ None → told_of raw ≡ self.left
            → AreSeen ws (files_of raw.made) → IfOk result (λ f. fate_with (bytes_in raw.made) f ≡ fate self.login raw) }
    {
        let Judging {
            login,
            left,
            records,
            ..
        } = self;
        judged(alloc, login.as_str(), &left, records)
    }
}
