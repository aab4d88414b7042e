//! The messages of a drill, as a source.
ghost use Rattle.std.specs.Prelude.{◌≡◌, ◌<◌, ◌≤◌, ◌++◌, [], IfOk, true, length, take, drop, vec_capacity, vec_len};
ghost use Rattle.mt_gen.specs.Messages.{drill_bytes, due_bytes, from_lines, from_objects, input_lines, piece};
ghost use Rattle.mt_gen.specs.Left.{is_due, left_of};

use crate::due::Due;
use crate::messages::{
    DIRECTORIES, LONGEST_PIECE, put_directory, put_end, put_inputs, put_job, put_line, put_object,
};
use mt_edge::{ReadStep, Source};
use std::alloc::{AllocError, Global};

/// The messages of a drill, read from the front. One piece of them is kept at a time, so that a drill takes no more memory for more
/// objects. No read fails, and none takes memory.
#[derive(Drop)]
pub struct GenSource {
    count: u32,
    lines_len: u64,
    due: Due,
    text: Vec<u8>,
    at: usize,
    ghost room: { 256 ≤ vec_capacity text },
    ghost within: { at ≤ length text.items },
    ghost small: { count ≤ 10000 },
    ghost lines: { lines_len ≡ length (input_lines 0 count) },
    ghost due_is: { is_due count due ≡ true },
}

// How many bytes the lines of so many inputs have. What the buffer held is gone.
fn lines_len(text: &mut Vec<u8>, count: u32) -> u64
    requires room { 256 ≤ vec_capacity text.old }
    requires small { count ≤ 10000 }
    ensures len { result ≡ length (input_lines 0 count) }
    ensures room { 256 ≤ vec_capacity text.new }
{
    let mut total = 0;
    for number in 0..count {
        text.clear();
        put_line(text, number);
        total += text.len() as u64;
    }
    total
}

// The first object, or what stands behind the objects.
fn first_object(count: u32) -> Due
    ensures due { is_due count result ≡ true }
    ensures first { due_bytes count result ≡ from_objects count 0 }
{
    if count > 0 { Due::Object(0) } else { Due::Job }
}

// The first input, or what stands behind the inputs.
fn first_line(count: u32) -> Due
    ensures due { is_due count result ≡ true }
    ensures first { due_bytes count result ≡ from_lines count 0 }
{
    if count > 0 { Due::Line(0) } else { Due::End }
}

// The piece behind one that is due.
fn behind(due: Due, count: u32) -> Due
    requires { is_due count due ≡ true }
    ensures due { is_due count result ≡ true }
    ensures next { due_bytes count due ≡ piece count due ++ due_bytes count result }
{
    match due {
        Due::Directory(number) => {
            if number + 1 < DIRECTORIES {
                Due::Directory(number + 1)
            } else {
                first_object(count)
            }
        }
        Due::Object(number) => {
            if number + 1 < count {
                Due::Object(number + 1)
            } else {
                Due::Job
            }
        }
        Due::Job => Due::Inputs,
        Due::Inputs => first_line(count),
        Due::Line(number) => {
            if number + 1 < count {
                Due::Line(number + 1)
            } else {
                Due::End
            }
        }
        Due::End | Due::Over => Due::Over,
    }
}

// Writes down a piece. What the buffer held is gone.
#[tactic(auto, unfolding(crate::specs::Messages::inputs_head))]
fn write_piece(text: &mut Vec<u8>, due: Due, count: u32, lines_len: u64)
    requires room { 256 ≤ vec_capacity text.old }
    requires small { count ≤ 10000 }
    requires lines { lines_len ≡ length (input_lines 0 count) }
    ensures piece { text.new.items ≡ piece count due }
    ensures room { 256 ≤ vec_capacity text.new }
{
    text.clear();
    match due {
        Due::Directory(number) => put_directory(text, number),
        Due::Object(number) => put_object(text, number),
        Due::Job => put_job(text),
        Due::Inputs => put_inputs(text, count, lines_len),
        Due::Line(number) => put_line(text, number),
        Due::End => put_end(text, count),
        Due::Over => {}
    }
}

impl GenSource {
    /// The messages of a drill of so many objects, of which each is put, and is an input of one job.
    pub fn new(alloc: Global, count: u32) -> Result<GenSource, AllocError>
        requires { count ≤ 10000 }
        ensures { IfOk result (λ s. left_of s.count s.due s.text.items s.at ≡ drill_bytes count) }
    {
        let mut text = Vec::with_capacity(alloc, LONGEST_PIECE)?;
        let lines_len = lines_len(&mut text, count);
        text.clear();
        Ok(GenSource {
            count,
            lines_len,
            due: Due::Directory(0),
            text,
            at: 0,
        })
    }

    // The next piece is written down, where the one that is kept is read.
    fn refill(&mut self)
        ensures left { left_of self.new.count self.new.due self.new.text.items self.new.at ≡ left_of self.old.count self.old.due self.old.text.items self.old.at }
        ensures some { length self.new.text.items ≡ self.new.at → left_of self.new.count self.new.due self.new.text.items self.new.at ≡ [] }
    {
        if self.at == self.text.len() {
            write_piece(&mut self.text, self.due, self.count, self.lines_len);
            self.due = behind(self.due, self.count);
            self.at = 0;
        }
    }

    // What is left of the piece that is kept.
    fn kept(&self) -> &[u8]
        ensures { result.now ≡ drop self.now.at self.now.text.items }
    {
        &self.text[self.at..]
    }

    // Takes what it can of the piece that is kept.
    fn take(&mut self, into: &mut [u8]) -> usize
        requires some { 0 < length into.old }
        requires left { self.old.at < length self.old.text.items }
        ensures some { (0 < result) × (result ≤ length into.new) }
        ensures left { left_of self.old.count self.old.due self.old.text.items self.old.at ≡ take result into.new ++ left_of self.new.count self.new.due self.new.text.items self.new.at }
    {
        let rest = self.kept();
        let count = rest.len().min(into.len());
        into[..count].copy_from_slice(&rest[..count]);
        self.at += count;
        count
    }
}

impl Source for GenSource {
    ghost use Rattle.std.specs.Prelude.{◌≡◌, Some, ⊤};
    ghost use Rattle.mt_gen.specs.Left.{left_of};

    ghost left = { λ s. Some (left_of s.count s.due s.text.items s.at) };

    ghost read_faults = { λ s. 0 };

    ghost source_stays = { λ a b. ⊤ };

    fn read(&mut self, into: &mut [u8]) -> ReadStep {
        self.refill();
        if self.at == self.text.len() {
            return ReadStep::End;
        }
        ReadStep::Took(self.take(into))
    }

    ghost source_same = { λ a. tt };

    ghost source_joined = { λ a b c h k. tt };
}
