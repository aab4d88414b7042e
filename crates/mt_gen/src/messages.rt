//! The messages of a drill, piece by piece. Each call adds its piece to a buffer that has room for it, and takes no memory.
ghost use Rattle.std.specs.Prelude.{◌≡◌, ◌+◌, ◌<◌, ◌≤◌, ◌%◌, ◌^◌, ◌++◌, [], codes, length, vec_capacity, vec_len};
ghost use Rattle.std.specs.Fmt.{decimal};
ghost use Rattle.mt_ident.specs.Identifiers.{IsKind, identifier_text};
ghost use Rattle.mt_gen.specs.Messages.{directory_name, directory_put, document, end_post, head, head_end, input_line, inputs_head, job_number, job_post, live_in, object_line, object_name, object_put};

use mt_bytes::{put_bytes, put_decimal};
use mt_ident::uuid_text;

/// A drill has at most so many objects.
pub const MOST_OBJECTS: u32 = 10_000;

/// How many directories there are.
pub(crate) const DIRECTORIES: u32 = 16;

/// No piece has more bytes.
pub(crate) const LONGEST_PIECE: usize = 256;

/// The job: each object is split into lines, and four reducers count theirs.
const DOCUMENT: &[u8] =
    b"{\"phases\":[{\"exec\":\"split\"},{\"type\":\"reduce\",\"exec\":\"count\",\"count\":4}]}";

// The job.
#[tactic(auto, unfolding(crate::specs::Messages::document))]
fn document() -> &'static [u8]
    ensures same { result.now ≡ document }
    ensures short { length result.now ≤ 100 }
{
    DOCUMENT
}

// How many bytes it has.
#[tactic(auto, unfolding(crate::specs::Messages::document))]
fn document_len() -> u64
    ensures { result ≡ length document }
{
    DOCUMENT.len() as u64
}

// Adds a piece.
fn put(out: &mut Vec<u8>, piece: &[u8])
    requires { vec_len out.old + length piece.now ≤ vec_capacity out.old }
    ensures bytes { out.new.items ≡ out.old.items ++ piece.now }
    ensures room { vec_capacity out.old ≤ vec_capacity out.new }
{
    match put_bytes(out, piece) {
        Ok(()) => {}
        Err(_) => unreachable!(),
    }
}

// Adds a number in decimal digits.
fn put_number(out: &mut Vec<u8>, number: u64)
    requires { vec_len out.old + 20 ≤ vec_capacity out.old }
    ensures bytes { out.new.items ≡ out.old.items ++ decimal number }
    ensures short { vec_len out.new ≤ vec_len out.old + 20 }
    ensures room { vec_capacity out.old ≤ vec_capacity out.new }
{
    match put_decimal(out, number) {
        Ok(()) => {}
        Err(_) => unreachable!(),
    }
}

// Adds what stands in a head behind its method and target.
fn put_len(out: &mut Vec<u8>, len: u64)
    requires { vec_len out.old + 60 ≤ vec_capacity out.old }
    ensures bytes { out.new.items ≡ out.old.items ++ head_end len }
    ensures short { vec_len out.new ≤ vec_len out.old + 60 }
    ensures room { vec_capacity out.old ≤ vec_capacity out.new }
{
    put(out, b" HTTP/1.1\r\nContent-Length: ");
    put_number(out, len);
    put(out, b"\r\n\r\n");
}

// Adds a directory's name.
fn put_directory_name(out: &mut Vec<u8>, number: u32)
    requires { vec_len out.old + 30 ≤ vec_capacity out.old }
    ensures bytes { out.new.items ≡ out.old.items ++ directory_name number }
    ensures short { vec_len out.new ≤ vec_len out.old + 30 }
    ensures room { vec_capacity out.old ≤ vec_capacity out.new }
{
    put(out, b"/l/stor/d");
    put_number(out, number as u64);
}

// Adds an object's name.
fn put_name(out: &mut Vec<u8>, number: u32)
    requires { vec_len out.old + 60 ≤ vec_capacity out.old }
    ensures bytes { out.new.items ≡ out.old.items ++ object_name number }
    ensures short { vec_len out.new ≤ vec_len out.old + 60 }
    ensures room { vec_capacity out.old ≤ vec_capacity out.new }
{
    put_directory_name(out, number % DIRECTORIES);
    put(out, b"/o");
    put_number(out, number as u64);
}

/// A directory is put.
#[tactic(auto, unfolding(crate::specs::Messages::directory_put))]
pub(crate) fn put_directory(out: &mut Vec<u8>, number: u32)
    requires { vec_len out.old + 256 ≤ vec_capacity out.old }
    ensures bytes { out.new.items ≡ out.old.items ++ directory_put number }
    ensures room { vec_capacity out.old ≤ vec_capacity out.new }
{
    put(out, b"PUT ");
    put_directory_name(out, number);
    put(
        out,
        b" HTTP/1.1\r\nContent-Type: application/json; type=directory\r\nContent-Length: 0\r\n\r\n",
    );
}

/// An object is put.
#[tactic(auto, unfolding(crate::specs::Messages::object_put))]
pub(crate) fn put_object(out: &mut Vec<u8>, number: u32)
    requires { vec_len out.old + 256 ≤ vec_capacity out.old }
    ensures bytes { out.new.items ≡ out.old.items ++ object_put number }
    ensures room { vec_capacity out.old ≤ vec_capacity out.new }
{
    put(out, b"PUT ");
    put_name(out, number);
    put_len(out, 2);
    put(out, &[b'a' + (number % 3) as u8, b'\n']);
}

/// The job is created.
pub(crate) fn put_job(out: &mut Vec<u8>)
    requires { vec_len out.old + 256 ≤ vec_capacity out.old }
    ensures bytes { out.new.items ≡ out.old.items ++ job_post }
    ensures room { vec_capacity out.old ≤ vec_capacity out.new }
{
    put(out, b"POST /l/jobs");
    put_len(out, document_len());
    put(out, document());
}

/// An input, as a line.
#[tactic(auto, unfolding(crate::specs::Messages::input_line))]
pub(crate) fn put_line(out: &mut Vec<u8>, number: u32)
    requires { vec_len out.old + 256 ≤ vec_capacity out.old }
    ensures bytes { out.new.items ≡ out.old.items ++ input_line number }
    ensures short { vec_len out.new ≤ vec_len out.old + 61 }
    ensures room { vec_capacity out.old ≤ vec_capacity out.new }
{
    put_name(out, number);
    put(out, b"\n");
}

// Adds the method and the target of a message to the inputs of the job.
fn put_target(out: &mut Vec<u8>, count: u32)
    requires count { count ≤ 10_000 }
    requires room { vec_len out.old + 60 ≤ vec_capacity out.old }
    ensures bytes { out.new.items ≡ out.old.items ++ live_in count }
    ensures short { vec_len out.new ≤ vec_len out.old + 60 }
    ensures room { vec_capacity out.old ≤ vec_capacity out.new }
{
    put(out, b"POST /l/jobs/");
    put(out, &uuid_text(2, (16 + count as u64) * 4096));
    put(out, b"/live/in");
}

/// The head of the message that adds the inputs, whose lines have so many bytes.
pub(crate) fn put_inputs(out: &mut Vec<u8>, count: u32, len: u64)
    requires count { count ≤ 10_000 }
    requires room { vec_len out.old + 256 ≤ vec_capacity out.old }
    ensures bytes { out.new.items ≡ out.old.items ++ head (live_in count) len }
    ensures room { vec_capacity out.old ≤ vec_capacity out.new }
{
    put_target(out, count);
    put_len(out, len);
}

/// The input ends.
#[tactic(auto, unfolding(crate::specs::Messages::end_post))]
pub(crate) fn put_end(out: &mut Vec<u8>, count: u32)
    requires count { count ≤ 10_000 }
    requires room { vec_len out.old + 256 ≤ vec_capacity out.old }
    ensures bytes { out.new.items ≡ out.old.items ++ end_post count }
    ensures room { vec_capacity out.old ≤ vec_capacity out.new }
{
    put_target(out, count);
    put(out, b"/end");
    put_len(out, 0);
}
