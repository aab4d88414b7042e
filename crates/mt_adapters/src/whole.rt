//! Whether a whole message has come: a hint of when a link can be answered without waiting. What stands there is judged by the
//! layers above alone.
ghost use Rattle.std.specs.Prelude.{◌≡◌, ◌⊎◌, ◌≤◌, true, false, length};
ghost use Rattle.mt_adapters.specs.Heads.{FindsHead, HasHead, HasNoHead};

use crate::ahead::MOST;
use memchr::memchr;

// What is seen of a head so far.
#[derive(Clone, Copy, PartialEq, Eq)]
enum Seen {
    // Nothing, or empty lines.
    Nothing,
    // A line that is not empty, and is not over.
    Line,
    // Lines, of which the last is over, and nothing of the next, but for a CR.
    Lines,
}

impl Seen {
    ghost use Rattle.std.specs.Prelude.{◌≡◌, ◌+◌, ℕ, List, get_or, IfSome, IfNone};
    ghost use Rattle.mt_adapters.specs.Heads.{IsHead, Sees};

    // What is seen behind one byte more; none where that ends the head.
    fn after(self, byte: u8) -> Option<Seen>
        ensures goes_on { (bytes : List ℕ) (at : ℕ) → get_or bytes at 0 ≡ byte → Sees self bytes at → IfSome result (λ seen. Sees seen bytes (at + 1)) }
        ensures ends { (bytes : List ℕ) (at : ℕ) → get_or bytes at 0 ≡ byte → Sees self bytes at → IfNone result (IsHead bytes (at + 1)) }
    {
        match (self, byte) {
            (Seen::Lines, b'\n') => None,
            (Seen::Line, b'\n') => Some(Seen::Lines),
            (Seen::Nothing, b'\n' | b'\r') => Some(Seen::Nothing),
            (Seen::Lines, b'\r') => Some(Seen::Lines),
            _ => Some(Seen::Line),
        }
    }
}

// How long the head at the front is, with its empty line, which is the first behind a line that is not empty. A line ends with
// LF, and a CR before it is none of the line.
fn head_len(bytes: &[u8]) -> Option<usize>
    ensures { FindsHead bytes.now result }
{
    let mut seen = Seen::Nothing;
    for at in 0..bytes.len() {
        match seen.after(bytes[at]) {
            Some(more) => seen = more,
            None => return Some(at + 1),
        }
    }
    None
}

// The number that these decimal digits write, where it is at most `MOST`.
fn small_number(digits: &[u8]) -> Option<usize> {
    let text = str::from_utf8(digits).ok()?;
    let number: usize = text.parse().ok()?;
    if number > MOST { None } else { Some(number) }
}

// A line's name and value.
fn field(line: &[u8]) -> (&[u8], &[u8]) {
    match memchr(b':', line) {
        Some(colon) => (&line[..colon], line[colon + 1..].trim_ascii()),
        None => (line, &[]),
    }
}

// How long the body behind a head is, or none where that is not plain: it comes in chunks, waits to be told, has several
// lengths or one that is none.
fn body_len(head: &[u8]) -> Option<usize> {
    let mut len = None;
    for line in head.split(|byte| *byte == b'\n') {
        let (name, value) = field(line);
        if name.eq_ignore_ascii_case(b"content-length") {
            if len.is_some() {
                return None;
            }
            len = Some(small_number(value)?);
        } else if name.eq_ignore_ascii_case(b"transfer-encoding")
            || name.eq_ignore_ascii_case(b"expect")
        {
            return None;
        }
    }
    Some(len.unwrap_or(0))
}

// Whether these bytes, the first that came, can be answered: the head at the front is whole, and so is its body if it is small
// and its length is plain. As many as are read ahead at the most always can.
pub(crate) fn is_whole(bytes: &[u8]) -> bool
    ensures full { MOST ≤ length bytes.now → result ≡ true }
    ensures head { result ≡ true → (MOST ≤ length bytes.now) ⊎ HasHead bytes.now }
{
    if bytes.len() >= MOST {
        return true;
    }
    let Some(head) = head_len(bytes) else {
        return false;
    };
    match body_len(&bytes[..head]) {
        None => true,
        Some(body) => body > MOST - head || bytes.len() - head >= body,
    }
}

// Whether a head is whole.
pub(crate) fn has_head(bytes: &[u8]) -> bool
    ensures yes { result ≡ true → HasHead bytes.now }
    ensures no { result ≡ false → HasNoHead bytes.now (length bytes.now) }
{
    head_len(bytes).is_some()
}
