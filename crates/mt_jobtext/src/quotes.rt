//! Numbers, and texts as JSON writes them (RFC 8259, section 7), in a window.
ghost use Rattle.std.specs.Prelude.{◌≡◌, ◌<◌, ◌≤◌, decimal, length};
ghost use Rattle.std.specs.Char.{digit_char};
ghost use Rattle.std.specs.Str.Lossy.{utf8_lossy};
ghost use Rattle.json.specs.Print.{escape, escape_byte, escape_letter, quoted};
ghost use Rattle.serde_json.specs.Data.{boolean};
ghost use Rattle.serde_json.specs.Written.{compact_text};
ghost use Rattle.mt_jobtext.specs.Members.{shown_for};
ghost use Rattle.mt_jobtext.specs.Windows.{Puts};

use crate::window::Window;
use itoa::Buffer;

/// A text is escaped by so many bytes at once.
const BLOCK: usize = 4_096;

/// U+FFFD in UTF-8, which stands for what is no text.
const REPLACEMENT: [u8; 3] = [0xEF, 0xBF, 0xBD];

/// Adds a number in decimal.
pub(crate) fn put_number(window: &mut Window, number: u64)
    ensures { Puts (decimal number) window.old window.new }
{
    let mut buffer = Buffer::new();
    window.put(buffer.format(number).as_bytes());
}

/// Adds a truth value.
pub(crate) fn put_flag(window: &mut Window, flag: bool)
    ensures { Puts (compact_text (boolean flag)) window.old window.new }
{
    if flag {
        window.put(b"true");
    } else {
        window.put(b"false");
    }
}

/// Adds a text in quotes.
pub(crate) fn put_quoted(window: &mut Window, text: &[u8])
    ensures { Puts (quoted text.now) window.old window.new }
{
    window.put(b"\"");
    put_escaped(window, text);
    window.put(b"\"");
}

/// Adds bytes in quotes as a text, with U+FFFD for each run of them that is none.
pub(crate) fn put_lossy(window: &mut Window, bytes: &[u8])
    ensures { Puts (quoted (utf8_lossy bytes.now)) window.old window.new }
{
    window.put(b"\"");
    put_chunks(window, bytes);
    window.put(b"\"");
}

// The same without the quotes.
fn put_chunks(window: &mut Window, bytes: &[u8])
    ensures { Puts (escape (utf8_lossy bytes.now)) window.old window.new }
{
    for chunk in bytes.utf8_chunks() {
        put_escaped(window, chunk.valid().as_bytes());
        put_escaped(window, shown_for(chunk.invalid()));
    }
}

// What is shown for a run of bytes that are no text.
fn shown_for(bytes: &[u8]) -> &'static [u8]
    ensures { result.now ≡ shown_for bytes.now }
{
    if bytes.is_empty() { &[] } else { &REPLACEMENT }
}

/// Adds a text as it stands between quotes, block by block.
pub(crate) fn put_escaped(window: &mut Window, text: &[u8])
    ensures { Puts (escape text.now) window.old window.new }
{
    for block in text.chunks(BLOCK) {
        put_block(window, block);
    }
}

// Adds a block of it. One that the window passes over whole is only counted, and one behind a full window is not looked at.
fn put_block(window: &mut Window, block: &[u8])
    requires { length block.now ≤ BLOCK }
    ensures { Puts (escape block.now) window.old window.new }
{
    if window.skip() == 0 {
        put_unless_full(window, block);
        return;
    }
    let len = escaped_len(block);
    if window.passes(len) {
        window.pass(len);
    } else {
        put_bytes(window, block);
    }
}

// Adds a block to a window that passes over nothing.
fn put_unless_full(window: &mut Window, block: &[u8])
    requires { window.old.skip ≡ 0 }
    ensures { Puts (escape block.now) window.old window.new }
{
    if !window.is_full() {
        put_bytes(window, block);
    }
}

// Adds a text byte by byte.
fn put_bytes(window: &mut Window, text: &[u8])
    ensures { Puts (escape text.now) window.old window.new }
{
    for byte in text {
        put_byte(window, *byte);
    }
}

// How long a block is between quotes.
fn escaped_len(block: &[u8]) -> usize
    requires { length block.now ≤ BLOCK }
    ensures { result ≡ length (escape block.now) }
{
    let mut len = 0;
    for byte in block {
        len += byte_len(*byte);
    }
    len
}

// How long a byte is.
#[tactic(auto, unfolding(json::specs::Print::escape_byte))]
fn byte_len(byte: u8) -> usize
    ensures len { result ≡ length (escape_byte byte) }
    ensures few { result ≤ 6 }
{
    if letter(byte) > 0 {
        2
    } else if byte < 32 {
        6
    } else {
        1
    }
}

/// Adds a byte of it.
#[tactic(auto, unfolding(json::specs::Print::escape_byte))]
pub(crate) fn put_byte(window: &mut Window, byte: u8)
    ensures { Puts (escape_byte byte) window.old window.new }
{
    let letter = letter(byte);
    if letter > 0 {
        window.put(&[b'\\', letter]);
    } else if byte < 32 {
        window.put(&[b'\\', b'u', b'0', b'0', digit(byte / 16), digit(byte % 16)]);
    } else {
        window.put(&[byte]);
    }
}

// The letter of a byte's short escape, or 0 where it has none.
fn letter(byte: u8) -> u8
    ensures { result ≡ escape_letter byte }
{
    match byte {
        b'"' | b'\\' => byte,
        8 => b'b',
        12 => b'f',
        10 => b'n',
        13 => b'r',
        9 => b't',
        _ => 0,
    }
}

// A hexadecimal digit.
fn digit(value: u8) -> u8
    requires { value < 16 }
    ensures { result ≡ digit_char value }
{
    if value < 10 {
        b'0' + value
    } else {
        b'a' - 10 + value
    }
}
