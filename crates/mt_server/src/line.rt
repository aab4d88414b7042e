//! The line that a run writes where it serves nothing.
ghost use Rattle.std.specs.Prelude.{◌≡◌, ◌<◌, ◌++◌, IfOk, OnOk};
ghost use Rattle.std.specs.Fmt.{decimal};
ghost use Rattle.mt_server.specs.Lines.{SaysLine, hex_digit, hex_text, line_of};

use mt_bytes::{put_bytes, put_decimal};
use mt_edge::{Sink, write_all};
use mt_opening::Unreadable;
use std::alloc::{AllocError, Global};

/// Writes a line, or a front of it before a counted fault, which is ignored.
pub fn say<K: Sink>(sink: &mut K, line: &[u8])
    ensures said { SaysLine line.now (K.got sink.old) (K.got sink.new) (K.write_faults sink.old) (K.write_faults sink.new) }
    ensures stays { K.sink_stays sink.old sink.new }
{
    let _ = write_all(sink, line);
}

// A number below 16 as a hexadecimal digit.
fn digit(n: u8) -> u8
    requires { n < 16 }
    ensures { result ≡ hex_digit n }
{
    if n < 10 { b'0' + n } else { b'a' + (n - 10) }
}

// Appends bytes in lower-case hexadecimal digits.
fn put_hex(out: &mut Vec<u8>, bytes: &[u8]) -> Result<(), AllocError>
    ensures { OnOk result (out.new.items ≡ out.old.items ++ hex_text bytes.now) }
{
    for byte in bytes {
        let pair = [digit(*byte / 16), digit(*byte % 16)];
        out.extend_from_slice(&pair)?;
    }
    Ok(())
}

fn put_words(out: &mut Vec<u8>, words: &[u8]) -> Result<(), AllocError>
    ensures { OnOk result (out.new.items ≡ out.old.items ++ words.now) }
{
    put_bytes(out, words)
}

// Appends words and a number.
fn put_number(out: &mut Vec<u8>, words: &[u8], number: u64) -> Result<(), AllocError>
    ensures { OnOk result (out.new.items ≡ out.old.items ++ words.now ++ decimal number) }
{
    put_bytes(out, words)?;
    put_decimal(out, number)
}

// Appends words and a digest.
fn put_digest(out: &mut Vec<u8>, words: &[u8], digest: &[u8; 16]) -> Result<(), AllocError>
    ensures { OnOk result (out.new.items ≡ out.old.items ++ words.now ++ hex_text digest.now) }
{
    put_bytes(out, words)?;
    put_hex(out, digest)
}

// Appends the line of a record whose digest is another.
#[tactic(auto, using(std::proofs::Common::append_assoc))]
fn put_damaged(
    out: &mut Vec<u8>,
    at: u64,
    kept: &[u8; 16],
    computed: &[u8; 16],
) -> Result<(), AllocError>
    ensures { OnOk result (out.new.items ≡ out.old.items ++ line_of (Unreadable.Damaged at kept.now computed.now)) }
{
    put_number(out, b"mantad: log damaged at byte ", at)?;
    put_digest(out, b": stored MD5 ", kept)?;
    put_digest(out, b", computed ", computed)?;
    put_words(out, b"\n")?;
    Ok(())
}

// Appends the line of a record that ends too early.
#[tactic(auto, using(std::proofs::Common::append_assoc))]
fn put_short(out: &mut Vec<u8>, at: u64, wanted: u64, left: u64) -> Result<(), AllocError>
    ensures { OnOk result (out.new.items ≡ out.old.items ++ line_of (Unreadable.Short at wanted left)) }
{
    put_number(out, b"mantad: log truncated at byte ", at)?;
    put_number(out, b": ", wanted)?;
    put_number(out, b" bytes expected, ", left)?;
    put_words(out, b" left\n")?;
    Ok(())
}

// Appends the line of a record that holds no command.
#[tactic(auto, using(std::proofs::Common::append_assoc))]
fn put_foreign(out: &mut Vec<u8>, at: u64) -> Result<(), AllocError>
    ensures { OnOk result (out.new.items ≡ out.old.items ++ line_of (Unreadable.Foreign at)) }
{
    put_number(out, b"mantad: unknown record at byte ", at)?;
    put_words(out, b" of the log (written by another version?)\n")?;
    Ok(())
}

// Appends the line of a store that can't be opened.
fn put_line(out: &mut Vec<u8>, why: &Unreadable) -> Result<(), AllocError>
    ensures { OnOk result (out.new.items ≡ out.old.items ++ line_of why.now) }
{
    match *why {
        Unreadable::NotALog => put_words(out, b"mantad: the log file is not a mantad log\n"),
        Unreadable::OldVersion => put_words(
            out,
            b"mantad: log version MTLOG001 is not supported\n",
        ),
        Unreadable::Damaged { at, kept, computed } => put_damaged(out, at, &kept, &computed),
        Unreadable::Short { at, wanted, left } => put_short(out, at, wanted, left),
        Unreadable::Foreign { at } => put_foreign(out, at),
    }
}

/// The line that says why a store can't be opened. It fails only when an allocation fails.
pub fn unreadable_line(alloc: Global, why: &Unreadable) -> Result<Vec<u8>, AllocError>
    ensures { IfOk result (λ line. line.items ≡ line_of why.now) }
{
    let mut out = Vec::new(alloc);
    put_line(&mut out, why)?;
    Ok(out)
}
