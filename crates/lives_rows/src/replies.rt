//! What replies tell.
use mt_rows::Stop;
use std::str;

/// What names a position in a reply.
const POSITION: &str = "x-marlin-position: ";

/// What a reply to a read begins with.
const READ: &str = "HTTP/1.1 200 OK\r\n";

/// What stands between a head and a body.
const EMPTY_LINE: &[u8] = b"\r\n\r\n";

// The position that a line of a head names.
fn position_of(line: &[u8]) -> Option<u64> {
    let Ok(text) = str::from_utf8(line) else {
        return None;
    };
    text.strip_prefix(POSITION)?.trim_end().parse::<u64>().ok()
}

/// The position that the last of these replies names.
pub fn last_told(replies: &[u8]) -> Option<u64> {
    let mut told = None;
    for line in replies.split(|b| *b == b'\n') {
        if let Some(position) = position_of(line) {
            told = Some(position);
        }
    }
    told
}

/// How many of these replies name a position up to this one.
pub fn told_up_to(replies: &[u8], found: u64) -> usize {
    let mut count = 0usize;
    for line in replies.split(|b| *b == b'\n') {
        match position_of(line) {
            Some(position) if position <= found => count = count.saturating_add(1),
            _ => {}
        }
    }
    count
}

/// The body of the last of these replies.
pub fn body_of(replies: &[u8]) -> &[u8] {
    match replies
        .windows(EMPTY_LINE.len())
        .rposition(|front| front == EMPTY_LINE)
    {
        Some(at) => replies
            .get(at.saturating_add(EMPTY_LINE.len())..)
            .unwrap_or(b""),
        None => b"",
    }
}

/// Appends the body of each of these replies to reads, behind a blank. Bodies are texts.
pub fn put_bodies(replies: &[u8], out: &mut String) -> Result<(), Stop> {
    let Ok(replies) = str::from_utf8(replies) else {
        return Err(Stop::NoSuchRow);
    };
    for reply in replies.split(READ) {
        if let Some((_, body)) = reply.split_once("\r\n\r\n") {
            out.push(' ')?;
            out.push_str(body)?;
        }
    }
    Ok(())
}
