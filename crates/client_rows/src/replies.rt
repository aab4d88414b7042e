//! Rows of `mt_response`: the bytes of a link are put together, and then read.
use mt_edge::{MemSink, MemSource, ReadStep, Source};
use mt_response::{ReplyHead, copy_body, read_reply_body, read_reply_head, reply_len};
use mt_rows::{Row, Stop, put_escaped};
use std::alloc::Global;

/// The length of the buffer of a copy.
const BUFFER: usize = 7;

/// The bytes of a link, and how its reads go.
#[derive(Drop)]
pub struct Replies {
    bytes: Vec<u8>,
    most: u64,
    failing: Option<u64>,
}

// One number, as a list.
fn one(alloc: Global, number: u64) -> Result<Vec<u64>, Stop> {
    let mut numbers = Vec::new(alloc);
    numbers.push(number)?;
    Ok(numbers)
}

// How many bytes are left of a link that had so many.
fn left_of(source: &mut MemSource, most: usize) -> usize {
    let mut left = 0usize;
    let mut piece = [0; 64];
    for _read in 0..most {
        match source.read(&mut piece) {
            ReadStep::Took(count) => left = left.saturating_add(count),
            _ => return left,
        }
    }
    left
}

// The status and the fields of a head.
fn put_head(out: &mut String, head: &ReplyHead) -> Result<(), Stop> {
    write!(out, "{}", head.status)?;
    for field in head.fields.as_slice() {
        out.push_str("; ")?;
        put_escaped(out, field.name.as_bytes())?;
        out.push_str(": ")?;
        put_escaped(out, field.value.as_slice())?;
    }
    Ok(())
}

// The body of a head, and how many bytes are left behind it.
fn put_body(
    alloc: Global,
    source: &mut MemSource,
    len: u64,
    most: usize,
    out: &mut String,
) -> Result<(), Stop> {
    match read_reply_body(alloc, source, len) {
        Ok(body) => {
            out.push('[')?;
            put_escaped(out, body.as_slice())?;
            write!(out, "] left {}", left_of(source, most))?;
        }
        Err(end) => write!(out, "{end:?}")?,
    }
    Ok(())
}

// Whether these bytes are a reply, and not less.
fn is_reply(alloc: Global, bytes: &[u8], limit: u64, bare: bool) -> Result<bool, Stop> {
    let mut source = MemSource::new(alloc, Vec::from_slice(alloc, bytes)?);
    let Ok(head) = read_reply_head(alloc, &mut source) else {
        return Ok(false);
    };
    match reply_len(&head, limit, bare) {
        Some(len) => Ok(read_reply_body(alloc, &mut source, len).is_ok()),
        None => Ok(false),
    }
}

impl Replies {
    /// A link without bytes.
    pub fn new(alloc: Global) -> Replies {
        Replies {
            bytes: Vec::new(alloc),
            most: u64::MAX,
            failing: None,
        }
    }

    // The link.
    fn source(&self, alloc: Global) -> Result<MemSource, Stop> {
        let source = MemSource::new(alloc, Vec::from_slice(alloc, self.bytes.as_slice())?);
        let source = match self.failing {
            Some(read) => source.failing(one(alloc, read)?),
            None => source,
        };
        if self.most == 0 {
            return Err(Stop::NoSuchRow);
        }
        Ok(source.at_most(self.most as usize))
    }

    // So many times these bytes more.
    fn put_many(&mut self, row: &Row) -> Result<(), Stop> {
        let bytes = row.bytes(2)?;
        for _time in 0..row.number(1)? {
            self.bytes.extend_from_slice(bytes)?;
        }
        Ok(())
    }

    // The head at the front of the link, and how many bytes are left behind it.
    fn head(&self, alloc: Global, out: &mut String) -> Result<(), Stop> {
        let mut source = self.source(alloc)?;
        match read_reply_head(alloc, &mut source) {
            Ok(head) => {
                put_head(out, &head)?;
                write!(out, "; left {}", left_of(&mut source, self.bytes.len()))?;
            }
            Err(end) => write!(out, "{end:?}")?,
        }
        Ok(())
    }

    // The reply at the front of the link, under a limit.
    fn reply(&self, alloc: Global, row: &Row, out: &mut String) -> Result<(), Stop> {
        let limit = row.number(1)?;
        let mut source = self.source(alloc)?;
        match read_reply_head(alloc, &mut source) {
            Ok(head) => match reply_len(&head, limit, row.len() > 2) {
                Some(len) => {
                    write!(out, "{} {len} ", head.status)?;
                    put_body(alloc, &mut source, len, self.bytes.len(), out)
                }
                None => {
                    write!(out, "{} no length", head.status)?;
                    Ok(())
                }
            },
            Err(end) => {
                write!(out, "{end:?}")?;
                Ok(())
            }
        }
    }

    // So many bytes of the link, copied to a sink with so much room.
    fn copy(&self, alloc: Global, row: &Row, out: &mut String) -> Result<(), Stop> {
        let len = row.number(1)?;
        let mut sink = MemSink::new(alloc, row.number(2)? as usize)?;
        let mut source = self.source(alloc)?;
        let mut buffer = [0; BUFFER];
        let copied = copy_body(&mut source, &mut sink, len, &mut buffer);
        write!(out, "{copied:?} [")?;
        put_escaped(out, sink.written())?;
        write!(out, "] left {}", left_of(&mut source, self.bytes.len()))?;
        Ok(())
    }

    // The number of the shortest front of the link's bytes that is a reply, where each longer one is one, too.
    fn cuts(&self, alloc: Global, row: &Row, out: &mut String) -> Result<(), Stop> {
        let limit = row.number(1)?;
        let mut first = None;
        for cut in 0..=self.bytes.len() {
            let front = self.bytes.get(..cut).unwrap_or(b"");
            let is = is_reply(alloc, front, limit, row.len() > 2)?;
            if is && first.is_none() {
                first = Some(cut);
            }
            if !is && first.is_some() {
                write!(out, "not at {cut} ")?;
            }
        }
        match first {
            Some(cut) => write!(out, "from {cut} on")?,
            None => out.push_str("never")?,
        }
        Ok(())
    }

    // A row that reads the link.
    fn read(&self, alloc: Global, row: &Row, out: &mut String) -> Result<(), Stop> {
        match row.text(0)? {
            "head" => self.head(alloc, out),
            "reply" => self.reply(alloc, row, out),
            "copy" => self.copy(alloc, row, out),
            "cuts" => self.cuts(alloc, row, out),
            _ => Err(Stop::NoSuchRow),
        }
    }

    // A line more, with CR LF.
    fn put_line(&mut self, text: &str) -> Result<(), Stop> {
        self.bytes.extend_from_slice(text.as_bytes())?;
        self.bytes.extend_from_slice(b"\r\n")?;
        Ok(())
    }

    // These bytes more.
    fn put(&mut self, bytes: &[u8]) -> Result<(), Stop> {
        self.bytes.extend_from_slice(bytes)?;
        Ok(())
    }

    // No byte yet.
    fn clear(&mut self) -> Result<(), Stop> {
        self.bytes.clear();
        self.most = u64::MAX;
        self.failing = None;
        Ok(())
    }

    // A read takes at most so many bytes.
    fn limit(&mut self, row: &Row) -> Result<(), Stop> {
        self.most = row.number(1)?;
        Ok(())
    }

    // The read of this number fails.
    fn fail(&mut self, row: &Row) -> Result<(), Stop> {
        self.failing = Some(row.number(1)?);
        Ok(())
    }

    /// The answer to a row of this crate; behind its first word the line has this text.
    pub fn answer(
        &mut self,
        alloc: Global,
        text: &str,
        row: &Row,
        out: &mut String,
    ) -> Result<(), Stop> {
        match row.text(0)? {
            "new" => self.clear(),
            ">" => self.put_line(text),
            ">|" => self.put(row.bytes(1)?),
            "many" => self.put_many(row),
            "most" => self.limit(row),
            "fail" => self.fail(row),
            _ => self.read(alloc, row, out),
        }
    }
}
