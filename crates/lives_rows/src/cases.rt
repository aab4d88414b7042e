//! The rows of the table.
use crate::rows::{put_chain, put_faults, put_stops};
use crate::story::Story;
use mt_rows::{Row, Rows, Stop, unescaped};
use std::alloc::Global;

/// The story that the next lives are of.
#[derive(Drop)]
pub struct Cases {
    story: Story,
}

impl Cases {
    /// A story without messages.
    pub fn new(alloc: Global) -> Cases {
        Cases {
            story: Story::new(alloc),
        }
    }

    fn forget(&mut self, alloc: Global) -> Result<(), Stop> {
        self.story = Story::new(alloc);
        Ok(())
    }

    fn begin_message(&mut self, alloc: Global) -> Result<(), Stop> {
        self.story.messages.push(Vec::new(alloc))?;
        Ok(())
    }

    fn set_out(&mut self, alloc: Global, row: &Row) -> Result<(), Stop> {
        self.story.out = Vec::from_slice(alloc, row.bytes(1)?)?;
        Ok(())
    }

    fn set_words(&mut self, alloc: Global, row: &Row) -> Result<(), Stop> {
        let mut words = Vec::new(alloc);
        for place in 1..row.len() {
            words.push(Vec::from_slice(alloc, row.bytes(place)?)?)?;
        }
        self.story.words = words;
        Ok(())
    }

    // A line of a message, with its CR LF; other bytes without.
    fn add_line(&mut self, alloc: Global, line: &str) -> Result<(), Stop> {
        match self.story.messages.last_mut() {
            Some(message) => put_line(alloc, message, line),
            None => Err(Stop::NoSuchRow),
        }
    }
}

// Appends the bytes of a text.
fn put_text(alloc: Global, message: &mut Vec<u8>, text: &str) -> Result<(), Stop> {
    let bytes = unescaped(alloc, text.as_bytes())?;
    Ok(message.extend_from_slice(&bytes)?)
}

fn put_line(alloc: Global, message: &mut Vec<u8>, line: &str) -> Result<(), Stop> {
    if let Some(bytes) = line.strip_prefix(">| ") {
        return put_text(alloc, message, bytes);
    }
    put_text(alloc, message, line.strip_prefix("> ").unwrap_or(""))?;
    Ok(message.extend_from_slice(b"\r\n")?)
}

impl Rows for Cases {
    fn answer(
        &mut self,
        alloc: Global,
        line: &str,
        row: &Row,
        out: &mut String,
    ) -> Result<(), Stop> {
        match row.text(0)? {
            "new" => self.forget(alloc),
            "message" => self.begin_message(alloc),
            ">" | ">|" => self.add_line(alloc, line),
            "out" => self.set_out(alloc, row),
            "says" => self.set_words(alloc, row),
            "stops" => put_stops(alloc, &self.story, row, out),
            "chain" => put_chain(alloc, &self.story, row, out),
            "fail" => put_faults(alloc, &self.story, row, out),
            _ => Err(Stop::NoSuchRow),
        }
    }
}
