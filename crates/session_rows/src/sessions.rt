//! Sessions and serves over one disk, each with requests, faults and a crash of its own.
use crate::children::{Counts, set_numbers, set_script};
use crate::links::Links;
use crate::picks::picks_of;
use crate::stops::{Attempt, files_of, put_stops};
use crate::store::{Ends, Files, Left, run_over};
use mt_disk::{MemDisk, Pick};
use mt_rows::{Row, Rows, Stop, unescaped};
use mt_spawn::Script;
use std::alloc::Global;

/// What the next session begins with, how many calls of the disk the last one made, and what was counted of its children. What fails, and what a crash
/// leaves, is of that session alone.
#[derive(Drop)]
pub struct Sessions {
    files: Files,
    ends: Ends,
    links: Links,
    disk_fails: Vec<u64>,
    picks: Vec<Pick>,
    calls: u64,
    counts: Counts,
}

impl Sessions {
    /// A new store, and no requests.
    pub fn new(alloc: Global) -> Sessions {
        Sessions {
            files: Files::new(alloc),
            ends: Ends::new(alloc),
            links: Links::new(alloc),
            disk_fails: Vec::new(alloc),
            picks: Vec::new(alloc),
            calls: 0,
            counts: Counts::none(),
        }
    }

    fn set_failing(&mut self, alloc: Global, row: &Row) -> Result<(), Stop> {
        match row.text(1)? {
            "disk" => set_numbers(alloc, &mut self.disk_fails, row),
            "reads" => set_numbers(alloc, &mut self.ends.reads_fail, row),
            "writes" => set_numbers(alloc, &mut self.ends.writes_fail, row),
            "door" => set_numbers(alloc, &mut self.links.calls_fail, row),
            _ => Err(Stop::NoSuchRow),
        }
    }

    fn read_files(&mut self, alloc: Global, row: &Row) -> Result<(), Stop> {
        self.files = Files::read(alloc, row)?;
        Ok(())
    }

    fn forget_files(&mut self, alloc: Global) -> Result<(), Stop> {
        self.files = Files::new(alloc);
        Ok(())
    }

    fn forget_requests(&mut self) -> Result<(), Stop> {
        self.ends.requests.clear();
        Ok(())
    }

    fn set_moments(&mut self, alloc: Global, row: &Row) -> Result<(), Stop> {
        self.ends.moments = row.numbers(alloc, 1)?;
        Ok(())
    }

    fn set_script(&mut self, alloc: Global, row: &Row) -> Result<(), Stop> {
        set_script(alloc, &mut self.ends.script, row)
    }

    fn put_counts(&self, out: &mut String) -> Result<(), Stop> {
        self.counts.put(out)?;
        Ok(())
    }

    fn set_picks(&mut self, alloc: Global, row: &Row) -> Result<(), Stop> {
        self.picks = picks_of(alloc, row)?;
        Ok(())
    }

    fn put_calls(&self, out: &mut String) -> Result<(), Stop> {
        write!(out, "{}", self.calls)?;
        Ok(())
    }

    fn put_files(&self, out: &mut String) -> Result<(), Stop> {
        self.files.put(out)?;
        Ok(())
    }

    // The links at the door are gone behind it.
    fn put_stops(&mut self, alloc: Global, row: &Row, out: &mut String) -> Result<(), Stop> {
        let words = words_of(alloc, row)?;
        let run = Attempt {
            words: &words,
            files: &self.files,
            ends: &self.ends,
            links: &self.links,
        };
        put_stops(alloc, &run, out)?;
        self.links = Links::new(alloc);
        Ok(())
    }

    // The requests and the faults of streams so far are those of one more link at the door.
    fn add_link(&mut self, alloc: Global) -> Result<(), Stop> {
        self.links.add(alloc, &self.ends)?;
        self.ends = Ends::new(alloc);
        Ok(())
    }

    // They are those of one more piece of a link.
    fn add_piece(&mut self, alloc: Global) -> Result<(), Stop> {
        self.links.add_piece(alloc, &self.ends)?;
        self.ends = Ends::new(alloc);
        Ok(())
    }

    // A line of the requests, with its CR LF; other bytes without.
    fn add_request(&mut self, alloc: Global, line: &str) -> Result<(), Stop> {
        if let Some(bytes) = line.strip_prefix(">| ") {
            return add_bytes(alloc, &mut self.ends.requests, bytes);
        }
        let text = line.strip_prefix("> ").unwrap_or("");
        add_bytes(alloc, &mut self.ends.requests, text)?;
        self.ends.requests.extend_from_slice(b"\r\n")?;
        Ok(())
    }

    // What a session by the words of a row leaves.
    fn left(&self, alloc: Global, row: &Row) -> Result<Left, Stop> {
        let words = words_of(alloc, row)?;
        run_over(
            alloc,
            &words,
            &self.files,
            &self.ends,
            &self.links,
            &self.disk_fails,
        )
    }

    // A session by the words of a row, then its crash; what that leaves is the store from then on.
    fn run(&mut self, alloc: Global, row: &Row, out: &mut String) -> Result<(), Stop> {
        let left = self.left(alloc, row)?;
        left.put(out)?;
        self.take(alloc, left, out)
    }

    // Keeps what a crash leaves of what a run left.
    fn take(&mut self, alloc: Global, left: Left, out: &mut String) -> Result<(), Stop> {
        self.calls = left.disk.calls();
        self.counts = left.counts;
        self.keep(alloc, left.disk, out)?;
        self.forget_faults(alloc);
        Ok(())
    }

    fn keep(&mut self, alloc: Global, disk: MemDisk, out: &mut String) -> Result<(), Stop> {
        match files_of(alloc, disk.crash(&self.picks))? {
            Some(files) => self.files = files,
            None => out.push_str("\n    no image")?,
        }
        Ok(())
    }

    fn forget_faults(&mut self, alloc: Global) {
        self.ends.reads_fail.clear();
        self.ends.writes_fail.clear();
        self.ends.moments.clear();
        self.ends.script = Script::new(alloc);
        self.links = Links::new(alloc);
        self.disk_fails.clear();
        self.picks.clear();
    }
}

// Adds the bytes that a text stands for.
fn add_bytes(alloc: Global, requests: &mut Vec<u8>, text: &str) -> Result<(), Stop> {
    let bytes = unescaped(alloc, text.as_bytes())?;
    requests.extend_from_slice(&bytes)?;
    Ok(())
}

fn words_of(alloc: Global, row: &Row) -> Result<Vec<String>, Stop> {
    let mut words = Vec::new(alloc);
    for place in 1..row.len() {
        words.push(String::from_str(alloc, row.text(place)?)?)?;
    }
    Ok(words)
}

impl Rows for Sessions {
    fn answer(
        &mut self,
        alloc: Global,
        line: &str,
        row: &Row,
        out: &mut String,
    ) -> Result<(), Stop> {
        match row.text(0)? {
            "store" => self.read_files(alloc, row),
            "new" => self.forget_files(alloc),
            "requests" => self.forget_requests(),
            "piece" => self.add_piece(alloc),
            "link" => self.add_link(alloc),
            "order" => self.links.set_order(alloc, row),
            ">" | ">|" => self.add_request(alloc, line),
            "fail" => self.set_failing(alloc, row),
            "moments" => self.set_moments(alloc, row),
            "children" => self.set_script(alloc, row),
            "crash" => self.set_picks(alloc, row),
            "run" => self.run(alloc, row, out),
            "calls" => self.put_calls(out),
            "counts" => self.put_counts(out),
            "files" => self.put_files(out),
            "stops" => self.put_stops(alloc, row, out),
            _ => Err(Stop::NoSuchRow),
        }
    }
}
