//! `drill_rows`: drills in memory, and the words that ask for one, row by row. Its stored run is their table of cases.
//!
//! - `store`: the files, a drill over them, and what a session reads of them.
#![tactic(auto)]

mod store;

use mt_drill::{DrillWords, WordsError};
use mt_rows::{Row, Rows, Stop, print_table, put_escaped};
use std::alloc::Global;
use std::io;
use store::Store;

// The words of a row, behind its first.
fn words_of(alloc: Global, row: &Row) -> Result<Vec<String>, Stop> {
    let mut words = Vec::new(alloc);
    for place in 1..row.len() {
        words.push(String::from_str(alloc, row.text(place)?)?)?;
    }
    Ok(words)
}

// What words ask for.
fn put_words(alloc: Global, row: &Row, out: &mut String) -> Result<(), Stop> {
    let words = words_of(alloc, row)?;
    match DrillWords::read(alloc, &words) {
        Ok(words) => {
            write!(out, "{} objects, store ", words.count)?;
            put_escaped(out, words.store.as_bytes())?;
            if let Some(moment) = words.at {
                write!(out, ", at {moment}")?;
            }
        }
        Err(WordsError::Words(fault)) => write!(out, "{fault:?}")?,
        Err(WordsError::Memory) => return Err(Stop::Memory),
    }
    Ok(())
}

impl Rows for Store {
    fn answer(
        &mut self,
        alloc: Global,
        line: &str,
        row: &Row,
        out: &mut String,
    ) -> Result<(), Stop> {
        match row.text(0)? {
            "words" => put_words(alloc, row, out),
            "new" => self.forget(alloc),
            "store" => self.read(alloc, row),
            "fail" => self.set_failing(alloc, row),
            "drill" => self.drill(alloc, row, out),
            "ask" => self.ask(alloc, line, out),
            _ => Err(Stop::NoSuchRow),
        }
    }
}

fn main(rt: HostRuntime) -> io::Result<()> {
    print_table(&rt, &mut Store::new(rt.alloc()))
}
