//! `ask_rows`: the words of a client and the heads of their requests, row by row. Its stored run is their table of cases.
#![tactic(auto)]

use mt_ask::{Ask, Bytes, PageAsk, Path, Words, read_words, request_head, url_of};
use mt_rows::{Row, Rows, Stop, print_table, put_escaped, put_lines};
use std::alloc::{AllocError, Global};
use std::io;

// The words of a client, which stand in a row from a place on.
fn words(alloc: Global, row: &Row, from: usize) -> Result<Vec<String>, Stop> {
    let mut words = Vec::new(alloc);
    for place in from..row.len() {
        words.push(String::from_str(alloc, row.text(place)?)?)?;
    }
    Ok(words)
}

// A command and the text of its path.
fn put_path(
    alloc: Global,
    login: &str,
    name: &str,
    path: &Path,
    out: &mut String,
) -> Result<(), Stop> {
    let text = path.print(alloc, login)?;
    write!(out, " {name} ")?;
    put_escaped(out, text.as_bytes())?;
    Ok(())
}

fn put_link(
    alloc: Global,
    login: &str,
    source: &Path,
    path: &Path,
    out: &mut String,
) -> Result<(), Stop> {
    put_path(alloc, login, "link", source, out)?;
    put_path(alloc, login, "at", path, out)
}

fn put_number(name: &str, number: u64, out: &mut String) -> Result<(), Stop> {
    write!(out, " {name} {number}")?;
    Ok(())
}

fn put_ask(alloc: Global, login: &str, ask: &Ask, out: &mut String) -> Result<(), Stop> {
    match ask {
        Ask::List(path) => put_path(alloc, login, "list", path, out),
        Ask::Find(path) => put_path(alloc, login, "find", path, out),
        Ask::Get(path) => put_path(alloc, login, "get", path, out),
        Ask::Put(path) => put_path(alloc, login, "put", path, out),
        Ask::MakeDirectory(path) => put_path(alloc, login, "make", path, out),
        Ask::Remove(path) => put_path(alloc, login, "remove", path, out),
        Ask::Link { source, path } => put_link(alloc, login, source, path, out),
        Ask::CreateJob => Ok(out.push_str(" create")?),
        Ask::AddInputs(number) => put_number("add", *number, out),
        Ask::EndInput(number) => put_number("end", *number, out),
        Ask::CancelJob(number) => put_number("cancel", *number, out),
        Ask::JobStatus(number) => put_number("status", *number, out),
        Ask::JobOutputs(number) => put_number("outputs", *number, out),
    }
}

// Whether the source is the body, and whether there are pages.
fn marks(ask: &Ask) -> &'static str {
    if ask.carries_source() {
        " < source"
    } else if ask.is_listing() {
        " by pages"
    } else {
        ""
    }
}

fn put_read(alloc: Global, words: &Words, out: &mut String) -> Result<(), Stop> {
    put_escaped(out, words.url.as_bytes())?;
    write!(out, " {}", words.login.as_str())?;
    put_ask(alloc, words.login.as_str(), &words.ask, out)?;
    out.push_str(marks(&words.ask))?;
    Ok(())
}

// What words are read as.
fn put_words(alloc: Global, row: &Row, out: &mut String) -> Result<(), Stop> {
    let words = words(alloc, row, 1)?;
    match read_words(alloc, &words)? {
        Some(words) => put_read(alloc, &words, out),
        None => Ok(out.push_str("usage")?),
    }
}

// Where a link is to be made.
fn put_url(alloc: Global, row: &Row, out: &mut String) -> Result<(), Stop> {
    let words = words(alloc, row, 1)?;
    match url_of(alloc, &words)? {
        Some(url) => {
            out.push('[')?;
            put_escaped(out, url.as_bytes())?;
            out.push(']')?;
        }
        None => out.push_str("none")?,
    }
    Ok(())
}

// The head of the request that words ask for, if they ask for one.
fn head_of(
    alloc: Global,
    words: &[String],
    page: Option<&PageAsk>,
    len: u64,
) -> Result<Option<Bytes>, AllocError> {
    match read_words(alloc, words)? {
        Some(words) => Ok(Some(request_head(alloc, &words, page, len)?)),
        None => Ok(None),
    }
}

fn put_bytes(head: Option<Bytes>, out: &mut String) -> Result<(), Stop> {
    match head {
        Some(bytes) => {
            write!(out, "{} bytes", bytes.len())?;
            put_lines(out, bytes.as_slice())?;
        }
        None => out.push_str("usage")?,
    }
    Ok(())
}

// The head of a request, whose source has so many bytes.
fn put_head(alloc: Global, row: &Row, out: &mut String) -> Result<(), Stop> {
    let words = words(alloc, row, 2)?;
    let head = head_of(alloc, &words, None, row.number(1)?)?;
    put_bytes(head, out)
}

// A page of a directory of the login `l`, from a name on or the first.
fn page_of(alloc: Global, name: &[u8], marker: Option<Bytes>) -> Result<PageAsk, Stop> {
    match Path::plain(alloc, "l", name) {
        Ok(directory) => Ok(PageAsk { directory, marker }),
        Err(_) => Err(Stop::NoSuchRow),
    }
}

fn put_asked(alloc: Global, words: &[String], page: PageAsk, out: &mut String) -> Result<(), Stop> {
    let head = head_of(alloc, words, Some(&page), 0)?;
    put_bytes(head, out)
}

// The head of a request for the first page of another directory.
fn put_first(alloc: Global, row: &Row, out: &mut String) -> Result<(), Stop> {
    let words = words(alloc, row, 2)?;
    let page = page_of(alloc, row.bytes(1)?, None)?;
    put_asked(alloc, &words, page, out)
}

// The head of a request for a later one.
fn put_page(alloc: Global, row: &Row, out: &mut String) -> Result<(), Stop> {
    let words = words(alloc, row, 3)?;
    let marker = Bytes::from_slice(alloc, row.bytes(2)?)?;
    let page = page_of(alloc, row.bytes(1)?, Some(marker))?;
    put_asked(alloc, &words, page, out)
}

#[derive(Drop)]
struct Asks;

impl Rows for Asks {
    fn answer(
        &mut self,
        alloc: Global,
        _line: &str,
        row: &Row,
        out: &mut String,
    ) -> Result<(), Stop> {
        match row.text(0)? {
            "words" => put_words(alloc, row, out),
            "url" => put_url(alloc, row, out),
            "head" => put_head(alloc, row, out),
            "first" => put_first(alloc, row, out),
            "page" => put_page(alloc, row, out),
            _ => Err(Stop::NoSuchRow),
        }
    }
}

fn main(rt: HostRuntime) -> io::Result<()> {
    print_table(&rt, &mut Asks)
}
