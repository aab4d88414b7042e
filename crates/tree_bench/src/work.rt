//! What is done with the rows.
use crate::outcome::Fault;
use crate::rows::{directories, directory_at, next_mixed, path_at, put_all};
use crate::words::{Load, Work};
use mt_path::Path;
use mt_tree::{Entry, Tree};
use mt_types::Body;
use std::alloc::Global;

/// The rows of a page.
const PAGE: usize = 1_000;

/// A text that is read as a path begins so.
const ROOT: &[u8] = b"/l/stor";

/// What is measured.
#[derive(Drop)]
pub(crate) struct Bench {
    load: Load,
    tree: Tree<Body>,
    /// The paths that are got.
    paths: Vec<Path>,
    /// The text that is read as a path.
    text: Vec<u8>,
}

impl Bench {
    /// The directories of the objects, and none of these.
    pub(crate) fn new(alloc: Global, load: Load) -> Result<Bench, Fault> {
        Ok(Bench {
            load,
            tree: directories(alloc, load.rows)?,
            paths: Vec::new(alloc),
            text: Vec::new(alloc),
        })
    }

    /// Does what a line asks for. What it found, added up.
    pub(crate) fn do_work(&mut self, alloc: Global, work: Work) -> Result<u64, Fault> {
        match work {
            Work::Puts => {
                put_all(alloc, &mut self.tree, self.load)?;
                Ok(self.load.rows)
            }
            Work::Paths(count) => self.make_paths(alloc, count),
            Work::Gets(times) => Ok(self.gets(times)),
            Work::Counts(times) => self.counts(alloc, times),
            Work::Pages(times) => self.pages(alloc, times),
            Work::Blank(bytes) => self.make_text(alloc, bytes),
            Work::Text => self.read_text(alloc),
        }
    }

    // Makes paths of objects in a mixed order. Their names, counted.
    fn make_paths(&mut self, alloc: Global, count: u64) -> Result<u64, Fault> {
        let mut paths = Vec::new(alloc);
        let mut names: u64 = 0;
        let mut place = 0;
        for _ in 0..count {
            place = next_mixed(place);
            let at = if self.load.rows == 0 {
                0
            } else {
                place % self.load.rows
            };
            let path = path_at(alloc, at)?;
            names = names.wrapping_add(path.len() as u64);
            paths.push(path)?;
        }
        self.paths = paths;
        Ok(names)
    }

    // Gets the object of each path. Their numbers, added up.
    fn gets(&self, times: u64) -> u64 {
        let mut sum: u64 = 0;
        for _ in 0..times {
            sum = sum.wrapping_add(self.numbers());
        }
        sum
    }

    fn numbers(&self) -> u64 {
        let mut sum: u64 = 0;
        for path in &self.paths {
            if let Some(Entry::Object(object)) = self.tree.get(path) {
                sum = sum.wrapping_add(object.number);
            }
        }
        sum
    }

    // Counts the children of each directory.
    fn counts(&self, alloc: Global, times: u64) -> Result<u64, Fault> {
        let dirs = self.directories(alloc)?;
        let mut sum: u64 = 0;
        for _ in 0..times {
            for dir in &dirs {
                sum = sum.wrapping_add(self.tree.count(dir));
            }
        }
        Ok(sum)
    }

    // Takes a page of each directory. The bytes of its names, added up.
    fn pages(&self, alloc: Global, times: u64) -> Result<u64, Fault> {
        let dirs = self.directories(alloc)?;
        let mut sum: u64 = 0;
        for _ in 0..times {
            for dir in &dirs {
                sum = sum.wrapping_add(self.page(alloc, dir)?);
            }
        }
        Ok(sum)
    }

    fn page(&self, alloc: Global, dir: &Path) -> Result<u64, Fault> {
        let mut sum: u64 = 0;
        for listed in &self.tree.page(alloc, dir, b"", PAGE)? {
            sum = sum.wrapping_add(listed.name.len() as u64);
        }
        Ok(sum)
    }

    // The paths of the directories of objects.
    fn directories(&self, alloc: Global) -> Result<Vec<Path>, Fault> {
        let mut dirs = Vec::new(alloc);
        for n in 0..self.load.rows / 1_000 {
            dirs.push(directory_at(alloc, n.wrapping_mul(1_000))?)?;
        }
        Ok(dirs)
    }

    // Makes a text of short names. Its bytes, counted.
    fn make_text(&mut self, alloc: Global, bytes: u64) -> Result<u64, Fault> {
        let mut text = Vec::with_capacity(alloc, bytes as usize)?;
        text.extend_from_slice(ROOT)?;
        for _ in 0..bytes.saturating_sub(ROOT.len() as u64) / 2 {
            text.extend_from_slice(b"/a")?;
        }
        self.text = text;
        Ok(self.text.len() as u64)
    }

    // Reads the text as a path, by both readers. How many refuse it, as too long.
    fn read_text(&self, alloc: Global) -> Result<u64, Fault> {
        let mut refused = 0;
        if Path::parse(alloc, "l", &self.text).is_err() {
            refused += 1;
        }
        if Path::plain(alloc, "l", &self.text).is_err() {
            refused += 1;
        }
        Ok(refused)
    }
}
