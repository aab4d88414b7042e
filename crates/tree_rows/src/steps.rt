//! A tree, and the rows that change it.
use crate::deciding;
use crate::words::{conditions_from, object, path_at};
use mt_rows::{Row, Rows, Stop};
use mt_store::may_put;
use mt_tree::Tree;
use std::alloc::{AllocError, Global};

/// So many objects are put at once at most.
const MOST_OBJECTS: u64 = 100_000;

/// A tree, whose bodies are numbers.
#[derive(Drop)]
pub struct Steps {
    tree: Tree<u64>,
}

impl Steps {
    /// The three roots.
    pub fn new(alloc: Global) -> Result<Steps, AllocError> {
        Ok(Steps {
            tree: Tree::new(alloc)?,
        })
    }

    // `new`: the three roots again.
    fn clear(&mut self, alloc: Global) -> Result<(), Stop> {
        self.tree = Tree::new(alloc)?;
        Ok(())
    }

    // `put PATH NUMBER NAME VALUE ..`: an object, under conditions.
    fn put(&mut self, alloc: Global, row: &Row, out: &mut String) -> Result<(), Stop> {
        let number = row.number(2)?;
        let path = path_at(alloc, row, 1)?;
        let conditions = conditions_from(alloc, row, 3)?;
        match may_put(&self.tree, &path, &conditions) {
            Ok(()) => {
                self.tree.put_object(path, object(alloc, number)?)?;
                Ok(out.push_str("Ok")?)
            }
            Err(error) => Ok(write!(out, "{error:?}")?),
        }
    }

    // `try PATH NUMBER`: an object, judged by the call that puts it.
    fn try_put(&mut self, alloc: Global, row: &Row, out: &mut String) -> Result<(), Stop> {
        let number = row.number(2)?;
        let path = path_at(alloc, row, 1)?;
        match self.tree.put_if_allowed(path, object(alloc, number)?)? {
            Ok(()) => Ok(out.push_str("Ok")?),
            Err(refusal) => Ok(write!(out, "{refusal:?}")?),
        }
    }

    // `directory PATH MOMENT`
    fn make(&mut self, alloc: Global, row: &Row, out: &mut String) -> Result<(), Stop> {
        let moment = row.number(2)?;
        let path = path_at(alloc, row, 1)?;
        match self.tree.may_make_directory(&path) {
            Ok(()) => {
                self.tree.make_directory(path, moment)?;
                Ok(out.push_str("Ok")?)
            }
            Err(refusal) => Ok(write!(out, "{refusal:?}")?),
        }
    }

    // `remove PATH`
    fn remove(&mut self, alloc: Global, row: &Row, out: &mut String) -> Result<(), Stop> {
        let path = path_at(alloc, row, 1)?;
        match self.tree.may_remove(&path) {
            Ok(()) => {
                self.tree.remove(&path);
                Ok(out.push_str("Ok")?)
            }
            Err(refusal) => Ok(write!(out, "{refusal:?}")?),
        }
    }

    // `objects PATH COUNT`: the objects `o0`, `o1` and so on below a path.
    fn put_many(&mut self, alloc: Global, row: &Row) -> Result<(), Stop> {
        let dir = path_at(alloc, row, 1)?;
        for number in 0..row.number(2)?.min(MOST_OBJECTS) {
            let name = format!(in alloc; "o{number}")?;
            let Ok(path) = dir.child(alloc, name.as_bytes()) else {
                return Err(Stop::NoSuchRow);
            };
            if self.tree.may_put(&path).is_ok() {
                self.tree.put_object(path, object(alloc, number)?)?;
            }
        }
        Ok(())
    }
}

impl Rows for Steps {
    fn answer(
        &mut self,
        alloc: Global,
        _line: &str,
        row: &Row,
        out: &mut String,
    ) -> Result<(), Stop> {
        match row.text(0)? {
            "new" => self.clear(alloc),
            "put" => self.put(alloc, row, out),
            "try" => self.try_put(alloc, row, out),
            "directory" => self.make(alloc, row, out),
            "remove" => self.remove(alloc, row, out),
            "objects" => self.put_many(alloc, row),
            _ => deciding::answer(alloc, &self.tree, row, out),
        }
    }
}
