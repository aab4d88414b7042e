//! What is to be done.
use crate::outcome::Fault;

/// In which order the objects are put.
#[derive(Clone, Copy, PartialEq, Eq)]
pub(crate) enum Order {
    /// By their paths.
    Rising,
    /// As a generator of numbers has it.
    Mixed,
}

/// The objects that are measured.
#[derive(Clone, Copy)]
pub(crate) struct Load {
    pub rows: u64,
    pub order: Order,
}

impl Load {
    /// Reads the words of the program.
    pub(crate) fn read(words: &[String]) -> Result<Load, Fault> {
        let [rows, order] = words else {
            return Err(Fault::Usage);
        };
        Ok(Load {
            rows: number_of(rows.as_str())?,
            order: order_of(order.as_str())?,
        })
    }
}

/// What is done, and how often, or with how much.
#[derive(Clone, Copy)]
pub(crate) enum Work {
    /// The objects are put.
    Puts,
    /// Paths of so many objects are made, and kept.
    Paths(u64),
    /// So often the object of each of these paths is got.
    Gets(u64),
    /// So often the children of each directory are counted.
    Counts(u64),
    /// So often a page of 1,000 rows of each directory is taken.
    Pages(u64),
    /// A text of so many bytes is made, and kept.
    Blank(u64),
    /// This text is read as a path, by each of the two readers.
    Text,
}

/// No number is more than this.
const MOST: u64 = 1 << 30;

/// Reads a line: a word, and a number where one belongs to it.
pub(crate) fn work_of(line: &str) -> Result<Work, Fault> {
    match line.split_once(' ') {
        None => match line {
            "puts" => Ok(Work::Puts),
            "text" => Ok(Work::Text),
            _ => Err(Fault::Usage),
        },
        Some((word, number)) => numbered(word, number_of(number)?),
    }
}

fn numbered(word: &str, n: u64) -> Result<Work, Fault> {
    match word {
        "paths" => Ok(Work::Paths(n)),
        "gets" => Ok(Work::Gets(n)),
        "counts" => Ok(Work::Counts(n)),
        "pages" => Ok(Work::Pages(n)),
        "blank" => Ok(Work::Blank(n)),
        _ => Err(Fault::Usage),
    }
}

fn number_of(word: &str) -> Result<u64, Fault> {
    match word.parse::<u64>() {
        Ok(n) if n <= MOST => Ok(n),
        _ => Err(Fault::Usage),
    }
}

fn order_of(word: &str) -> Result<Order, Fault> {
    match word {
        "rising" => Ok(Order::Rising),
        "mixed" => Ok(Order::Mixed),
        _ => Err(Fault::Usage),
    }
}
