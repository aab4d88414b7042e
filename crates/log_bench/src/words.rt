//! The words of the command line.

/// So many records, each of so many bytes.
#[derive(Clone, Copy)]
pub(crate) struct Load {
    pub(crate) count: u64,
    pub(crate) size: u32,
}

/// What is done to a log.
#[derive(Clone, Copy)]
pub(crate) enum Work {
    /// It is opened.
    Open,
    /// It is opened, and each record is appended.
    Append(Load),
    /// It is opened, and gets all records in one run.
    Run(Load),
}

/// What the words ask for.
#[derive(Clone, Copy)]
pub(crate) enum Command<'a> {
    /// Work on the log of a folder, which is made where it is missing.
    OnLog { folder: &'a str, work: Work },
    /// The payload of each record is digested, and nothing is written.
    Digest(Load),
}

impl Load {
    fn read(count: &str, size: &str) -> Option<Load> {
        let count = count.parse::<u64>().ok()?;
        let size = size.parse::<u32>().ok()?;
        Some(Load { count, size })
    }
}

impl<'a> Command<'a> {
    /// What these words ask for; None where they are not of the grammar.
    pub(crate) fn read(words: &'a [String]) -> Option<Command<'a>> {
        match words {
            [word, folder] => read_open(word.as_str(), folder.as_str()),
            [word, count, size] => read_digest(word.as_str(), count.as_str(), size.as_str()),
            [word, folder, count, size] => {
                let load = Load::read(count.as_str(), size.as_str())?;
                read_load(word.as_str(), folder.as_str(), load)
            }
            _ => None,
        }
    }
}

fn read_open<'a>(word: &str, folder: &'a str) -> Option<Command<'a>> {
    if word != "open" {
        return None;
    }
    Some(Command::OnLog {
        folder,
        work: Work::Open,
    })
}

fn read_digest<'a>(word: &str, count: &str, size: &str) -> Option<Command<'a>> {
    if word != "digest" {
        return None;
    }
    Some(Command::Digest(Load::read(count, size)?))
}

fn read_load<'a>(word: &str, folder: &'a str, load: Load) -> Option<Command<'a>> {
    let work = if word == "append" {
        Work::Append(load)
    } else if word == "run" {
        Work::Run(load)
    } else {
        return None;
    };
    Some(Command::OnLog { folder, work })
}
