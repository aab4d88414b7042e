//! The words of the command line are read.
ghost use Rattle.std.specs.Prelude.{◌≡◌, IfOk, IfSome, map, string_bytes};
ghost use Rattle.std.specs.List.{list_all};
ghost use Rattle.mt_ask.specs.Words.{IsWords, ask_of, at_path, is_address, is_address_byte, job_of, link_of, on_job, on_path, path_in, url_of, words_of};

use crate::ask::{Ask, Words};
use mt_base::Text;
use mt_ident::uuid_number;
use mt_path::{Path, PathError, is_login};
use std::alloc::{AllocError, Global};

/// The kind of the identifiers of jobs.
const JOB: u8 = 2;

/// The control character that stands behind the printable ones.
const DELETE: u8 = 127;

fn all_visible(word: &[u8]) -> bool
    ensures { result ≡ list_all is_address_byte word.now }
{
    word.iter().all(|byte| *byte > b' ' && *byte != DELETE)
}

// Whether a word stands as a host and its port.
fn is_address(word: &[u8]) -> bool
    ensures { result ≡ is_address word.now }
{
    if word.is_empty() {
        return false;
    }
    all_visible(word)
}

// The path that a word names, if it names one of this account.
fn path_in(alloc: Global, login: &str, word: &str) -> Result<Option<Path>, AllocError>
    ensures { IfOk result (λ p. p ≡ path_in login.now word.now) }
{
    match Path::plain(alloc, login, word.as_bytes()) {
        Ok(path) => Ok(Some(path)),
        Err(PathError::Memory) => Err(AllocError),
        Err(_) => Ok(None),
    }
}

// What a command asks for at a path, if it is one that has a path alone.
fn on_path(command: &str, path: Path) -> Option<Ask>
    ensures { result ≡ on_path command.now path }
{
    match command {
        "mls" => Some(Ask::List(path)),
        "mfind" => Some(Ask::Find(path)),
        "mget" => Some(Ask::Get(path)),
        "mput" => Some(Ask::Put(path)),
        "mmkdir" => Some(Ask::MakeDirectory(path)),
        "mrm" => Some(Ask::Remove(path)),
        _ => None,
    }
}

// `PATH`.
fn at_path(
    alloc: Global,
    command: &str,
    login: &str,
    words: &[String],
) -> Result<Option<Ask>, AllocError>
    ensures { IfOk result (λ a. a ≡ at_path command.now login.now (map string_bytes words.now)) }
{
    match words {
        [word] => match path_in(alloc, login, word.as_str())? {
            Some(path) => Ok(on_path(command, path)),
            None => Ok(None),
        },
        _ => Ok(None),
    }
}

// `FROM PATH`.
fn link_of(alloc: Global, login: &str, words: &[String]) -> Result<Option<Ask>, AllocError>
    ensures { IfOk result (λ a. a ≡ link_of login.now (map string_bytes words.now)) }
{
    let [from, word] = words else {
        return Ok(None);
    };
    let Some(source) = path_in(alloc, login, from.as_str())? else {
        return Ok(None);
    };
    match path_in(alloc, login, word.as_str())? {
        Some(path) => Ok(Some(Ask::Link { source, path })),
        None => Ok(None),
    }
}

// What a verb asks of the job with this number.
fn on_job(verb: &str, number: u64) -> Option<Ask>
    ensures { result ≡ on_job verb.now number }
{
    match verb {
        "add" => Some(Ask::AddInputs(number)),
        "end" => Some(Ask::EndInput(number)),
        "cancel" => Some(Ask::CancelJob(number)),
        "get" => Some(Ask::JobStatus(number)),
        "out" => Some(Ask::JobOutputs(number)),
        _ => None,
    }
}

// `create`, or another verb and `ID`.
fn job_of(words: &[String]) -> Option<Ask>
    ensures { result ≡ job_of (map string_bytes words.now) }
{
    match words {
        [verb] if verb.as_str() == "create" => Some(Ask::CreateJob),
        [verb, id] => match uuid_number(JOB, id.as_bytes()) {
            Some(number) => on_job(verb.as_str(), number),
            None => None,
        },
        _ => None,
    }
}

// A command and its arguments.
fn ask_of(
    alloc: Global,
    login: &str,
    command: &str,
    words: &[String],
) -> Result<Option<Ask>, AllocError>
    ensures { IfOk result (λ a. a ≡ ask_of login.now command.now (map string_bytes words.now)) }
{
    match command {
        "mln" => link_of(alloc, login, words),
        "mjob" => Ok(job_of(words)),
        _ => at_path(alloc, command, login, words),
    }
}

// What words ask for, if they are of the grammar.
fn words_in(alloc: Global, words: &[String]) -> Result<Option<Words>, AllocError>
    ensures { IfOk result (λ w. w ≡ words_of (map string_bytes words.now)) }
{
    let [first, url, second, login, command, arguments @ ..] = words else {
        return Ok(None);
    };
    if first.as_str() != "--url" || !is_address(url.as_bytes()) {
        return Ok(None);
    }
    if second.as_str() != "--login" || !is_login(login.as_bytes()) {
        return Ok(None);
    }
    match ask_of(alloc, login.as_str(), command.as_str(), arguments)? {
        Some(ask) => Ok(Some(Words {
            url: Text::from_str(alloc, url.as_str())?,
            login: Text::from_str(alloc, login.as_str())?,
            ask,
        })),
        None => Ok(None),
    }
}

/// What the words of a client ask for; none exactly where they are not of this grammar:
///
/// `--url HOST:PORT --login LOGIN COMMAND`, where COMMAND is `mls PATH`, `mfind PATH`, `mget PATH`, `mput PATH`, `mmkdir PATH`,
/// `mrm PATH`, `mln FROM PATH`, `mjob create`, or one of `mjob add ID`, `mjob end ID`, `mjob cancel ID`, `mjob get ID` and
/// `mjob out ID`.
///
/// HOST:PORT is not empty, and has neither blanks nor control characters, so that it can stand as a `Host` (RFC 9110, section 7.2).
/// A PATH is one of this account, as it is printed, or behind `~~`; an ID is the text of a job's identifier. The answer is an error
/// for want of memory alone.
pub fn read_words(alloc: Global, words: &[String]) -> Result<Option<Words>, AllocError>
    ensures exact { IfOk result (λ w. w ≡ words_of (map string_bytes words.now)) }
    ensures fine { IfOk result (λ w. IfSome w IsWords) }
{
    words_in(alloc, words)
}

/// The word behind a first word `--url`, whatever it and the others are: where a link is to be made before the words are judged.
/// None exactly where the first word isn't `--url`, or there is no second. The answer is an error for want of memory alone.
pub fn url_of(alloc: Global, words: &[String]) -> Result<Option<Text>, AllocError>
    ensures exact { IfOk result (λ url. url ≡ url_of (map string_bytes words.now)) }
{
    match words {
        [first, url, ..] if first.as_str() == "--url" => {
            Ok(Some(Text::from_str(alloc, url.as_str())?))
        }
        _ => Ok(None),
    }
}
