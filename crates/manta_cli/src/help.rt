//! What `manta --help` and `manta --version` print. The script `./manta` prints both from this file.

/// The text of `manta --help`, in which `\\` is the only escape.
const HELP: &str = "\
manta: a client of a mantad store

Usage:
  manta [--url HOST:PORT --login NAME] COMMAND
  manta build                            prove and compile (./manta, in a source checkout)
  manta help | -h | --help | --version

Commands (a PATH is ~~/stor/logs/a or /NAME/stor/logs/a):
  mls PATH           list a directory, one name a line; directories end with '/'
  mfind PATH         list the paths of everything below a directory
  mget PATH          write an object to stdout
  mput PATH          store stdin as an object, at most 16777216 bytes
  mmkdir PATH        make a directory
  mrm PATH           delete an object, or an empty directory
  mln FROM PATH      give the object FROM a second path
  mjob create        create a job from the JSON document on stdin; prints its ID
  mjob add ID        add the paths on stdin, one a line, as inputs of a job
  mjob end ID        end the input of a job
  mjob cancel ID     cancel a job
  mjob get ID        print the status of a job
  mjob out ID        print the paths of a job's outputs

Options (before the command):
  --url HOST:PORT    address of the store    [default of ./manta: $MANTA_URL]
  --login NAME       account name            [default of ./manta: $MANTA_USER]

Exit status (each above 0 with a line on stderr):
  0  done                                  6  invalid reply, or connection closed early
  1  usage error                           7  listing incomplete: more than 1000000 requests
  2  refused; the reason is on stdout      8  out of memory
  3  cannot read stdin                     9  input too large
  4  cannot write stdout                 126  ./manta: build failed
  5  connection failed

Examples:
  export MANTA_URL=localhost:8080 MANTA_USER=me
  ./manta mmkdir ~~/stor/logs
  ./manta mput ~~/stor/logs/a < access.log
  ./manta mget ~~/stor/logs/a | grep -c GET
  ./manta mjob create < job.json
";

/// The text of `manta --version`.
const VERSION: &str = "\
manta 0.1.0
";

/// The status where a text can't be written.
const NOT_WRITTEN: u8 = 4;

fn is_help(word: &str) -> bool {
    word == "-h" || word == "--help"
}

// The text that is asked for, if one is.
fn text_asked(words: &[String]) -> Option<&'static str> {
    match words {
        [first, ..] if first.as_str() == "--version" => Some(VERSION),
        [first, ..] if first.as_str() == "help" || is_help(first.as_str()) => Some(HELP),
        _ => None,
    }
}

/// Prints the text that is asked for, and gives the status then; `None` where none is.
pub(crate) fn print_help(rt: HostRuntime, words: &[String]) -> Option<u8> {
    let text = text_asked(words)?;
    match print!(rt; "{text}") {
        Ok(()) => Some(0),
        Err(_) => Some(NOT_WRITTEN),
    }
}
