//! What `mantad --help` and `mantad --version` print. The script `./mantad` prints both from this file.

/// The text of `mantad --help`, in which `\\` is the only escape.
const HELP: &str = "\
mantad: a verified object store for one account, over HTTP

Usage:
  mantad serve   --login NAME --store DIR --listen HOST:PORT [OPTIONS]
  mantad session --login NAME --store DIR [OPTIONS]   HTTP requests on stdin, replies on stdout
  mantad drill N --store DIR [--at SECONDS]           self-test in a new store: N objects (1-10000), one job
  mantad build                                        prove and compile (./mantad, in a source checkout)
  mantad help | -h | --help | --version

Required:
  --login NAME         account name: 1-64 letters, digits, '_' or '-'; always the same for one store
  --store DIR          store directory; created if it does not exist
  --listen HOST:PORT   serve: address to listen on; IPv6 in brackets; port 0 picks a free one

Options:
  --connections N      serve: exit with 0 after N connections, 1-1000000  [default: 18446744073709551615]
  --log-limit BYTES    largest size of the log, 9-68719476736             [default: 1073741824]
  --slots N            tasks that run at once, 1-64                       [default: 4]
  --work DIR           scratch directory for tasks                        [default: STORE/tasks]
  --helper PROGRAM     marlin_helper, by name or absolute path            [default: beside mantad, then PATH]
  --launcher PROGRAM   runs tasks on other machines, by name or path      [default: tasks run here]
  --at SECONDS         fixed clock (for tests), Unix time, 0-253402300799 [default: the system's clock]

Each option may be given once, in any order. A drill takes --store and --at alone.

Exit status:
  0  done; a server has served its connections     8  out of memory
  1  usage error                                   9  log full: a task's result cannot be recorded
  2  unreadable log                               10  cannot listen, or the listener failed
  3  cannot read stdin                            11  stdin ended in the middle of a request
  4  cannot write stdout                          12  stdin is not a request, or it is too large
  5  I/O error in the store, or store in use      13  too many requests in one session
  6  tasks could not be started                   14  drill: the store is not empty
  7  some tasks have not finished: restart       126  ./mantad: build failed

Examples:
  mantad serve --login me --store /srv/store --listen localhost:8080
  printf 'HEAD /me/stor HTTP/1.1\\r\\n\\r\\n' | mantad session --login me --store /srv/store

WARNING: anyone who can reach the port can run commands as this user (docs/operator/OPERATING.md).
";

/// The text of `mantad --version`.
const VERSION: &str = "\
mantad 0.1.0
";

/// The status where a text can't be written.
const NOT_WRITTEN: u8 = 4;

fn is_help(word: &str) -> bool {
    word == "-h" || word == "--help"
}

fn is_command(word: &str) -> bool {
    word == "session" || word == "serve" || word == "drill"
}

// The text that is asked for, if one is.
fn text_asked(words: &[String]) -> Option<&'static str> {
    match words {
        [first, ..] if first.as_str() == "--version" => Some(VERSION),
        [first, ..] if first.as_str() == "help" || is_help(first.as_str()) => Some(HELP),
        [command, second, ..] if is_command(command.as_str()) && is_help(second.as_str()) => {
            Some(HELP)
        }
        _ => None,
    }
}

/// Prints the text that is asked for, and gives the status then; `None` where none is.
pub(crate) fn print_help(rt: HostRuntime, words: &[String]) -> Option<u8> {
    let text = text_asked(words)?;
    match print!(rt; "{text}") {
        Ok(()) => Some(0),
        Err(_) => Some(NOT_WRITTEN),
    }
}
