//! What the program says on standard error: the word that is wrong, and the cause of each status above 2.
use mt_adapters::Failure;
use mt_children::TaskFault;
use mt_drill::WordsFault;
use mt_settings::UsageFault;
use std::io;

// A line. Nothing is to be done where it can't be written.
fn say(rt: &HostRuntime, line: &str) {
    let _ = eprintln!(rt; "mantad: {line}");
}

/// Says why the store ended with a status above 2, but for those of the door and of tasks.
pub(crate) fn tell_status(rt: &HostRuntime, status: u8, store: &str, failure: Option<&Failure>) {
    match status {
        0 | 1 | 2 | 6 | 7 | 9 | 10 | 14 => {}
        3 => say(rt, "cannot read standard input"),
        4 => say(rt, "cannot write to standard output"),
        5 => tell_disk(rt, store, failure),
        8 => say(rt, "out of memory"),
        11 => say(rt, "standard input ended in the middle of a request"),
        12 => say(
            rt,
            "standard input is not a valid request, or its body is too large",
        ),
        13 => say(
            rt,
            "limit of 16777216 requests per session reached; the rest of the input was not read",
        ),
        _ => {
            let _ = eprintln!(rt; "mantad: status {status}");
        }
    }
}

/// Says what is to be done where tasks have not ended, or the log has no room for what they made.
pub(crate) fn tell_tasks(rt: &HostRuntime, status: u8, failure: Option<&TaskFault>) {
    match (status, failure) {
        (6, Some(failure)) => {
            let _ = eprintln!(rt;
                "mantad: some tasks could not be started or checked: {failure}; fix this and restart"
            );
        }
        (6, None) => say(rt, "some tasks could not be started or checked"),
        (7, _) => say(
            rt,
            "some tasks have not finished; restart to run them again",
        ),
        (9, _) => say(
            rt,
            "log full: the end of a task or job cannot be recorded; restart with a larger --log-limit, or cancel the job in a session",
        ),
        _ => {}
    }
}

fn tell_disk(rt: &HostRuntime, store: &str, failure: Option<&Failure>) {
    match failure {
        Some(failure) => {
            let _ = eprintln!(rt; "mantad: store {store}: {failure}");
        }
        None => {
            let _ = eprintln!(rt; "mantad: store {store}: I/O error");
        }
    }
}

/// Says why the door gave no link.
pub(crate) fn tell_door(rt: &HostRuntime, listen: &str, failure: Option<&io::Error>) {
    let _ = match failure {
        Some(failure) => eprintln!(rt; "mantad: cannot listen on {listen}: {failure}"),
        None => eprintln!(rt; "mantad: cannot listen on {listen}"),
    };
}

/// Says which of the words behind `drill` is wrong.
pub(crate) fn tell_drill(rt: &HostRuntime, words: &[String], fault: WordsFault) {
    match (fault, words.first()) {
        (WordsFault::BadCount, Some(count)) => {
            let _ = eprintln!(rt;
                "mantad: invalid object count '{}': must be 1 to 10000",
                count.as_str()
            );
        }
        (WordsFault::NoCount | WordsFault::BadCount, _) => say(
            rt,
            "missing object count: must be 1 to 10000",
        ),
        (WordsFault::Usage(fault), _) => tell_fault(rt, words, fault),
    }
    tell_help(rt);
}

/// Says which word is wrong.
pub(crate) fn tell_usage(rt: &HostRuntime, words: &[String], fault: UsageFault) {
    tell_fault(rt, words, fault);
    tell_help(rt);
}

fn tell_help(rt: &HostRuntime) {
    say(rt, "try 'mantad --help'");
}

// What is asked of the value of an option.
fn rule_of(option: &str) -> &'static str {
    match option {
        "--login" => "must be 1 to 64 letters, digits, '_' or '-'",
        "--slots" => "must be 1 to 64",
        "--log-limit" => "must be 9 to 68719476736",
        "--connections" => "must be 1 to 1000000",
        "--at" => "must be 0 to 253402300799",
        "--helper" | "--launcher" => "must be a name without '/', or an absolute path",
        _ => "must not be empty",
    }
}

// A word behind the command.
fn word(words: &[String], place: usize) -> &str {
    match words.get(place.saturating_add(1)) {
        Some(word) => word.as_str(),
        None => "",
    }
}

fn tell_fault(rt: &HostRuntime, words: &[String], fault: UsageFault) {
    let _ = match fault {
        UsageFault::NoCommand => eprintln!(rt; "mantad: missing command"),
        UsageFault::UnknownCommand => match words.first() {
            Some(command) => eprintln!(rt; "mantad: unknown command '{}'", command.as_str()),
            None => eprintln!(rt; "mantad: missing command"),
        },
        UsageFault::UnknownOption { word: place } => {
            eprintln!(rt;
                "mantad: unknown option '{}' of this command",
                word(words, place)
            )
        }
        UsageFault::NoValue { word: place } => {
            eprintln!(rt; "mantad: option '{}' needs a value", word(words, place))
        }
        UsageFault::Twice { word: place } => {
            eprintln!(rt; "mantad: option '{}' given twice", word(words, place))
        }
        UsageFault::BadValue { word: place } => {
            let option = word(words, place.saturating_sub(1));
            eprintln!(rt;
                "mantad: invalid value '{}' for '{option}': {}",
                word(words, place),
                rule_of(option)
            )
        }
        UsageFault::Missing(option) => eprintln!(rt; "mantad: missing option '{}'", option.text()),
    };
}
