//! What a helper says on standard error: why it ended with a status that is not 0.
use mt_helper::Status;
use std::io;

/// How each tool is called.
const USAGE: [(&str, &str); 4] = [
    ("mpipe", "[-r N] [PATH]"),
    ("mtee", "PATH"),
    ("mcat", "PATH .."),
    ("msplit", "-n N [-d C] [-f LIST]"),
];

// A line behind the tool's name. Nothing is to be done where it can't be written.
fn say(rt: &HostRuntime, tool: &str, line: &str) {
    let _ = eprintln!(rt; "{tool}: {line}");
}

fn tell_usage(rt: &HostRuntime, tool: &str) {
    for (name, arguments) in &USAGE {
        if *name == tool {
            let _ = eprintln!(rt; "usage: {name} {arguments}");
            return;
        }
    }
    say(rt, "usage", "marlin_helper FOLDER LOGIN TOOL [ARGUMENT ..]");
}

fn tell_spool(rt: &HostRuntime, tool: &str, failure: Option<&io::Error>) {
    match failure {
        Some(failure) => {
            let _ = eprintln!(rt; "{tool}: cannot write the task's records: {failure}");
        }
        None => say(rt, tool, "cannot write the task's records"),
    }
}

/// Says why a helper of these words, the login first, ended so.
pub(crate) fn tell(
    rt: &HostRuntime,
    words: &[String],
    status: Status,
    failure: Option<&io::Error>,
) {
    let tool = match words.get(1) {
        Some(tool) => tool.as_str(),
        None => "",
    };
    match status {
        Status::Done => {}
        Status::Usage => tell_usage(rt, tool),
        Status::BadPath => say(rt, tool, "path is not in this account"),
        Status::SourceFault => say(rt, tool, "cannot read standard input"),
        Status::SinkFault => say(rt, tool, "cannot write to standard output"),
        Status::SpoolFault => tell_spool(rt, tool, failure),
        Status::NumbersTaken => say(rt, tool, "limit of 4,095 records per task reached"),
        Status::InputTooLarge => say(rt, tool, "standard input has more than 16,777,216 bytes"),
        Status::OutOfMemory => say(rt, tool, "out of memory"),
    }
}
