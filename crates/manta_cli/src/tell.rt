//! What the program says on standard error: the cause of each status above 0.
use mt_client::ClientEnd;
use std::io;

// A line. Nothing is to be done where it can't be written.
fn say(rt: &HostRuntime, line: &str) {
    let _ = eprintln!(rt; "manta: {line}");
}

/// Says why a run ended with a status above 0: `last` is what was last written to standard output, which of a refusal is its reason.
pub(crate) fn tell_end(
    rt: &HostRuntime,
    end: ClientEnd,
    address: &str,
    failure: Option<&io::Error>,
    last: &[u8],
) {
    match end {
        ClientEnd::Done => {}
        ClientEnd::Usage => say(rt, "unknown command or wrong arguments; try 'manta --help'"),
        ClientEnd::Refused => tell_refusal(rt, last),
        ClientEnd::SourceFault => say(rt, "cannot read standard input"),
        ClientEnd::SinkFault => say(rt, "cannot write to standard output"),
        ClientEnd::LinkFault => tell_link(rt, address, failure),
        ClientEnd::BadReply => {
            let _ = eprintln!(rt;
                "manta: {address} closed the connection early, or sent an invalid reply"
            );
        }
        ClientEnd::TooManyRequests => say(
            rt,
            "listing incomplete: limit of 1000000 requests reached",
        ),
        ClientEnd::Memory => say(rt, "out of memory"),
        ClientEnd::InputTooLarge => say(
            rt,
            "input larger than 16777216 bytes; nothing was sent (use curl -T, up to 1 GiB)",
        ),
    }
}

// Says why the store refused, by the line that it was told on standard output.
fn tell_refusal(rt: &HostRuntime, last: &[u8]) {
    match str::from_utf8(last) {
        Ok(line) => {
            let _ = eprintln!(rt; "manta: refused: {}", line.trim_ascii_end());
        }
        Err(_) => say(rt, "refused; the reason is on standard output"),
    }
}

// Says what became of the connection.
fn tell_link(rt: &HostRuntime, address: &str, failure: Option<&io::Error>) {
    let _ = match failure {
        Some(failure) => eprintln!(rt; "manta: cannot connect to {address}: {failure}"),
        None => eprintln!(rt;
            "manta: connection to {address} failed; the request may or may not have taken effect"
        ),
    };
}
