//! `split_bench N`: shares the lines of standard input out among N reducers, and prints what they get. It takes no time by
//! itself: a script does.
#![tactic(auto)]

ghost use Rattle.std.specs.Prelude.{◌≡◌, ◌<◌, length, IfSome};

use mt_split::{KeyRule, Parts, Span, split};
use std::alloc::Global;
use std::env;
use std::io::{self, Read};
use std::process::ExitCode;

/// The status where the word is no number of reducers.
const USAGE: u8 = 1;

/// The status where standard input failed, or is too long.
const INPUT_FAILED: u8 = 3;

/// The status where standard output failed.
const OUTPUT_FAILED: u8 = 4;

/// The status where memory was wanted.
const OUT_OF_MEMORY: u8 = 8;

/// A text is shorter than this, in bytes.
const MOST_BYTES: usize = 1 << 32;

/// Reducers are fewer than this.
const MOST_REDUCERS: u32 = 65_536;

// The number of reducers that the one word says.
fn reducers(rt: &HostRuntime) -> Option<u32>
    ensures { IfSome result (λ n. 0 < n) }
{
    let args = env::args(rt).ok()?;
    for word in args.skip(1) {
        match word.parse::<u32>() {
            Ok(n) if 0 < n && n < MOST_REDUCERS => return Some(n),
            _ => return None,
        }
    }
    None
}

// All of standard input.
fn text(rt: &HostRuntime, alloc: Global) -> io::Result<Vec<u8>> {
    let mut text = Vec::new(alloc);
    rt.stdin().read_to_end(&mut text)?;
    Ok(text)
}

/// What the reducers get.
#[derive(Clone, Copy, Debug)]
struct Counts {
    lines: u64,
    bytes: u64,
    /// Each line's place times its reducer, so that another order of reducers shows.
    sum: u64,
}

impl Counts {
    // Counts a reducer's lines too.
    fn with(self, reducer: u32, spans: &[Span]) -> Counts {
        let mut counts = self;
        for span in spans {
            counts.lines = counts.lines.wrapping_add(1);
            counts.bytes = counts.bytes.wrapping_add(span.len as u64);
            let weight = (reducer as u64).wrapping_mul(span.from as u64);
            counts.sum = counts.sum.wrapping_add(weight);
        }
        counts
    }
}

// What n reducers get.
fn count_all(parts: &Parts, n: u32) -> Counts
    requires { length parts.now ≡ n }
{
    let mut counts = Counts {
        lines: 0,
        bytes: 0,
        sum: 0,
    };
    for reducer in 0..n {
        counts = counts.with(reducer, parts.part(reducer));
    }
    counts
}

// Shares the lines out.
fn run(rt: &HostRuntime, n: u32) -> Result<Counts, u8>
    requires { 0 < n }
{
    let alloc = rt.alloc();
    match text(rt, alloc) {
        Ok(text) if text.len() < MOST_BYTES => match split(alloc, &text, n, &KeyRule::Line) {
            Ok(parts) => Ok(count_all(&parts, n)),
            Err(_) => Err(OUT_OF_MEMORY),
        },
        _ => Err(INPUT_FAILED),
    }
}

fn main(rt: HostRuntime) -> ExitCode {
    let Some(n) = reducers(&rt) else {
        return ExitCode::from(USAGE);
    };
    match run(&rt, n) {
        Ok(Counts { lines, bytes, sum }) => match println!(rt;
            "{lines} lines, {bytes} bytes, {sum}"
        ) {
            Ok(()) => ExitCode::from(0),
            Err(_) => ExitCode::from(OUTPUT_FAILED),
        },
        Err(status) => ExitCode::from(status),
    }
}
