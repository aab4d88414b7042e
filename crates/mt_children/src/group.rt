//! Processes that are ended with all that they have started in their group.
use crate::quiet::quiet_command;
use libc::ESRCH;
use std::alloc::Global;
use std::process::{Child, Processes, SystemProcess};
use std::time::{Clock, Duration};
use std::{io, thread};

/// What `getpriority` is asked of: a group (POSIX's `PRIO_PGRP`).
const GROUP: i32 = 1;

/// How often it is asked whether the processes that were killed are gone.
const ROUNDS: u32 = 100;

/// How often it is asked whether those that were asked to end are gone: 5 seconds of pauses.
const ASKS: u32 = 5_000;

/// The signal that kills, and the one that asks to end, as words of `kill`.
const KILL: &str = "-9";

const ASK: &str = "-15";

/// How many microseconds pass before it is asked again.
const PAUSE: u64 = 1_000;

// Whether a process of a group is there. One that has ended is, until its parent has waited for it.
fn has_member(group: u32) -> bool {
    libc::getpriority(GROUP, group) != -1 || os::errno() != ESRCH
}

// Sends a signal to every process of a group, by a shell: the kit's library can kill single processes alone.
fn send_all<R: Processes>(rt: &R, alloc: Global, group: u32, signal: &str) -> io::Result<()> {
    let group = format!(in alloc; "{group}")?;
    let words = ["-c", "kill \"$2\" \"-$1\"", "sh", group.as_str(), signal];
    quiet_command(alloc, "sh", &words)?.status(rt)?;
    Ok(())
}

// Waits until no process of a group is there, and no longer than so many rounds.
fn await_none<R: Clock>(rt: &R, group: u32, rounds: u32) {
    for _ in 0..rounds {
        if !has_member(group) {
            return;
        }
        thread::sleep(rt, Duration::from_micros(PAUSE));
    }
}

/// Ends what a child that was waited for has left in its group.
pub(crate) fn end_rest<R: Processes + Clock>(rt: &R, alloc: Global, group: u32) {
    if has_member(group) {
        let _ = send_all(rt, alloc, group, KILL);
        await_none(rt, group, ROUNDS);
    }
}

/// The same of what a launcher that was waited for has left. It is asked to end first: what runs a task here then ends that too.
pub(crate) fn end_rest_launched<R: Processes + Clock>(rt: &R, alloc: Global, group: u32) {
    if has_member(group) {
        let _ = send_all(rt, alloc, group, ASK);
        await_none(rt, group, ASKS);
        end_rest(rt, alloc, group);
    }
}

/// Ends a child with its whole group, and waits for it. What fails there is passed over.
pub(crate) fn end<R: Processes + Clock>(rt: &R, alloc: Global, child: &mut Child<SystemProcess>) {
    let group = child.id();
    let _ = child.kill();
    // Until the child is waited for, no other process can get its number.
    let _ = send_all(rt, alloc, group, KILL);
    let _ = child.wait();
    await_none(rt, group, ROUNDS);
}

/// The same of a child that is a launcher. All of its group is asked to end first, so that it can end what it runs elsewhere, and what has not after a while
/// is killed.
pub(crate) fn end_launched<R: Processes + Clock>(
    rt: &R,
    alloc: Global,
    child: &mut Child<SystemProcess>,
) {
    let group = child.id();
    let _ = send_all(rt, alloc, group, ASK);
    let mut is_over = false;
    // The group and not the child alone: a script that has died of the signal may have left a program that still ends its task.
    'asks: for _ in 0..ASKS {
        is_over = is_over || !matches!(child.try_wait(), Ok(None));
        if is_over && !has_member(group) {
            return;
        }
        thread::sleep(rt, Duration::from_micros(PAUSE));
    }
    if is_over {
        end_rest(rt, alloc, group);
    } else {
        end(rt, alloc, child);
    }
}
