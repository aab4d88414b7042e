//! Reading the payloads of a log that was opened, one behind the other: pieces of bodies are noted, and commands change the state.
ghost use Rattle.std.specs.Prelude.{◌≡◌, ◌≢◌, ◌<◌, ◌≤◌, ◌+◌, ℕ, List, true, false, None, length, Err, IfOk, OnOk, IsErr, IsErrOf, IsTrue, ◌↔◌};
ghost use Rattle.std.specs.List.{AllByRecursion};
ghost use Rattle.std.specs.Option.{ForSome};
ghost use Rattle.mt_codec.specs.Pieces.{is_piece};
ghost use Rattle.mt_codec.specs.Spelling.{HasSpelling, Spells, spelling};
ghost use Rattle.mt_log.specs.LogState.{next_place, told};
ghost use Rattle.mt_log.specs.Places.{payload_at};
ghost use Rattle.mt_body.specs.Stored.{is_stored};
ghost use Rattle.mt_model.specs.Bodies.{OfArchive, OfCommand, OfFate, OfRecord};
ghost use Rattle.mt_types.specs.Kinds.{kind_of};
ghost use Rattle.mt_types.specs.declared.command.Command.{Command};
ghost use Rattle.mt_types.specs.declared.body.Body.{Body};
ghost use Rattle.mt_types.specs.declared.limits.TheConstants.{MOST_COMMANDS};
ghost use Rattle.mt_opening.specs.Looking.{LogIsThere, OnlyLooks, OnlyReads, RecordIsThere};
ghost use Rattle.mt_account.specs.Taken.{IsTaken};
ghost use Rattle.mt_opening.specs.Opening.{IsLoaded, IsLoading, MayStand, NamesForeign};
ghost use Rattle.mt_opening.specs.Places.{ArePlaces};
ghost use Rattle.mt_opening.specs.declared.opening.Unreadable.{Unreadable};
ghost use Rattle.mt_opening.specs.declared.opening.Unreadable.TheVariants.{Foreign};

use crate::digest::digest_command;
use crate::opening::{OpenEnd, foreign};
use crate::places::Places;
use mt_account::{Account, is_taken};
use mt_ahead::ReadAhead;
use mt_base::zeros;
use mt_codec::{DecodeError, decode};
use mt_disk::{Disk, DiskFault};
use mt_log::Log;
use mt_types::{Archive, Body, Command, Fate, LARGEST_PIECE, MOST_COMMANDS, TaskRecord};
use std::alloc::Global;

/// The bytes of the log that are read ahead.
const WINDOW: usize = 16_384;

/// The bytes of the largest piece with its mark.
const LARGEST_RECORD: u32 = LARGEST_PIECE as u32 + 1;

// What is read of each payload: its length, and whether it is a piece of a body.
#[derive(Clone, Copy)]
struct Head {
    len: u32,
    is_piece: bool,
}

// Reads the length of the payload at a place, and its first byte where it may be a piece.
fn head_at<D: Disk>(log: &Log, disk: &mut D, place: u64) -> Result<Head, DiskFault>
    requires ready { RecordIsThere D.seen disk.old log.now place }
    ensures head { IfOk result (λ h. ForSome (told (D.seen disk.old)) (λ ps. (h.len ≡ length (payload_at place ps)) × (h.is_piece ≡ is_piece (payload_at place ps)))) }
    ensures size { IfOk result (λ h. h.is_piece ≡ true → (1 < h.len) × (h.len ≤ 65537)) }
    ensures looks { OnlyLooks D.seen D.may_leave D.moment D.left_since D.faults D.stays disk.old disk.new (IsErr result) }
{
    let len = log.payload_len(disk, place)?;
    if len < 2 || len > LARGEST_RECORD {
        return Ok(Head {
            len,
            is_piece: false,
        });
    }
    let mut mark = [0; 1];
    match log.read_part(disk, place, 0, &mut mark) {
        Ok(()) => Ok(Head {
            len,
            is_piece: mark[0] == 0,
        }),
        Err(_) => Err(DiskFault),
    }
}

// Reads the command at a place.
fn command_at<D: Disk>(
    alloc: Global,
    log: &Log,
    disk: &mut D,
    place: u64,
    buffer: &mut Vec<u8>,
) -> Result<Command<Body>, OpenEnd>
    requires ready { RecordIsThere D.seen disk.old log.now place }
    ensures found { IfOk result (λ c. (p : List ℕ) × Spells p c × ForSome (told (D.seen disk.old)) (λ ps. payload_at place ps ≡ p)) }
    ensures none { (why : Unreadable) → result ≡ Err (OpenEnd.Unreadable why) →
        (why ≡ Foreign place) × ForSome (told (D.seen disk.old)) (λ ps. (c : Command Body) → HasSpelling c → payload_at place ps ≢ spelling c) }
    ensures looks { OnlyLooks D.seen D.may_leave D.moment D.left_since D.faults D.stays disk.old disk.new (IsErrOf result OpenEnd.Disk) }
{
    match log.read(disk, place, buffer) {
        Ok(()) => match decode(alloc, buffer.as_slice()) {
            Ok(command) => Ok(command),
            Err(DecodeError::NotACommand) => Err(foreign(place)),
            Err(DecodeError::Memory) => Err(OpenEnd::Memory),
        },
        Err(fault) => Err(fault.into()),
    }
}

// Whether the pieces of the body of a record stand in the log.
fn record_stands(places: &Places, written: &TaskRecord<Body>) -> bool
    ensures { (ps : List (List ℕ)) → ArePlaces ps places.now.earlier.items places.now.last → IsTrue result ↔ OfRecord (λ b. is_stored ps b ≡ true) written.now }
{
    match written {
        TaskRecord::Emit { body, .. } | TaskRecord::Keep { body, .. } => places.has(body),
        TaskRecord::Ref { .. } => true,
    }
}

// Whether those of records do.
fn records_stand(places: &Places, records: &[TaskRecord<Body>]) -> bool
    ensures { (ps : List (List ℕ)) → ArePlaces ps places.now.earlier.items places.now.last → IsTrue result ↔ AllByRecursion (OfRecord (λ b. is_stored ps b ≡ true)) records.now }
{
    for record in records {
        if !record_stands(places, record) {
            return false;
        }
    }
    true
}

// Whether those of a fate do.
fn fate_stands(places: &Places, fate: &Fate<Body>) -> bool
    ensures { (ps : List (List ℕ)) → ArePlaces ps places.now.earlier.items places.now.last → IsTrue result ↔ OfFate (λ b. is_stored ps b ≡ true) fate.now }
{
    match fate {
        Fate::Good(records) => records_stand(places, records.as_slice()),
        Fate::Bad { .. } => true,
    }
}

// Whether those of an archive do.
fn archive_stands(places: &Places, archive: &Archive<Body>) -> bool
    ensures { (ps : List (List ℕ)) → ArePlaces ps places.now.earlier.items places.now.last → IsTrue result ↔ OfArchive (λ b. is_stored ps b ≡ true) archive.now }
{
    places.has(&archive.err)
        && places.has(&archive.fail)
        && places.has(&archive.input)
        && places.has(&archive.status)
        && places.has(&archive.out)
}

// Whether the pieces of each body that a command on rows or jobs brings stand in the log.
fn bodies_stand(places: &Places, command: &Command<Body>) -> bool
    requires kind { IsTaken (kind_of command.now) }
    ensures { (ps : List (List ℕ)) → ArePlaces ps places.now.earlier.items places.now.last → IsTrue result ↔ OfCommand (λ b. is_stored ps b ≡ true) command.now }
{
    match command {
        Command::Put { body, .. } => places.has(body),
        Command::Commit { fate, .. } => fate_stands(places, fate),
        Command::Close { archive, .. } => archive_stands(places, archive),
        _ => true,
    }
}

// Whether a command is one on rows or jobs, its bodies stand in the payloads that were read, and one more command may be counted. Whether
// it may stand behind them is then the state's to say.
fn is_complete(account: &Account, places: &Places, command: &Command<Body>) -> bool
    ensures kind { result ≡ true → IsTaken (kind_of command.now) }
    ensures few { result ≡ true → account.now.count < MOST_COMMANDS }
    ensures stored { (ps : List (List ℕ)) → ArePlaces ps places.now.earlier.items places.now.last → result ≡ true → OfCommand (λ b. is_stored ps b ≡ true) command.now }
    ensures only { (ps : List (List ℕ)) → ArePlaces ps places.now.earlier.items places.now.last → MayStand ps account.now command.now → result ≡ true }
{
    is_taken(command) && account.count() < MOST_COMMANDS && bodies_stand(places, command)
}

// Takes the command at a place into the state.
fn load_command<D: Disk>(
    alloc: Global,
    log: &Log,
    disk: &mut D,
    place: u64,
    account: &mut Account,
    places: &Places,
    buffer: &mut Vec<u8>,
) -> Result<(), OpenEnd>
    requires ready { RecordIsThere D.seen disk.old log.now place }
    requires no_piece { ForSome (told (D.seen disk.old)) (λ ps. is_piece (payload_at place ps) ≡ false) }
    requires loading { ForSome (told (D.seen disk.old)) (λ ps. IsLoading ps place account.old places.now.earlier.items places.now.last) }
    ensures loading { OnOk result (ForSome (told (D.seen disk.old)) (λ ps.
        IsLoading ps (next_place place (length (payload_at place ps))) account.new places.now.earlier.items places.now.last)) }
    ensures foreign { (why : Unreadable) → result ≡ Err (OpenEnd.Unreadable why) → ForSome (told (D.seen disk.old)) (λ ps. NamesForeign ps why) }
    ensures looks { OnlyLooks D.seen D.may_leave D.moment D.left_since D.faults D.stays disk.old disk.new (IsErrOf result OpenEnd.Disk) }
{
    let command = match command_at(alloc, log, disk, place, buffer) {
        Ok(command) => command,
        Err(end) => return Err(end),
    };
    if !is_complete(account, places, &command) {
        return Err(foreign(place));
    }
    let digested = digest_command(log, disk, command, buffer)?;
    match account.change_if_allowed(alloc, digested)? {
        Ok(()) => Ok(()),
        Err(_) => Err(foreign(place)),
    }
}

// Takes the payload at a place, and gives the place behind it.
fn load_one<D: Disk>(
    alloc: Global,
    log: &Log,
    disk: &mut D,
    place: u64,
    account: &mut Account,
    places: &mut Places,
    buffer: &mut Vec<u8>,
) -> Result<u64, OpenEnd>
    requires ready { RecordIsThere D.seen disk.old log.now place }
    requires loading { ForSome (told (D.seen disk.old)) (λ ps. IsLoading ps place account.old places.old.earlier.items places.old.last) }
    ensures loading { IfOk result (λ next. ForSome (told (D.seen disk.old)) (λ ps. IsLoading ps next account.new places.new.earlier.items places.new.last)) }
    ensures next { IfOk result (λ next. (place < next) × (next ≤ log.now.gate)) }
    ensures foreign { (why : Unreadable) → result ≡ Err (OpenEnd.Unreadable why) → ForSome (told (D.seen disk.old)) (λ ps. NamesForeign ps why) }
    ensures looks { OnlyLooks D.seen D.may_leave D.moment D.left_since D.faults D.stays disk.old disk.new (IsErrOf result OpenEnd.Disk) }
{
    let head = head_at(log, disk, place)?;
    // Only a disk that tells nothing may give a longer record than the one that was read when the log was opened.
    let next = match log.next(place, head.len as u64) {
        Some(next) => next,
        None => return Err(foreign(place)),
    };
    if head.is_piece {
        places.add(place, head.len as u64 - 1)?;
        return Ok(next);
    }
    load_command(alloc, log, disk, place, account, places, buffer)?;
    Ok(next)
}

// Reads the payloads of a log one behind the other, and gives the state that they lead to.
fn load_payloads<D: Disk>(alloc: Global, log: &Log, disk: &mut D) -> Result<Account, OpenEnd>
    requires ready { LogIsThere D.seen disk.old log.now }
    ensures loaded { IfOk result (λ account. ForSome (told (D.seen disk.old)) (λ ps. IsLoaded ps account)) }
    ensures foreign { (why : Unreadable) → result ≡ Err (OpenEnd.Unreadable why) → ForSome (told (D.seen disk.old)) (λ ps. NamesForeign ps why) }
    ensures looks { OnlyLooks D.seen D.may_leave D.moment D.left_since D.faults D.stays disk.old disk.new (IsErrOf result OpenEnd.Disk) }
{
    let gate = log.len() - 1;
    let mut account = Account::new(alloc)?;
    let mut places = Places::new(alloc);
    let mut buffer = Vec::new(alloc);
    let mut place = log.first();
    'payloads: while place < gate {
        match load_one(
            alloc,
            log,
            disk,
            place,
            &mut account,
            &mut places,
            &mut buffer,
        ) {
            Ok(next) => place = next,
            Err(end) => return Err(end),
        }
    }
    Ok(account)
}

/// Reads the payloads of a log that was opened, and gives the state that they lead to. It keeps 16 bytes a body and a window of 16,384
/// bytes of the log beside the state.
pub(crate) fn load<D: Disk>(alloc: Global, log: &Log, disk: &mut D) -> Result<Account, OpenEnd>
    requires ready { LogIsThere D.seen disk.old log.now }
    ensures loaded { IfOk result (λ account. ForSome (told (D.seen disk.old)) (λ ps. IsLoaded ps account)) }
    ensures foreign { (why : Unreadable) → result ≡ Err (OpenEnd.Unreadable why) → ForSome (told (D.seen disk.old)) (λ ps. NamesForeign ps why) }
    ensures reads { OnlyReads D.seen D.may_leave D.moment D.left_since D.faults disk.old disk.new (IsErrOf result OpenEnd.Disk) }
{
    let mut window = zeros(alloc, WINDOW)?;
    let mut ahead = ReadAhead::new(disk, log.file(), log.len(), window.as_mut_slice());
    load_payloads(alloc, log, &mut ahead)
}
