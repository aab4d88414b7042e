//! Files in a spool, each made under the lowest number that is free.
ghost use Rattle.std.specs.Prelude.{◌≡◌, ◌<◌, true, IfSome, OnErr, length};
ghost use Rattle.mt_base.specs.Counts.{HasCause};
ghost use Rattle.mt_spawn.specs.Spools.{has_file};
ghost use Rattle.mt_helper.specs.Ends.{halt_status};
ghost use Rattle.mt_helper.specs.Spooling.{Adds, AreTakenBelow, Halts, PutsAt, Takes};

use crate::status::Status;
use mt_spawn::{Spool, SpoolFault, SpoolStep};
use mt_types::MOST_RECORDS;

/// Why a file was not made, or not whole.
#[derive(Clone, Copy, Debug, PartialEq, Eq)]
pub(crate) enum Halt {
    /// All numbers are taken.
    Taken,
    /// The spool failed.
    Fault,
}

/// Makes an empty file of the lowest number that is free. It is known that those below `from` are taken.
pub(crate) fn take_number<P: Spool>(spool: &mut P, from: u32) -> Result<u32, Halt>
    requires { IfSome (P.files spool.old) (AreTakenBelow from) }
    ensures takes { Takes (P.files spool.old) result (P.files spool.new) }
    ensures faults { Halts (P.faults spool.old) result (P.faults spool.new) }
{
    for number in from..MOST_RECORDS as u32 {
        match spool.create_new(number) {
            SpoolStep::Done => return Ok(number),
            SpoolStep::Taken => {}
            SpoolStep::Failed => return Err(Halt::Fault),
        }
    }
    Err(Halt::Taken)
}

/// Adds a piece to a file that is there. The piece may be empty.
pub(crate) fn add<P: Spool>(spool: &mut P, number: u32, piece: &[u8]) -> Result<(), SpoolFault>
    requires { IfSome (P.files spool.old) (λ fs. has_file number fs ≡ true) }
    ensures adds { Adds (P.files spool.old) number piece.now result (P.files spool.new) }
    ensures faults { HasCause (P.faults spool.old) (P.faults spool.new) result }
{
    if piece.is_empty() {
        return Ok(());
    }
    spool.append(number, piece)
}

/// The status of a file that was not made.
pub(crate) fn status_of(halt: Halt) -> Status
    ensures { result ≡ halt_status halt }
{
    match halt {
        Halt::Taken => Status::NumbersTaken,
        Halt::Fault => Status::SpoolFault,
    }
}

/// Makes a file with these bytes, of which there are some, under the lowest number that is free. It is known that those below `from`
/// are taken.
pub(crate) fn put_file<P: Spool>(spool: &mut P, from: u32, bytes: &[u8]) -> Result<u32, Halt>
    requires some { 0 < length bytes.now }
    requires taken { IfSome (P.files spool.old) (AreTakenBelow from) }
    ensures puts { PutsAt (P.files spool.old) bytes.now result (P.files spool.new) }
    ensures faults { Halts (P.faults spool.old) result (P.faults spool.new) }
{
    let number = take_number(spool, from)?;
    match add(spool, number, bytes) {
        Ok(()) => Ok(number),
        Err(SpoolFault) => Err(Halt::Fault),
    }
}
