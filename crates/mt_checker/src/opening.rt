//! The next phase that has a place to be listed.
ghost use Rattle.std.specs.Prelude.{◌≡◌, IfOk, slice_get};
ghost use Rattle.mt_types.specs.declared.document.Phase.{Phase};
ghost use Rattle.mt_certline.specs.Certificate.{Progress};
ghost use Rattle.mt_checker.specs.Kept.{IsSheet, Reaches, Stands, kinds_of};

use crate::feed::Gathered;
use crate::sheet::PhaseSheet;
use crate::state::Standing;
use mt_types::PhaseKind;
use std::alloc::{AllocError, Global};

/// How the phase of this number cuts its feed, none past the last one.
pub(crate) fn kind_at(kinds: &[PhaseKind], phase: usize) -> Option<PhaseKind>
    ensures { result ≡ slice_get kinds.now phase }
{
    kinds.get(phase).copied()
}

/// The first phase from this one on that has a place, over what this one reads; or where none has, the names of the outputs.
pub(crate) fn open(
    alloc: Global,
    kinds: &[PhaseKind],
    from: usize,
    reading: Gathered,
) -> Result<Standing, AllocError>
    ensures { IfOk result (λ t. (g : Progress) → kinds_of g.phases ≡ kinds.now → Reaches g from reading → Stands g t) }
{
    let mut phase = from;
    let mut reading = reading;
    'phases: while phase < kinds.len() {
        let next = kind_at(kinds, phase + 1);
        let count = reading.tasks();
        if count > 0 {
            let sheet = PhaseSheet::new(alloc, phase, reading, count, next)?;
            return Ok(Standing::Phase(sheet));
        }
        reading = Gathered::new(alloc, next)?;
        phase += 1;
    }
    Ok(Standing::Names {
        names: reading.into_names(),
        next: 0,
    })
}

/// How far the phases are listed behind a task of the phase of a sheet.
pub(crate) fn settle(
    alloc: Global,
    kinds: &[PhaseKind],
    sheet: PhaseSheet,
) -> Result<Standing, AllocError>
    ensures { IfOk result (λ t. (g : Progress) (p : Phase) → kinds_of g.phases ≡ kinds.now → IsSheet g p sheet → Stands g t) }
{
    if !sheet.is_whole() {
        return Ok(Standing::Phase(sheet));
    }
    let (phase, next) = sheet.into_next();
    if phase == usize::MAX {
        return Err(AllocError);
    }
    open(alloc, kinds, phase + 1, next)
}
