//! Whether the lines of a job's certificate are within the limits.
ghost use Rattle.std.specs.Prelude.{◌≡◌, ◌<◌, ◌+◌, ◌^◌, ◌&&◌, ◌↔◌, nat_le, true, length, IfOk, IsTrue};
ghost use Rattle.std.specs.Bool.{OnTrue};
ghost use Rattle.std.specs.List.{list_all};
ghost use Rattle.mt_types.specs.WellMade.{IsDocument};
ghost use Rattle.mt_certline.specs.Certificate.{lines_of};
ghost use Rattle.mt_checker.specs.Texts.{Fits};
ghost use Rattle.mt_checker.specs.declared.limits.TheConstants.{MOST_LINES};
ghost use Rattle.mt_cert.specs.Putting.{is_short};
ghost use Rattle.mt_cert.specs.Reading.{certificate_in};
ghost use Rattle.mt_cert.specs.Writing.{IsAccepted};

use crate::held::see;
use crate::page::{Page, no_lines};
use crate::writing::put_certificate;
use mt_checker::MOST_LINES;
use mt_edge::{Sink, WriteStep};
use mt_types::{Body, Job};
use std::alloc::{AllocError, Global};
use std::marker::Model;

// A sink that takes all and keeps nothing.
#[derive(Drop)]
struct Nowhere {}

impl Sink for Nowhere {
    ghost use Rattle.std.specs.Prelude.{◌<◌, None, length, ⊤};
    ghost use Rattle.mt_edge.specs.Stream.{Writes};

    ghost got = { λ s. None };

    ghost write_faults = { λ s. 0 };

    ghost sink_stays = { λ a b. ⊤ };

    fn write(&mut self, piece: &[u8]) -> WriteStep
        requires { 0 < length piece.now }
        ensures { Writes None 0 piece.now result None 0 }
    {
        WriteStep::Took(piece.len())
    }

    ghost sink_same = { λ a. tt };

    ghost sink_joined = { λ a b c h k. tt };
}

// A page that the lines of the certificate of a job went through.
fn measured(alloc: Global, login: &str, job: &Job<Body>) -> Result<Page, AllocError>
    requires number { job.now.number < 2 ^ 62 }
    requires document { IsDocument job.now.document }
    ensures short { IfOk result (λ p. p.short ≡ (list_all (is_short login.now) (lines_of (certificate_in job.now)) && true)) }
    ensures lines { IfOk result (λ p. p.lines ≡ 0 + length (lines_of (certificate_in job.now))) }
{
    let mut page = no_lines(alloc);
    match put_certificate(alloc, login, job, &mut page, &mut Nowhere {}) {
        Ok(()) => Ok(page),
        Err(_) => Err(AllocError),
    }
}

// Whether the lines that went through a page are within the limits.
fn is_within(page: &Page) -> bool
    ensures { result ≡ (page.now.short && nat_le page.now.lines MOST_LINES) }
{
    page.short && page.lines <= MOST_LINES
}

/// Whether the lines of the certificate of a job are within the limits of certificates. It makes each line and drops it. Where
/// they are, the text of the certificate of a lawful, complete job is accepted. It fails for want of memory alone.
pub fn certificate_fits(alloc: Global, login: &str, job: &Job<Body>) -> Result<bool, AllocError>
    requires number { job.now.number < 2 ^ 62 }
    requires document { IsDocument job.now.document }
    ensures exact { IfOk result (λ fits. IsTrue fits ↔ Fits login.now (certificate_in job.now)) }
    ensures accepted { IfOk result (λ fits. OnTrue fits (IsAccepted login.now job.now)) }
{
    let page = measured(alloc, login, job)?;
    see(job)?;
    Ok(is_within(&page))
}
