//! Reading a body to its end.
ghost use Rattle.std.specs.Prelude.{◌≡◌, ◌≢◌, ◌++◌, ℕ, List, Some, None};
ghost use Rattle.md5.specs.Md5.{Holds};
ghost use Rattle.mt_api.specs.Steps.{EndsSo, ReadsSo, RestEnds, RestReads, end_of};
ghost use Rattle.mt_http.specs.BodyReading.{body_left};
ghost use Rattle.mt_request.specs.Digest.{digest_refusal};
ghost use Rattle.mt_request.specs.declared.digest.Wish.{Wish};
ghost use Rattle.mt_http.specs.Further.{BodyGoesOn};

use md5::{Digest, Md5};
use mt_body::{Drained, digest_rest};
use mt_edge::Source;
use mt_http::{BodyStream, Ending};
use mt_request::Wish;

/// How a body ended.
#[derive(Clone, Copy, Debug, PartialEq, Eq)]
pub(crate) enum BodyEnd {
    /// With its last byte.
    Whole,
    /// Otherwise.
    Unfinished(Ending),
    /// The source has failed.
    SourceFault,
    /// Not within 2 ^ 64 - 1 reads.
    Endless,
}

/// What is known of a body that was not stored.
#[derive(Clone, Copy, Debug, PartialEq, Eq)]
pub(crate) enum Rest {
    /// All of it was read; its digest, where the request wants one.
    Whole(Option<[u8; 16]>),
    /// It ended so, and not with its last byte.
    Unfinished(Ending),
    /// The source has failed.
    SourceFault,
    /// It did not end.
    Memory,
}

fn end_of(ending: Option<Ending>) -> BodyEnd
    ensures { result ≡ end_of ending }
{
    match ending {
        None => BodyEnd::SourceFault,
        Some(Ending::Whole) => BodyEnd::Whole,
        Some(Ending::Truncated) => BodyEnd::Unfinished(Ending::Truncated),
        Some(Ending::Bad) => BodyEnd::Unfinished(Ending::Bad),
        Some(Ending::TooLarge) => BodyEnd::Unfinished(Ending::TooLarge),
    }
}

/// Reads the rest of a body and drops it.
pub(crate) fn end_body<S: Source>(body: &mut BodyStream<'_, S>) -> BodyEnd
    ensures over { EndsSo result body.new.framer.stage }
    ensures ends { result ≢ BodyEnd.Endless }
    ensures body { BodyGoesOn S.left S.read_faults S.source_stays body.old body.new (result ≡ BodyEnd.SourceFault) }
{
    let ending = body.finish();
    end_of(ending)
}

/// Reads the rest of a body, and adds its bytes to a digest.
pub(crate) fn digest_body<S: Source>(body: &mut BodyStream<'_, S>, sum: &mut Md5) -> BodyEnd
    ensures drains { (bytes : List ℕ) × ReadsSo result (body_left body.old.framer (S.left body.old.source.now)) bytes
        × ((front : List ℕ) → Holds sum.old front → Holds sum.new (front ++ bytes)) }
    ensures over { EndsSo result body.new.framer.stage }
    ensures body { BodyGoesOn S.left S.read_faults S.source_stays body.old body.new (result ≡ BodyEnd.SourceFault) }
{
    match digest_rest(body, sum) {
        Drained::Ended => end_body(body),
        Drained::SourceFault => BodyEnd::SourceFault,
        Drained::Endless => BodyEnd::Endless,
    }
}

// Reads a body whose digest is wanted.
fn read_digested<S: Source>(body: &mut BodyStream<'_, S>) -> Rest
    ensures tells { (wish : Wish) → (bytes : List ℕ) × RestReads result wish (body_left body.old.framer (S.left body.old.source.now)) bytes }
    ensures over { RestEnds result body.new.framer.stage }
    ensures body { BodyGoesOn S.left S.read_faults S.source_stays body.old body.new (result ≡ Rest.SourceFault) }
{
    let mut sum = Md5::new();
    match digest_body(body, &mut sum) {
        BodyEnd::Whole => Rest::Whole(Some(sum.finalize())),
        BodyEnd::Unfinished(ending) => Rest::Unfinished(ending),
        BodyEnd::SourceFault => Rest::SourceFault,
        // never: a body has its limit
        BodyEnd::Endless => Rest::Memory,
    }
}

// Reads a body whose digest is not wanted.
fn read_dropped<S: Source>(body: &mut BodyStream<'_, S>) -> Rest
    ensures tells { (wish : Wish) → ((digest : List ℕ) → digest_refusal wish (Some digest) ≡ digest_refusal wish None)
        → (bytes : List ℕ) × RestReads result wish (body_left body.old.framer (S.left body.old.source.now)) bytes }
    ensures over { RestEnds result body.new.framer.stage }
    ensures body { BodyGoesOn S.left S.read_faults S.source_stays body.old body.new (result ≡ Rest.SourceFault) }
{
    match end_body(body) {
        BodyEnd::Whole => Rest::Whole(None),
        BodyEnd::Unfinished(ending) => Rest::Unfinished(ending),
        BodyEnd::SourceFault => Rest::SourceFault,
        BodyEnd::Endless => unreachable!(),
    }
}

/// Reads a body that isn't stored. It is digested where its request wants a digest, and else dropped.
pub(crate) fn read_rest<S: Source>(wish: &Wish, body: &mut BodyStream<'_, S>) -> Rest
    ensures tells { (bytes : List ℕ) × RestReads result wish.now (body_left body.old.framer (S.left body.old.source.now)) bytes }
    ensures over { RestEnds result body.new.framer.stage }
    ensures body { BodyGoesOn S.left S.read_faults S.source_stays body.old body.new (result ≡ Rest.SourceFault) }
{
    match wish {
        Wish::Wants(_) => read_digested(body),
        Wish::None => read_dropped(body),
        Wish::Unreadable => read_dropped(body),
    }
}
