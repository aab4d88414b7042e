//! Laws: the order of all refusals, which text is a digest's, and that what is asked is within the limits of values.
ghost use Rattle.mt_request.specs.Laws.{AskedWithinLimits, ReadsDigests, RefusesInOrder};

/// The first refusal of what a head asks for is the first of the head, in the one order of `refusal_of_head`.
pub fn refusals_in_order()
    ensures { RefusesInOrder }
{}

/// A digest is read from its text, and from no other.
pub fn digests_are_read()
    ensures { ReadsDigests }
{}

/// What a head with at most 100 fields asks for is within the limits of a put: content type, level, metadata.
pub fn asked_within_limits()
    ensures { AskedWithinLimits }
{}
