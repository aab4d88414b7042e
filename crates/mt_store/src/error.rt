//! Why the store does not take a request.
use mt_types::Refusal;

/// Why the store does not take a request. The causes are looked for in this order.
#[derive(Clone, Copy, Debug, PartialEq, Eq)]
pub enum StoreError {
    /// The tree does not take it, or there is nothing to read.
    Refused(Refusal),
    /// A condition of the request does not hold.
    PreconditionFailed,
}

impl From<Refusal> for StoreError {
    ghost use Rattle.std.specs.Prelude.{◌≡◌};
    ghost use Rattle.mt_store.specs.declared.error.StoreError.TheVariants.{Refused};

    ghost from_gives = { λ refusal e. e ≡ Refused refusal };

    fn from(refusal: Refusal) -> StoreError {
        StoreError::Refused(refusal)
    }
}
