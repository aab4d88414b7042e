//! The task that is committed.
use mt_types::Text;
use std::marker::Model;

/// The task that is committed: its job and phase, what the names of its outputs begin with, the number of commands before and the
/// moment.
#[derive(Drop)]
pub struct Committing {
    pub job: u64,
    pub phase: u32,
    pub root: Text,
    pub position: u64,
    pub moment: u64,
}

impl Model for Committing {
    ghost use Rattle.mt_model.specs.Resolve.{Committing};
    ghost use Rattle.mt_resolve.specs.Committing.{IsCommitting};

    ghost Value = { Committing };

    ghost view = { λ c. record { job = c.job; phase = c.phase; root = c.root; position = c.position; moment = c.moment } };

    ghost invariant = { λ c. IsCommitting (record { job = c.job; phase = c.phase; root = c.root; position = c.position; moment = c.moment }) };
}
