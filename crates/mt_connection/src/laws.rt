//! Laws: what the bytes of a source say of the end of its connection is one thing, and what a message adds is a step of the life of a store.
ghost use Rattle.std.specs.Prelude.{ℕ, Bool};
ghost use Rattle.mt_opening.specs.History.{Bytes};
ghost use Rattle.mt_model.specs.State.{State};
ghost use Rattle.mt_connection.specs.Accepted.{RequestsAreSteps, RequestsKeepChildren};
ghost use Rattle.mt_connection.specs.Outcomes.{OutcomeIsOne};
ghost use Rattle.mt_connection.specs.Transcript.{setting};

use mt_edge::Clock;
use mt_spawn::Spawner;

/// No list of bytes leads to two ends.
pub fn outcome_is_one()
    ensures { OutcomeIsOne }
{}

/// What a message adds is a step of the life of a store: its command is accepted from a client, or nothing happens, and attempts at tasks stay. The
/// children that a runner keeps are the same attempts behind it.
pub fn requests_are_steps<P: Spawner, C: Clock>()
    ensures steps { (children : P.Rule) (clock : C.Rule) (hears knows : Bool) (login : Bytes) (slots limit : ℕ) (base : State Bytes) → RequestsAreSteps (setting hears knows (C.gives clock) (P.gives children) login slots limit base) }
    ensures children { (children : P.Rule) (clock : C.Rule) (hears knows : Bool) (login : Bytes) (slots limit : ℕ) (base : State Bytes) → RequestsKeepChildren (setting hears knows (C.gives clock) (P.gives children) login slots limit base) }
{}
