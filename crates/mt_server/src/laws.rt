//! Laws of events, and of runs one behind the other.
ghost use Rattle.std.specs.Prelude.{◌≡◌, ◌++◌, Bool, false, ℕ, List, length, map};
ghost use Rattle.std.specs.List.{list_any};
ghost use Rattle.mt_model.specs.State.{State};
ghost use Rattle.mt_opening.specs.History.{Bytes, HasHistory};
ghost use Rattle.mt_lives.specs.Lives.{RunsAreLives, ToldStays};
ghost use Rattle.mt_runner.specs.Account.{AccountSide};
ghost use Rattle.mt_connection.specs.Sides.{side_of};
ghost use Rattle.mt_connection.specs.Transcript.{setting};
ghost use Rattle.mt_server.specs.Chains.{ImagesAreCrashes, LivesAreHonest, LivesKeepArchives, RunsAreHonest, RunsHaveArchives};
ghost use Rattle.mt_server.specs.Guarantees.{Visited};
ghost use Rattle.mt_server.specs.Events.{AreWhole, DoorSide, DrainsBehind, Event, Events, GoesOn, Had, Passed, Round, Rounds, fatal, firsts, given_of, lasts, over_in, turns_in};

use mt_disk::Disk;
use mt_edge::{Both, Clock};
use mt_spawn::Spawner;

/// Events after events, none of which broke, are events, and so are the links of a door; rounds after rounds are rounds. Where each link
/// had one turn, as many were taken and are over as came, and each was given back.
pub fn events_go_on<D: Disk, P: Spawner, L: Both, C: Clock>()
    ensures events { (disk : D) (rule : C.Rule) (children : P.Rule) (knows : Bool) (login : Bytes) (slots limit : ℕ) (base : State Bytes) (old mid new : AccountSide) (xs ys : List (Event L)) → GoesOn xs
        → Events (Visited (side_of L.left L.got L.read_faults L.write_faults) L.stays (setting false knows (C.gives rule) (P.gives children) login slots limit base) (D.left_since disk)) (DrainsBehind (setting false knows (C.gives rule) (P.gives children) login slots limit base)) old xs mid
        → Events (Visited (side_of L.left L.got L.read_faults L.write_faults) L.stays (setting false knows (C.gives rule) (P.gives children) login slots limit base) (D.left_since disk)) (DrainsBehind (setting false knows (C.gives rule) (P.gives children) login slots limit base)) mid ys new
        → Events (Visited (side_of L.left L.got L.read_faults L.write_faults) L.stays (setting false knows (C.gives rule) (P.gives children) login slots limit base) (D.left_since disk)) (DrainsBehind (setting false knows (C.gives rule) (P.gives children) login slots limit base)) old (xs ++ ys) new }
    ensures rounds { (disk : D) (rule : C.Rule) (children : P.Rule) (knows : Bool) (login : Bytes) (slots limit : ℕ) (base : State Bytes) (old mid new : AccountSide) (xs ys : List (Round L)) → list_any (λ x. fatal (Had x)) xs ≡ false
        → Rounds (Visited (side_of L.left L.got L.read_faults L.write_faults) L.stays (setting false knows (C.gives rule) (P.gives children) login slots limit base) (D.left_since disk)) (DrainsBehind (setting false knows (C.gives rule) (P.gives children) login slots limit base)) old xs mid
        → Rounds (Visited (side_of L.left L.got L.read_faults L.write_faults) L.stays (setting false knows (C.gives rule) (P.gives children) login slots limit base) (D.left_since disk)) (DrainsBehind (setting false knows (C.gives rule) (P.gives children) login slots limit base)) mid ys new
        → Rounds (Visited (side_of L.left L.got L.read_faults L.write_faults) L.stays (setting false knows (C.gives rule) (P.gives children) login slots limit base) (D.left_since disk)) (DrainsBehind (setting false knows (C.gives rule) (P.gives children) login slots limit base)) old (xs ++ ys) new }
    ensures whole { (es : List (Event L)) → AreWhole es → (firsts (turns_in es) ≡ length es) × (lasts (turns_in es) ≡ length es) × (over_in (turns_in es) ≡ map given_of (turns_in es)) }
    ensures links { (old mid new : DoorSide L) (xs ys : List (Event L)) → Passed old xs mid → Passed mid ys new → Passed old (xs ++ ys) new }
{}

/// Runs one behind the other are lives of the store, over the histories that its logs stand for: a run over a base is a life over each whole
/// history that leads to it, and what each life told of stands at the end.
pub fn runs_are_lives()
    ensures lives { RunsAreLives HasHistory }
    ensures stays { ToldStays HasHistory }
{}

/// An image that a run leaves is what a crash leaves of the world of its history: what was told of stands, and no attempt at a task is left. So the
/// next run, which opens it, begins in that world.
pub fn images_are_crashes<P: Spawner>()
    ensures { (children : P.Rule) (login : Bytes) → ImagesAreCrashes login (P.gives children) }
{}

/// Where what each run added is honest, the whole history of all runs is, whichever images they were opened from.
pub fn lives_are_honest<P: Spawner>()
    ensures run { (children : P.Rule) (login : Bytes) → RunsAreHonest login (P.gives children) }
    ensures lives { (children : P.Rule) (login : Bytes) → LivesAreHonest login (P.gives children) }
{}

/// Where the archives of what each run added are the texts of their jobs, so are those of the whole history.
pub fn lives_keep_archives()
    ensures run { RunsHaveArchives }
    ensures lives { LivesKeepArchives }
{}
