//! Laws of turns: what stays right between two of them, what turns behind turns are, and that what they add is honest.
ghost use Rattle.std.specs.Prelude.{◌≡◌, ◌+◌, ◌++◌, ℕ, Bool, List, Option, true, false, is_some};
ghost use Rattle.std.specs.List.{flat_map};
ghost use Rattle.mt_base.specs.Lists.{IsPrefixOf};
ghost use Rattle.mt_disk.specs.Files.{Files};
ghost use Rattle.mt_lives.specs.World.{LifeStep, Steps, ValidWorld, World};
ghost use Rattle.mt_model.specs.CommandStep.{replay};
ghost use Rattle.mt_model.specs.Honest.{HonestFrom};
ghost use Rattle.mt_model.specs.State.{State};
ghost use Rattle.mt_records.specs.Fate.{fate};
ghost use Rattle.mt_spawn.specs.Children.{Child, Seen};
ghost use Rattle.mt_spawn.specs.declared.task.Left.{Left};
ghost use Rattle.mt_opening.specs.Current.{EngineState, IsCurrent, Over, Serves};
ghost use Rattle.mt_opening.specs.History.{Bytes, History};
ghost use Rattle.mt_runner.specs.Account.{AccountSide};
ghost use Rattle.mt_runner.specs.Attempts.{ArePaired, Attempt, RunnerState, attempts};
ghost use Rattle.mt_runner.specs.AtWork.{AreRight, AtWork};
ghost use Rattle.mt_runner.specs.Living.{AreAttempts, Leads};
ghost use Rattle.mt_runner.specs.Turning.{Follow, Led, MayTurn, TurnTaken, added_of, companies, working_of};
ghost use Rattle.mt_runner.specs.declared.runner.Started.{Started};
ghost use Rattle.mt_runner.specs.declared.turn.Turn.{Turn};

use mt_edge::Clock;
use mt_spawn::Spawner;

/// Attempts that are right over a history stay right as it goes on, also by commands that are no turn's.
pub fn attempts_stay_right<P: Spawner>()
    ensures { (rule : P.Rule) (login : Bytes) (seen : Option Files) (engine : EngineState) (base : State Bytes) (h more : History) (xs : List (Attempt P.Fate)) → IsCurrent seen engine base (h ++ more)
        → AreRight login (P.gives rule) (P.may rule) (replay base h) xs → AreRight login (P.gives rule) (P.may rule) (replay base (h ++ more)) xs }
{}

/// A runner stays at work where others use its engine: where each history goes on as the engine's, and neither children nor what is held
/// change.
pub fn at_work_on<P: Spawner>()
    ensures { (rule : P.Rule) (children : Seen P.Fate) (held : Option Left) (runner : RunnerState) (seen seen' : Option Files) (engine engine' : EngineState) → engine.log.closed ≡ false → Serves seen engine
        → (engine'.log.closed ≡ false → is_some seen' ≡ is_some seen)
        → ((base : State Bytes) (h : History) → Over seen engine base h → (k : History) × IsPrefixOf h k × (engine'.log.closed ≡ false → Over seen' engine' base k))
        → AtWork (P.may rule) (P.gives rule) children held runner seen engine → AtWork (P.may rule) (P.gives rule) children held runner seen' engine' }
{}

/// What a turn adds came of a child, or is the end of a job: it is well made, allowed and honest, where the disk tells what it holds.
pub fn turned_honest<P: Spawner, C: Clock>()
    ensures { (children : P.Rule) (clock : C.Rule) (login : Bytes) (slots limit : ℕ) (base : State Bytes) (h : History) (used asked : ℕ) (t : TurnTaken)
        → MayTurn (working_of true (C.gives clock) (P.gives children) login slots limit base) h used asked t → HonestFrom login (P.gives children) (fate login) (replay base h) t.added }
{}

/// And so is what turns add that follow one another.
pub fn follow_honest<P: Spawner, C: Clock>()
    ensures { (children : P.Rule) (clock : C.Rule) (login : Bytes) (slots limit : ℕ) (base : State Bytes) (h : History) (used asked : ℕ) (ts : List TurnTaken)
        → Follow (working_of true (C.gives clock) (P.gives children) login slots limit base) h used asked ts → HonestFrom login (P.gives children) (fate login) (replay base h) (flat_map added_of ts) }
{}

/// The company of commands behind commands is the sum of both.
pub fn companies_add()
    ensures { (slots : ℕ) (s : State Bytes) (a b : History) → companies slots s (a ++ b) ≡ companies slots s a + companies slots (replay s a) b }
{}

/// Turns behind turns are turns.
pub fn led_on<P: Spawner, C: Clock>()
    ensures { (children : P.Rule) (clock : C.Rule) (knows : Bool) (login : Bytes) (slots limit : ℕ) (base : State Bytes) (old mid new : AccountSide) (ts us : List TurnTaken)
        → Led (working_of knows (C.gives clock) (P.gives children) login slots limit base) old ts mid
        → Led (working_of knows (C.gives clock) (P.gives children) login slots limit base) mid us new
        → Led (working_of knows (C.gives clock) (P.gives children) login slots limit base) old (ts ++ us) new }
{}

/// What a turn or a drain may do is steps of a life, so a valid world leads to a valid one: no two attempts are at one task, each is run
/// with and reads what its task does, and the history stays honest.
pub fn turns_are_steps<P: Spawner>()
    ensures steps { (rule : P.Rule) (login : Bytes) (end : Turn) (w : World) (steps : List LifeStep) (v : World) → Leads login (P.gives rule) (fate login) end w steps v → Steps login (P.gives rule) (fate login) w steps v }
    ensures valid { (rule : P.Rule) (login : Bytes) (end : Turn) (w : World) (steps : List LifeStep) (v : World) → Leads login (P.gives rule) (fate login) end w steps v → ValidWorld login (P.gives rule) (fate login) w
        → ValidWorld login (P.gives rule) (fate login) v }
{}

/// Where a runner is at work, each child that it keeps is an attempt, under its ticket and at its task.
pub fn children_are_attempts<P: Spawner>()
    ensures { (rule : P.Rule) (login : Bytes) (s : State Bytes) (kept : List Started) (live : List (Child P.Fate)) → ArePaired kept live → AreRight login (P.gives rule) (P.may rule) s (attempts kept live)
        → AreAttempts login (P.gives rule) (fate login) s kept }
{}
