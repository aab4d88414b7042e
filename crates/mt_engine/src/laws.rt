//! Laws of an engine and its history.
ghost use Rattle.std.specs.Prelude.{◌≡◌, ℕ, Option, Some, false, option_map};
ghost use Rattle.std.specs.Option.{ForSome};
ghost use Rattle.mt_model.specs.CommandStep.{replay};
ghost use Rattle.mt_body.specs.Stored.{IsStored, bytes_of};
ghost use Rattle.mt_disk.specs.Files.{Files};
ghost use Rattle.mt_log.specs.LogImage.{payloads_of};
ghost use Rattle.mt_log.specs.LogState.{told};
ghost use Rattle.mt_model.specs.Rows.{object_at};
ghost use Rattle.mt_model.specs.Bodies.{OfJob};
ghost use Rattle.mt_model.specs.State.{State, job_at};
ghost use Rattle.mt_path.specs.AccountPath.{AccountPath};
ghost use Rattle.mt_types.specs.declared.body.Body.{Body};
ghost use Rattle.mt_types.specs.Values.{job_with};
ghost use Rattle.mt_types.specs.declared.job.Job.{Job};
ghost use Rattle.mt_types.specs.declared.object.Object.{Object};
ghost use Rattle.mt_opening.specs.Current.{EngineState, IsCurrent, Serves};
ghost use Rattle.mt_engine.specs.Reading.{HasObjects};
ghost use Rattle.mt_opening.specs.History.{Bytes, History};

/// The objects of an engine's state are those of its history, with the bytes that its log has for their bodies. Each of these bodies
/// stands there, also where only some history is known to be the engine's.
pub fn state_has_the_objects()
    ensures objects { (seen : Option Files) (engine : EngineState) (base : State Bytes) (h : History) → (i : IsCurrent seen engine base h) → HasObjects (payloads_of i.is_read.files) engine base h }
    ensures stored { (seen : Option Files) (engine : EngineState) (path : AccountPath) (object : Object Body) → Serves seen engine → engine.log.closed ≡ false
        → object_at engine.state.rows path ≡ Some object → ForSome (told seen) (λ ps. IsStored ps object.body) }
{}

/// The bodies of a job stand in the log, also where only some history is known to be the engine's.
pub fn jobs_are_stored()
    ensures { (seen : Option Files) (engine : EngineState) (number : ℕ) (job : Job Body) → Serves seen engine → engine.log.closed ≡ false
        → job_at engine.state.jobs number ≡ Some job → ForSome (told seen) (λ ps. OfJob (IsStored ps) job) }
{}

/// The jobs of an engine's state are those of its history, with the bytes that its log has for their bodies.
pub fn history_has_the_jobs()
    ensures { (seen : Option Files) (engine : EngineState) (base : State Bytes) (h : History) → (i : IsCurrent seen engine base h) → (number : ℕ)
        → job_at (replay base h).jobs number ≡ option_map (job_with (bytes_of (payloads_of i.is_read.files))) (job_at engine.state.jobs number) }
{}
