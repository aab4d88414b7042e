//! Laws of the definitions: plans say what the plain lists of tasks of a job do, and change as the job does.
ghost use Rattle.std.specs.Prelude.{◌≡◌};
ghost use Rattle.mt_types.specs.declared.body.Body.{Body};
ghost use Rattle.mt_model.specs.Honest.{Bytes};
ghost use Rattle.mt_sched.specs.Laws.{AJobThatWaits, AReadyTask, ReadyTasksAreApart, ReadyTasksAreReady, ReadyIsPlain, WaitsIsPlain, CompleteIsPlain, TaskIsPlain, CommittedIsPlain, OneReadyIsPlain, AllReadyIsPlain, FirstWaitingIsPlain, PlanOfNew, PlanLines, PlanEnd, PlanCommit, PlansFollow, PlansOfNew, PlansOfDone};

/// What is read from the plan of a job is what its plain lists of tasks say.
pub fn plans_are_plain()
    ensures ready { ReadyIsPlain Body }
    ensures waits { WaitsIsPlain Body }
    ensures complete { CompleteIsPlain Body }
    ensures task { TaskIsPlain Body }
    ensures committed { CommittedIsPlain Body }
    ensures one_ready { OneReadyIsPlain Body }
    ensures all_ready { AllReadyIsPlain Body }
    ensures first_waiting { FirstWaitingIsPlain Body }
{}

/// The plan of a job changes as the job does: when it is made, when lines are posted, when its input ends, and when a
/// task is committed.
pub fn plans_follow_jobs()
    ensures new_job { PlanOfNew Body }
    ensures lines { PlanLines Body }
    ensures end_of_input { PlanEnd Body }
    ensures commit { PlanCommit Body }
{}

/// The plans of the jobs that run change as the jobs do: when one is made, when one of them changes and runs on, and
/// when one is done.
pub fn plans_follow_all_jobs()
    ensures made { PlansOfNew Body }
    ensures changed { PlansFollow Body }
    ensures done { PlansOfDone Body }
{}

/// Of jobs whose numbers rise, a task is among the ready ones where it is ready of its job.
pub fn ready_tasks_are_ready()
    ensures references { ReadyTasksAreReady Body }
    ensures bytes { ReadyTasksAreReady Bytes }
{}

/// The ready tasks of jobs whose numbers rise are apart.
pub fn ready_tasks_are_apart()
    ensures references { ReadyTasksAreApart Body }
    ensures bytes { ReadyTasksAreApart Bytes }
{}

/// The first job that waits to be finished is found by its number, and a close that doesn't cancel it is not refused.
pub fn a_job_that_waits()
    ensures references { AJobThatWaits Body }
    ensures bytes { AJobThatWaits Bytes }
{}

/// A commit of a ready task is not refused.
pub fn a_ready_task()
    ensures references { AReadyTask Body }
    ensures bytes { AReadyTask Bytes }
{}
