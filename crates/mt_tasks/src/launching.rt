//! The start of a task.
ghost use Rattle.std.specs.Prelude.{◌≡◌, ℕ, List, Option, false, true, None, Some, IfOk, IfSome};
ghost use Rattle.mt_base.specs.Counts.{NeverFell, Rose};
ghost use Rattle.mt_disk.specs.CrashModel.{OnlyRead};
ghost use Rattle.mt_opening.specs.Current.{EngineIsReady};
ghost use Rattle.mt_model.specs.State.{job_at};
ghost use Rattle.mt_phase.specs.Orders.{order_at};
ghost use Rattle.mt_spawn.specs.Children.{Begins};
ghost use Rattle.mt_spawn.specs.Orders.{input_from, run_from};
ghost use Rattle.mt_tasks.specs.Launching.{Launches};
ghost use Rattle.mt_tasks.specs.Reading.{ReadsTask, first_place, input_left};
ghost use Rattle.mt_tasks.specs.Right.{IsRightNow};
ghost use Rattle.mt_tasks.specs.Standing.{is_ready_in};

use crate::bodies::body_count;
use crate::input::TaskInput;
use mt_disk::Disk;
use mt_engine::Engine;
use mt_phase::order_of;
use mt_spawn::{Begun, Order, Spawner, Ticket};
use mt_types::Task;
use std::alloc::{AllocError, Global};

/// What became of a start.
#[derive(Clone, Copy, Debug, PartialEq, Eq)]
pub enum Launched {
    /// This child runs the task.
    Began(Ticket),
    /// The spawner failed, and counted it.
    Failed,
    /// The disk failed where the task's bytes were read, and counted it.
    InputFailed,
    /// Out of memory.
    Memory,
}

// What a ready task is run with, but for the bytes that it reads.
fn task_order(alloc: Global, login: &str, engine: &Engine, task: &Task) -> Result<Order, AllocError>
    requires { is_ready_in engine.now.state task.now ≡ true }
    ensures { IfOk result (λ o. IfSome (job_at engine.now.state.jobs task.now.job) (λ j. order_at (λ b. b.len) login.now j task.now ≡ Some o)) }
{
    // so few commands that the number of each job has an identifier
    let _ = engine.position();
    let jobs = engine.jobs();
    let Some(job) = jobs.get(task.job) else {
        unreachable!()
    };
    let input = jobs.input_len(task)?;
    order_of(alloc, login, job, *task, jobs.item(task), input)
}

// Starts a child by an order, with the bytes that its task reads, of so many bodies.
fn start_task<D: Disk, P: Spawner>(
    alloc: Global,
    engine: &Engine,
    disk: &mut D,
    spawner: &mut P,
    task: &Task,
    count: usize,
    order: &Order,
) -> Begun
    requires reads { ReadsTask D.seen disk.old engine.now task.now count }
    requires free { P.held spawner.old ≡ None }
    ensures begins { (left : Option (List ℕ)) × Begins (P.may (P.rule spawner.old)) (λ all raw. P.gives (P.rule spawner.old) (run_from order.now all) (input_from order.now all) raw)
        (input_left (D.seen disk.old) engine.now task.now first_place) left (P.seen spawner.old) result (P.seen spawner.new) }
    ensures input { result ≡ Begun.InputFailed → Rose (D.faults disk.old) (D.faults disk.new) }
    ensures read { OnlyRead D.seen D.may_leave D.moment D.left_since disk.old disk.new }
    ensures stays { D.stays disk.old disk.new }
    ensures faults { NeverFell (D.faults disk.old) (D.faults disk.new) }
    ensures free { P.held spawner.new ≡ None }
    ensures rule { P.rule spawner.new ≡ P.rule spawner.old }
{
    let mut bytes = TaskInput::new(engine, disk, *task, count);
    spawner.start(alloc, order, &mut bytes)
}

/// Starts a child on a ready task, with the bytes that the task reads.
pub fn launch<D: Disk, P: Spawner>(
    alloc: Global,
    login: &str,
    engine: &Engine,
    disk: &mut D,
    spawner: &mut P,
    task: &Task,
) -> Launched
    requires engine { EngineIsReady D.seen D.may_leave disk.old engine.now }
    requires free { P.held spawner.old ≡ None }
    requires ready { is_ready_in engine.now.state task.now ≡ true }
    ensures launches { Launches (IsRightNow login.now (P.gives (P.rule spawner.old)) (P.may (P.rule spawner.old)) (D.seen disk.old) engine.now task.now)
        (P.seen spawner.old) result (P.seen spawner.new) }
    ensures input { result ≡ Launched.InputFailed → Rose (D.faults disk.old) (D.faults disk.new) }
    ensures read { OnlyRead D.seen D.may_leave D.moment D.left_since disk.old disk.new }
    ensures stays { D.stays disk.old disk.new }
    ensures faults { NeverFell (D.faults disk.old) (D.faults disk.new) }
    ensures free { P.held spawner.new ≡ None }
    ensures rule { P.rule spawner.new ≡ P.rule spawner.old }
{
    let Ok(order) = task_order(alloc, login, engine, task) else {
        return Launched::Memory;
    };
    let Some(count) = body_count(engine, task) else {
        return Launched::Memory;
    };
    match start_task(alloc, engine, disk, spawner, task, count, &order) {
        Begun::Began(ticket) => Launched::Began(ticket),
        Begun::Failed => Launched::Failed,
        Begun::InputFailed => Launched::InputFailed,
        Begun::Memory => Launched::Memory,
    }
}
