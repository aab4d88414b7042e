//! The law of orders.
ghost use Rattle.mt_phase.specs.Laws.{OrdersAreRuns};

/// An order over the bytes that come with it is the run of its task as the model has it, and reads the task's input.
pub fn orders_are_runs()
    ensures { OrdersAreRuns }
{}
