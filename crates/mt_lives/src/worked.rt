//! Worked examples of lives, computed from the definitions.
ghost use Rattle.std.specs.Prelude.{codes};
ghost use Rattle.mt_model.specs.Worked.{cat_gives, judged};
ghost use Rattle.mt_lives.specs.World.{Steps, first_world};
ghost use Rattle.mt_lives.specs.Worked.{last_world, life};

/// The map job, with a crash between the ends of its two tasks: the life leads to the history of the job without one.
pub fn map_job_with_a_crash()
    ensures { Steps (codes "l") cat_gives judged first_world life last_world }
{}
