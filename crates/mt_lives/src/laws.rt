//! Laws of the life of an account.
ghost use Rattle.std.specs.Prelude.{ℕ, List};
ghost use Rattle.mt_types.specs.declared.task.Fate.{Fate};
ghost use Rattle.mt_types.specs.declared.task.Raw.{Raw};
ghost use Rattle.mt_model.specs.Honest.{Bytes};
ghost use Rattle.mt_lives.specs.World.{LivesStayValid, StepsKeepValid, ToldStays};

use mt_model::laws::Children;

/// Each step of a life keeps a world valid, so each life leads to a valid one; and what a reply told of is never lost.
pub fn lives_stay_valid<P: Children>(children: &P)
    ensures step { (login : List ℕ) (fate_of : Raw → Fate Bytes) → StepsKeepValid login (P.gives children.now) fate_of }
    ensures lives { (login : List ℕ) (fate_of : Raw → Fate Bytes) → LivesStayValid login (P.gives children.now) fate_of }
    ensures told { (login : List ℕ) (fate_of : Raw → Fate Bytes) → ToldStays login (P.gives children.now) fate_of }
{
    let _ = children;
}
