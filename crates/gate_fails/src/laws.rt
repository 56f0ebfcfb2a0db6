//! What errors one after the other mean for a caller: a law, with no code.

ghost use Rattle.std.specs.Prelude.{◌≡◌, List};
ghost use Rattle.sc_base.specs.declared.pos.Pos.{Pos as Position};
ghost use Rattle.sc_world.specs.Tree.{Ty};
ghost use Rattle.sc_world.specs.World.{Env, World, goes_on};
ghost use Rattle.sc_world.specs.Eval.{fails};
ghost use Rattle.sc_world.specs.Known.{Acting, Locked, acts_as, acts_unless, first_error, given_by};
ghost use Rattle.gate_fails.specs.Errors.{errs_each};

/// Where the first item that errs ends the run, and else the call goes on, the items may as well err one after the other, and the call goes
/// on behind them.
pub fn first_error_ends()
    ensures { (env : Env) (pos : Position) (t : Ty) (a : Acting) (ls : List Locked) (w : World)
        → goes_on (errs_each env (fails env pos) a ls w) (λ u. acts_as env a (given_by env a.occurrence t))
        ≡ acts_unless env (fails env pos) t a (first_error env ls) w }
{}
