// What bodies that leave nothing behind change of a walk.

ghost use Rattle.std.specs.Prelude.{◌≡◌, true};
ghost use Rattle.scopes.specs.Frames.{Frames};
ghost use Rattle.sc_tree.specs.declared.stmt.Stmt.{Stmt};
ghost use Rattle.sc_rules.specs.declared.walk.Tag.{Tag};
ghost use Rattle.sc_typing.specs.Here.{Here};
ghost use Rattle.sc_bodies.specs.Bodies.{Inside, stating};
ghost use Rattle.sc_jumps.specs.Jumps.{Found, jumps_of};
ghost use Rattle.plain_bodies.specs.Leaves.{FaultAlone, InBlock};
ghost use Rattle.plain_bodies.specs.Plain.{plain_statement};

/// The typing of a body that leaves nothing behind.
pub fn plain_bodies_leave_nothing()
    ensures { (tags : Frames Tag) (here : Here) (s : Stmt) (i : Inside) → plain_statement tags s ≡ true →
        InBlock tags ((stating here s).bare i) }
{}

/// The test of the labels and jumps of a body.
pub fn jumps_leave_faults()
    ensures { (tags : Frames Tag) (j : Found) → FaultAlone tags (jumps_of j) }
{}
