//! The table of the database: its key, its rule, and what each kind of step tells.

ghost use Rattle.std.specs.Prelude.{◌≡◌, ◌<◌};

use crate::{Knows, Work};
use atomic_table::{Join, Play, Split, TableRule};
use plan_core::Plan;
use std::marker::PhantomData;
use std::snapshot::Snapshot;
use std::sync::Arc;

/// What the table of a database is told once: the plan and the work.
#[derive(Drop)]
pub struct About<W> {
    pub plan: Snapshot<Plan>,
    pub work: Snapshot<W>,
}

pub struct DbRule<W> {
    work: PhantomData<W>,
}

impl<W: Work> TableRule<Option<Arc<W::Out>>, Knows<Option<W>>, About<W>> for DbRule<W> {
    ghost use Rattle.std.specs.Prelude.{Some, None};
    ghost use Rattle.summary_db.specs.Rule.{IsRuled};
    ghost use Rattle.summary_db.specs.Views.{fresh};
    ghost use Rattle.summary_db.specs.Told.{IsOutput};

    ghost holds = { λ key. IsRuled key.plan.value.callees None (IsOutput W.defined (Some key.work.value)) };

    ghost first = { λ key. fresh key.plan.value.callees (Some key.work.value) };
}

/// A load of a function's word.
pub struct Look;

impl<S, T> Play<S, Knows<T>> for Look {
    ghost use Rattle.summary_db.specs.Views.{looked};

    ghost then = { λ step me found after. (after ≡ (looked step.word found me.0, me.1)) × (found < 3) };
}

/// A load of the stop word.
pub struct Hear;

impl<S, T> Play<S, Knows<T>> for Hear {
    ghost use Rattle.summary_db.specs.Views.{heard};

    ghost then = { λ step me found after. (after ≡ (heard step.word found me.0, me.1)) × (found < 2) };
}

/// An exchange of a function's word from 0 to 1.
pub struct Take<W> {
    work: PhantomData<W>,
}

impl<W: Work> Play<Option<Arc<W::Out>>, Knows<Option<W>>> for Take<W> {
    ghost use Rattle.summary_db.specs.Told.{Claims};

    ghost then = { λ step me found after. Claims W.defined step.word found me after };
}

/// An exchange of a function's word from 1 to 2.
pub struct Put;

impl<S, T> Play<S, Knows<T>> for Put {
    ghost use Rattle.std.specs.Prelude.{[]};
    ghost use Rattle.summary_db.specs.Views.{put};

    ghost then = { λ step me found after. (found ≡ 1) × (after ≡ (put step.word me.0, [])) };
}

/// The stop word is set.
pub struct Leave;

impl<S, T> Play<S, Knows<T>> for Leave {
    ghost use Rattle.std.specs.Prelude.{[]};
    ghost use Rattle.summary_db.specs.Views.{left};

    ghost then = { λ step me found after. after ≡ (left me.0.place me.0, []) };
}

/// A pass that stands for nothing is cut off.
pub struct Cut;

impl<T> Split<Knows<T>> for Cut {
    ghost use Rattle.summary_db.specs.Views.{fresh};

    ghost left = { λ v. v };

    ghost right = { λ v. fresh v.rows v.work };
}

/// The job of a claim is cut off.
pub struct Begin;

impl<T> Split<Knows<T>> for Begin {
    ghost use Rattle.summary_db.specs.Views.{opens, starts};

    ghost left = { opens };

    ghost right = { starts };
}

/// A pass takes in another.
pub struct Both;

impl<T> Join<Knows<Option<T>>> for Both {
    ghost use Rattle.std.specs.Prelude.{None, []};
    ghost use Rattle.summary_db.specs.Views.{both, fresh};

    ghost both = { both };

    ghost spent = { fresh [] None };
}

/// A pass takes in a job that has ended.
pub struct End;

impl<T> Join<Knows<Option<T>>> for End {
    ghost use Rattle.std.specs.Prelude.{None, []};
    ghost use Rattle.summary_db.specs.Views.{ends, fresh};

    ghost both = { ends };

    ghost spent = { fresh [] None };
}
