//! Unit propagation without watches: passes over all clauses until none of them says anything further.
//! It makes a No exact. It runs after propagation with watches, which leaves it nothing to find, so it
//! is one pass before a No, and none before a yes.

ghost use Rattle.std.specs.Prelude.{◌≡◌, IfOk};
ghost use Rattle.rup_check.specs.Stored.{present, StoredBelow};
ghost use Rattle.rup_check.specs.Propagating.{Extends, IsPass, IsClosing, joined};

use crate::marks::Marks;
use crate::store::Store;
use crate::visit::{Visited, visit};
use sat_base::OutOfMemory;

/// What a pass over the clauses found so far.
#[derive(Clone, Copy, Debug, PartialEq, Eq)]
pub enum Pass {
    /// A clause is falsified.
    Conflict,
    /// Literals were marked.
    Changed,
    /// No clause said anything.
    Unchanged,
}

/// What was found with one clause more.
fn join(found: Pass, here: Visited) -> Pass
    ensures { result ≡ joined found here }
{
    match here {
        Visited::Falsified => Pass::Conflict,
        Visited::Forced => Pass::Changed,
        Visited::Gone => found,
        Visited::Settled => found,
        Visited::Open(_, _) => found,
    }
}

/// Looks at each clause once, up to one that is falsified.
fn pass_over(store: &Store, marks: &mut Marks) -> Result<Pass, OutOfMemory>
    requires { StoredBelow marks.old.vars store.now }
    ensures extends { Extends (present store.now) marks.old marks.new }
    ensures found { IfOk result (IsPass (present store.now) marks.old marks.new) }
{
    let mut found = Pass::Unchanged;
    for id in 0..store.count() {
        let here = visit(store, marks, id)?;
        found = join(found, here);
        if found == Pass::Conflict {
            return Ok(found);
        }
    }
    Ok(found)
}

/// Looks at the clauses until one is falsified (`true`), or no clause says anything further.
pub fn close(store: &Store, marks: &mut Marks) -> Result<bool, OutOfMemory>
    requires { StoredBelow marks.old.vars store.now }
    ensures extends { Extends (present store.now) marks.old marks.new }
    ensures found { IfOk result (IsClosing (present store.now) marks.new.lits) }
{
    'passes: loop {
        match pass_over(store, marks)? {
            Pass::Conflict => return Ok(true),
            Pass::Changed => {}
            Pass::Unchanged => return Ok(false),
        }
    }
}
