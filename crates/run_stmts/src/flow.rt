// Where a run goes on behind a statement, and what it seeks among the items of a block.

ghost use Rattle.std.specs.Prelude.{◌≡◌};
ghost use Rattle.sc_world.specs.Exec as spec;
ghost use Rattle.run_stmts.specs.Seen as seen;
ghost use Rattle.run_stmts.specs.Items.{behind};
ghost use Rattle.run_stmts.specs.Loops.{ended_by};

use run_world::Value;
use sc_base::NameId;

/// Where a run goes on behind a statement.
#[derive(Clone, Copy, Debug, PartialEq, Eq)]
pub enum Flow {
    /// At the next statement.
    Next,
    /// Behind the loop or the `switch` round it.
    Breaks,
    /// At the next turn of the loop round it.
    Continues,
    /// At the label.
    GoesTo(NameId),
    /// Behind the function, which gives this.
    Returns(Value),
}

/// What is sought among the items of a block.
#[derive(Clone, Copy, Debug, PartialEq, Eq)]
pub enum Seek {
    /// The first one.
    Here,
    AtLabel(NameId),
    AtCase(u64),
    AtDefault,
}

/// What follows an item of a block: something is sought among the items behind it, or they are left.
#[derive(Clone, Copy, Debug, PartialEq, Eq)]
pub enum After {
    Seeks(Seek),
    Ends(Flow),
}

/// What follows an item behind which the run goes on so.
pub fn what_follows(flow: Flow) -> After
    ensures { seen.after result ≡ behind (seen.flow flow) }
{
    match flow {
        Flow::Next => After::Seeks(Seek::Here),
        Flow::GoesTo(name) => After::Seeks(Seek::AtLabel(name)),
        Flow::Breaks => After::Ends(Flow::Breaks),
        Flow::Continues => After::Ends(Flow::Continues),
        Flow::Returns(value) => After::Ends(Flow::Returns(value)),
    }
}

/// Where a run goes on behind the end of the items.
pub fn left(seek: Seek) -> Flow
    ensures { seen.flow result ≡ spec.left (seen.seek seek) }
{
    match seek {
        Seek::AtLabel(name) => Flow::GoesTo(name),
        Seek::Here | Seek::AtCase(_) | Seek::AtDefault => Flow::Next,
    }
}

/// Where a run goes on behind a `switch`.
pub fn out_of_switch(flow: Flow) -> Flow
    ensures { seen.flow result ≡ spec.out_of_switch (seen.flow flow) }
{
    match flow {
        Flow::Breaks => Flow::Next,
        Flow::Next => Flow::Next,
        Flow::Continues => Flow::Continues,
        Flow::GoesTo(name) => Flow::GoesTo(name),
        Flow::Returns(value) => Flow::Returns(value),
    }
}

/// Where a run goes on behind a loop whose body ends so; none where it goes on with the loop.
pub fn ended(flow: Flow) -> Option<Flow>
    ensures { seen.flow_if result ≡ ended_by (seen.flow flow) }
{
    match flow {
        Flow::Next | Flow::Continues => None,
        Flow::Breaks => Some(Flow::Next),
        Flow::GoesTo(name) => Some(Flow::GoesTo(name)),
        Flow::Returns(value) => Some(Flow::Returns(value)),
    }
}
