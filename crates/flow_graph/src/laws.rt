// What holds of every graph. Each law is the clause of a function that does nothing.

ghost use Rattle.std.specs.Prelude.{◌≡◌, ◌<◌, ℕ, Bool, List};
ghost use Rattle.flow_graph.specs.Laws.{WalksAreRuns, HasNoCycle};
ghost use Rattle.flow_graph.specs.Conditions.{NodesAreFine, WhatIsReadWasKept};

/// For every function and every choice the walk of the graph is the run of the tree: it has the same result or end, the
/// same store and the same trace.
pub fn walks_are_runs()
    ensures { WalksAreRuns }
{}

/// Each node goes on at nodes with greater numbers, so the graph has no cycle and every walk ends; and there is a first
/// node.
pub fn there_is_no_cycle()
    ensures { HasNoCycle }
{}

/// The temps and slots that nodes name are among those that are counted, and the expressions of nodes have no call, no
/// `&&`, no `||` and no `? :`.
pub fn nodes_are_fine()
    ensures { NodesAreFine }
{}

/// On every way from the first node to one that reads a temp or a slot, a node before it keeps that one.
pub fn what_is_read_was_kept()
    ensures { WhatIsReadWasKept }
{}
