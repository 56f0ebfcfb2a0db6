// What one node does to where the walk is. Each law is the clause of a function that does nothing.

ghost use Rattle.flow_stages.specs.NodeKinds.{NodesAreAt, NodesGoOnAt, NodesAreFineAt, ReadsAreAsked, AskedBefore, MarksAct, BranchesAct};
ghost use Rattle.flow_stages.specs.Laws.{MarksGoOn, TestsGoOn, ExitsEnd, AsidesEnd, DeadNodesPass, StepsGoOn};

/// A node that changes neither the store nor what is kept hands the walk on.
pub fn marks_go_on()
    ensures { MarksGoOn }
{}

/// A node with two sides hands the walk on to the one that its test says.
pub fn tests_go_on()
    ensures { TestsGoOn }
{}

/// Where the function ends, the store and the result are those of the run.
pub fn exits_end()
    ensures { ExitsEnd }
{}

/// Where the walk is set aside it is over, and no error is told.
pub fn asides_end()
    ensures { AsidesEnd }
{}

/// A node to which no walk comes changes nothing.
pub fn dead_nodes_pass()
    ensures { DeadNodesPass }
{}

/// A node that makes a step and keeps what it gives hands the walk on, or tells how the run ended.
pub fn steps_go_on()
    ensures { StepsGoOn }
{}

/// The node with a number: the list of nodes from it on, the nodes at which it goes on, and the temps that it names.
pub fn nodes_are_at()
    ensures at { NodesAreAt }
    ensures on { NodesGoOnAt }
    ensures fine { NodesAreFineAt }
{}

/// What a node reads is asked for at it; so is what is asked for where it goes on, if the node does not keep it.
pub fn reads_are_asked()
    ensures here { ReadsAreAsked }
    ensures later { AskedBefore }
{}

/// A node of an event adds it to the trace and goes on.
pub fn marks_act()
    ensures { MarksAct }
{}

/// A branch goes on at one of two nodes, by the value in a temp.
pub fn branches_act()
    ensures { BranchesAct }
{}
