// What stays when ends give no value. Each law is the clause of a function that does nothing.

ghost use Rattle.flow_exits.specs.Laws.{NodesStay, WalksStay};

/// For every list of nodes, every choice and every world the walk is the same when ends with a value become ends without one, where
/// all that is given is nothing.
pub fn walks_stay()
    ensures { WalksStay }
{}

/// What is asked of nodes holds of them as before: each goes on at later ones, its numbers are in range, what it reads was kept, and each
/// temp has its kind.
pub fn nodes_stay()
    ensures { NodesStay }
{}
