// What temps keep. The law is the clause of a function that does nothing.

ghost use Rattle.flow_types.specs.Nodes.{TempsAreOfOneType};

/// In the graph of a function that fits its layout each temp and each slot keeps things of one kind: values of one type,
/// or places of objects of one type. Whatever keeps something there, and whatever reads it, agrees with that.
pub fn temps_are_of_one_type()
    ensures { TempsAreOfOneType }
{}
