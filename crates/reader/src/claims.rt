// The claims: each is the contract of an empty function, so that a check lists it by name.
ghost use Rattle.reader.specs.Edges.{Edges};

// The scope document's edges.
pub fn edges_hold()
    ensures { Edges }
{}
