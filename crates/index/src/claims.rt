// The claims: each is the contract of an empty function, so that a check lists it by name.
ghost use Rattle.index.specs.Claims.{BuiltIsOwn, ListsAtMost};

// An index that is built is the file's own.
pub fn built_is_own()
    ensures { BuiltIsOwn }
{}

// A file's own index lists 4,096 lines in all at most.
pub fn lists_at_most()
    ensures { ListsAtMost }
{}
