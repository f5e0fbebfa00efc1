// The claims: each is the contract of an empty function, so that a check lists it by name.
ghost use Rattle.constraint.specs.Sound.{AcceptedIsSound};

// An accepted file is well formed and well typed within the limits.
pub fn accepted_is_sound()
    ensures { AcceptedIsSound }
{}
