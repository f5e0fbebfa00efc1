// The claims: each is the contract of an empty function, so that a check lists it by name.
ghost use Rattle.spelling.specs.Claims.{ReservedExactly, SpellsExactly};

// Among names, exactly the 14 words that 01 lists are reserved.
pub fn reserved_exactly()
    ensures { ReservedExactly }
{}

// Reading a spelling and spelling an operator are inverse.
pub fn spells_exactly()
    ensures { SpellsExactly }
{}
