// The claims: each is the contract of an empty function, so that a check lists it by name.
ghost use Rattle.judge.specs.Claims.{ResultsAreThere};

// Under values that fit, every line of an accepted file is judged to come to its result, within the line's width, or to 0 where its divisor is zero.
pub fn results_are_there()
    ensures { ResultsAreThere }
{}
