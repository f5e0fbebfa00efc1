// The claims: each is the contract of an empty function, so that a check lists it by name.
ghost use Rattle.writer.specs.Claims.{RoundTrip};

// What was written, the reader reads back to the values in use.
pub fn round_trip()
    ensures { RoundTrip }
{}
