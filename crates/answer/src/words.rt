// The solution words.
ghost use Rattle.std.specs.Prelude.{◌≡◌};
ghost use Rattle.answer.specs.SolutionWords.{satisfiable as satisfiableWord, unsatisfiable as unsatisfiableWord, unknown as unknownWord};

pub fn satisfiable() -> [u8; 11]
    ensures { result ≡ satisfiableWord }
{
    *b"SATISFIABLE"
}

pub fn unsatisfiable() -> [u8; 13]
    ensures { result ≡ unsatisfiableWord }
{
    *b"UNSATISFIABLE"
}

pub fn unknown() -> [u8; 7]
    ensures { result ≡ unknownWord }
{
    *b"UNKNOWN"
}
