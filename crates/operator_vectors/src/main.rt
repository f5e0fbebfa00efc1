// Prints what `operator::apply` answers to each vector of standard input, a line for each.
// tools/operator_vectors.py writes the vectors and, by an evaluator of its own, the answers.
//
// A vector has a fixed length and is hexadecimal: the operator's number, the result width, and the
// operands, as in `10 08 08:0000000000000001 08:0000000000000080 00:0000000000000000`.
#![tactic(auto)]

ghost use Rattle.std.specs.Prelude.{◌+◌, ◌≤◌};

use arithmetic::Word;
use arithmetic::numbering::operator_numbered;
use refusal::Refusal;
use std::io::{self, Read, Write};

// The bytes of a line, with its line end.
const LINE: usize = 66;

// The number of the last operator.
const LAST: u64 = 30;

// The operand that stands at `at`: two digits of its width, a colon, sixteen of its value.
fn word(line: &[u8; LINE], at: usize) -> Word
    requires { at + 19 ≤ 66 }
{
    Word {
        width: reporting::hex(line, at, at + 2),
        value: reporting::hex(line, at + 3, at + 19),
    }
}

fn print_applied<W: Write>(output: &mut W, reply: Result<Option<u64>, Refusal>) -> io::Result<()> {
    match reply {
        Ok(Some(value)) => write!(output, "{value}")?,
        Ok(None) => output.write_all(b"zero divisor")?,
        Err(refusal) => reporting::print_refusal(output, refusal)?,
    }
    output.write_all(b"\n")
}

// Answers one vector; false where no whole line is left, or its operator is unknown.
fn run_vector<R: Read, W: Write>(input: &mut R, output: &mut W) -> io::Result<bool> {
    let mut line = [0u8; LINE];
    if !reporting::next_bytes(input, &mut line)? {
        return Ok(false);
    }
    let number = reporting::hex(&line, 0, 2);
    if number > LAST {
        return Ok(false);
    }
    let width = reporting::hex(&line, 3, 5);
    let a = word(&line, 6);
    let b = word(&line, 26);
    let c = word(&line, 46);
    let reply = operator::apply(operator_numbered(number), width, a, b, c);
    print_applied(output, reply)?;
    Ok(true)
}

// A proved loop has to end, and nothing says that the input does: so the turns are counted.
fn main(rt: HostRuntime) -> io::Result<()> {
    let mut input = rt.stdin();
    let mut output = rt.stdout();
    for _ in 0..u64::MAX {
        if !run_vector(&mut input, &mut output)? {
            break;
        }
    }
    Ok(())
}
