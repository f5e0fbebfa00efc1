// The line table, in two parts: the heads, with the operator's number in front of them, and the bodies. No other module knows how a line is laid out.
ghost use Rattle.std.specs.Prelude.{◌≡◌, ◌&&◌, ◌+◌, ◌<◌, leb, ltb, length};
ghost use Rattle.edition.specs.Edition.{max_lines};
ghost use Rattle.arithmetic.specs.Numbering.{operator_numbered};
ghost use Rattle.store.specs.Tables.{line_bodies, table_heads, table_bodies, variable_mark, head_width, head_at, body_at, operator_in, with_operator, with_head, with_body, without_operands};

use arithmetic::Operator;
use arithmetic::numbering::{operator_number, operator_numbered};
use edition::Edition;

// The heads of a line with its operator's number, and its bodies.
const LINE_HEADS: usize = 5;

const LINE_BODIES: usize = 4;

pub const TABLE_HEADS: usize = Edition::LINES * LINE_HEADS;

pub const TABLE_BODIES: usize = Edition::LINES * LINE_BODIES;

// The slots of a line.
pub const OUTPUT: usize = 0;

pub const FIRST: usize = 1;

pub const SECOND: usize = 2;

pub const THIRD: usize = 3;

// Above every width: what a variable's head has beyond its width.
pub(crate) const VARIABLE_MARK: u8 = 128;

// The head where no operand is.
pub const ABSENT: u8 = 0;

// The head of a constant of this width, and of a variable.
pub fn constant_head(width: u64) -> u8
    ensures { result ≡ head_width width }
{
    (width % VARIABLE_MARK as u64) as u8
}

pub fn variable_head(width: u64) -> u8
    ensures { result ≡ variable_mark + head_width width }
{
    VARIABLE_MARK + constant_head(width)
}

// Whether a head is a variable's, or a constant's.
pub fn is_variable(head: u8) -> bool
    ensures { result ≡ leb variable_mark head }
{
    VARIABLE_MARK <= head
}

pub fn is_constant(head: u8) -> bool
    ensures { result ≡ (ltb 0 head && ltb head variable_mark) }
{
    (ABSENT < head) & (head < VARIABLE_MARK)
}

// The width in a head.
pub fn head_width(head: u8) -> u64
    ensures { result ≡ head_width head }
{
    (head % VARIABLE_MARK) as u64
}

fn operator_by(number: u8) -> Operator
    ensures { result ≡ operator_numbered number }
{
    operator_numbered(number as u64)
}

// The parts of line n.
pub fn operator_of(heads: &[u8; TABLE_HEADS], n: usize) -> Operator
    requires { (length heads.now ≡ table_heads) × (n < max_lines) }
    ensures { result ≡ operator_in heads.now n }
{
    let i = n * LINE_HEADS;
    operator_by(heads[i])
}

pub fn head_of(heads: &[u8; TABLE_HEADS], n: usize, slot: usize) -> u8
    requires { (length heads.now ≡ table_heads) × (n < max_lines) × (slot < line_bodies) }
    ensures { result ≡ head_at heads.now n slot }
{
    let i = n * LINE_HEADS + 1 + slot;
    heads[i]
}

pub fn body_of(bodies: &[u64; TABLE_BODIES], n: usize, slot: usize) -> u64
    requires { (length bodies.now ≡ table_bodies) × (n < max_lines) × (slot < line_bodies) }
    ensures { result ≡ body_at bodies.now n slot }
{
    let i = n * LINE_BODIES + slot;
    bodies[i]
}

// Puts the parts of line n into the table.
pub fn put_operator(heads: &mut [u8; TABLE_HEADS], n: usize, op: Operator)
    requires { (length heads.old ≡ table_heads) × (n < max_lines) }
    ensures { (length heads.new ≡ table_heads) × (heads.new ≡ with_operator heads.old n op) }
{
    let i = n * LINE_HEADS;
    heads[i] = operator_number(op) as u8;
}

pub fn put_head(heads: &mut [u8; TABLE_HEADS], n: usize, slot: usize, head: u8)
    requires { (length heads.old ≡ table_heads) × (n < max_lines) × (slot < line_bodies) }
    ensures { (length heads.new ≡ table_heads) × (heads.new ≡ with_head heads.old n slot head) }
{
    let i = n * LINE_HEADS + 1 + slot;
    heads[i] = head;
}

pub fn put_body(bodies: &mut [u64; TABLE_BODIES], n: usize, slot: usize, body: u64)
    requires { (length bodies.old ≡ table_bodies) × (n < max_lines) × (slot < line_bodies) }
    ensures { (length bodies.new ≡ table_bodies) × (bodies.new ≡ with_body bodies.old n slot body) }
{
    let i = n * LINE_BODIES + slot;
    bodies[i] = body;
}

// Takes output and operands out of line n.
pub fn clear_operands(heads: &mut [u8; TABLE_HEADS], n: usize)
    requires { (length heads.old ≡ table_heads) × (n < max_lines) }
    ensures { (length heads.new ≡ table_heads) × (heads.new ≡ without_operands heads.old n) }
{
    put_head(heads, n, OUTPUT, ABSENT);
    put_head(heads, n, FIRST, ABSENT);
    put_head(heads, n, SECOND, ABSENT);
    put_head(heads, n, THIRD, ABSENT);
}
