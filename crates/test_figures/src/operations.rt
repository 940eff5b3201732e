// The operations of 16.16 numbers. The expected bits are worked out in exact fractions, by
// model/numbers.py.
use fixed::Fixed;
use std::io;
use std::io::Read;

// Every table, in four groups.
pub(crate) fn run<R: Read>(rt: &impl Print, input: &mut R) -> io::Result<()> {
    products_and_quotients(rt, input)?;
    sums_and_differences(rt, input)?;
    operations_on_one(rt, input)?;
    order_and_constants(rt, input)
}

fn products_and_quotients<R: Read>(rt: &impl Print, input: &mut R) -> io::Result<()> {
    table(rt, input, "products", |a, b, _| a.mul(b))?;
    table(rt, input, "quotients", |a, b, _| a.div(b))?;
    table(rt, input, "a*b/c", mul_div)
}

fn sums_and_differences<R: Read>(rt: &impl Print, input: &mut R) -> io::Result<()> {
    table(rt, input, "sums", |a, b, _| a.add(b))?;
    table(rt, input, "differences", |a, b, _| a.sub(b))?;
    table(rt, input, "midpoints", |a, b, _| a.midpoint(b))
}

fn operations_on_one<R: Read>(rt: &impl Print, input: &mut R) -> io::Result<()> {
    table(rt, input, "negations", |a, _, _| a.neg())?;
    table(rt, input, "absolute values", |a, _, _| a.abs())?;
    table(rt, input, "doublings", |a, _, _| a.twice())?;
    table(rt, input, "rounds", |a, _, _| a.round())?;
    table(rt, input, "fractions", |a, _, _| a.fract())?;
    table(rt, input, "halves", |a, _, _| a.half())?;
    table(rt, input, "outputs", |a, _, _| a.trunc())
}

fn order_and_constants<R: Read>(rt: &impl Print, input: &mut R) -> io::Result<()> {
    table(rt, input, "less", |a, b, _| truth(a.less(b)))?;
    table(rt, input, "at most", |a, b, _| truth(a.at_most(b)))?;
    table(rt, input, "same", |a, b, _| truth(a.same(b)))?;
    table(rt, input, "minima", |a, b, _| a.min(b))?;
    table(rt, input, "maxima", |a, b, _| a.max(b))?;
    table(rt, input, "constants", |a, _, _| constant(a.bits))
}

fn table<R: Read, F: Fn(Fixed, Fixed, Fixed) -> Fixed>(
    rt: &impl Print,
    input: &mut R,
    name: &str,
    operation: F,
) -> io::Result<()>
    requires { (f : _) (a : _) (b : _) (c : _) → F.pre f a b c }
{
    test_tables::run_table(rt, input, name, |row| answer_agrees(&operation, row))
}

// A row: three operands, with 0 for one that is not taken, and the expected bits.
fn answer_agrees<F: Fn(Fixed, Fixed, Fixed) -> Fixed>(operation: &F, row: &[i32]) -> bool
    requires { (f : _) (a : _) (b : _) (c : _) → F.pre f a b c }
{
    let a = test_tables::fixed(row, 1);
    let b = test_tables::fixed(row, 2);
    let c = test_tables::fixed(row, 3);
    operation(a, b, c) == test_tables::fixed(row, 4)
}

// a · b / c. No row has a c of 0 or below, where this answers 0.
fn mul_div(a: Fixed, b: Fixed, c: Fixed) -> Fixed {
    if Fixed::ZERO < c {
        return a.mul_div(b, c);
    }
    Fixed::ZERO
}

// A test's answer as bits: 1 for yes, 0 for no.
fn truth(test: bool) -> Fixed {
    if test {
        return Fixed::EPSILON;
    }
    Fixed::ZERO
}

// The constants, numbered in the order of the table.
fn constant(number: i32) -> Fixed {
    match number {
        0 => Fixed::ZERO,
        1 => Fixed::ONE,
        2 => Fixed::HALF,
        3 => Fixed::EPSILON,
        _ => Fixed::MAX,
    }
}
