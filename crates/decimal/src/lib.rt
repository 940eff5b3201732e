// Numbers as text: whole ones, and those in 16.16 with every digit that they have.
#![tactic(auto)]

ghost use Rattle.std.specs.Prelude.{◌+◌, ◌<◌, ◌≤◌, [], ◌∷◌, length};
ghost use Rattle.decimal.specs.Decimal.{Put, PutInRoom, number_text, fraction_by, size_text, decimal_text};

use fixed::Fixed;

// The most digits of a fraction in 65536ths.
const FRACTION_DIGITS: usize = 16;

// Puts some text at a place of some bytes; answers where it ends.
pub fn put_text(out: &mut [u8], at: usize, text: &[u8]) -> usize
    requires { at + length text.now ≤ length out.old }
    ensures { Put text.now at out.old result out.new }
{
    let end = at + text.len();
    out[at..end].copy_from_slice(text);
    end
}

// Puts a byte where there is room for it; answers where it ends.
fn put_byte(out: &mut [u8], at: usize, byte: u8) -> usize
    ensures { PutInRoom (byte ∷ []) at out.old result out.new }
{
    if at < out.len() {
        out[at] = byte;
        return at + 1;
    }
    at
}

// Puts the digits of a whole number where there is room for them.
fn put_digits(out: &mut [u8], at: usize, n: u32) -> usize
    ensures { PutInRoom (number_text n) at out.old result out.new }
{
    let digit = b'0' + (n % 10) as u8;
    if n < 10 {
        return put_byte(out, at, digit);
    }
    let next = put_digits(out, at, n / 10);
    put_byte(out, next, digit)
}

// Puts a whole number.
pub fn put_number(out: &mut [u8], at: usize, n: u32) -> usize
    requires { at + length (number_text n) ≤ length out.old }
    ensures { Put (number_text n) at out.old result out.new }
{
    put_digits(out, at, n)
}

// Puts the digits of a fraction in 65536ths, `left` of them at most, where there is room for them.
fn put_fraction(out: &mut [u8], at: usize, n: u32, left: usize) -> usize
    requires { n < 65536 }
    ensures { PutInRoom (fraction_by left n) at out.old result out.new }
{
    if left == 0 || n == 0 {
        return at;
    }
    let tens = n * 10;
    let next = put_byte(out, at, b'0' + (tens / 65536) as u8);
    put_fraction(out, next, tens % 65536, left - 1)
}

// Puts so many 65536ths where there is room for them.
fn put_size(out: &mut [u8], at: usize, n: u32) -> usize
    ensures { PutInRoom (size_text n) at out.old result out.new }
{
    let point = put_digits(out, at, n / 65536);
    let rest = n % 65536;
    if rest == 0 {
        return point;
    }
    let next = put_byte(out, point, b'.');
    put_fraction(out, next, rest, FRACTION_DIGITS)
}

// Puts a number in 16.16, exactly.
pub fn put_decimal(out: &mut [u8], at: usize, x: Fixed) -> usize
    requires { at + length (decimal_text x.bits) ≤ length out.old }
    ensures { Put (decimal_text x.bits) at out.old result out.new }
{
    let size = x.bits.unsigned_abs();
    if x.bits < 0 {
        let next = put_byte(out, at, b'-');
        return put_size(out, next, size);
    }
    put_size(out, at, size)
}
