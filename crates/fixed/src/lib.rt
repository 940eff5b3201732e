// Numbers in 16.16: a signed 32-bit integer of 65536ths (01, "Numbers in 16.16").
#![tactic(auto)]

ghost use Rattle.std.specs.Prelude.{◌≡◌, ◌^◌, ◌<◌, ◌≤◌, min, pos, ◌*ℤ◌, ◌<ℤ◌, unsigned_abs};
ghost use Rattle.fixed.specs.Integers.{bits_of, signed, wrap32, nearest};
ghost use Rattle.fixed.specs.Fixed.{from_bits, add_f, sub_f, neg_f, abs_f, twice_f, mul_f, div_f, mul_div_f, round_f};
ghost use Rattle.fixed.specs.Fixed.{fract_f, half_f, midpoint_f, trunc_f, less_f, at_most_f, same_f, min_f, max_f};

// The 32 bits of a number, as one without a sign.
pub fn bits_of(x: i32) -> u32
    ensures { result ≡ bits_of x }
{
    x.cast_unsigned()
}

// 32 bits, read as a number with a sign.
pub fn signed(bits: u32) -> i32
    ensures { result ≡ signed bits }
{
    bits.cast_signed()
}

// The low 32 bits of x, as a number with a sign.
fn wrap(x: i64) -> i32
    ensures { result ≡ wrap32 x }
{
    signed((x & 0xffff_ffff) as u32)
}

// The product of two 32-bit numbers, which fits in 64.
fn product(a: i32, b: i32) -> i64
    ensures { result ≡ a *ℤ b }
{
    (a as i64) * (b as i64)
}

// x without its sign.
fn size(x: i32) -> u32
    ensures { result ≡ unsigned_abs x }
{
    x.unsigned_abs()
}

// p / d to the nearest whole number, halves away from zero. The bound holds of every product of two
// 32-bit numbers.
fn nearest_div(p: i64, d: u32) -> i64
    requires { (unsigned_abs p ≤ 2 ^ 62) × (0 < d) }
    ensures { result ≡ nearest p d }
{
    let whole = d as i64;
    let half = (d / 2) as i64;
    if p < 0 {
        (p - half) / whole
    } else {
        (p + half) / whole
    }
}

// a · b / d to the nearest, halves away from zero, wrapping: the product, the quotient and a·b/c
// are each one of these.
fn ratio(a: i32, b: i32, d: u32) -> i32
    requires { 0 < d }
    ensures { result ≡ wrap32 (nearest (a *ℤ b) d) }
{
    wrap(nearest_div(product(a, b), d))
}

// The lesser of two counts.
pub fn least(a: usize, b: usize) -> usize
    ensures { result ≡ min a b }
{
    a.min(b)
}

// Ports `Fixed`, which hint.rs uses and does not contain.
#[derive(Clone, Copy, Debug, PartialEq, Eq, PartialOrd, Ord)]
pub struct Fixed {
    pub bits: i32,
}

impl Fixed {
    pub const ZERO: Fixed = Fixed { bits: 0 };

    pub const ONE: Fixed = Fixed { bits: 65536 };
    // Half a pixel; `MIN_COUNTER` in hint.rs.
    pub const HALF: Fixed = Fixed { bits: 0x8000 };
    // One bit; the name is hint.rs's.
    pub const EPSILON: Fixed = Fixed { bits: 1 };

    pub const MAX: Fixed = Fixed { bits: 0x7fff_ffff };

    pub fn from_bits(bits: i32) -> Fixed
        ensures { result ≡ from_bits bits }
    {
        Fixed { bits }
    }

    // self + b, wrapping.
    pub fn add(self, b: Fixed) -> Fixed
        ensures { result ≡ add_f self b }
    {
        Fixed {
            bits: self.bits.wrapping_add(b.bits),
        }
    }

    // self - b, wrapping.
    pub fn sub(self, b: Fixed) -> Fixed
        ensures { result ≡ sub_f self b }
    {
        Fixed {
            bits: self.bits.wrapping_sub(b.bits),
        }
    }

    // -self, wrapping.
    pub fn neg(self) -> Fixed
        ensures { result ≡ neg_f self }
    {
        Fixed::ZERO.sub(self)
    }

    // The absolute value, wrapping.
    pub fn abs(self) -> Fixed
        ensures { result ≡ abs_f self }
    {
        Fixed {
            bits: self.bits.wrapping_abs(),
        }
    }

    // Ports `twice`.
    pub fn twice(self) -> Fixed
        ensures { result ≡ twice_f self }
    {
        self.add(self)
    }

    // self · b.
    pub fn mul(self, b: Fixed) -> Fixed
        ensures { result ≡ mul_f self b }
    {
        Fixed {
            bits: ratio(self.bits, b.bits, 65536),
        }
    }

    // self / b.
    pub fn div(self, b: Fixed) -> Fixed
        ensures { result ≡ div_f self b }
    {
        if b.bits == 0 {
            if self.bits < 0 {
                return Fixed::MAX.neg();
            }
            return Fixed::MAX;
        }
        if b.bits < 0 {
            return Fixed {
                bits: ratio(self.bits, -65536, size(b.bits)),
            };
        }
        Fixed {
            bits: ratio(self.bits, 65536, size(b.bits)),
        }
    }

    // self · b / c, for c above 0.
    pub fn mul_div(self, b: Fixed, c: Fixed) -> Fixed
        requires { pos 0 <ℤ c.bits }
        ensures { result ≡ mul_div_f self b c }
    {
        Fixed {
            bits: ratio(self.bits, b.bits, size(c.bits)),
        }
    }

    // To the nearest pixel, halves up.
    pub fn round(self) -> Fixed
        ensures { result ≡ round_f self }
    {
        let raised = self.add(Fixed::HALF);
        Fixed {
            bits: raised.bits & -0x1_0000,
        }
    }

    // The fraction.
    pub fn fract(self) -> Fixed
        ensures { result ≡ fract_f self }
    {
        Fixed {
            bits: self.bits & 0xffff,
        }
    }

    // Ports `half`.
    pub fn half(self) -> Fixed
        ensures { result ≡ half_f self }
    {
        Fixed {
            bits: self.bits / 2,
        }
    }

    // Ports `midpoint`.
    pub fn midpoint(self, b: Fixed) -> Fixed
        ensures { result ≡ midpoint_f self b }
    {
        self.add(b.sub(self).half())
    }

    // Ports `trunc`: what every coordinate passes on its way out.
    pub fn trunc(self) -> Fixed
        ensures { result ≡ trunc_f self }
    {
        Fixed {
            bits: self.bits & -0x400,
        }
    }

    pub fn less(self, b: Fixed) -> bool
        ensures { result ≡ less_f self b }
    {
        self < b
    }

    pub fn at_most(self, b: Fixed) -> bool
        ensures { result ≡ at_most_f self b }
    {
        self <= b
    }

    pub fn same(self, b: Fixed) -> bool
        ensures { result ≡ same_f self b }
    {
        self == b
    }

    #[tactic(auto, using(std::proofs::lemmas::Int::ints), unfolding(crate::specs::Fixed::min_f))]
    pub fn min(self, b: Fixed) -> Fixed
        ensures { result ≡ min_f self b }
    {
        std::cmp::min(self, b)
    }

    #[tactic(auto, using(std::proofs::lemmas::Int::ints), unfolding(crate::specs::Fixed::max_f))]
    pub fn max(self, b: Fixed) -> Fixed
        ensures { result ≡ max_f self b }
    {
        std::cmp::max(self, b)
    }
}
