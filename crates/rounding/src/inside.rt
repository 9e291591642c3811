// Floor and ceil. Not public: they have a precondition, that the number is from 0 to 65,536. It is no type's, since
// each caller has a product of its own in hand, and a type would be made for one call and taken apart in it.
ghost use Rattle.std.specs.Prelude.{T};
ghost use Rattle.ieee.specs.Range.{upto};
ghost use Rattle.rounding.specs.Cut.{FloorPromise, CeilPromise};

// A function for each format: a trait over f32 and f64 would be longer than both.
pub fn floor_f32(x: f32) -> usize
    requires { T (upto 65536 x) }
    ensures { FloorPromise x result }
{
    floor_f64(x as f64)
}

pub fn ceil_f32(x: f32) -> usize
    requires { T (upto 65536 x) }
    ensures { CeilPromise x result }
{
    ceil_f64(x as f64)
}

pub fn floor_f64(x: f64) -> usize
    requires { T (upto 65536 x) }
    ensures { FloorPromise x result }
{
    if x < 1.0 {
        return 0;
    }
    // x is digits * 2^(exponent - 1075), and the exponent, bits / 2^52, is at most 1039: digits are only shifted down
    let bits = f64::to_bits(x);
    let digits = 0x10_0000_0000_0000 + bits % 0x10_0000_0000_0000;
    // of a u32 the compiler knows that it is small: the floor then becomes a float in one instruction, in place of six
    ((digits >> (1075 - bits / 0x10_0000_0000_0000)) as u32) as usize
}

pub fn ceil_f64(x: f64) -> usize
    requires { T (upto 65536 x) }
    ensures { CeilPromise x result }
{
    let floor = floor_f64(x);
    if (floor as f64) < x {
        return floor + 1;
    }
    floor
}
