// The whole square root, and a power by sixteen of them. Shared helpers, not public; `power` has a precondition.
ghost use Rattle.std.specs.Prelude.{◌≡◌, ◌*◌, ◌≤◌};
ghost use Rattle.power.specs.Root.{IsRoot, root};
ghost use Rattle.power.specs.Power.{factor, power};
ghost use Rattle.power.specs.Inside.{NotBelowRoot};

// What stands for 1 in a power: 65535 units of 65536 parts each.
const FULL: u64 = 65535 * 65536;

// Not std's isqrt: the edit each_step_slips is a slip of this guess, and its steps are what was measured.
// A guess that is not below the whole root of v, and at most a sixteenth above √v: Newton's step from the power of two
// next to √v, whose division is a shift.
fn first_guess(v: u64) -> u64
    ensures { NotBelowRoot v result }
{
    let half = (64 - u64::leading_zeros(v)) / 2;
    ((1u64 << half) + (v >> half)) / 2
}

// The whole square root, by Newton's steps: each guess is smaller than the one before it and not below the root. Two or
// three steps mostly, seldom four; the proof does not count them.
pub fn isqrt(v: u64) -> u64
    ensures { IsRoot v result }
{
    let mut guess = first_guess(v);
    while v < guess * guess {
        guess = (guess + v / guess) / 2;
    }
    guess
}

// One root, by the last binary digit of r.
fn root_step(a: u64, base: u64, r: u64) -> u64
    requires { (a ≤ 4294901760) × (base ≤ 4294901760) }
    ensures { (result ≡ root (a * factor 4294901760 base r)) × (result ≤ 4294901760) }
{
    if r % 2 == 1 {
        return isqrt(a * base);
    }
    // Up to the exponent's first digit that is 1 it stays FULL. An exponent from a gamma tag ends in eight zeros.
    if a == FULL {
        return FULL;
    }
    isqrt(a * FULL)
}

// `base` to the power of exponent/65536, where FULL stands for 1.
pub fn power(base: u64, exponent: u64) -> u64
    requires { base ≤ 4294901760 }
    ensures { (result ≡ power 4294901760 base exponent) × (result ≤ 4294901760) }
{
    let mut a = FULL;
    let mut r = exponent;
    for _ in 0..16u64 {
        a = root_step(a, base, r);
        r /= 2;
    }
    for _ in 0..r {
        a = a * base / FULL;
    }
    a
}
