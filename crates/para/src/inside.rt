// Shared helpers of the para crates, with preconditions; not public.
ghost use Rattle.std.specs.Prelude.{◌≡◌, ◌≤◌};
ghost use Rattle.para.specs.Tag.{count_of, tag_length};

// The signature, "para": 70 61 72 61.
pub const SIGNATURE: u32 = 0x7061_7261;

// How many numbers a function type has.
pub fn count_of(t: usize) -> usize
    requires { t ≤ 4 }
    ensures { (result ≡ count_of t) × (result ≤ 7) }
{
    match t {
        0 => 1,
        1 => 3,
        2 => 4,
        3 => 5,
        _ => 7,
    }
}

// How many bytes n numbers and the twelve before them are. `n ≤ 7` stays a precondition, here and in the crates above:
// a type for it would hold a number alone.
pub fn tag_length(n: usize) -> usize
    requires { n ≤ 7 }
    ensures { result ≡ tag_length n }
{
    12 + 4 * n
}
