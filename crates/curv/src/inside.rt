// Shared helpers of the curv crates; not public. `tag_length` has a precondition.
ghost use Rattle.std.specs.Prelude.{◌≡◌, ◌≤◌};
ghost use Rattle.curv.specs.Tag.{tag_length};

// The signature, "curv": 63 75 72 76.
pub const SIGNATURE: u32 = 0x6375_7276;

// The most entries that a tag may have here.
pub const MOST: usize = 65536;

// How many bytes n entries and the twelve before them are.
pub fn tag_length(n: usize) -> usize
    requires { n ≤ 65536 }
    ensures { result ≡ tag_length n }
{
    12 + 2 * n
}
