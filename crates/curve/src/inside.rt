// The straight curve's entry. Shared with the crates above; has a precondition, so it is not public.
ghost use Rattle.std.specs.Prelude.{◌≡◌, true, ◌<◌};
ghost use Rattle.table.specs.Sizes.{spanned};
ghost use Rattle.curve.specs.Ramp.{ramp};

// Entry i of the straight curve of n entries.
pub fn ramp(n: usize, i: usize) -> u16
    requires { (spanned n ≡ true) × (i < n) }
    ensures { result ≡ ramp n i }
{
    ((2 * 65535 * i + (n - 1)) / (2 * (n - 1))) as u16
}
