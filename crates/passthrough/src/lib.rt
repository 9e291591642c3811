// The passthrough table of floats: entry i of n is i·(1/(n-1)).
#![tactic(auto)]

ghost use Rattle.std.specs.Prelude.{◌≡◌, true, length};
ghost use Rattle.table.specs.Sizes.{spanned};
ghost use Rattle.passthrough.specs.Passed.{passed_through};
ghost use Rattle.passthrough.specs.Promises.{PassthroughPromise};

use rounding::nearest_f64_to_f32;
use table::inside::fill;
use table::{Refusal, spanned};

// Entry i over the last index.
fn fill_passthrough(output: &mut [f32])
    requires { spanned (length output.old) ≡ true }
    ensures { output.new ≡ passed_through (length output.old) }
{
    let scale_value = 1.0 / ((output.len() - 1) as f64);
    fill(output, |i| nearest_f64_to_f32((i as f64) * scale_value));
}

// The table that passes its input through, as long as the buffer that is lent for it.
pub fn passthrough_table_impl(output: &mut [f32]) -> Result<(), Refusal>
    ensures { PassthroughPromise output.old result output.new }
{
    if !spanned(output.len()) {
        return Err(Refusal::OutsideRange);
    }
    fill_passthrough(output);
    Ok(())
}
