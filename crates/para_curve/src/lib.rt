// A para tag read as a parametric curve.
#![tactic(auto)]

ghost use Rattle.std.specs.Prelude.{map, ◌≤◌, take};
ghost use Rattle.parametric.specs.Promises.{NewPromise};
ghost use Rattle.para.specs.Tag.{listed};
ghost use Rattle.para_curve.specs.Promises.{nearest, CurvePromise};

use para::{Numbers, read_para};
use parametric::ParametricCurve;
use rounding::s15_fixed16_number_to_float;
use table::Refusal;

// The curve of the first n numbers.
fn curve_from(numbers: Numbers, n: usize) -> Result<ParametricCurve, Refusal>
    requires { n ≤ 7 }
    ensures { NewPromise (take n (map nearest (listed numbers))) result }
{
    let listed = [
        numbers.g, numbers.a, numbers.b, numbers.c, numbers.d, numbers.e, numbers.f,
    ];
    let params = listed.map(|number| s15_fixed16_number_to_float(number));
    ParametricCurve::new(&params[..n])
}

// Reads a tag as a curve.
pub fn read_parametric_curve(tag: &[u8]) -> Result<ParametricCurve, Refusal>
    ensures { CurvePromise tag.now result }
{
    let (n, numbers) = read_para(tag)?;
    curve_from(numbers, n)
}
