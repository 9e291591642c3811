// Exports on parametric curves.
ghost use Rattle.parametric.specs.Promises.{NewPromise, ComparePromise};
ghost use Rattle.brassgroat.specs.Carried.{Carried};
ghost use Rattle.plain_answers.specs.Answers.{as_parametric};

use parametric::{ParametricCurve, compare_parametric};
use plain_answers::Parametric;

#[unsafe(no_mangle)]
pub extern "C" fn bg_parametric_curve_new(params: &[f32]) -> Parametric
    ensures { Carried as_parametric (NewPromise params.now) result }
{
    ParametricCurve::new(params).into()
}

#[unsafe(no_mangle)]
pub extern "C" fn bg_compare_parametric(src: &[f32], dst: &[f32]) -> bool
    ensures { ComparePromise src.now dst.now result }
{
    compare_parametric(src, dst)
}
