// Parametric curves: unified from the 1, 3, 4, 5 or 7 parameters of a tag, and compared.
#![tactic(auto)]

ghost use Rattle.std.specs.Prelude.{◌≡◌, not, zip};
ghost use Rattle.std.specs.List.{list_all};
ghost use Rattle.parametric.specs.Compare.{far};
ghost use Rattle.parametric.specs.Promises.{NewPromise, ComparePromise};
ghost use Rattle.parametric.specs.Unify.{of_one, of_three, of_four, of_five};

use rounding::abs_f32;
use table::Refusal;

// (aX + b)^g + e from X = d on, cX + f below. C and Rust see it as it stands here.
#[repr(C)]
#[derive(Clone, Copy)]
pub struct ParametricCurve {
    pub g: f32,
    pub a: f32,
    pub b: f32,
    pub c: f32,
    pub d: f32,
    pub e: f32,
    pub f: f32,
}

fn of_one(g: f32) -> ParametricCurve
    ensures { result ≡ of_one g }
{
    ParametricCurve {
        g,
        a: 1.0,
        b: 0.0,
        c: 0.0,
        d: 0.0,
        e: 0.0,
        f: 0.0,
    }
}

fn of_three(g: f32, a: f32, b: f32) -> ParametricCurve
    ensures { result ≡ of_three g a b }
{
    ParametricCurve {
        g,
        a,
        b,
        c: 0.0,
        d: -b / a,
        e: 0.0,
        f: 0.0,
    }
}

fn of_four(g: f32, a: f32, b: f32, last: f32) -> ParametricCurve
    ensures { result ≡ of_four g a b last }
{
    ParametricCurve {
        g,
        a,
        b,
        c: 0.0,
        d: -b / a,
        e: last,
        f: last,
    }
}

fn of_five(g: f32, a: f32, b: f32, c: f32, d: f32) -> ParametricCurve
    ensures { result ≡ of_five g a b c d }
{
    ParametricCurve {
        g,
        a,
        b,
        c,
        d,
        e: 0.0,
        f: 0.0,
    }
}

impl ParametricCurve {
    // One shape of curve for every count: whoever works with it need not know which function type the parameters came
    // from.
    #[tactic(auto, unfolding(crate::specs::Unify::counted, crate::specs::Unify::unified))]
    pub fn new(params: &[f32]) -> Result<ParametricCurve, Refusal>
        ensures { NewPromise params.now result }
    {
        match *params {
            [g] => Ok(of_one(g)),
            [g, a, b] => Ok(of_three(g, a, b)),
            [g, a, b, c] => Ok(of_four(g, a, b, c)),
            [g, a, b, c, d] => Ok(of_five(g, a, b, c, d)),
            [g, a, b, c, d, e, f] => Ok(ParametricCurve {
                g,
                a,
                b,
                c,
                d,
                e,
                f,
            }),
            _ => Err(Refusal::ParameterCount),
        }
    }
}

fn too_far(s: f32, d: f32) -> bool
    ensures { result ≡ far s d }
{
    abs_f32(s - d) > 1e-4
}

// Whether no two at one place are far apart. `zip` ends with the shorter list.
fn none_far(src: &[f32], dst: &[f32]) -> bool
    ensures { result ≡ list_all (λ p. not (far p.0 p.1)) (zip src.now dst.now) }
{
    src.iter().zip(dst).all(|(s, d)| !too_far(*s, *d))
}

// Whether two lists of parameters are close, over the shorter length. A NaN difference counts as close. Both are cut to
// one length, so that each turn of the loop tests one end and not two.
pub fn compare_parametric(src: &[f32], dst: &[f32]) -> bool
    ensures { ComparePromise src.now dst.now result }
{
    let n = src.len().min(dst.len());
    none_far(&src[..n], &dst[..n])
}
