// The library's answers as C and Rust see them: each a struct of plain fields. The refusal's number comes first, and
// every other field of a refused answer is 0. include/brassgroat.h has the same structs; the face, brassgroat, hands
// them over.
#![tactic(auto)]

ghost use Rattle.std.specs.Prelude.{◌≡◌};
ghost use Rattle.plain_answers.specs.Answers.{version};

use para::Numbers;
use parametric::ParametricCurve;
use table::{Density, Drive};

pub mod inside;

// Which version of these structs, and of the exports over them, this is: 10,000 times its first number, 100 times its
// second, and its third. A program that was built against another one's header or Rust crate can tell by it.
pub fn version() -> u32
    ensures { result ≡ version }
{
    400
}

// A sample.
#[repr(C)]
#[derive(Clone, Copy)]
pub struct Sample {
    pub refusal: u32,
    pub density: Density,
}

// A position.
#[repr(C)]
#[derive(Clone, Copy)]
pub struct Position {
    pub refusal: u32,
    pub drive: Drive,
}

// The gamma lookup's code.
#[repr(C)]
#[derive(Clone, Copy)]
pub struct Code {
    pub refusal: u32,
    pub code: u16,
}

// A float.
#[repr(C)]
#[derive(Clone, Copy)]
pub struct Real {
    pub refusal: u32,
    pub value: f32,
}

// A parametric curve.
#[repr(C)]
#[derive(Clone, Copy)]
pub struct Parametric {
    pub refusal: u32,
    pub curve: ParametricCurve,
}

// The verdict monotonic, and the violations: how many steps are against the direction.
#[repr(C)]
#[derive(Clone, Copy)]
pub struct Monotony {
    pub refusal: u32,
    pub yes: bool,
    pub violations: usize,
}

// The verdict degenerated.
#[repr(C)]
#[derive(Clone, Copy)]
pub struct Degeneration {
    pub refusal: u32,
    pub yes: bool,
}

// How many entries a curv tag has.
#[repr(C)]
#[derive(Clone, Copy)]
pub struct Count {
    pub refusal: u32,
    pub entries: usize,
}

// How many numbers a para tag has, and seven, of which the others are 0.
#[repr(C)]
#[derive(Clone, Copy)]
pub struct Para {
    pub refusal: u32,
    pub count: usize,
    pub numbers: Numbers,
}
