// Exports on floats: the float lookups, the passthrough table, and numbers rounded to f32.
ghost use Rattle.table.specs.Answers.{number_of_answer};
ghost use Rattle.rounding.specs.Nearest.{NarrowPromise, U8Fixed8Promise, S15Fixed16Promise};
ghost use Rattle.interp.specs.Promises.{FloatPromise, LinearPromise};
ghost use Rattle.passthrough.specs.Promises.{PassthroughPromise};
ghost use Rattle.brassgroat.specs.Carried.{Carried};
ghost use Rattle.plain_answers.specs.Answers.{as_real};

use interp::{lut_interp_linear, lut_interp_linear_float};
use passthrough::passthrough_table_impl;
use plain_answers::Real;
use plain_answers::inside::number_of_answer;
use rounding::{nearest_f64_to_f32, s15_fixed16_number_to_float, u8_fixed_8number_to_float};

#[unsafe(no_mangle)]
pub extern "C" fn bg_lut_interp_linear_float(table: &[f32], x: f32) -> Real
    ensures { Carried as_real (FloatPromise table.now x) result }
{
    lut_interp_linear_float(table, x).into()
}

#[unsafe(no_mangle)]
pub extern "C" fn bg_lut_interp_linear(table: &[u16], x: f64) -> Real
    ensures { Carried as_real (LinearPromise table.now x) result }
{
    lut_interp_linear(table, x).into()
}

#[unsafe(no_mangle)]
pub extern "C" fn bg_passthrough_table_impl(out: &mut [f32]) -> u32
    ensures { Carried number_of_answer (λ d. PassthroughPromise out.old d out.new) result }
{
    number_of_answer(passthrough_table_impl(out))
}

#[unsafe(no_mangle)]
pub extern "C" fn bg_nearest_f64_to_f32(x: f64) -> f32
    ensures { NarrowPromise x result }
{
    nearest_f64_to_f32(x)
}

#[unsafe(no_mangle)]
pub extern "C" fn bg_u8_fixed_8number_to_float(x: u16) -> f32
    ensures { U8Fixed8Promise x result }
{
    u8_fixed_8number_to_float(x)
}

#[unsafe(no_mangle)]
pub extern "C" fn bg_s15_fixed16_number_to_float(x: i32) -> f32
    ensures { S15Fixed16Promise x result }
{
    s15_fixed16_number_to_float(x)
}
