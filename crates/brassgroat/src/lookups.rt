// Exports that look up.
ghost use Rattle.table.specs.Answers.{number_of_answer};
ghost use Rattle.lookup.specs.Promises.{LookupPromise};
ghost use Rattle.rows.specs.Promises.{RowPromise, BakePromise};
ghost use Rattle.gamma.specs.Promises.{GammaPromise};
ghost use Rattle.brassgroat.specs.Carried.{Carried};
ghost use Rattle.plain_answers.specs.Answers.{as_sample, as_code};

use gamma::lut_interp_linear_gamma_impl;
use lookup::lut_interp_linear16;
use plain_answers::inside::number_of_answer;
use plain_answers::{Code, Sample};
use rows::{bake, lut_interp_linear16_row};
use table::Drive;

#[unsafe(no_mangle)]
pub extern "C" fn bg_lut_interp_linear16(table: &[u16], position: Drive) -> Sample
    ensures { Carried as_sample (LookupPromise table.now position) result }
{
    lut_interp_linear16(table, position).into()
}

#[unsafe(no_mangle)]
pub extern "C" fn bg_lut_interp_linear16_row(
    table: &[u16],
    positions: &[u16],
    out: &mut [u16],
) -> u32
    ensures { Carried number_of_answer
        (λ d. RowPromise table.now positions.now out.old d out.new) result }
{
    number_of_answer(lut_interp_linear16_row(table, positions, out))
}

#[unsafe(no_mangle)]
pub extern "C" fn bg_bake(table: &[u16], out: &mut [u16]) -> u32
    ensures { Carried number_of_answer
        (λ d. BakePromise table.now out.old d out.new) result }
{
    number_of_answer(bake(table, out))
}

#[unsafe(no_mangle)]
pub extern "C" fn bg_lut_interp_linear_gamma_impl(
    table: &[u16],
    inputs: usize,
    depth: usize,
    input: usize,
) -> Code
    ensures { Carried as_code (GammaPromise table.now inputs depth input) result }
{
    lut_interp_linear_gamma_impl(table, inputs, depth, input).into()
}
