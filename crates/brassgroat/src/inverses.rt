// Exports that go from density back to drive.
ghost use Rattle.table.specs.Answers.{number_of_answer};
ghost use Rattle.least.specs.Promises.{LeastPromise};
ghost use Rattle.least_row.specs.Promises.{LeastRowPromise};
ghost use Rattle.inverse.specs.Promises.{InversePromise};
ghost use Rattle.invert.specs.Promises.{InvertPromise};
ghost use Rattle.brassgroat.specs.Carried.{Carried};
ghost use Rattle.plain_answers.specs.Answers.{as_position};

use inverse::lut_inverse_interp16;
use invert::invert_lut;
use least::least_input;
use least_row::least_input_row;
use plain_answers::Position;
use plain_answers::inside::number_of_answer;
use table::Density;

#[unsafe(no_mangle)]
pub extern "C" fn bg_least_input(table: &[u16], density: Density) -> Position
    ensures { Carried as_position (LeastPromise table.now density) result }
{
    least_input(table, density).into()
}

#[unsafe(no_mangle)]
pub extern "C" fn bg_least_input_row(table: &[u16], densities: &[u16], out: &mut [u32]) -> u32
    ensures { Carried number_of_answer (λ d. LeastRowPromise table.now densities.now
        out.old d out.new) result }
{
    number_of_answer(least_input_row(table, densities, out))
}

#[unsafe(no_mangle)]
pub extern "C" fn bg_lut_inverse_interp16(table: &[u16], density: Density) -> Position
    ensures { Carried as_position (InversePromise table.now density) result }
{
    lut_inverse_interp16(table, density).into()
}

#[unsafe(no_mangle)]
pub extern "C" fn bg_invert_lut(table: &[u16], out: &mut [u16]) -> u32
    ensures { Carried number_of_answer
        (λ d. InvertPromise table.now out.old d out.new) result }
{
    number_of_answer(invert_lut(table, out))
}
