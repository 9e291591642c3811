// Exports on the para tag.
ghost use Rattle.table.specs.Answers.{number_of_answer};
ghost use Rattle.para.specs.Promises.{ReadPromise};
ghost use Rattle.para_curve.specs.Promises.{CurvePromise};
ghost use Rattle.para_writer.specs.Promises.{WritePromise};
ghost use Rattle.brassgroat.specs.Carried.{Carried};
ghost use Rattle.plain_answers.specs.Answers.{as_para, as_parametric};

use para::{Numbers, read_para};
use para_curve::read_parametric_curve;
use para_writer::write_para;
use plain_answers::inside::number_of_answer;
use plain_answers::{Para, Parametric};

#[unsafe(no_mangle)]
pub extern "C" fn bg_para_read(tag: &[u8]) -> Para
    ensures { Carried as_para (ReadPromise tag.now) result }
{
    read_para(tag).into()
}

#[unsafe(no_mangle)]
pub extern "C" fn bg_para_curve(tag: &[u8]) -> Parametric
    ensures { Carried as_parametric (CurvePromise tag.now) result }
{
    read_parametric_curve(tag).into()
}

#[unsafe(no_mangle)]
pub extern "C" fn bg_para_write(kind: usize, numbers: Numbers, out: &mut [u8]) -> u32
    ensures { Carried number_of_answer (λ d. WritePromise kind numbers out.old d out.new) result }
{
    number_of_answer(write_para(kind, numbers, out))
}
