// Each answer of the library turned into its struct by `From`, into a number where it has no value, and C's bool into a
// direction. For the face alone; not public.
ghost use Rattle.std.specs.Prelude.{◌≡◌};
ghost use Rattle.table.specs.Answers.{number_of_answer};
ghost use Rattle.plain_answers.specs.Answers.{as_sample, as_position, as_code, as_real, as_parametric, as_direction};
ghost use Rattle.plain_answers.specs.Answers.{as_monotony, as_degeneration, as_count, as_para};

use crate::{Code, Count, Degeneration, Monotony, Para, Parametric, Position, Real, Sample};
use monotonic::{Direction, Monotonic};
use para::Numbers;
use parametric::ParametricCurve;
use table::{Density, Drive, Refusal, number};

// One From for each struct, since include/brassgroat.h names each and its fields.
// A function, since `From` is for a type of this crate, and u32 is none; so with `as_direction`.
pub fn number_of_answer(answer: Result<(), Refusal>) -> u32
    ensures { result ≡ number_of_answer answer }
{
    match answer {
        Ok(()) => 0,
        Err(why) => number(why),
    }
}

pub fn as_direction(rising: bool) -> Direction
    ensures { result ≡ as_direction rising }
{
    if rising {
        return Direction::Rising;
    }
    Direction::Falling
}

impl From<Result<Density, Refusal>> for Sample {
    ghost from_gives = { λ answer plain. plain ≡ as_sample answer };

    fn from(answer: Result<Density, Refusal>) -> Sample {
        match answer {
            Ok(density) => Sample {
                refusal: 0,
                density,
            },
            Err(why) => Sample {
                refusal: number(why),
                density: Density(0),
            },
        }
    }
}

impl From<Result<Drive, Refusal>> for Position {
    ghost from_gives = { λ answer plain. plain ≡ as_position answer };

    fn from(answer: Result<Drive, Refusal>) -> Position {
        match answer {
            Ok(drive) => Position { refusal: 0, drive },
            Err(why) => Position {
                refusal: number(why),
                drive: Drive(0),
            },
        }
    }
}

impl From<Result<u16, Refusal>> for Code {
    ghost from_gives = { λ answer plain. plain ≡ as_code answer };

    fn from(answer: Result<u16, Refusal>) -> Code {
        match answer {
            Ok(code) => Code { refusal: 0, code },
            Err(why) => Code {
                refusal: number(why),
                code: 0,
            },
        }
    }
}

impl From<Result<f32, Refusal>> for Real {
    ghost from_gives = { λ answer plain. plain ≡ as_real answer };

    fn from(answer: Result<f32, Refusal>) -> Real {
        match answer {
            Ok(value) => Real { refusal: 0, value },
            Err(why) => Real {
                refusal: number(why),
                value: 0.0,
            },
        }
    }
}

impl From<Result<ParametricCurve, Refusal>> for Parametric {
    ghost from_gives = { λ answer plain. plain ≡ as_parametric answer };

    fn from(answer: Result<ParametricCurve, Refusal>) -> Parametric {
        match answer {
            Ok(curve) => Parametric { refusal: 0, curve },
            Err(why) => Parametric {
                refusal: number(why),
                curve: ParametricCurve {
                    g: 0.0,
                    a: 0.0,
                    b: 0.0,
                    c: 0.0,
                    d: 0.0,
                    e: 0.0,
                    f: 0.0,
                },
            },
        }
    }
}

impl From<Result<Monotonic, Refusal>> for Monotony {
    ghost from_gives = { λ answer plain. plain ≡ as_monotony answer };

    fn from(answer: Result<Monotonic, Refusal>) -> Monotony {
        match answer {
            Ok(Monotonic::Yes(violations)) => Monotony {
                refusal: 0,
                yes: true,
                violations,
            },
            Ok(Monotonic::No(violations)) => Monotony {
                refusal: 0,
                yes: false,
                violations,
            },
            Err(why) => Monotony {
                refusal: number(why),
                yes: false,
                violations: 0,
            },
        }
    }
}

impl From<Result<bool, Refusal>> for Degeneration {
    ghost from_gives = { λ answer plain. plain ≡ as_degeneration answer };

    fn from(answer: Result<bool, Refusal>) -> Degeneration {
        match answer {
            Ok(yes) => Degeneration { refusal: 0, yes },
            Err(why) => Degeneration {
                refusal: number(why),
                yes: false, // 0 in every other place, as document 01 has it
            },
        }
    }
}

impl From<Result<usize, Refusal>> for Count {
    ghost from_gives = { λ answer plain. plain ≡ as_count answer };

    fn from(answer: Result<usize, Refusal>) -> Count {
        match answer {
            Ok(entries) => Count {
                refusal: 0,
                entries,
            },
            Err(why) => Count {
                refusal: number(why),
                entries: 0,
            },
        }
    }
}

impl From<Result<(usize, Numbers), Refusal>> for Para {
    ghost from_gives = { λ answer plain. plain ≡ as_para answer };

    fn from(answer: Result<(usize, Numbers), Refusal>) -> Para {
        match answer {
            Ok((count, numbers)) => Para {
                refusal: 0,
                count,
                numbers,
            },
            Err(why) => Para {
                refusal: number(why),
                count: 0,
                numbers: Numbers::default(),
            },
        }
    }
}
