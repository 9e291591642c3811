// The drive of a column; how low and how high a curve goes over a span of drives, and whether it falls there. Every
// drive is looked up, so that no spike goes unseen. Shared helpers with preconditions; not public.
ghost use Rattle.std.specs.Prelude.{◌≡◌, ◌≤◌, ◌<◌};
ghost use Rattle.placing.specs.Place.{drive_of};
ghost use Rattle.placing.specs.Reach.{PointAt, Replaced, Reaches};
ghost use Rattle.placing.specs.Falls.{FallsAt, Falls, Tells};

use crate::place::density_at;
use table::{Density, Drive};

// The drive at which a column shows the curve.
pub fn drive_of(column: usize) -> Drive
    requires { column < 64 }
    ensures { result.0 ≡ drive_of column }
{
    Drive((column * 65535 / 63) as u16)
}

// A drive, and the curve's density there.
#[derive(Clone, Copy)]
pub struct Point {
    pub drive: Drive,
    pub density: Density,
}

// The lowest and the highest point of a span: of several the first.
#[derive(Clone, Copy)]
pub struct Reach {
    pub valley: Point,
    pub peak: Point,
}

pub fn point_at(table: &[u16], p: usize) -> Point
    requires { p ≤ 65535 }
    ensures { PointAt table.now p result }
{
    let drive = Drive(p as u16);
    Point {
        drive,
        density: density_at(table, drive),
    }
}

// The one point, or the other in its place.
fn replaced(a: Point, b: Point, other: bool) -> Point
    ensures { Replaced a b other result }
{
    if other {
        return b;
    }
    a
}

// The reach from drive `first` to drive `last`.
pub fn reach_over(table: &[u16], first: usize, last: usize) -> Reach
    requires { (first ≤ last) × (last ≤ 65535) }
    ensures { Reaches table.now first last result }
{
    let mut valley = point_at(table, first);
    let mut peak = valley;
    for before in first..last {
        let here = point_at(table, before + 1);
        valley = replaced(valley, here, here.density.0 < valley.density.0);
        peak = replaced(peak, here, peak.density.0 < here.density.0);
    }
    Reach { valley, peak }
}

// Whether the curve falls from a drive to the next.
fn falls_at(table: &[u16], p: usize) -> bool
    requires { p < 65535 }
    ensures { Tells result (FallsAt table.now p) }
{
    let here = point_at(table, p);
    let next = point_at(table, p + 1);
    next.density.0 < here.density.0
}

// Whether the curve falls anywhere from drive `first` to drive `last`.
pub fn falls_over(table: &[u16], first: usize, last: usize) -> bool
    requires { last ≤ 65535 }
    ensures { Tells result (Falls table.now first last) }
{
    // Not `any`: from the calls that its contract tells of to Falls the proof did not close.
    for p in first..last {
        if falls_at(table, p) {
            return true;
        }
    }
    false
}
