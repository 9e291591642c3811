// Where a drive and a density are drawn: the one file that knows which way is up. The scales' numbers are placed by the
// same functions as the curve.
ghost use Rattle.std.specs.Prelude.{◌≡◌, ◌≤◌};
ghost use Rattle.placing.specs.Place.{density_at, row_of, column_of, down_of};

use lookup::lut_interp_linear16;
use table::inside::wide;
use table::{Density, Drive};

// The curve's density at a drive, by the promised lookup.
pub fn density_at(table: &[u16], p: Drive) -> Density
    ensures { result.0 ≡ density_at table.now p.0 }
{
    match lut_interp_linear16(table, p) {
        Ok(d) => d,
        Err(_) => Density(0),
    }
}

// The row of a density in the plot, from the top.
pub fn row_of(d: Density) -> usize
    ensures { result ≡ row_of d.0 }
{
    19 - wide(d.0) * 20 / 65536
}

// The column of a drive in the plot.
pub fn column_of(p: Drive) -> usize
    ensures { result ≡ column_of p.0 }
{
    wide(p.0) / 1024
}

// The svg's x of a drive.
pub fn across(drive: Drive) -> usize
    ensures { (result ≡ drive.0) × (result ≤ 65535) }
{
    wide(drive.0)
}

// The svg's y of a density.
pub fn down(density: Density) -> usize
    ensures { (result ≡ down_of density.0) × (result ≤ 65535) }
{
    65535 - wide(density.0)
}
