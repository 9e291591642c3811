// The steps before the search, in the Rust's order. Not public: `first_left` and `first_right` have preconditions on
// the table's length.
ghost use Rattle.std.specs.Prelude.{◌≡◌, ◌≤◌};
ghost use Rattle.inverse_start.specs.Start.{leading_zeros, trailing_tops, zero_at_once, first_left, first_right};

// Document 01's z.
pub fn leading_zeros(table: &[u16]) -> usize
    ensures { result ≡ leading_zeros table.now }
{
    table.iter().take_while(|x| **x == 0).count()
}

// Document 01's w.
pub fn trailing_tops(table: &[u16]) -> usize
    ensures { result ≡ trailing_tops table.now }
{
    table.iter().rev().take_while(|x| **x == 65535).count()
}

// Whether value 0 is answered before any search.
pub fn zero_at_once(v: u16, z: usize, w: usize) -> bool
    ensures { result ≡ zero_at_once v z w }
{
    if v != 0 {
        return false;
    }
    if z == 0 {
        return true;
    }
    if 1 < z {
        return true;
    }
    1 < w
}

// Where the search begins on the left. The Rust multiplies in i32, which 32,770 zeros pass; here the product is wide.
pub fn first_left(n: usize, z: usize) -> usize
    requires { (z ≤ n) × (n ≤ 65536) }
    ensures { result ≡ first_left n z }
{
    if 1 < z {
        return (z - 1) * 65535 / (n - 1) - 1;
    }
    1
}

// Where the search begins on the right. Of nothing but 65535s the Rust's r lies at 0 or below; 0 serves as well, since
// no l is below it.
pub fn first_right(n: usize, w: usize) -> usize
    requires { (w ≤ n) × (n ≤ 65536) }
    ensures { result ≡ first_right n w }
{
    if w <= 1 {
        return 65536;
    }
    if w == n {
        return 0;
    }
    (n - 1 - w) * 65535 / (n - 1) + 1
}
