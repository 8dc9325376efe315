// Sides and rows: a job is sided if all its frames lie in one cycle; its rows are its frames less its side.
ghost use Rattle.std.specs.Prelude.{◌≡◌, ◌≤◌};
ghost use Rattle.exact.specs.Sided.{side_in, from_side};
ghost use Rattle.prune.specs.Arrays.{Filled, side_by, row_by};

use super::tighten::Domains;

// The side of a job with these frames: 0, the number of rows, or 1024 if it is not sided, as the sweep reads it.
fn side_of(rows: u16, l: u16, h: u16) -> u16
    requires { rows ≤ 256 }
    ensures { result ≡ side_in rows l h }
{
    if h <= rows {
        return 0;
    }
    if l < rows {
        return 1024;
    }
    if h > rows + rows {
        return 1024;
    }
    rows
}

// A frame as a row, counted from the side.
fn from_side(side: u16, v: u16, away: u16) -> u16
    ensures { result ≡ from_side side v away }
{
    if side == 1024 {
        away
    } else {
        v.saturating_sub(side)
    }
}

// The sides of n jobs, their first frames as rows, and the ends of their frames as rows.
pub(super) fn rows_of(d: &Domains, n: usize, rows: u16) -> ([u16; 128], [u16; 128], [u16; 128])
    requires { (n ≤ 128) × (rows ≤ 256) }
    ensures { Filled (side_by rows d.now.low d.now.high) n result.0
        × Filled (row_by d.now.low result.0 1024) n result.1
        × Filled (row_by d.now.high result.0 1025) n result.2 }
{
    let mut sides = [0u16; 128];
    let mut firsts = [0u16; 128];
    let mut ends = [0u16; 128];
    for i in 0..n {
        let side = side_of(rows, d.low[i], d.high[i]);
        sides[i] = side;
        firsts[i] = from_side(side, d.low[i], 1024);
        ends[i] = from_side(side, d.high[i], 1025);
    }
    (sides, firsts, ends)
}
