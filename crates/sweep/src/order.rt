// The tests of the order: by the links of a job and by the flags.
ghost use Rattle.std.specs.Prelude.{◌≡◌, true, ◌<◌};
ghost use Rattle.search.specs.Placing.{links_at};
ghost use Rattle.searcher.specs.Arrays.{counts_in, LinksBack};
ghost use Rattle.exact.specs.Sweep.{in_order, AllInOrder};
ghost use Rattle.exact.specs.Sided.{all_in};
ghost use Rattle.sweep.specs.Arrays.{sides_in, lets_by, rules_in, Sweepable};

use super::Swept;
use searcher::Problem;

// If `put`, link l of job i lets it be put into the row: the partner that must not be later has a row. If not, the link lets it be left out of the row:
// the partner that must not be earlier has none.
fn lets(swept: &Swept, flags: &[bool; 128], i: usize, l: u8, put: bool) -> bool
    requires { i < 128 }
    ensures { result ≡ lets_by put (sides_in swept.now) flags.now i l }
{
    let partner = (l % 128) as usize;
    (l >= 128) == put || swept.side[partner] != swept.side[i] || flags[partner] == put
}

// Every link of job i lets it be put into the row, or left out of it.
pub(super) fn all_let(
    problem: &Problem,
    swept: &Swept,
    flags: &[bool; 128],
    i: usize,
    put: bool,
) -> bool
    requires { LinksBack (counts_in problem.now) problem.now.links i }
    ensures { result ≡ all_in (lets_by put (sides_in swept.now) flags.now i) (links_at (counts_in problem.now) problem.now.links i) }
{
    problem
        .links_of(i)
        .iter()
        .all(|&l| lets(swept, flags, i, l, put))
}

// The tests of the order hold of job i between two rows.
fn is_in_order(problem: &Problem, swept: &Swept, flags: &[bool; 128], i: usize) -> bool
    requires { LinksBack (counts_in problem.now) problem.now.links i }
    ensures { result ≡ in_order (rules_in problem.now swept.now) flags.now i }
{
    all_let(problem, swept, flags, i, flags[i])
}

// They hold of all jobs.
pub(super) fn all_in_order(problem: &Problem, swept: &Swept, flags: &[bool; 128]) -> bool
    requires { Sweepable problem.now }
    ensures { result ≡ true → AllInOrder (rules_in problem.now swept.now) flags.now }
{
    let n = problem.n;
    (0..n).all(|i| is_in_order(problem, swept, flags, i))
}
