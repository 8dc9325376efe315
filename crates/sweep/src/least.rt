// The least cost of the jobs of each row. A row with less room takes no more of them, so they need not be looked at; this only saves time, and
// nothing is promised of it.
ghost use Rattle.std.specs.Prelude.{◌≤◌};
ghost use Rattle.searcher.specs.Arrays.{jobs_in};

use super::Swept;
use searcher::Problem;

// A job of this cost may stand in the rows from `first` to before `end`.
fn add_cost(least: &mut [u16; 256], first: u16, end: u16, cost: u16) {
    for row in first..end.min(256) {
        let least = &mut least[row as usize];
        *least = (*least).min(cost);
    }
}

pub(super) fn least_costs(problem: &Problem, swept: &Swept) -> [u16; 256]
    requires { jobs_in problem.now ≤ 128 }
{
    let n = problem.n;
    let mut least = [65535u16; 256];
    for i in 0..n {
        add_cost(&mut least, swept.first[i], swept.end[i], problem.cost[i]);
    }
    least
}
