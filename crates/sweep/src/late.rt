// The test of lateness: the jobs without a row need too much of the rows that are left. `due` has at place e what the jobs without a row take whose
// rows end before row e.
ghost use Rattle.std.specs.Prelude.{◌≡◌, true, false, ◌+◌, ◌≤◌, ◌<◌, get_or, replicate};
ghost use Rattle.searcher.specs.Arrays.{rows_in, jobs_in};
ghost use Rattle.exact.specs.Sweep.{From};
ghost use Rattle.sweep.specs.Arrays.{rules_in, Sweepable, Due, added_at, taken_at};

use super::Swept;
use searcher::Problem;

// Adds c at place e, if there is one.
pub(super) fn add_at(due: &mut [u32; 257], e: u16, c: u16)
    requires { get_or due.old e 0 + c ≤ 4294967295 }
    ensures { due.new ≡ added_at due.old e c }
{
    if e > 256 {
        return;
    }
    due[e as usize] += c as u32;
}

// Takes c off at place e, if there is one. Answers the later of e and `reach`.
pub(super) fn take_at(due: &mut [u32; 257], e: u16, c: u16, reach: u16) -> u16
    requires { e ≤ 256 → c ≤ get_or due.old e 0 }
    ensures { due.new ≡ taken_at due.old e c }
{
    if e > 256 {
        return e;
    }
    due[e as usize] -= c as u32;
    e.max(reach)
}

// What the jobs take, where none has a row yet.
pub(super) fn due_times(problem: &Problem, swept: &Swept) -> [u32; 257]
    requires { Sweepable problem.now }
    ensures { Due (rules_in problem.now swept.now) (replicate 128 false) (jobs_in problem.now) result }
{
    let n = problem.n;
    let mut due = [0u32; 257];
    for i in 0..n {
        add_at(&mut due, swept.end[i], problem.cost[i]);
    }
    due
}

// The row up to which row p is tested for lateness. The jobs put into the row before left this space of it, and none of them may stand in row `reach`
// or later. If they left none, then for every end from `reach` on both the need and the room are less by a full row, so the test of the row before
// tells what is to be told. The first row has no test, so the one after it is tested to the end.
fn stop_row(rows: u16, p: u16, space: u16, reach: u16) -> u16
    ensures { result ≤ rows }
{
    if p < 2 || space != 0 {
        return rows;
    }
    reach.min(rows)
}

// Whether the jobs without a row need too much of the rows from p on up to some row.
pub(super) fn is_late(
    problem: &Problem,
    swept: &Swept,
    flags: &[bool; 128],
    due: &[u32; 257],
    p: u16,
    space: u16,
    reach: u16,
) -> bool
    requires sweepable { Sweepable problem.now }
    requires p_bound { p < rows_in problem.now }
    requires due { Due (rules_in problem.now swept.now) flags.now (jobs_in problem.now) due.now }
    ensures { result ≡ true → From (rules_in problem.now swept.now)
        (rows_in problem.now) p flags.now }
{
    let rows = problem.rows;
    let stop = stop_row(rows, p, space, reach);
    let f = problem.f as u32;
    let mut sum: u32 = 0;
    let mut room: u32 = 0;
    for e in p..stop {
        sum += due[e as usize + 1];
        room += f;
        if sum > room {
            return true;
        }
    }
    false
}
