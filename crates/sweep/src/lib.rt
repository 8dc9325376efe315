#![tactic(auto)]
// The row sweep: the jobs are put into rows, a row after the other and in a row a job after the other; each is put into the row or left out of
// it. Where `sweep` answers false, there is no way to do so; an answer true says nothing. `run` goes through the jobs of a row and on through
// the rows, and `put` puts one job into the row and runs on from there, so calls are no deeper than there are jobs.
//
// The jobs' costs and links, their number and that of the rows stand in `problem`, as for the search. `begun` has a bit for each job that has begun
// in a row, and `least` the least cost of the jobs of each row. `flags` says which jobs have a row, `low` and `high` are the same as words, and
// `kept` is true only where each of them has its row behind those that must not be later. `due` has the times of the jobs without a row, `marks` and
// `words` are the memory of states that failed.
mod begun;
mod late;
mod least;
mod memory;
mod order;

ghost use Rattle.std.specs.Prelude.{◌≡◌, true, false, ◌≤◌, ◌<◌, replicate, IfSome};
ghost use Rattle.searcher.specs.Arrays.{counts_in, rows_in, jobs_in, LinksBack};
ghost use Rattle.exact.specs.Words.{word_at};
ghost use Rattle.exact.specs.Sweep.{any_below, more, skips, puts, leaves, From, Ordered};
ghost use Rattle.sweep.specs.Arrays.{rules_in, Sweepable, Begun, Next, Going, Failed, NotPut, tied_in};

use searcher::Problem;

// For each job its first row, one past its last, its side, and whether a job with a higher number must not be later: then it is not 0.
#[derive(Clone, Copy)]
pub struct Swept {
    pub first: [u16; 128],
    pub end: [u16; 128],
    pub side: [u16; 128],
    pub tied: [u16; 128],
}

// Job i is passed over in row p: it has a row, or its rows are later.
fn is_skipped(problem: &Problem, swept: &Swept, flags: &[bool; 128], p: u16, i: usize) -> bool
    requires { i < 128 }
    ensures { result ≡ skips (rules_in problem.now swept.now) p flags.now i }
{
    flags[i] || p < swept.first[i]
}

// Job i may be put into the row, which has this room left.
fn may_put(problem: &Problem, swept: &Swept, flags: &[bool; 128], room: u16, i: usize) -> bool
    requires { LinksBack (counts_in problem.now) problem.now.links i }
    ensures { result ≡ puts (rules_in problem.now swept.now) flags.now room i }
{
    problem.cost[i] <= room && order::all_let(problem, swept, flags, i, true)
}

// Job i may be left out of row p: it has a later one.
fn may_leave(problem: &Problem, swept: &Swept, flags: &[bool; 128], p: u16, i: usize) -> bool
    requires { (p < 65535) × LinksBack (counts_in problem.now) problem.now.links i }
    ensures { result ≡ leaves (rules_in problem.now swept.now) p flags.now i }
{
    p + 1 < swept.end[i] && order::all_let(problem, swept, flags, i, false)
}

// Job i, left out of row p, could still be put into it.
fn could_put(
    problem: &Problem,
    swept: &Swept,
    flags: &[bool; 128],
    p: u16,
    room: u16,
    i: usize,
) -> bool
    requires { LinksBack (counts_in problem.now) problem.now.links i }
    ensures { result ≡ true → more (rules_in problem.now swept.now) p flags.now room i ≡ true }
{
    problem.cost[i] <= room
        && !is_skipped(problem, swept, flags, p, i)
        && swept.tied[i] == 0
        && may_put(problem, swept, flags, room, i)
}

// Some job of the row could. The bits say how far the loop goes on, so it counts nothing.
fn one_more(
    problem: &Problem,
    swept: &Swept,
    begun: &[u64; 512],
    least: &[u16; 256],
    flags: &[bool; 128],
    low: u64,
    high: u64,
    p: u16,
    room: u16,
) -> bool
    requires sweepable { Sweepable problem.now }
    requires p_bound { (p < rows_in problem.now) × (low ≡ word_at flags.now 0) × (high ≡ word_at flags.now 64)
        × Begun (rules_in problem.now swept.now) (rows_in problem.now) begun.now }
    ensures { result ≡ true → any_below (more (rules_in problem.now swept.now) p flags.now room)
        (jobs_in problem.now) ≡ true }
{
    if room < least[p as usize] {
        return false;
    }
    let n = problem.n;
    let mut i = 0;
    while i < n {
        i = begun::first_free(problem, swept, begun, flags, low, high, p, i);
        if i >= n {
            return false;
        }
        if could_put(problem, swept, flags, p, room, i) {
            return true;
        }
        i += 1;
    }
    false
}

// The order is still kept where job i is put: it was, and no job with a higher number must be put before.
fn still_kept(swept: &Swept, i: usize, kept: bool) -> bool
    requires { i < 128 }
    ensures { result ≡ true → (kept ≡ true) × (tied_in swept.now i ≡ false) }
{
    kept && swept.tied[i] == 0
}

// The order is kept: so it was, or all jobs are in order.
fn is_kept(problem: &Problem, swept: &Swept, flags: &[bool; 128], kept: bool) -> bool
    requires sweepable { Sweepable problem.now }
    requires ordered { kept ≡ true → Ordered (rules_in problem.now swept.now) flags.now }
    ensures { result ≡ true → Ordered (rules_in problem.now swept.now) flags.now }
{
    kept || order::all_in_order(problem, swept, flags)
}

// A run that began in row p and answered e has shown that the state of the next row fails, and the order is kept there.
fn is_worth_noting(
    problem: &Problem,
    swept: &Swept,
    flags: &[bool; 128],
    kept: bool,
    p: u16,
    e: u16,
) -> bool
    requires sweepable { Sweepable problem.now }
    requires ordered { kept ≡ true → Ordered (rules_in problem.now swept.now) flags.now }
    ensures { result ≡ true → (p < e) × Ordered (rules_in problem.now swept.now) flags.now }
{
    p < e && is_kept(problem, swept, flags, kept)
}

// The first job from job i on that is not passed over in row p, or `end`, or i if that is behind it. The bits lead to it, and the job is tested.
// They say how far the loop goes on, so it counts nothing.
fn next_job(
    problem: &Problem,
    swept: &Swept,
    begun: &[u64; 512],
    flags: &[bool; 128],
    low: u64,
    high: u64,
    p: u16,
    i: usize,
    end: usize,
) -> usize
    requires sweepable { Sweepable problem.now }
    requires begun { Begun (rules_in problem.now swept.now) (rows_in problem.now) begun.now }
    requires p_bound { (p < rows_in problem.now) × (end ≤ jobs_in problem.now) × (low ≡ word_at flags.now 0) × (high ≡ word_at flags.now 64) }
    ensures { Next (rules_in problem.now swept.now) p flags.now i end result }
{
    let mut j = i;
    while j < end {
        j = begun::first_free(problem, swept, begun, flags, low, high, p, j);
        if j >= end {
            return end;
        }
        if !is_skipped(problem, swept, flags, p, j) {
            return j;
        }
        j += 1;
    }
    j
}

// Runs through the jobs of row p, from job i on, and through the rows after it, with the jobs that have no row yet. Answers the row where there
// was no way on; `None` says nothing. At most `left` jobs are put, each by one call more. The jobs put into row p so far may
// stand only in rows before row `reach`. At the end of a row the jobs are in order again, so this is tested there, once for all that follows.
// Each turn goes on to a job or to a row, so the loop counts neither.
// The problem and what is swept go on as two arguments: all lent as one struct of borrowed parts it took 1.05 times as long over five long searches
// (0.99 times over those left open), where the bar is 1.03.
#[cycle(put_run)]
fn run(
    problem: &Problem,
    swept: &Swept,
    begun: &[u64; 512],
    least: &[u16; 256],
    flags: &mut [bool; 128],
    found: &mut [u16; 128],
    due: &mut [u32; 257],
    marks: &mut [u16; 5120],
    words: &mut [u64],
    low: u64,
    high: u64,
    kept: bool,
    p: u16,
    i: usize,
    room: u16,
    left: u16,
    reach: u16,
) -> Option<u16>
    requires sweepable { Sweepable problem.now }
    requires p_bound { (p < rows_in problem.now) × (i ≤ jobs_in problem.now)
        × Begun (rules_in problem.now swept.now) (rows_in problem.now) begun.now }
    requires going { Going (rules_in problem.now swept.now) (rows_in problem.now) flags.old due.old marks.old words.old low high kept }
    ensures { IfSome result (λ e. Failed (rules_in problem.now swept.now)
        (rows_in problem.now) p i room flags.old due.old e flags.new due.new marks.new words.new) }
{
    let n = problem.n;
    let rows = problem.rows;
    let mut row = p;
    let mut job = i;
    let mut space = room;
    let mut ordered = kept;
    let mut far = reach;
    while row < rows {
        job = next_job(problem, swept, begun, flags, low, high, row, job, n);
        if job >= n {
            if row + 1 == rows {
                return None;
            }
            if one_more(problem, swept, begun, least, flags, low, high, row, space) {
                return Some(row);
            }
            row += 1;
            if memory::known(marks, words, row, low, high) {
                return Some(row);
            }
            if late::is_late(problem, swept, flags, due, row, space, far) {
                return Some(row);
            }
            ordered = is_kept(problem, swept, flags, ordered);
            job = 0;
            space = problem.f;
            far = 0;
            continue;
        }
        if put(
            problem, swept, begun, least, flags, found, due, marks, words, low, high, ordered, row,
            job, space, left, far,
        ) {
            return None;
        }
        if !may_leave(problem, swept, flags, row, job) {
            return Some(row);
        }
        job += 1;
    }
    None
}

// Puts job i into row p, if it may, and runs on. An answer false says that this fails, and leaves the flags and the times as they were.
#[cycle(put_run)]
fn put(
    problem: &Problem,
    swept: &Swept,
    begun: &[u64; 512],
    least: &[u16; 256],
    flags: &mut [bool; 128],
    found: &mut [u16; 128],
    due: &mut [u32; 257],
    marks: &mut [u16; 5120],
    words: &mut [u64],
    low: u64,
    high: u64,
    kept: bool,
    p: u16,
    i: usize,
    room: u16,
    left: u16,
    reach: u16,
) -> bool
    requires sweepable { Sweepable problem.now }
    requires p_bound { (p < rows_in problem.now) × (i < jobs_in problem.now)
        × Begun (rules_in problem.now swept.now) (rows_in problem.now) begun.now }
    requires going { Going (rules_in problem.now swept.now) (rows_in problem.now) flags.old due.old marks.old words.old low high kept }
    requires i_value { skips (rules_in problem.now swept.now) p flags.old i ≡ false }
    ensures { result ≡ false → NotPut (rules_in problem.now swept.now)
        (rows_in problem.now) p i room flags.old due.old flags.new due.new marks.new words.new }
{
    if left == 0 {
        return true;
    }
    if !may_put(problem, swept, flags, room, i) {
        return false;
    }
    let c = problem.cost[i];
    let lows = memory::with_flag(flags, i, low, 0);
    let highs = memory::with_flag(flags, i, high, 64);
    let still = still_kept(swept, i, kept);
    flags[i] = true;
    found[i] = p;
    let far = late::take_at(due, swept.end[i], c, reach);
    let Some(e) = run(
        problem,
        swept,
        begun,
        least,
        flags,
        found,
        due,
        marks,
        words,
        lows,
        highs,
        still,
        p,
        i + 1,
        room - c,
        left - 1,
        far,
    ) else {
        return true;
    };
    late::add_at(due, swept.end[i], c);
    if is_worth_noting(problem, swept, flags, still, p, e) {
        memory::note(marks, words, p + 1, lows, highs);
        flags[i] = false;
        return false;
    }
    flags[i] = false;
    false
}

// The length of the part of the memory that is not cleared.
pub const WORDS: usize = 10240;

// Puts the jobs into the rows. False: there is no way. `found` gets the row of each job that was put last. Nothing is known of `words`, but it must
// have WORDS numbers.
pub fn sweep(problem: &Problem, swept: &Swept, found: &mut [u16; 128], words: &mut [u64]) -> bool
    requires { Sweepable problem.now }
    ensures { result ≡ false → From (rules_in problem.now swept.now)
        (rows_in problem.now) 0 (replicate 128 false) }
{
    let rows = problem.rows;
    if rows == 0 {
        return true;
    }
    if words.len() != WORDS {
        return true;
    }
    let begun = begun::begun_of(problem, swept);
    let least = least::least_costs(problem, swept);
    let mut flags = [false; 128];
    let mut due = late::due_times(problem, swept);
    let mut marks = [0u16; 5120];
    let failed = run(
        problem,
        swept,
        &begun,
        &least,
        &mut flags,
        found,
        &mut due,
        &mut marks,
        words,
        0,
        0,
        true,
        0,
        0,
        problem.f,
        problem.n as u16,
        0,
    );
    failed.is_none()
}
