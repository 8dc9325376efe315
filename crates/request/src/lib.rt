#![tactic(auto)]
// The request file: a team's periodic tasks, the pairs of tasks that keep order and the silent ticks after every transfer.
// Sections stand in a fixed order, each after its count; every count and record is judged as it is met.
pub mod write;

ghost use Rattle.std.specs.Prelude.{◌≡◌, ◌≤◌, length, drop};
ghost use Rattle.request.specs.Request.{task_rule, pair_rule, task_of, pair_of, tasks_of, pairs_of, silent_of, reading};
ghost use Rattle.request.specs.Answers.{task_read, pair_read, record_said, tasks_said, pairs_said, silent_said, task_section, pair_section, silent_section, request_answered};
ghost use Rattle.request.specs.Numbered.{request_said};

use cursor::Cursor;
use refusal::Refusal;

// A periodic task: worst transfer time C, period T, deadline D after release, phase P.
#[derive(Clone, Copy)]
pub struct Task {
    pub c: u16,
    pub t: u16,
    pub d: u16,
    pub p: u16,
}

impl Task {
    // Stands in an unused place.
    pub const NONE: Task = Task {
        c: 0,
        t: 0,
        d: 0,
        p: 0,
    };
}

// Task a runs before task b.
#[derive(Clone, Copy)]
pub struct Pair {
    pub a: u8,
    pub b: u8,
}

impl Pair {
    // Stands in an unused place.
    pub const NONE: Pair = Pair { a: 0, b: 0 };
}

// A readable request: n tasks and m pairs, from the first place on, and g silent ticks after every transfer.
#[derive(Clone, Copy)]
pub struct Request {
    pub n: usize,
    pub tasks: [Task; 16],
    pub m: usize,
    pub pairs: [Pair; 16],
    pub g: u8,
}

// A section that was read: its records, from the first place on, and where the next section begins.
struct Section<T> {
    n: usize,
    records: [T; 16],
    end: usize,
}

// 1 ≤ C ≤ D ≤ T and P < T.
fn keeps_task_rule(x: Task) -> bool
    ensures { result ≡ task_rule x }
{
    1 <= x.c && x.c <= x.d && x.d <= x.t && x.p < x.t
}

fn read_task(s: &[u8], from: Cursor) -> Result<(Task, Cursor), Refusal>
    ensures { record_said result ≡ task_read from.at (task_of (drop from.at s.now)) }
{
    let Some((c, after_c)) = from.word(s) else {
        return Err(Refusal::EndsEarly);
    };
    let Some((t, after_t)) = after_c.word(s) else {
        return Err(Refusal::EndsEarly);
    };
    let Some((d, after_d)) = after_t.word(s) else {
        return Err(Refusal::EndsEarly);
    };
    let Some((p, after_p)) = after_d.word(s) else {
        return Err(Refusal::EndsEarly);
    };
    let x = Task { c, t, d, p };
    if keeps_task_rule(x) {
        Ok((x, after_p))
    } else {
        Err(Refusal::TaskRule)
    }
}

// The first section, from the front of s.
fn read_tasks(s: &[u8]) -> Result<Section<Task>, Refusal>
    ensures { tasks_said result ≡ task_section (tasks_of s.now) }
{
    let front = Cursor { at: 0 };
    let Some((count, start)) = front.byte(s) else {
        return Err(Refusal::EndsEarly);
    };
    if count < 1 || 16 < count {
        return Err(Refusal::TaskCount);
    }
    let n = count as usize;
    let mut records = [Task::NONE; 16];
    let mut here = start;
    for i in 0..n {
        let (task, next) = read_task(s, here)?;
        records[i] = task;
        here = next;
    }
    Ok(Section {
        n,
        records,
        end: here.at,
    })
}

// a < b < n and equal T.
fn keeps_pair_rule(tasks: &[Task], a: u8, b: u8) -> bool
    ensures { result ≡ pair_rule tasks.now a b }
{
    let first = a as usize;
    let second = b as usize;
    first < second && second < tasks.len() && tasks[first].t == tasks[second].t
}

fn read_pair(s: &[u8], from: Cursor, tasks: &[Task]) -> Result<(Pair, Cursor), Refusal>
    ensures { record_said result ≡ pair_read from.at (pair_of tasks.now (drop from.at s.now)) }
{
    let Some((a, after_a)) = from.byte(s) else {
        return Err(Refusal::EndsEarly);
    };
    let Some((b, after_b)) = after_a.byte(s) else {
        return Err(Refusal::EndsEarly);
    };
    if keeps_pair_rule(tasks, a, b) {
        Ok((Pair { a, b }, after_b))
    } else {
        Err(Refusal::PairRule)
    }
}

// The second section, from the front of s, for the tasks of the first. It is not one function with read_tasks: over a reader of records as a
// closure, the contract would have to follow that closure's answers from call to call, and be longer than the loop.
fn read_pairs(s: &[u8], tasks: &[Task]) -> Result<Section<Pair>, Refusal>
    ensures { pairs_said result ≡ pair_section (pairs_of tasks.now s.now) }
{
    let front = Cursor { at: 0 };
    let Some((count, start)) = front.byte(s) else {
        return Err(Refusal::EndsEarly);
    };
    if 16 < count {
        return Err(Refusal::PairCount);
    }
    let m = count as usize;
    let mut records = [Pair::NONE; 16];
    let mut here = start;
    for i in 0..m {
        let (pair, next) = read_pair(s, here, tasks)?;
        records[i] = pair;
        here = next;
    }
    Ok(Section {
        n: m,
        records,
        end: here.at,
    })
}

// The third section, from the front of s, and where it ends: the silent ticks, and 0 where it is left out.
fn read_silent(s: &[u8]) -> Result<(u8, usize), Refusal>
    ensures { silent_said result ≡ silent_section s.now (silent_of s.now) }
{
    let front = Cursor { at: 0 };
    let Some((count, start)) = front.byte(s) else {
        return Ok((0, 0));
    };
    if 1 < count {
        return Err(Refusal::SilentSection);
    }
    if count == 0 {
        return Ok((0, start.at));
    }
    let Some((g, behind)) = start.byte(s) else {
        return Err(Refusal::EndsEarly);
    };
    if 15 < g {
        return Err(Refusal::SilentSection);
    }
    Ok((g, behind.at))
}

// A request, or the refusal of its bytes, with a number from 1 to 6 or 17.
pub fn read(s: &[u8]) -> Result<Request, Refusal>
    ensures { request_said result ≡ request_answered (reading s.now) }
{
    let Section {
        n,
        records: tasks,
        end: first,
    } = read_tasks(s)?;
    let Section {
        n: m,
        records: pairs,
        end: second,
    } = read_pairs(&s[first..], &tasks[..n])?;
    let behind = first + second;
    let (g, third) = read_silent(&s[behind..])?;
    if third < s.len() - behind {
        return Err(Refusal::BytesBehind);
    }
    Ok(Request {
        n,
        tasks,
        m,
        pairs,
        g,
    })
}
