#![tactic(auto)]
// Joining two requests: the tasks and pairs of the first and then those of the second, whose numbers are raised by the first's number of tasks.
ghost use Rattle.std.specs.Prelude.{◌≡◌, ◌++◌, map, ◌+◌, ◌≤◌, length};
ghost use Rattle.refusal.specs.Refusal.{refusal_in};
ghost use Rattle.cursor.specs.Padded.{padded};
ghost use Rattle.cursor.specs.Written.{written_said};
ghost use Rattle.request.specs.Request.{no_task, no_pair, reading};
ghost use Rattle.request.specs.Written.{request_answer, request_buffer};
ghost use Rattle.request.specs.Places.{Few};
ghost use Rattle.join.specs.Joined.{raised_by, misfit, joined};

use refusal::Refusal;
use request::{Pair, Task};

// Whether n tasks and m pairs of requests with g and h silent ticks are one request's.
fn judge(n: usize, m: usize, g: u8, h: u8) -> Result<(), Refusal>
    ensures { refusal_in result ≡ misfit n m g h }
{
    if 16 < n {
        return Err(Refusal::TooManyTasks);
    }
    if 16 < m {
        return Err(Refusal::TooManyPairs);
    }
    if g != h {
        return Err(Refusal::SilentTicksDiffer);
    }
    Ok(())
}

// The tasks of `first` and then those of `second`.
fn join_tasks(first: &[Task], second: &[Task]) -> [Task; 16]
    requires { length first.now + length second.now ≤ 16 }
    ensures { result ≡ padded 16 no_task (first.now ++ second.now) }
{
    let n = first.len();
    let end = n + second.len();
    let mut tasks = [Task::NONE; 16];
    tasks[..n].copy_from_slice(first);
    tasks[n..end].copy_from_slice(second);
    tasks
}

// The pairs of `first` and then those of `second`, with both numbers raised by n.
fn join_pairs(first: &[Pair], second: &[Pair], n: u8) -> [Pair; 16]
    requires { (length first.now + length second.now ≤ 16) × (n ≤ 16) × Few second.now }
    ensures { result ≡ padded 16 no_pair (first.now ++ map (raised_by n) second.now) }
{
    let m = first.len();
    let mut pairs = [Pair::NONE; 16];
    pairs[..m].copy_from_slice(first);
    for (i, pair) in second.iter().enumerate() {
        pairs[m + i] = Pair {
            a: pair.a + n,
            b: pair.b + n,
        };
    }
    pairs
}

// The request of the two, written into `out`; the answer is its length. A refusal leaves `out` as it was.
pub fn join(first: &[u8], second: &[u8], out: &mut [u8]) -> Result<usize, Refusal>
    ensures { (written_said result ≡ request_answer (joined (reading first.now) (reading second.now)) out.old)
        × (out.new ≡ request_buffer (joined (reading first.now) (reading second.now)) out.old) }
{
    let x = request::read(first)?;
    let y = request::read(second)?;
    let n = x.n + y.n;
    let m = x.m + y.m;
    judge(n, m, x.g, y.g)?;
    let tasks = join_tasks(&x.tasks[..x.n], &y.tasks[..y.n]);
    let pairs = join_pairs(&x.pairs[..x.m], &y.pairs[..y.m], x.n as u8);
    request::write::write(tasks, n, pairs, m, x.g, out)
}
