#![tactic(auto)]
// Cutting a long transfer: a task is replaced by two pieces of it, one behind the other, which run in order.
ghost use Rattle.std.specs.Prelude.{◌≡◌, ◌<◌, get_or, length};
ghost use Rattle.cursor.specs.Padded.{padded};
ghost use Rattle.cursor.specs.Written.{written_said};
ghost use Rattle.request.specs.Request.{no_task, no_pair, reading};
ghost use Rattle.request.specs.Written.{request_answer, request_buffer};
ghost use Rattle.request.specs.Places.{Few};
ghost use Rattle.cut.specs.Cut.{cut_tasks, cut_pair, cut_pairs, cuttable, cut};

use refusal::Refusal;
use request::{Pair, Task};

// A cut leaves both pieces at least one tick.
fn can_cut(tasks: &[Task], i: usize, u: u16) -> bool
    ensures { result ≡ cuttable tasks.now i u }
{
    i < tasks.len() && 1 <= u && u < tasks[i].c
}

// The tasks of the cut request, of which there is one more: the pieces are tasks i and i + 1, and the later ones move up.
fn cut_tasks(tasks: &[Task], i: usize, u: u16) -> [Task; 16]
    requires { (length tasks.now < 16) × (i < length tasks.now) × (u < (get_or tasks.now i no_task).c) }
    ensures { result ≡ padded 16 no_task (cut_tasks tasks.now i u) }
{
    let whole = tasks[i];
    let end = tasks.len() + 1;
    let mut pieces = [Task::NONE; 16];
    pieces[..i].copy_from_slice(&tasks[..i]);
    pieces[i + 2..end].copy_from_slice(&tasks[i + 1..]);
    pieces[i] = Task { c: u, ..whole };
    pieces[i + 1] = Task {
        c: whole.c - u,
        ..whole
    };
    pieces
}

// The old pair q in the cut request: what ran before task i runs before its first piece, and what ran after it after its second.
fn cut_pair(q: Pair, i: u8) -> Pair
    requires { (q.a < 16) × (q.b < 16) }
    ensures { result ≡ cut_pair i q }
{
    Pair {
        a: if q.a < i { q.a } else { q.a + 1 },
        b: if q.b <= i { q.b } else { q.b + 1 },
    }
}

// The pairs of the cut request: the pieces' own pair, and then the old ones.
fn cut_pairs(pairs: &[Pair], i: u8) -> [Pair; 16]
    requires { (length pairs.now < 16) × (i < 16) × Few pairs.now }
    ensures { result ≡ padded 16 no_pair (cut_pairs i pairs.now) }
{
    let mut links = [Pair::NONE; 16];
    links[0] = Pair { a: i, b: i + 1 };
    for (v, pair) in pairs.iter().enumerate() {
        links[v + 1] = cut_pair(*pair, i);
    }
    links
}

// The request with task `task` cut behind its first `first` ticks, written into `out`; the answer is its length. A refusal leaves `out` as it was.
pub fn cut(request: &[u8], task: u8, first: u16, out: &mut [u8]) -> Result<usize, Refusal>
    ensures { (written_said result ≡ request_answer (cut task first (reading request.now)) out.old)
        × (out.new ≡ request_buffer (cut task first (reading request.now)) out.old) }
{
    let x = request::read(request)?;
    let tasks = &x.tasks[..x.n];
    let i = task as usize;
    if !can_cut(tasks, i, first) {
        return Err(Refusal::NoSuchCut);
    }
    if x.n == 16 {
        return Err(Refusal::TasksFull);
    }
    if x.m == 16 {
        return Err(Refusal::TooManyPairs);
    }
    let pieces = cut_tasks(tasks, i, first);
    let links = cut_pairs(&x.pairs[..x.m], task);
    request::write::write(pieces, x.n + 1, links, x.m + 1, x.g, out)
}
