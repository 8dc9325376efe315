#![tactic(auto)]
// Pruning: whether domains, for each job the frames from `low` to before `high`, may hold a placing. Both questions first tighten them by the links.
// `is_crowded` asks the arcs. `may` says no if a domain is empty, or if the sweep of the sided jobs does; else it takes a job that is not sided, and
// asks of the domains with it not carried, and carried. Only that there is no placing is ever said for certain.
// That a problem is `Packed` stands in clauses and not in its type: `searcher::lower_bound` and `sweep::sweep` take the same type and ask less.
mod arcs;
mod sides;
mod tighten;

ghost use Rattle.std.specs.Prelude.{◌≡◌, true, false, ◌+◌};
ghost use Rattle.searcher.specs.Arrays.{counts_in, jobs_in, problem_in, LinksBack};
ghost use Rattle.exact.specs.None.{None};
ghost use Rattle.prune.specs.Arrays.{Packed, domains, marked_by, Marked};

use searcher::Problem;
use sweep::Swept;
use tighten::Domains;

// Marks the job that link l names, if it must not be earlier.
fn mark(out: &mut [u16; 128], l: u8)
    ensures { out.new ≡ marked_by out.old l }
{
    if l >= 128 {
        out[(l - 128) as usize] = 1;
    }
}

// Marks the jobs that the links of job y name.
fn mark_links(problem: &Problem, out: &mut [u16; 128], y: usize)
    requires links_back { LinksBack (counts_in problem.now) problem.now.links y }
    requires marked { Marked (counts_in problem.now) problem.now.links y out.old }
    ensures { Marked (counts_in problem.now) problem.now.links (y + 1) out.new }
{
    for l in problem.links_of(y) {
        mark(out, *l);
    }
}

// The jobs that a job with a higher number must not be later than.
pub fn tied_jobs(problem: &Problem) -> [u16; 128]
    requires { Packed problem.now }
    ensures { Marked (counts_in problem.now) problem.now.links (jobs_in problem.now) result }
{
    let n = problem.n;
    let mut out = [0u16; 128];
    for y in 0..n {
        mark_links(problem, &mut out, y);
    }
    out
}

// Whether some arc must hold too much, so that the domains hold no placing.
pub fn is_crowded(problem: &Problem, low: [u16; 128], high: [u16; 128]) -> bool
    requires { Packed problem.now }
    ensures { result ≡ true → None (problem_in problem.now) (domains low high) }
{
    let mut d = Domains { low, high };
    d.tighten(problem);
    arcs::some_full(problem, &d)
}

// Whether the domains may hold a placing. At most `depth` jobs are made sided. `words` is the sweep's, and `found` gets the rows of its last answer.
pub fn may(
    problem: &Problem,
    tied: [u16; 128],
    found: &mut [u16; 128],
    words: &mut [u64],
    low: [u16; 128],
    high: [u16; 128],
    depth: u16,
) -> bool
    requires packed { Packed problem.now }
    requires marked { Marked (counts_in problem.now) problem.now.links (jobs_in problem.now) tied }
    ensures { result ≡ false → None (problem_in problem.now) (domains low high) }
{
    let n = problem.n;
    let rows = problem.rows;
    let mut d = Domains { low, high };
    d.tighten(problem);
    if d.is_empty(n) {
        return false;
    }
    let (side, first, end) = sides::rows_of(&d, n, rows);
    let swept = Swept {
        first,
        end,
        side,
        tied,
    };
    if !sweep::sweep(problem, &swept, found, words) {
        return false;
    }
    if depth == 0 {
        return true;
    }
    let Some(i) = side[..n].iter().position(|side| *side == 1024) else {
        return true;
    };
    let mut e = d.high;
    e[i] = rows;
    if may(problem, tied, found, words, d.low, e, depth - 1) {
        return true;
    }
    d.low[i] = rows;
    may(problem, tied, found, words, d.low, d.high, depth - 1)
}
