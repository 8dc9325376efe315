// Domains, tightened by the links: what they leave out is no placing.
ghost use Rattle.std.specs.Prelude.{◌≡◌, true, ◌≤◌, ◌<◌, set};
ghost use Rattle.searcher.specs.Arrays.{jobs_in, problem_in};
ghost use Rattle.prune.specs.Arrays.{Packed, domains, Tied, Linked, Tightened, Empty};

use searcher::Problem;

// Moves frame i to v; says whether it was another.
fn moves(frames: &mut [u16; 128], i: usize, v: u16) -> bool
    requires { i < 128 }
    ensures { frames.new ≡ set frames.old i v }
{
    let moved = frames[i] != v;
    frames[i] = v;
    moved
}

// For each job the frames from `low` to before `high`.
#[derive(Clone, Copy)]
pub(super) struct Domains {
    pub(super) low: [u16; 128],
    pub(super) high: [u16; 128],
}

impl Domains {
    // Job a is not in a later frame than job b.
    fn tie(&mut self, a: usize, b: usize) -> bool
        requires { (a < 128) × (b < 128) }
        ensures { Tied self.old.low self.old.high a b self.new.low self.new.high }
    {
        let first = self.low[b].max(self.low[a]);
        let end = self.high[a].min(self.high[b]);
        moves(&mut self.low, b, first) | moves(&mut self.high, a, end)
    }

    // What link l of job i says: below 128 the partner is not later, from 128 on it is not earlier.
    fn tie_link(&mut self, i: usize, l: u8) -> bool
        requires { i < 128 }
        ensures { Linked self.old.low self.old.high i l self.new.low self.new.high }
    {
        if l < 128 {
            return self.tie(l as usize, i);
        }
        self.tie(i, (l - 128) as usize)
    }

    // What the links of job i say.
    fn tie_links(&mut self, problem: &Problem, i: usize) -> bool
        requires packed { Packed problem.now }
        requires i_bound { i < jobs_in problem.now }
        ensures { Tightened (problem_in problem.now)
            (domains self.old.low self.old.high) (domains self.new.low self.new.high) }
    {
        let mut moved = false;
        for l in problem.links_of(i) {
            moved |= self.tie_link(i, *l);
        }
        moved
    }

    // What the links of all jobs say, once.
    fn pass(&mut self, problem: &Problem) -> bool
        requires { Packed problem.now }
        ensures { Tightened (problem_in problem.now)
            (domains self.old.low self.old.high) (domains self.new.low self.new.high) }
    {
        let n = problem.n;
        let mut moved = false;
        for i in 0..n {
            moved |= self.tie_links(problem, i);
        }
        moved
    }

    // The same until nothing moves, at most 16 times.
    pub(super) fn tighten(&mut self, problem: &Problem)
        requires { Packed problem.now }
        ensures { Tightened (problem_in problem.now)
            (domains self.old.low self.old.high) (domains self.new.low self.new.high) }
    {
        for _ in 0..16 {
            if !self.pass(problem) {
                return;
            }
        }
    }

    // Whether a domain is empty.
    pub(super) fn is_empty(&self, n: usize) -> bool
        requires { n ≤ 128 }
        ensures { result ≡ true → Empty self.now.low self.now.high n }
    {
        self.low[..n]
            .iter()
            .zip(&self.high[..n])
            .any(|(first, end)| end <= first)
    }
}
