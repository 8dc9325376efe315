// Arcs: rows that follow each other, round the cycle too. The jobs that must stand in some arc count too much for it, by their costs or by a step
// function of them. Costs of at most f together count no more than a row holds, by every step.
ghost use Rattle.std.specs.Prelude.{◌≡◌, true, ◌≤◌, ◌<◌, length};
ghost use Rattle.searcher.specs.Arrays.{problem_in};
ghost use Rattle.exact.specs.None.{None};
ghost use Rattle.exact.specs.Arcs.{step_of, room_of, last_in};
ghost use Rattle.prune.specs.Arrays.{Packed, domains, Filled};
ghost use Rattle.prune.specs.Arcs.{step_by, last_by, weight_by, Light, Needed, Over, SomeOver};

use super::tighten::Domains;
use searcher::Problem;

// What cost c counts by step k, where a row holds f.
fn weight(c: u16, f: u16, k: u16) -> u32
    requires { (0 < f) × (k ≤ 4) }
    ensures is_step { result ≡ step_of f k c }
    ensures small { result ≤ 327675 }
{
    if k == 0 {
        return c as u32;
    }
    let m = (k as u32 + 1) * (c as u32);
    if m % (f as u32) == 0 {
        return (k as u32) * (c as u32);
    }
    m / (f as u32) * (f as u32)
}

// What a row holds by step k.
fn room_of(f: u16, k: u16) -> u32
    requires { k ≤ 4 }
    ensures { result ≡ room_of f k }
{
    k.max(1) as u32 * f as u32
}

// What the jobs count by step k.
fn weights_of(problem: &Problem, n: usize, f: u16, k: u16) -> [u32; 128]
    requires { (n ≤ 128) × (0 < f) × (k ≤ 4) }
    ensures { Filled (step_by f k problem.now.cost) n result × Light result n }
{
    let mut out = [0u32; 128];
    for (i, c) in problem.cost[..n].iter().enumerate() {
        out[i] = weight(*c, f, k);
    }
    out
}

// The place of the last of these frames, counted from row s on; the last place of all, if they go round.
fn last_place(l: u16, h: u16, rows: u16, s: u16) -> usize
    requires { (0 < rows) × (s ≤ rows) }
    ensures { (result ≡ last_in rows s l h) × (result < rows) }
{
    let from = (l as u32 + (rows - s) as u32) % (rows as u32);
    let last = from + h.saturating_sub(l).saturating_sub(1) as u32;
    last.min(rows as u32 - 1) as usize
}

// At each place what the jobs count that have their last frame there.
fn needs_of(weights: &[u32], d: &Domains, rows: u16, s: u16) -> [u32; 256]
    requires n_bound { (length weights.now ≤ 128) × (0 < rows) × (rows ≤ 256) × (s ≤ rows) }
    requires light { Light weights.now (length weights.now) }
    ensures { Needed (last_by rows s d.now.low d.now.high) (weight_by weights.now) (length weights.now) result }
{
    let mut need = [0u32; 256];
    for (i, w) in weights.iter().enumerate() {
        need[last_place(d.low[i], d.high[i], rows, s)] += *w;
    }
    need
}

// Whether the jobs that lie in some rows from row s on count more than these hold, each of them `room`.
fn is_over(weights: &[u32], d: &Domains, rows: u16, s: u16, room: u32) -> bool
    requires n_bound { (length weights.now ≤ 128) × (0 < rows) × (rows ≤ 256) × (s ≤ rows) }
    requires light { Light weights.now (length weights.now) }
    ensures { result ≡ true → Over (last_by rows s d.now.low d.now.high) (weight_by weights.now) (length weights.now) room }
{
    let need = needs_of(weights, d, rows, s);
    let mut sum: u64 = 0;
    let mut has: u64 = 0;
    for asked in &need[..rows as usize] {
        sum += *asked as u64;
        has += room as u64;
        if sum > has {
            return true;
        }
    }
    false
}

// The same from any row on.
fn some_over(weights: &[u32], d: &Domains, rows: u16, room: u32) -> bool
    requires n_bound { (length weights.now ≤ 128) × (0 < rows) × (rows ≤ 256) }
    requires light { Light weights.now (length weights.now) }
    ensures { result ≡ true → SomeOver rows d.now.low d.now.high (weight_by weights.now) (length weights.now) room }
{
    (0..rows).any(|s| is_over(weights, d, rows, s, room))
}

// Whether some rows must hold too much by step k.
fn is_full(problem: &Problem, d: &Domains, k: u16) -> bool
    requires packed { Packed problem.now }
    requires k_bound { k ≤ 4 }
    ensures { result ≡ true → None (problem_in problem.now) (domains d.now.low d.now.high) }
{
    let n = problem.n;
    let rows = problem.rows;
    let f = problem.f;
    if f == 0 {
        return false;
    }
    let weights = weights_of(problem, n, f, k);
    some_over(&weights[..n], d, rows, room_of(f, k))
}

// The same by any step up to 4.
pub(super) fn some_full(problem: &Problem, d: &Domains) -> bool
    requires { Packed problem.now }
    ensures { result ≡ true → None (problem_in problem.now) (domains d.now.low d.now.high) }
{
    (0..=4).any(|k| is_full(problem, d, k))
}
