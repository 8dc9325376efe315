// The jobs that have begun in a row, as bits: two words for each row, first of the jobs before job 64, then of the others. Jobs that have a row are
// two words as well, so that the next job of a row is found by counting zeros.
ghost use Rattle.std.specs.Prelude.{◌≡◌, true, ℕ, ◌*◌, ◌≤◌, ◌<◌, length};
ghost use Rattle.searcher.specs.Arrays.{rows_in, jobs_in};
ghost use Rattle.exact.specs.Sweep.{skips};
ghost use Rattle.exact.specs.Words.{word_at};
ghost use Rattle.sweep.specs.Arrays.{rules_in, Sweepable, Begun, Beginning, Unfree, with_bit};

use super::Swept;
use searcher::Problem;

// Sets bit j of word k.
fn add_bit(begun: &mut [u64; 512], k: usize, j: usize)
    requires { (k < 512) × (j < 64) }
    ensures { begun.new ≡ with_bit begun.old k j }
{
    begun[k] |= 1u64 << j;
}

// Each job has its bit in its first row.
fn in_first_rows(problem: &Problem, swept: &Swept, begun: &mut [u64; 512])
    requires sweepable { Sweepable problem.now }
    requires begun_len { length begun.old ≡ 512 }
    ensures { Beginning (rules_in problem.now swept.now) (rows_in problem.now)
        (jobs_in problem.now) 0 begun.new }
{
    let rows = problem.rows;
    let n = problem.n;
    for (i, &row) in swept.first[..n].iter().enumerate() {
        if row < rows {
            add_bit(begun, 2 * (row as usize) + i / 64, i % 64);
        }
    }
}

// Each job has its bit in its first row and in all after it.
pub(super) fn begun_of(problem: &Problem, swept: &Swept) -> [u64; 512]
    requires { Sweepable problem.now }
    ensures { Begun (rules_in problem.now swept.now) (rows_in problem.now) result }
{
    let mut begun = [0u64; 512];
    in_first_rows(problem, swept, &mut begun);
    let end = 2 * (problem.rows as usize);
    for k in 2..end {
        begun[k] |= begun[k - 2];
    }
    begun
}

// The first place from place i on where the word `begun` has a bit and `put` has none; more than 63 if there is none.
fn free_place(begun: u64, put: u64, i: usize) -> usize
    requires { i < 64 }
    ensures { (i ≤ result) × (result ≤ 128) × Unfree begun put i result }
{
    let free = begun & (begun ^ put);
    i + (free >> i).trailing_zeros() as usize
}

// Jobs from job i on up to the answer are passed over in row p.
pub(super) fn first_free(
    problem: &Problem,
    swept: &Swept,
    begun: &[u64; 512],
    flags: &[bool; 128],
    low: u64,
    high: u64,
    p: u16,
    i: usize,
) -> usize
    requires sweepable { Sweepable problem.now }
    requires begun { Begun (rules_in problem.now swept.now) (rows_in problem.now) begun.now }
    requires p_bound { (p < rows_in problem.now) × (i < 128) × (low ≡ word_at flags.now 0) × (high ≡ word_at flags.now 64) }
    ensures { (i ≤ result) × ((y : ℕ) → i ≤ y → y < result → y < jobs_in problem.now
        → skips (rules_in problem.now swept.now) p flags.now y ≡ true) }
{
    let k = 2 * (p as usize);
    if i >= 64 {
        return 64 + free_place(begun[k + 1], high, i - 64);
    }
    let j = free_place(begun[k], low, i);
    if j < 64 {
        return j;
    }
    64 + free_place(begun[k + 1], high, 0)
}
