#![tactic(auto)]
// The search for a placing: each job gets a frame of its window, so that no row is loaded with more than the frame's length and every link is
// kept. `place_job` tries the frames of one job, with the row as a running number; `try_frame` tests one of them by `may_stand`, puts the job there
// and hands over to `place_job` for the next. The load of each row is kept as jobs are put and taken back. Jobs are numbered in the order of placing.
//
// `left` is the number of tries that are left: one try is one job tested in one frame of its window, passed over or not. `place_job` and `try_frame`
// answer by an `Attempt`.
//
// `pack` makes of what is given the problem that the search lends on: the same, with each cost in two bytes.
ghost use Rattle.std.specs.Prelude.{◌≡◌, [], ◌+◌, ◌<◌, ◌%◌, take};
ghost use Rattle.cursor.specs.Padded.{padded};
ghost use Rattle.search.specs.Placing.{raise, lower, links_at, earliest, latest, has_room, fits, plan_walk};
ghost use Rattle.searcher.specs.Arrays.{Small, Placeable, problem_of, jobs_in, counts_in, problem_in, LinksBack, Placing, Testing, TriedJob, TriedFrame, placed_within};

// What is given: for each of n jobs its cost, its window from `first` up to and without `end`, how many links it has, and 16 places for them; the number
// of rows, and the length f of a frame.
#[derive(Clone, Copy)]
pub struct Given {
    pub cost: [u32; 128],
    pub first: [u16; 128],
    pub end: [u16; 128],
    pub counts: [u16; 128],
    pub links: [u8; 2048],
    pub n: usize,
    pub rows: u16,
    pub f: u16,
}

// The same where each cost fits into two bytes, as `pack` leaves it. Not one generic struct with `Given`: such a struct has no array of its parameter.
#[derive(Clone, Copy)]
pub struct Problem {
    pub cost: [u16; 128],
    pub first: [u16; 128],
    pub end: [u16; 128],
    pub counts: [u16; 128],
    pub links: [u8; 2048],
    pub n: usize,
    pub rows: u16,
    pub f: u16,
}

impl Problem {
    // The links of job i.
    pub fn links_of(&self, i: usize) -> &[u8]
        requires { LinksBack (counts_in self.now) self.now.links i }
        ensures { result.now ≡ links_at (counts_in self.now) self.now.links i }
    {
        let from = 16 * i;
        &self.links[from..from + self.counts[i] as usize]
    }
}

// The frame of each job; or that there is no placing; or that finding out takes more tries than are allowed. And how many tries are left of those
// allowed.
#[derive(Clone, Copy)]
pub enum Placed {
    At { frames: [u16; 128], left: u64 },
    Nowhere { left: u64 },
    OutOfTries,
}

// What an attempt came to: there is no way to place the jobs; they are placed; or one more try was needed than were left.
// `Failed` stands first, so that the loop over frames compares with 0: behind `Done`, nine long searches took 1.19 times as long.
#[derive(Clone, Copy, PartialEq, Eq)]
enum Attempt {
    Failed,
    Done,
    Stopped,
}

// The numbers, which are small.
fn narrow(xs: &[u32]) -> [u16; 128]
    requires { Small xs.now }
    ensures { result ≡ padded 128 0 xs.now }
{
    let mut out = [0u16; 128];
    for (j, x) in xs.iter().enumerate() {
        out[j] = *x as u16;
    }
    out
}

// What is given, with its costs in two bytes: the problem is the same.
pub fn pack(given: Given) -> Problem
    requires { Placeable given }
    ensures { (problem_in result ≡ problem_of given) × (jobs_in result ≡ given.n) }
{
    Problem {
        cost: narrow(&given.cost[..given.n]),
        first: given.first,
        end: given.end,
        counts: given.counts,
        links: given.links,
        n: given.n,
        rows: given.rows,
        f: given.f,
    }
}

// The earliest frame that is left by `low` and by link l.
fn raised(place: &[u16; 128], l: u8, low: u16) -> u16
    ensures { result ≡ raise place.now low l }
{
    if l < 128 {
        low.max(place[l as usize])
    } else {
        low
    }
}

// The latest frame that is left by `high` and by link l.
fn lowered(place: &[u16; 128], l: u8, high: u16) -> u16
    ensures { result ≡ lower place.now high l }
{
    if l < 128 {
        high
    } else {
        high.min(place[(l - 128) as usize])
    }
}

// The earliest frame that the links of job i leave it.
pub fn lower_bound(problem: &Problem, place: &[u16; 128], i: usize) -> u16
    requires { LinksBack (counts_in problem.now) problem.now.links i }
    ensures { result ≡ earliest (take i place.now) (links_at (counts_in problem.now) problem.now.links i) }
{
    problem
        .links_of(i)
        .iter()
        .fold(0, |low, l| raised(place, *l, low))
}

// The latest frame that the links of job i leave it.
pub fn upper_bound(problem: &Problem, place: &[u16; 128], i: usize) -> u16
    requires { LinksBack (counts_in problem.now) problem.now.links i }
    ensures { result ≡ latest (take i place.now) (links_at (counts_in problem.now) problem.now.links i) }
{
    problem
        .links_of(i)
        .iter()
        .fold(65535, |high, l| lowered(place, *l, high))
}

// The capacity test: by the row's kept load, f, and the job's own cost.
fn has_room(load: u16, f: u16, cost: u16) -> bool
    ensures { result ≡ has_room load f cost }
{
    (load as u32) + (cost as u32) <= (f as u32)
}

// The test of job i in frame k: its row has room for it by the row's kept load, and its links leave it the frames from `low` to `high`.
pub fn may_stand(
    problem: &Problem,
    place: &[u16; 128],
    load: &[u16; 256],
    i: usize,
    k: u16,
    row: usize,
    low: u16,
    high: u16,
) -> bool
    requires { Testing (problem_in problem.now) (jobs_in problem.now) place.now load.now i k row low high }
    ensures { result ≡ fits (problem_in problem.now) (take i place.now) k }
{
    has_room(load[row], problem.f, problem.cost[i]) && (low..=high).contains(&k)
}

// The row of the frame after one in this row.
pub fn next_row(row: usize, rows: u16) -> usize
    requires { row < rows }
    ensures { result ≡ (row + 1) % rows }
{
    if row + 1 == rows as usize {
        return 0;
    }
    row + 1
}

// Places job i and those after it: tries the frames of its window, the earliest first. The jobs before i stay as they stand.
#[cycle(place_job_try_frame)]
fn place_job(
    problem: &Problem,
    place: &mut [u16; 128],
    load: &mut [u16; 256],
    left: &mut u64,
    i: usize,
) -> Attempt
    requires { Placing (problem_in problem.now) (jobs_in problem.now) place.old load.old i }
    ensures { TriedJob (problem_in problem.now) (jobs_in problem.now)
        place.old load.old i left.old result place.new load.new left.new }
{
    let n = problem.n;
    if i == n {
        return Attempt::Done;
    }
    let low = lower_bound(problem, place, i);
    let high = upper_bound(problem, place, i);
    let rows = problem.rows;
    let first = problem.first[i];
    let end = problem.end[i];
    let mut row = (first % rows) as usize;
    for k in first..end {
        match try_frame(problem, place, load, left, i, k, row, low, high) {
            Attempt::Failed => row = next_row(row, rows),
            end => return end,
        }
    }
    Attempt::Failed
}

// One try: tests job i in frame k, and where it may stand there puts it there, with the jobs after it. Its links leave it the frames from `low`
// to `high`.
#[cycle(place_job_try_frame)]
fn try_frame(
    problem: &Problem,
    place: &mut [u16; 128],
    load: &mut [u16; 256],
    left: &mut u64,
    i: usize,
    k: u16,
    row: usize,
    low: u16,
    high: u16,
) -> Attempt
    requires { Testing (problem_in problem.now) (jobs_in problem.now) place.old load.old i k row low high }
    ensures { TriedFrame (problem_in problem.now) (jobs_in problem.now)
        place.old load.old i k left.old result place.new load.new left.new }
{
    if *left < 1 {
        return Attempt::Stopped;
    }
    let stands = may_stand(problem, place, load, i, k, row, low, high);
    *left -= 1;
    if !stands {
        return Attempt::Failed;
    }
    let l = load[row];
    load[row] = l + problem.cost[i];
    place[i] = k;
    match place_job(problem, place, load, left, i + 1) {
        Attempt::Failed => load[row] = l,
        end => return end,
    }
    Attempt::Failed
}

// The first placing of the jobs, if it is found within the tries allowed.
pub fn place_all(given: Given, allowed: u64) -> Placed
    requires { Placeable given }
    ensures { result ≡ placed_within allowed (plan_walk (problem_of given) []) }
{
    let problem = pack(given);
    let mut frames = [0u16; 128];
    let mut load = [0u16; 256];
    let mut left = allowed;
    match place_job(&problem, &mut frames, &mut load, &mut left, 0) {
        Attempt::Done => Placed::At { frames, left },
        Attempt::Failed => Placed::Nowhere { left },
        Attempt::Stopped => Placed::OutOfTries,
    }
}
