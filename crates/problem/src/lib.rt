#![tactic(auto)]
// The jobs of a cycle as the search takes them: the cost of each, the frames of its window, and its links with the jobs before it.
ghost use Rattle.std.specs.Prelude.{◌≡◌, map, ◌≤◌, ◌<◌, ◌==◌, ◌&&◌, min, get_or, length, position};
ghost use Rattle.cursor.specs.Padded.{padded, firsts};
ghost use Rattle.request.specs.Request.{no_task};
ghost use Rattle.cycle.specs.declared.Job.{Job};
ghost use Rattle.model.specs.Plan.{slot, costs};
ghost use Rattle.model.specs.Chosen.{first_frame_of, end_frame_of};
ghost use Rattle.model.specs.Links.{link_by, links_by};
ghost use Rattle.model.specs.Answers.{instance_of};
ghost use Rattle.problem.specs.Answers.{links_answer, as_list, Stored};

use cycle::{Cycle, Job};
use request::{Pair, Task};

// How many links each job has, and the links, 16 places for those of each job.
#[derive(Clone, Copy)]
pub struct JobLinks {
    pub counts: [u16; 128],
    pub places: [u8; 2048],
}

// The elements in the first n places.
fn first_of<T, const N: usize>(items: &[T; N], n: usize) -> &[T]
    ensures few { length result.now ≤ N }
    ensures those { (blank : T) → result.now ≡ firsts (min n N) blank items.now }
{
    &items[..n.min(N)]
}

// The time that a transfer of the task takes in its row; the silent ticks alone where it is not one of the n tasks, of which there are at most 16.
pub fn cost(tasks: [Task; 16], n: usize, g: u8, task: u8) -> u32
    ensures { result ≡ slot g (get_or (firsts (min n 16) no_task tasks) task no_task) }
{
    match first_of(&tasks, n).get(task as usize) {
        Some(x) => model::slot(g, *x),
        None => g as u32,
    }
}

// A number of each job, and `blank` in the places behind them.
fn each_job<T: Copy, F: Fn(Job) -> T>(jobs: &[Job], blank: T, number: F) -> [T; 128]
    requires few { length jobs.now ≤ 128 }
    requires callable { F.IsAlwaysCallable number }
    ensures { (value : Job → T) → ((x : Job) (r : T) → F.post number x r → r ≡ value x) → result ≡ padded 128 blank (map value jobs.now) }
{
    let mut out = [blank; 128];
    for (y, job) in jobs.iter().enumerate() {
        out[y] = number(*job);
    }
    out
}

// The time that each job takes in its row.
pub fn costs(cycle: Cycle) -> [u32; 128]
    ensures { result ≡ padded 128 0 (costs (instance_of cycle)) }
{
    let jobs = first_of(&cycle.jobs, cycle.count);
    each_job(jobs, 0, |job| cost(cycle.tasks, cycle.n, cycle.g, job.task))
}

// The first frame of length f that begins at the job's release or later.
fn first_frame(f: u16, job: Job) -> u16
    ensures { result ≡ first_frame_of f job }
{
    if f == 0 {
        return 0;
    }
    let length = f as u32;
    (((job.release as u32) + (length - 1)) / length) as u16
}

// That of each job.
pub fn first_frames(cycle: Cycle, f: u16) -> [u16; 128]
    ensures { result ≡ padded 128 0 (map (first_frame_of f) (instance_of cycle).jobs) }
{
    let jobs = first_of(&cycle.jobs, cycle.count);
    each_job(jobs, 0, |job| first_frame(f, job))
}

// The first frame of length f that ends behind the job's due time.
fn end_frame(f: u16, job: Job) -> u16
    ensures { result ≡ end_frame_of f job }
{
    if f == 0 {
        return 0;
    }
    job.due / f
}

// That of each job.
pub fn end_frames(cycle: Cycle, f: u16) -> [u16; 128]
    ensures { result ≡ padded 128 0 (map (end_frame_of f) (instance_of cycle).jobs) }
{
    let jobs = first_of(&cycle.jobs, cycle.count);
    each_job(jobs, 0, |job| end_frame(f, job))
}

// The place of job j of task i, if one of the jobs is that.
fn place_of(jobs: &[Job], i: u8, j: u8) -> Option<usize>
    ensures { result ≡ position (λ x. x.task == i && x.number == j) jobs.now }
{
    jobs.iter().position(|job| job.task == i && job.number == j)
}

// The link of the job at place y by the pair: z to a job that must not stand later, z + 128 to one that must not stand earlier.
fn link_by(jobs: &[Job], y: usize, pair: Pair) -> Option<u8>
    requires { (y < length jobs.now) × (length jobs.now ≤ 128) }
    ensures { as_list result ≡ link_by jobs.now y pair }
{
    let job = jobs[y];
    if job.task == pair.b {
        let first = place_of(&jobs[..y], pair.a, job.number)?;
        return Some(first as u8);
    }
    if job.task == pair.a {
        let second = place_of(&jobs[..y], pair.b, job.number)?;
        return Some((second + 128) as u8);
    }
    None
}

// The links of the job at place y go into its places; answers how many they are.
fn store_links(jobs: &[Job], y: usize, pairs: &[Pair], places: &mut [u8; 2048]) -> u16
    requires { (y < length jobs.now) × (length jobs.now ≤ 128) × (length pairs.now ≤ 16) }
    ensures { Stored y (links_by jobs.now y pairs.now) places.old places.new result }
{
    let mut count: u16 = 0;
    for pair in pairs {
        if let Some(link) = link_by(jobs, y, *pair) {
            places[16 * y + (count as usize)] = link;
            count += 1;
        }
    }
    count
}

// The links of all jobs.
pub fn links(cycle: Cycle) -> JobLinks
    ensures { result ≡ links_answer (instance_of cycle) }
{
    let jobs = first_of(&cycle.jobs, cycle.count);
    let pairs = first_of(&cycle.pairs, cycle.m);
    let mut counts = [0u16; 128];
    let mut places = [0u8; 2048];
    for y in 0..jobs.len() {
        counts[y] = store_links(jobs, y, pairs, &mut places);
    }
    JobLinks { counts, places }
}
