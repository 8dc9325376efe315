#![tactic(auto)]
// Which phases of a task still fit: how many of them lead to a table, and how many to each refusal of the planner.
ghost use Rattle.std.specs.Prelude.{◌≡◌, ◌<◌};
ghost use Rattle.refusal.specs.Refusal.{refusal_in};
ghost use Rattle.cycle.specs.PhaseLaws.{request_with};
ghost use Rattle.phases.specs.Phases.{phase_counts, phases};
ghost use Rattle.phases.specs.Numbered.{counts_ok, counts_said};
ghost use Rattle.phases.specs.Counting.{Room, one_more, Countable, period_in, phase_number};

use planner::choose::ChosenPlan;
use refusal::Refusal;
use request::Request;

// How many phases of the task lead to a table, to 9, to 10 and to 23.
#[derive(Clone, Copy)]
pub struct PhaseCounts {
    pub tables: u16,
    pub nines: u16,
    pub tens: u16,
    pub ended: u16,
}

// The request with phase p for task i.
fn with_phase(request: Request, i: usize, p: u16) -> Request
    requires { i < 16 }
    ensures { result ≡ request_with request i p }
{
    let mut shifted = request;
    shifted.tasks[i].p = p;
    shifted
}

// What planning comes to with phase p for task i: a plan, or 9, 10 or 23. The jobs are listed anew, in the order of their new releases.
fn outcome_at(request: Request, i: usize, p: u16, allowance: u64) -> Result<ChosenPlan, Refusal>
    requires { Countable request i × (p < period_in request i) }
    ensures { refusal_in result ≡ phase_number allowance request i p }
{
    let shifted = with_phase(request, i, p);
    let cycle = cycle::of(Ok(shifted))?;
    planner::choose::choose(cycle, allowance).outcome
}

// One phase more that comes to this.
fn one_more(counts: PhaseCounts, outcome: Result<ChosenPlan, Refusal>) -> PhaseCounts
    requires { Room (counts_ok counts) }
    ensures { counts_ok result ≡ one_more (counts_ok counts) (refusal_in outcome) }
{
    let mut more = counts;
    match outcome {
        Ok(_) => more.tables += 1,
        Err(refusal) => match refusal {
            Refusal::NoPlausibleLength => more.nines += 1,
            Refusal::NoPlan => more.tens += 1,
            Refusal::AllowanceUsed => more.ended += 1,
            _ => {}
        },
    }
    more
}

// The phases of task i from 0 to T - 1, each planned with the whole allowance.
fn count(request: Request, i: usize, allowance: u64) -> PhaseCounts
    requires { Countable request i }
    ensures { counts_ok result ≡ phase_counts (phase_number allowance request i) (period_in request i) }
{
    let mut counts = PhaseCounts {
        tables: 0,
        nines: 0,
        tens: 0,
        ended: 0,
    };
    for p in 0..request.tasks[i].t {
        let outcome = outcome_at(request, i, p, allowance);
        counts = one_more(counts, outcome);
    }
    counts
}

// How many phases of the task from 0 to T - 1 lead to a table, to 9, to 10 and to 23, all else as in the request, each planned with so many tries allowed; or
// 1 to 8, 17 or 16, and nothing is counted.
pub fn phases(request: &[u8], task: u8, allowance: u64) -> Result<PhaseCounts, Refusal>
    ensures { counts_said result ≡ phases allowance request.now task }
{
    let i = usize::from(task);
    let read = request::read(request)?;
    // 7 and 8 come before 16.
    cycle::of(Ok(read))?;
    if read.n <= i {
        return Err(Refusal::NoSuchTask);
    }
    Ok(count(read, i, allowance))
}
