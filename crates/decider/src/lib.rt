#![tactic(auto)]
// The exact planner: every request within the limits is decided, with no allowance. A request becomes the table of its chosen plan, or the
// refusal that says why there is none: what the full search comes to. The plain search goes first, for a few tries; where they do not suffice, the
// exact search is made, of the same lengths.
ghost use Rattle.std.specs.Prelude.{◌≡◌, []};
ghost use Rattle.cursor.specs.Written.{written_said};
ghost use Rattle.search.specs.Placing.{plan_walk};
ghost use Rattle.model.specs.Answers.{instance_of};
ghost use Rattle.model.specs.Within.{InLimits};
ghost use Rattle.model.specs.Chosen.{problem_at};
ghost use Rattle.model.specs.Chosen as chosen;
ghost use Rattle.plan_writer.specs.Outcome.{outcome_answer, outcome_buffer};
ghost use Rattle.planner.specs.Numbered.{plan_said};
ghost use Rattle.planner.specs.Outcome.{outcome};
ghost use Rattle.planner.specs.Choices.{Searchable, choice_answer};
ghost use Rattle.exact_searcher.specs.Arrays.{found_answer};

use cycle::Cycle;
use planner::choose::{ChosenPlan, MOST_ROWS};
use problem::JobLinks;
use refusal::Refusal;

// The first plan with frames of length f.
fn plan_with(cycle: Cycle, cost: [u32; 128], links: JobLinks, f: u16) -> Option<[u16; 128]>
    requires { Searchable cycle cost links f }
    ensures { result ≡ found_answer (plan_walk (problem_at (instance_of cycle) f) []).found }
{
    let given = planner::choose::given_at(cycle, cost, links, f);
    exact_searcher::place_all(given)
}

// The chosen plan by the exact search: that of the first length with a plan; or 9 or 10.
fn choose_exactly(cycle: Cycle) -> Result<ChosenPlan, Refusal>
    requires { InLimits cycle }
    ensures { plan_said 0 result ≡ choice_answer (chosen.choose (instance_of cycle)) 0 }
{
    let cost = problem::costs(cycle);
    let links = problem::links(cycle);
    let mut none = Refusal::NoPlausibleLength;
    // No length has more rows than the cycle has ticks.
    let most = cycle.h.min(MOST_ROWS);
    for rows in 1..most + 1 {
        if !planner::choose::is_tried(cycle, rows) {
            continue;
        }
        none = Refusal::NoPlan;
        let f = cycle.h / rows;
        if let Some(frames) = plan_with(cycle, cost, links, f) {
            return Ok(ChosenPlan { f, frames });
        }
    }
    Err(none)
}

// What the plain search is allowed before the exact one begins: so a request that is planned at once costs what `plan` costs.
pub const EASY_TRIES: u64 = 10_000;

// The chosen plan: as the plain search chooses, if a few tries suffice; else as the exact one does.
fn choose(cycle: Cycle) -> Result<ChosenPlan, Refusal>
    requires { InLimits cycle }
    ensures { plan_said 0 result ≡ choice_answer (chosen.choose (instance_of cycle)) 0 }
{
    match planner::choose::choose(cycle, EASY_TRIES).outcome {
        Ok(chosen) => Ok(chosen),
        Err(refusal) => match refusal {
            Refusal::AllowanceUsed => choose_exactly(cycle),
            _ => Err(refusal),
        },
    }
}

// The length of the table of the request's chosen plan, written into `out`; or a refusal, from 1 to 11 or 17, which leaves `out` as it was.
pub fn decide(request: &[u8], out: &mut [u8]) -> Result<usize, Refusal>
    ensures { (written_said result ≡ outcome_answer (outcome request.now) out.old)
        × (out.new ≡ outcome_buffer (outcome request.now) out.old) }
{
    let cycle = cycle::read(request)?;
    let chosen = choose(cycle)?;
    plan_writer::write(cycle, chosen.f, chosen.frames, out)
}
