#![tactic(auto)]
// The planner: a request becomes the table of its chosen plan, or a refusal that says why there is none, within an allowance of tries.
pub mod choose;

ghost use Rattle.std.specs.Prelude.{◌≡◌};
ghost use Rattle.plan_writer.specs.Outcome.{outcome_buffer};
ghost use Rattle.planner.specs.Numbered.{searched_said};
ghost use Rattle.planner.specs.Outcome.{outcome_within, searched_answer};

use refusal::Refusal;

// What a program that plans a request from its standard input allows.
pub const PROGRAM_TRIES: u64 = 10_000_000;

// What a search came to, and the tries that were made: one try is one job tested in one frame of its window, passed over or not.
#[derive(Clone, Copy)]
pub struct Searched<T> {
    pub outcome: Result<T, Refusal>,
    pub tries: u64,
}

// The length of the table of the request's chosen plan, written into `out`, if it is found with at most `allowance` tries. A refusal, from 1 to 11,
// 17 or 23, leaves `out` as it was.
pub fn plan(request: &[u8], allowance: u64, out: &mut [u8]) -> Searched<usize>
    ensures { (searched_said result ≡ searched_answer allowance request.now out.old)
        × (out.new ≡ outcome_buffer (outcome_within allowance request.now) out.old) }
{
    let cycle = match cycle::read(request) {
        Ok(cycle) => cycle,
        Err(refusal) => {
            return Searched {
                outcome: Err(refusal),
                tries: 0,
            };
        }
    };
    let Searched { outcome, tries } = choose::choose(cycle, allowance);
    let outcome = match outcome {
        Ok(chosen) => plan_writer::write(cycle, chosen.f, chosen.frames, out),
        Err(refusal) => Err(refusal),
    };
    Searched { outcome, tries }
}
