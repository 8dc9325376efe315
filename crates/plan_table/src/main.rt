#![tactic(auto)]
// Reads a request from standard input and writes the table of its plan to standard output. Without a plan it prints `refused N` on
// standard error and nothing on standard output.
ghost use Rattle.std.specs.Prelude.{◌≡◌, ◌≤◌, length, take};
ghost use Rattle.plan_writer.specs.Outcome.{outcome_buffer};
ghost use Rattle.planner.specs.Numbered.{searched_said};
ghost use Rattle.planner.specs.Outcome.{program_tries, outcome_within, searched_answer};

use planner::Searched;

// The planner's answer and buffer within the tries that a program allows; the answer's length is within the buffer.
fn plan(request: &[u8], out: &mut [u8]) -> Searched<usize>
    ensures value { (searched_said result ≡ searched_answer program_tries request.now out.old)
        × (out.new ≡ outcome_buffer (outcome_within program_tries request.now) out.old) }
    ensures prefix_len { let n = (searched_said result).length in (n ≤ length out.new) × (n ≡ length (take n out.new)) }
{
    planner::plan(request, planner::PROGRAM_TRIES, out)
}

// A request has at most 164 bytes: what longer input is refused with is decided by its first 165.
fn main(rt: HostRuntime) {
    let Some(request) = streams::input(&rt, 4096) else {
        return;
    };
    let mut out = [0u8; 4096];
    match plan(&request, &mut out).outcome {
        Ok(length) => {
            streams::print(&rt, &out[..length]);
        }
        Err(refusal) => {
            let end = plan_listing::refused(refusal.number(), &mut out);
            let _ = rt.stderr().write_all(&out[..end]);
        }
    }
}
