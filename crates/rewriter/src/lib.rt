#![tactic(auto)]
// Rewriting: a table is checked against its request, and the plan read from it is written again.
ghost use Rattle.std.specs.Prelude.{◌≡◌};
ghost use Rattle.cursor.specs.Written.{written_said};
ghost use Rattle.plan_writer.specs.Outcome.{outcome_answer, outcome_buffer};
ghost use Rattle.rewriter.specs.Rewritten.{rewritten};

use refusal::Refusal;

// The table of the plan that was read, written into `out`: its length. A refusal leaves `out` as it was.
pub fn rewrite(request: &[u8], table: &[u8], out: &mut [u8]) -> Result<usize, Refusal>
    ensures { (written_said result ≡ outcome_answer (rewritten request.now table.now) out.old)
        × (out.new ≡ outcome_buffer (rewritten request.now table.now) out.old) }
{
    let read = checker::read_plan(request, table)?;
    let (f, frames) = read.plan?;
    plan_writer::write(read.cycle, f, frames, out)
}
