#![tactic(auto)]
// What the programs print, put as bytes into a lent buffer from its front: as much as there is room for. Bytes behind it keep their old content, and the
// answer is where it ends.
pub mod entry;
mod rows;
pub mod ticks;

ghost use Rattle.text.specs.Text.{PutIn};
ghost use Rattle.plan_listing.specs.Listing.{refused_line, listing};
ghost use Rattle.plan_listing.specs.Answers.{PlanPut};

use refusal::Refusal;

// The line of a refusal with this number.
pub fn refused(number: u8, out: &mut [u8]) -> usize
    ensures { PutIn (refused_line number) out.old result out.new }
{
    let name = text::put_all(out, 0, b"refused ");
    let line = text::put_number(out, name, number as u32);
    text::put(out, line, b'\n')
}

// The listing of the request's plan, where there is one; a refusal leaves `out` as it was.
fn put_plan(request: &[u8], out: &mut [u8]) -> Result<usize, Refusal>
    ensures { PlanPut result request.now out.old out.new }
{
    let mut table = [0u8; 519];
    let length = planner::plan(request, planner::PROGRAM_TRIES, &mut table).outcome?;
    rows::put_table(out, request, &table[..length])
}

// The listing of the request's plan, or the line of its refusal, within the tries that a program allows.
pub fn plan(request: &[u8], out: &mut [u8]) -> usize
    ensures { PutIn (listing request.now) out.old result out.new }
{
    match put_plan(request, out) {
        Ok(end) => end,
        Err(refusal) => refused(refusal.number(), out),
    }
}
