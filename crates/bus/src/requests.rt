// The calls on requests.
ghost use Rattle.std.specs.Prelude.{◌≡◌};
ghost use Rattle.bus.specs.Join.{join_reply, join_buffer};
ghost use Rattle.bus.specs.Cut.{cut_reply, cut_buffer};
ghost use Rattle.bus.specs.Phases.{phases_reply, phases_counts};

use crate::reply::{BAD_BYTES, length, refused};
use lent::numbers::write_phases;

// The request of the two joined, written into `out`: its length, or 1 to 6, 17 to 20 or 11 negated.
pub fn bus_join(first: &[u8], second: &[u8], out: &mut [u8]) -> i32
    ensures { (result ≡ join_reply first.now second.now out.old)
        × (out.new ≡ join_buffer first.now second.now out.old) }
{
    length(join::join(first, second, out))
}

// The request with one task cut into two pieces, written into `out`: its length, or 1 to 6, 17, 24, 25, 19 or 11 negated.
pub fn bus_cut(request: &[u8], task: u8, first: u16, out: &mut [u8]) -> i32
    ensures { (result ≡ cut_reply request.now task first out.old)
        × (out.new ≡ cut_buffer request.now task first out.old) }
{
    length(cut::cut(request, task, first, out))
}

// How many phases of a task lead to a table, to 9, to 10 and to 23, as four u16 in the first 8 bytes of `counts`: 0, or 99, 1 to 8, 17 or 16 negated and
// nothing changed.
pub fn bus_phases(request: &[u8], task: u8, allowance: u64, counts: &mut [u8]) -> i32
    ensures { (result ≡ phases_reply allowance request.now task counts.old)
        × (counts.new ≡ phases_counts allowance request.now task counts.old) }
{
    if counts.len() < 8 {
        return BAD_BYTES;
    }
    match phases::phases(request, task, allowance) {
        Ok(found) => {
            write_phases(counts, found);
            0
        }
        Err(refusal) => refused(refusal),
    }
}
