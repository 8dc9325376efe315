// The calls on a draft: a job is moved by hand. The draft stands in bytes that the caller lends, and a call that is refused leaves them as they were. A draft
// buffer below 770 bytes gives 99, before every other number; any 770 bytes are a draft.
ghost use Rattle.std.specs.Prelude.{◌≡◌, ◌≤◌, length};
ghost use Rattle.bus.specs.Drafts.{handed_reply, handed_bytes, start_reply, start_bytes, lift_reply, lift_bytes, put_reply, put_bytes, write_reply, write_buffer};

use crate::reply::{BAD_BYTES, length, refused};
use draft::Draft;
use lent::draft_bytes::{read_draft, write_draft};
use refusal::Refusal;

// The draft that a call gives, into the lent bytes: 0, or the number negated and nothing changed.
fn hand_back(lent: &mut [u8], made: Result<Draft, Refusal>) -> i32
    requires { 770 ≤ length lent.old }
    ensures { (result ≡ handed_reply made) × (lent.new ≡ handed_bytes made lent.old) }
{
    match made {
        Ok(draft) => {
            write_draft(lent, draft);
            0
        }
        Err(refusal) => refused(refusal),
    }
}

// The draft of an accepted table: 0, or 99, 1 to 8, 17 or 12 to 14 negated.
pub fn bus_draft_start(request: &[u8], table: &[u8], lent: &mut [u8]) -> i32
    ensures { (result ≡ start_reply request.now table.now lent.old)
        × (lent.new ≡ start_bytes request.now table.now lent.old) }
{
    if lent.len() < 770 {
        return BAD_BYTES;
    }
    hand_back(lent, draft::start(request, table))
}

// The job at a place of the planning order is lifted: 0, or 99, 1 to 8, 17 or 26 negated.
pub fn bus_draft_lift(request: &[u8], job: u8, lent: &mut [u8]) -> i32
    ensures { (result ≡ lift_reply request.now job lent.old) × (lent.new ≡ lift_bytes request.now job lent.old) }
{
    if lent.len() < 770 {
        return BAD_BYTES;
    }
    let old = read_draft(lent);
    hand_back(lent, draft::lift(request, old, job))
}

// A lifted job is put into a frame, counted from time 0: 0, or 99, 1 to 8, 17 or 26 to 28 negated.
pub fn bus_draft_put(request: &[u8], job: u8, frame: u16, lent: &mut [u8]) -> i32
    ensures { (result ≡ put_reply request.now job frame lent.old)
        × (lent.new ≡ put_bytes request.now job frame lent.old) }
{
    if lent.len() < 770 {
        return BAD_BYTES;
    }
    let old = read_draft(lent);
    hand_back(lent, draft::put(request, old, job, frame))
}

// The table of a draft with no job lifted, written into `out`: its length, or 99, 1 to 8, 17, 26 or 11 negated.
pub fn bus_draft_write(request: &[u8], lent: &[u8], out: &mut [u8]) -> i32
    ensures { (result ≡ write_reply request.now lent.now out.old)
        × (out.new ≡ write_buffer request.now lent.now out.old) }
{
    if lent.len() < 770 {
        return BAD_BYTES;
    }
    let old = read_draft(lent);
    length(draft::write(request, old, out))
}
