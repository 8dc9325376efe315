// The timeline for the ground team, in bytes that the caller lends.
ghost use Rattle.std.specs.Prelude.{◌≡◌};
ghost use Rattle.bus.specs.Timeline.{timeline_reply, timeline_records};

use crate::reply::{refused, value};
use lent::records::write_records;

// The records of an accepted table, in planning order, written into `records`: their number, or 1 to 8, 17, 12 to 14 or 11 negated.
pub fn bus_timeline(request: &[u8], table: &[u8], records: &mut [u8]) -> i32
    ensures { (result ≡ timeline_reply request.now table.now records.old)
        × (records.new ≡ timeline_records request.now table.now records.old) }
{
    match job_records::known(request, table, records.len() / 8) {
        Ok(known) => {
            write_records(records, known);
            value(known.count)
        }
        Err(refusal) => refused(refusal),
    }
}
