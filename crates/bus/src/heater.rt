// The calls of the heater link. A heater stands in bytes that the caller lends: 72, of which the first 64 are the dispatcher's state.
ghost use Rattle.std.specs.Prelude.{◌≡◌};
ghost use Rattle.bus.specs.Heater.{heater_fresh_reply, heater_fresh_bytes, losses_in, heater_reply, heater_after, heater_entries};

use crate::reply::{BAD_BYTES, refused, value};
use heater_link::Losses;
use lent::entries::write_pairs;
use lent::heater_bytes::{is_heater, read_link, write_heater};
use lent::words::clear;

// A fresh heater, and 0 in the bytes that are kept free: 0, or 99 negated.
pub fn bus_heater_fresh(heater: &mut [u8]) -> i32
    ensures { (result ≡ heater_fresh_reply heater.old) × (heater.new ≡ heater_fresh_bytes heater.old) }
{
    if heater.len() < 72 {
        return BAD_BYTES;
    }
    clear(heater, 72);
    write_heater(heater, heater_link::fresh(), false, false);
    0
}

// Bit 0 is the command, bit 1 the reply; other bits mean nothing.
fn told(lost: u8) -> Losses
    ensures { result ≡ losses_in lost }
{
    Losses {
        command: lost % 2 == 1,
        reply: lost / 2 % 2 == 1,
    }
}

// One frame served for the pair a, b, with what is lost in it, and the heater after it: the number of entries, or 99, 1 to 8, 17, 12 to 14, 30 or 15
// negated and nothing changed.
pub fn bus_heater_serve(
    request: &[u8],
    table: &[u8],
    a: u8,
    b: u8,
    lost: u8,
    heater: &mut [u8],
    entries: &mut [u8],
) -> i32
    ensures { (result ≡ heater_reply request.now table.now a b lost heater.old entries.old)
        × (heater.new ≡ heater_after request.now table.now a b lost heater.old entries.old)
        × (entries.new ≡ heater_entries request.now table.now a b lost heater.old entries.old) }
{
    if !is_heater(heater) || entries.len() < 32 {
        return BAD_BYTES;
    }
    let old = read_link(heater);
    match heater_link::serve(request, table, a, b, told(lost), old) {
        Ok(served) => {
            write_pairs(entries, served.tasks, served.jobs);
            write_heater(heater, served.link, served.toggled, served.answered);
            value(served.count)
        }
        Err(refusal) => refused(refusal),
    }
}
