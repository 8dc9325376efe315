// What C gets: a number from 0 on, or the number of a refusal negated.
ghost use Rattle.std.specs.Prelude.{◌≡◌, ◌<◌, pos};
ghost use Rattle.cursor.specs.Written.{written_said};
ghost use Rattle.refusal.specs.Refusal.{number_of};
ghost use Rattle.bus.specs.Reply.{refused_reply, written_reply};

use refusal::Refusal;

// Lent bytes that are too few, or no state, timer or heater: 99 negated.
pub(super) const BAD_BYTES: i32 = -99;

// A refusal's number of the paper, negated.
pub(super) fn refused(refusal: Refusal) -> i32
    ensures { result ≡ refused_reply (number_of refusal) }
{
    -i32::from(refusal.number())
}

pub(super) fn value(length: usize) -> i32
    requires { length < 65536 }
    ensures { result ≡ pos length }
{
    length as i32
}

// The length of what was written, or the refusal.
pub(super) fn length(written: Result<usize, Refusal>) -> i32
    requires { (written_said written).length < 65536 }
    ensures { result ≡ written_reply (written_said written) }
{
    match written {
        Ok(length) => value(length),
        Err(refusal) => refused(refusal),
    }
}
