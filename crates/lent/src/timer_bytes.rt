// A bus timer in the bytes that the caller lends: 72, of which the first 64 are the dispatcher's state.
ghost use Rattle.std.specs.Prelude.{◌≡◌, ◌≤◌, length};
ghost use Rattle.lent.specs.TimerBytes.{is_timer, timer_of, timer_bytes};

use crate::state::{read_state, write_state};
use timer::Timer;

// 72 bytes or more, with a mark of 0 or 1, control of at most 3 and status of at most 7.
#[tactic(auto, unfolding(crate::specs::TimerBytes::is_timer))]
pub fn is_timer(timer: &[u8]) -> bool
    ensures { result ≡ is_timer timer.now }
{
    timer.len() >= 72 && timer[2] < 2 && timer[64] < 4 && timer[65] < 8
}

pub fn read_timer(timer: &[u8]) -> Timer
    requires { 72 ≤ length timer.now }
    ensures { result ≡ timer_of timer.now }
{
    let state = read_state(timer);
    let control = timer::control_of(timer[64]);
    let status = timer::status_of(timer[65]);
    Timer {
        state,
        control,
        status,
    }
}

// The dispatcher's state, and bytes 64 and 65; all other bytes are left alone.
pub fn write_timer(timer: &mut [u8], new: Timer)
    requires { 72 ≤ length timer.old }
    ensures { timer.new ≡ timer_bytes new timer.old }
{
    write_state(timer, new.state);
    timer[64] = timer::control_byte(new.control);
    timer[65] = timer::status_byte(new.status);
}
