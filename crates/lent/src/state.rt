// The dispatcher's state in the bytes that the caller lends: 64, of which the first 35 are used.
ghost use Rattle.std.specs.Prelude.{◌≡◌, ◌≤◌, length};
ghost use Rattle.lent.specs.State.{is_state, state_of, state_bytes};

use crate::words::{store_word, store_words, word, words};
use dispatcher::State;

// 64 bytes or more, with a mark of 0 or 1.
#[tactic(auto, unfolding(crate::specs::State::is_state))]
pub fn is_state(state: &[u8]) -> bool
    ensures { result ≡ is_state state.now }
{
    state.len() >= 64 && state[2] < 2
}

// The count of task i stands in bytes 3 + 2i and 4 + 2i.
pub fn read_state(state: &[u8]) -> State
    requires { 64 ≤ length state.now }
    ensures { result ≡ state_of state.now }
{
    let counts = words::<16>(state, 3);
    State {
        row: word(state[0], state[1]),
        first: state[2] == 1,
        counts,
    }
}

// The first 35 bytes; those behind them are left alone.
pub fn write_state(state: &mut [u8], new: State)
    requires { 64 ≤ length state.old }
    ensures { state.new ≡ state_bytes new state.old }
{
    store_word(state, 0, new.row);
    state[2] = new.first as u8;
    store_words(state, 3, &new.counts);
}
