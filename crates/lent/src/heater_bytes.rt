// A heater in the bytes that the caller lends: 72, the dispatcher's state, the two bits, and what the last call said.
ghost use Rattle.std.specs.Prelude.{◌≡◌, ◌≤◌, ◌&&◌, length, ltb};
ghost use Rattle.lent.specs.HeaterBytes.{is_heater, link_of, heater_bytes};

use crate::state::{is_state, read_state, write_state};
use heater_link::Link;

fn two_bits(x: u8, y: u8) -> bool
    ensures { result ≡ ltb x 2 && ltb y 2 }
{
    x < 2 && y < 2
}

// 72 bytes or more, a state in front, and bytes 64 to 67 each 0 or 1.
#[tactic(auto, unfolding(crate::specs::HeaterBytes::is_heater))]
pub fn is_heater(heater: &[u8]) -> bool
    ensures { result ≡ is_heater heater.now }
{
    heater.len() >= 72
        && is_state(heater)
        && two_bits(heater[64], heater[65])
        && two_bits(heater[66], heater[67])
}

pub fn read_link(heater: &[u8]) -> Link
    requires { 72 ≤ length heater.now }
    ensures { result ≡ link_of heater.now }
{
    let state = read_state(heater);
    Link {
        state,
        master: heater[64] == 1,
        obeyed: heater[65] == 1,
    }
}

// The first 35 bytes and bytes 64 to 67; the others are left alone.
pub fn write_heater(heater: &mut [u8], link: Link, toggled: bool, answered: bool)
    requires { 72 ≤ length heater.old }
    ensures { heater.new ≡ heater_bytes link toggled answered heater.old }
{
    write_state(heater, link.state);
    heater[64] = link.master as u8;
    heater[65] = link.obeyed as u8;
    heater[66] = toggled as u8;
    heater[67] = answered as u8;
}
