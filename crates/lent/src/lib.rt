#![tactic(auto)]
// The layout of the bytes that a caller from C lends, and what reads and writes it. Crate `bus` has tested the length of a buffer before it passes it here,
// so the functions that read or write ask for it.
// A layout is a module, with its definitions and laws in specs/ under the same heading of Lib.antt.
pub mod draft_bytes;
pub mod entries;
pub mod heater_bytes;
pub mod numbers;
pub mod records;
pub mod state;
pub mod timer_bytes;
pub mod words;
