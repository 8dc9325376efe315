#![tactic(auto)]
// The calls from C, which crate `bus_c` exports. Each stands on one public call of a crate below; an answer below 0 is a refusal, its number negated. A call asks nothing of
// its caller but what include/bus.h says of pointers and buffers.
// A family of calls is a module, with its definitions and laws in specs/ under the same heading of Lib.antt. The layout of lent bytes is crate `lent`.
pub mod dispatch;
pub mod drafts;
pub mod heater;
pub mod registers;
mod reply;
pub mod requests;
pub mod tables;
pub mod timeline;
