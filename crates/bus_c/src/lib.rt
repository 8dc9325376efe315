#![tactic(auto)]
// The archive for C: each export is the call of the same name of crate `bus`, with its clauses. include/bus.h is its header.
pub mod dispatch;
pub mod drafts;
pub mod heater;
pub mod registers;
pub mod requests;
pub mod tables;
pub mod timeline;
