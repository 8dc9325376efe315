#![tactic(auto)]
// Lists of calls from C on a timer, a heater and a draft. It has no code.
