#![tactic(auto)]
// The heater link in flight: a theorem, and computed lists, in specs/. No function.
