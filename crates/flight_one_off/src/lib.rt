#![tactic(auto)]
// The one-off transfer in flight: a theorem, in specs/. No function.
