#![tactic(auto)]
// Drafts after every list of moves: theorems, in specs/. No function.
