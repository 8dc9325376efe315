#![tactic(auto)]
// Every public promise, stated once: claims, in specs/. No function.
