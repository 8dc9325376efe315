#![tactic(auto)]
// The flight of an accepted table: definitions and laws alone, in specs/.
