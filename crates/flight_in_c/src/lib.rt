#![tactic(auto)]
// The flight through C: one theorem over every list of bus_next_frame and bus_report calls. It has no code.
