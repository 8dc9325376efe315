#![tactic(auto)]
// P1 to P12 of 01's bench sheet, proved in specs/ as one table.
