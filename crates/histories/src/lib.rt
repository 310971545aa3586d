#![tactic(auto)]

// Histories of a sheet (demand 3): definitions and theorems alone. A history is a list of the calls that `changes::did` makes.
