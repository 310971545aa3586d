#![tactic(auto)]

// What every layer cites and none owns: tests that decide, written texts, numbers in figures, and areas in which a text was laid. Definitions and laws alone.
