#![tactic(auto)]

// The history of a year: accepted calls with their dates, and what each month comes to. Definitions and laws alone; `year` has the functions.
