#![tactic(auto)]

// The three demands of the order, one theorem each: definitions and theorems alone, over the contracts of the public calls.
