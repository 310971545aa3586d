#![tactic(auto)]

// Running times written by `print` and read by `times`: the laws that need both stand here (proofs/ReadsBack.antt).
