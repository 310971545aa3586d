#![tactic(auto)]

// PLA texts of one output: what they say, and what their reader and their writer promise. The functions are those of `pla_reading` and `pla_writing`.
