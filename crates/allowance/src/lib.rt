// The exact figure and the stated allowance of a line stand in specs/. No code.
#![tactic(auto)]
