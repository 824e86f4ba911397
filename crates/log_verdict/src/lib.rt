// The verdict on another maker's log: which lines are questions and answers, the check line by line, and what is promised of the verdict. Definitions
// and theorems, no code.
#![tactic(auto)]
