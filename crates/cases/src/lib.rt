// The cases that are marked P and a task with two leaves, as one computed table: specs/Cases.antt. There is nothing to run.
#![tactic(auto)]
