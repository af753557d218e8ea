// what follows for every run: theorems alone, in specs/
#![tactic(auto)]
