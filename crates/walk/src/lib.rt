// The walk: lemmas on its steps; its code is still to come.
#![tactic(auto)]
