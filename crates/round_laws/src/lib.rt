// Laws of the rounding step, lower neighbour and location of a value: definitions and lemmas, no function.
#![tactic(auto)]
