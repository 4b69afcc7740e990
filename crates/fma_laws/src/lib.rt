// Laws of the fused sum, aligned to one exponent and rounded once: definitions and lemmas, no function.
#![tactic(auto)]
