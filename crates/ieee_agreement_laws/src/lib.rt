// Laws of agreement with the toolchain's account of IEEE 754: definitions and lemmas, no function.
#![tactic(auto)]
