// Laws of scalbn by the fields of a pattern: definitions and lemmas, no function.
#![tactic(auto)]
