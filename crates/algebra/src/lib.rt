// Laws of whole numbers and integers: lemmas, no function.
#![tactic(auto)]
