// Laws of the reducer's state and steps, over the width of the words: definitions and lemmas, no function.
#![tactic(auto)]
