// Laws of hexadecimal numerals, read and written: definitions and lemmas, no function.
#![tactic(auto)]
