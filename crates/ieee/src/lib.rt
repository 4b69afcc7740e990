// The answers that are right: definitions and their theorems, no function.
#![tactic(auto)]
