// The promise, theorem by theorem, in reading order.
#![tactic(auto)]
