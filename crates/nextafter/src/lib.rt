// nextafter: the next number from x toward y.
#![tactic(auto)]

pub mod nextafter;
