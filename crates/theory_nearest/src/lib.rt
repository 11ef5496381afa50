// No code, only theory: what the value nearest to a real number is, and that there is only one;
// IEEE 754's square root and its conversion to a format, case by case, and that those of crate
// `rounding` are these; and what the whole number nearest to a fraction is.
#![tactic(auto)]
