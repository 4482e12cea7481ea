#![tactic(auto)]
// The bench cards of document 01, proved of the rules.
// This crate has statements and no function.
