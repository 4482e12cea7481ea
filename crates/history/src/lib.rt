#![tactic(auto)]
// The rules as functions of the accepted events, and the theorems: what the keeper holds is what the rules say.
// This crate has statements and no function.
