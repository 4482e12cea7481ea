#![tactic(auto)]
// The rules of document 01, with T-01 to T-03 of 02, as functions of the accepted events, and the page: each rule again as a theorem.
// This crate has statements and no function; all that must be believed of the chip stands in its specs.
