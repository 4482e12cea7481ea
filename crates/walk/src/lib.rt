#![tactic(auto)]

// Laws for functions that are walked by hand: what a caller has of a function that it calls, and the way from a walk to a contract.
// Today's checker covers what the older did not, a struct that holds a slice and a slice of structs, so no function is walked now.
// There is no code here.
