#![tactic(auto)]

// The roof: the customer's three demands as three statements, the same of rings, that each promise allows one result only, what a question's
// eighth number does, and what is told at the C door.
// A reader starts in specs/: `Demands` lays each of the customer's sentences above what is proved, in the words of `Paths`, `OneResult` and the
// definitions of the rooms below, which their contracts cite; `Door` says the same of the exported functions, and `Undated` what the eighth
// number of a question changes and what not. proofs/ proves them from those contracts and from the rooms' own laws.
// There is no code here: nothing but the promises of the public operations is asked, so what is shown holds of whatever keeps them.
