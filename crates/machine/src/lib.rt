// The body as one machine (01, Body): a stack of states, a run of units under way, one token at a time. Definitions and theorems
// over them, whatever a state is made of, and no code: `body` has that.
//
//   specs/Stack.antt      the stack: opening, closing, what is done to the top
//   specs/Moves.antt      one move after the other, which of them are refused, moves inside a group
//   specs/Machine.antt    what a token does, and what is said, token by token
//   proofs/Stack.antt     the stack in an array
//   proofs/Argument.antt  the stack's argument, once for every kind of state: depth, limit, refusals, a group leaves no trace
//   proofs/Maps.antt      states of two kinds that go the same way
//   proofs/Runs.antt      what a run of `u` tokens says is its text
//   proofs/Parts.antt     tokens in two parts, and what comes behind a group
//   proofs/Few.antt       how much is said
//   proofs/Left.antt      what is left of a token where characters are passed over
//   proofs/Places.antt    the places of tokens, and of refusals
//   proofs/Cases.antt     small bodies, computed
#![tactic(auto)]
