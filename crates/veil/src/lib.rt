// Hidden stays hidden (01, Header walk): two letters that are the same except inside ignored groups say the same. A theorem over
// the promise of `reader`, and no code. proofs/HiddenStays.antt states it, proofs/Called.antt carries it to two calls of `read`.
#![tactic(auto)]
