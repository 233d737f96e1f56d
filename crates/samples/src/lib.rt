// Letters and token lists, computed through the definitions. This crate holds theorems and no code.
//
//   specs/Letters    01's fourteen sample letters, its sample listing, letters that tell its easy errors, the order of refusals and
//                    their places
//   specs/Standard   letters in standard reading, rule by rule
//   specs/Fonts      telling token lists, and the fonts that each must give
//
// proofs/ computes each through the definitions.
#![tactic(auto)]
