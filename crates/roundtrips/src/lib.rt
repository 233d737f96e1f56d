// What is stored is read back, and what is read is stored as the same bytes (01, Stored form): theorems over the promises of
// `stored` and `storing`, and no code. proofs/RoundTrips.antt states them.
#![tactic(auto)]
