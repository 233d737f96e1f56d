// What any letter reads to, stored, is read back as the same blocks and text: a theorem over the promises of `reader::read`,
// `storing::write_list` and `stored::read_list`, and no code. specs/Promise.antt states it.
#![tactic(auto)]
