// The bytes of each content, and a frame put into the caller's buffer. The definitions are in specs/; that reading and
// writing are inverse, and that each content has one writing, is proved in proofs/.

#![tactic(auto)]

pub mod emit;
