// The whole-number laws that the proofs of every crate cite: proofs/Lib.antt lists their modules. No code.

#![tactic(auto)]
