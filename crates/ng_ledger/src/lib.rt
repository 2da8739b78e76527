//! What ties the books of a heap's core, which its lock owns, to what the lock's seat knows: definitions and lemmas.
#![tactic(auto)]
