//! That every step of a hand or of the lock's seat keeps the rule of ng_view: a folder of lemmas for each kind of step, and no code.
#![tactic(auto)]
