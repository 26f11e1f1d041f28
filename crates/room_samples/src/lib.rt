//! Steps that a program which is independent of this repository made in random runs, from the rules
//! in words. The check computes that the machine answers them so. They stand in `proofs`, by what
//! is asked, and what each says in `specs`. Nothing stands on them, so no answer waits for them.
#![tactic(auto)]
