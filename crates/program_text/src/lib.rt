#![tactic(auto)]

// A crate with no code: what a function has in common that fills a lent buffer with all that a program prints for the texts that it
// gets (document 01, "Printed lines"; document 02). The functions are in the crates behind it, one for each program: read_answer,
// plan_answer, mark_answer, clock_answer, recover_answer and carry_answer. `IsPrefixLen` in their contracts follows from `PrintedTo`; it is
// said so that a caller can lend `&out[..n]` without a proof.
