//! Laws of Boolean chains: values are determined step by step, chains can be transformed without
//! changing their functions, and some least chain is in normal form. The crate has definitions and
//! lemmas, in `specs/`, and `laws`, which states the laws of least chains.
//!
//! `chain_theory` defines chains, `op_basis` the closure properties of bases, and `tt_core` symmetric
//! inputs. The subject is that of Knuth, The Art of Computer Programming, volume 4A, section 7.1.2
//! (least chains by search over chains in normal form), and volume 4B, section 7.2.2.2 (the same by
//! satisfiability).
//!
//! `NormalForm` defines the normal form, `Keys` the order of pairs of operands, and `Levels` a bound on
//! levels. `Least` has the law: if a chain of r steps and at most d levels over a basis implements a
//! specification, and no chain of fewer steps does, then a chain in normal form of r steps and at most
//! d levels does. `Fences` adds that its steps are ordered by level, and that its fence is listed.
//!
//! The proof transforms chains, with one transformation in each file: a step is left out (`Shorter`,
//! `Trivial`) or replaced (`Replaced`, `Reapplied`); neighbouring steps are exchanged (`Exchanged`),
//! or inputs (`Inputs`), or operands (`Oriented`); steps are complemented (`Complemented`). Each uses
//! `Follow`: bits that agree with the inputs and with each step are the values. `Settling` transforms
//! a chain as long as it violates a rule; each time the list of its keys decreases (`Ranks`), or it
//! loses a step.
#![tactic(auto)]

pub mod laws;
