//! Windows of a net: small subcircuits for which a shorter chain can be substituted. The definitions say
//! which gates a root (seed), a partner (sibling) and a count take by greedy growth, what the inputs and
//! outputs are, what the specification of a window with satisfiability don't-cares (SDC) is, by way of a
//! bounded fanin cone (`specs/Window.antt`, `FaninCone.antt`, `Care.antt`), and what the net is after a
//! substitution (`specs/Substituted.antt`). A window may be wide, which means that it has inputs that none of its
//! gates reads. The laws rest on one fact: the inputs of a window don't depend on its gates; and on one
//! notion of values: those of a net where the bits of some nodes are fixed.
#![tactic(auto)]

pub mod examples;
pub mod laws;
