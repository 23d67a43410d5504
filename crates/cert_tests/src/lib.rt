//! Tests of the public functions of the crates from `cert_theory` to `synth_core`: certificates as texts, judged
//! and written, the log of one subproblem, the search, the cache of decided specifications, and the results of
//! `synth`.
#![tactic(auto)]

#[cfg(test)]
mod deciding;
#[cfg(test)]
mod depths;
#[cfg(test)]
mod judging;
#[cfg(test)]
mod pieces;
#[cfg(test)]
mod searching;
#[cfg(test)]
mod subproblems;
#[cfg(test)]
mod synthesising;
#[cfg(test)]
mod writing;
