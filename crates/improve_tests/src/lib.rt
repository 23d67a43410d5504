//! Tests of `improve`: netlists with cap 0, netlists that shrink, by a window and by one with a partner,
//! netlists that settings leave unchanged, a window that stays undecided, refusals; nets that are judged,
//! under all assignments or by a miter; walks over random windows; moves over the graph of a net; and nets
//! whose levels are limited. The searches are those of `cdcl_core`.
#![tactic(auto)]

#[cfg(test)]
mod asking;
#[cfg(test)]
mod chains;
#[cfg(test)]
mod dropping;
#[cfg(test)]
mod equal;
#[cfg(test)]
mod fanin_cones;
#[cfg(test)]
mod judging;
#[cfg(test)]
mod lanes;
#[cfg(test)]
mod levels;
#[cfg(test)]
mod nets;
#[cfg(test)]
mod observed;
#[cfg(test)]
mod plain;
#[cfg(test)]
mod restructuring;
#[cfg(test)]
mod shrinking;
#[cfg(test)]
mod small;
#[cfg(test)]
mod specifications;
#[cfg(test)]
mod walking;
#[cfg(test)]
mod windows;
