//! A solver by conflict-driven clause learning (CDCL): it decides a formula in conjunctive normal form, and
//! writes a log that a checker of refutations accepts (Marques-Silva and Sakallah, "GRASP", 1999; Moskewicz
//! and others, "Chaff", 2001; Knuth, TAOCP 7.2.2.2). `sat_theory` defines what an answer means.
//!
//! The theorem is that of `Cdcl` as a `sat_solve::Solver`: Sat comes only with an assignment that satisfies
//! the formula, Unsat only with a log that refutes it, and Open only with a log that holds and has reached
//! the budget of additions, whatever was solved under assumptions before.
//!
//! ```text
//! match Cdcl::solve(alloc, &cnf, 100000)? {
//!     Solved::Sat(assign) => ..,   // satisfied(&cnf, &assign)
//!     Solved::Unsat(log) => ..,    // it adds the empty clause, unless the formula has it
//!     Solved::Open(log) => ..,     // at least 100000 additions, each unsubsumed when added
//! }
//! ```
//!
//! The names of the solver, and those of MiniSat and CaDiCaL:
//!
//! | Here | MiniSat, CaDiCaL |
//! |---|---|
//! | `falsified_at(lit)` | 1 + the trail index at which `lit` became false; 0 if it isn't false |
//! | `starts` | `trail_lim`, `control`: where decision levels begin on the trail |
//! | `head` | `qhead`, `propagated` |
//! | `given` | the number of original clauses |
//! | `DecisionHeap`: `pick_decision` | decision heap: `pickBranchLit`, `decide` |
//! | `phases` | saved phases |
//! | `increment`, `bump`, `grow` | `var_inc`, `varBumpActivity`, `varDecayActivity` with rescaling |
//! | `backtrack`, `backtrack_to_root` | `cancelUntil`, `backtrack`; to level 0 |
//! | `begin`, `push_units` | assignment of the unit clauses at level 0 |
//! | `visit`, `find_replacement`, `other_watch` | inner loop of `propagate`, replacement watch, other watch |
//! | `blocker` | blocking literal |
//! | `learn_and_backjump` | `analyze`, backjump, assignment of the asserting literal |
//! | `resolve_conflicts` | propagate, and learn until there is no conflict |
//! | `solve_assuming` | solve under assumptions with a conflict limit |
//! | `Scope` | its decision variables: the cone of the assumptions |
//! | `Resolution`, `touched`, `resolve_to_uip` | `analyze`, the literals marked `seen`, up to the first UIP |
//! | `Redundancy`, `resolve_away` | `litRedundant`, minimisation |
//! | `minimise_with_binaries` | minimisation by binary clauses (Glucose) |
//! | `ClauseScores`: `activity`, `lbd`, `signature` | clause activity, LBD (glue), signature |
//! | `reduce_and_bound`, `reduce_db`, `delete_learnt` | `reduceDB`, deletion of learnt clauses |
//! | `exceeds_bound`, `delete_to_bound` | more additions live than the log's end may have; deletion down to that |
//! | `subsume_recent`, `subsumed_by_last` | eager subsumption of recent learnt clauses |
//! | `strengthen`, `shorter` | subsumption and strengthening (self-subsuming resolution), once |
//! | `is_irredundant` | irredundant: an original clause, or one that replaces an original |
//! | `remove_subsumed` | deletion of a subsumed original clause |
//! | `unassign_all` | unassign everything, level 0 too |
//! | log, line, hint | LRAT proof, step, antecedent id |
//! | `KeepsHalf` | at least half of the additions are live at the end |
//! | `BoundsLiveAdditions`, `meet_final_bound` | at most about three quarters are; the deletions at the end for that |
//! | `SearchEnd`: `Satisfied`, `Refuted`, `BudgetReached` | SAT, UNSAT, limit reached |
//! | `KeepsWatchInvariant`, `HasWatchInvariant` | watch invariant; it up to `head` |
//! | `IsSettled` | a clause is neither unit nor falsified |
#![tactic(auto)]

mod answering;
mod assuming;
mod clause_scores;
mod deciding;
mod judgement;
mod levels;
mod reduction;
mod restarts;
mod scope;
mod search;
mod solver;
mod strengthening;
mod units;
mod visiting;

pub use sat_solve::Solved;
pub use solver::Cdcl;
