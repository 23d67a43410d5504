//! The clause database of a solver: the clauses of a formula and those added later, by their ids. It builds
//! on the formulas and literals of `cnf_core`, on the clauses of `sat_theory` and on the literal codes of
//! `cdcl_theory`. The table in `cdcl_core` relates the names to those of MiniSat and CaDiCaL.
//!
//! Contracts see a list with an entry for each id given so far, the clause if it is live; `add` appends an
//! entry, `delete` empties one, and `arranged` and `live` read. Each clause of at least two literals watches
//! two of them: `watched` returns these, `watching` and `id_at` give the clauses that watch a literal, and
//! `rewatch_at` replaces a watched literal (Moskewicz and others, "Chaff", 2001).
//!
//! The literals of all clauses are stored in one arena, each once, the two watched ones of a clause first, so
//! propagation reads adjacent memory. A clause that watches another literal swaps it with the one it gives
//! up. So the original order is lost, and contracts see the literals in the order of their codes.
//!
//! An entry of a watch list has a literal of its clause, the blocking literal, which `set_blocker` replaces
//! (Sörensson and Eén, "MiniSat 2.1", 2008).
//!
//! ```text
//! let mut clauses = ClauseDb::new(alloc, &cnf)?;     // the clauses 1 to 4
//! let id = clauses.add(&[Lit::new(2)])?;             // 5
//! clauses.arranged(id)                               // 2
//! ```
#![tactic(auto)]

mod arena;
mod clause_db;
mod lists;
mod room;
mod watches;

pub use clause_db::ClauseDb;
pub use lists::Watch;
