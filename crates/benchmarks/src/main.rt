//! The program `benchmarks`: the first argument names the benchmark, whose input comes from standard input. The
//! output shows that the work was done; the time is measured from outside.
#![tactic(auto)]

mod building;
mod check;
mod counting;
mod newness;
mod solving;
mod substituting;

use blif_core::read_blif;
use port_io::{InputPort, read_all};
use std::alloc::{AllocError, Global};
use std::{env, io};
use text_core::number_up_to;

/// The maximal number of bytes that a benchmark reads.
const MOST_BYTES: usize = 1_000_000_000;

/// The maximal number of bytes of a netlist.
const MOST_OF_A_NETLIST: usize = 100_000_000;

/// The maximal number of bytes of truth tables.
const MOST_OF_TABLES: usize = 65_536;

/// The report of `check`.
fn report_check(alloc: Global, bytes: &[u8]) -> Result<String, AllocError> {
    match check::check(alloc, bytes) {
        Ok(refuted) => format!(in alloc; "refuted: {refuted}"),
        Err(fault) => format!(in alloc; "{fault:?}"),
    }
}

/// The report of `new`.
fn report_new(alloc: Global, bytes: &[u8]) -> Result<String, AllocError> {
    match newness::count_new(alloc, bytes) {
        Ok(counted) => {
            let (new, additions) = (counted.new, counted.additions);
            format!(in alloc; "{new} of {additions} additions are new")
        }
        Err(fault) => format!(in alloc; "{fault:?}"),
    }
}

/// The report of `solve`.
fn report_solve(alloc: Global, bytes: &[u8]) -> Result<String, AllocError> {
    match solving::solve_front(alloc, bytes) {
        Ok(outcome) => {
            let (answer, conflicts, hints) = (outcome.answer, outcome.conflicts, outcome.hints);
            format!(in alloc; "{answer:?}, {conflicts} conflicts, {hints} hints")
        }
        Err(fault) => format!(in alloc; "{fault:?}"),
    }
}

/// The report of `windows`.
fn report_windows(alloc: Global, bytes: &[u8]) -> Result<String, AllocError> {
    if bytes.len() > MOST_OF_A_NETLIST {
        return String::from_str(alloc, "too long");
    }
    let Ok(circuit) = read_blif(alloc, bytes) else {
        return String::from_str(alloc, "no netlist");
    };
    let count = counting::count_all(alloc, &circuit.net)?;
    format!(in alloc;
        "{} windows: {} gates, {} inputs, {} outputs, {} care rows",
        count.windows, count.gates, count.inputs, count.outputs, count.rows
    )
}

/// The report of the sizes of formulas, by a method and a number of steps.
fn report_formulas(
    alloc: Global,
    method: &str,
    steps: &str,
    bytes: &[u8],
) -> Result<String, AllocError> {
    let Some(r) = number_up_to(16, steps.as_bytes()) else {
        return String::from_str(alloc, "no size");
    };
    if bytes.len() > MOST_OF_TABLES {
        return String::from_str(alloc, "too long");
    }
    match building::build(alloc, method.as_bytes(), bytes, r) {
        Some(size) => format!(in alloc;
            "{} formulas, {} variables, {} clauses, {} literals",
            size.formulas, size.vars, size.clauses, size.literals
        ),
        None => String::from_str(alloc, "no formula"),
    }
}

/// The report of the number of gates after the changes that a word names, at a node.
fn report_changes(alloc: Global, word: &str, node: &str) -> Result<String, AllocError> {
    let root = match node.parse::<u32>() {
        Ok(root) => root,
        Err(_) => 50_000,
    };
    let found = substituting::substitute(alloc, word, root)?;
    format!(in alloc; "{found}")
}

/// The report of the benchmark with this name, on a text.
fn report(alloc: Global, name: &str, bytes: &[u8]) -> Result<String, AllocError> {
    if name == "check" {
        return report_check(alloc, bytes);
    }
    if name == "new" {
        return report_new(alloc, bytes);
    }
    if name == "solve" {
        return report_solve(alloc, bytes);
    }
    if name == "windows" {
        return report_windows(alloc, bytes);
    }
    String::from_str(
        alloc,
        "there are check, new, solve, windows, formulas METHOD SIZE and substitute WORD PLACE",
    )
}

/// The report of the benchmark that the arguments name.
fn report_words(alloc: Global, words: &[String], bytes: &[u8]) -> Result<String, AllocError> {
    if words.len() == 1 {
        return report(alloc, words[0].as_str(), bytes);
    }
    if words.len() == 3 && words[0].as_str() == "formulas" {
        return report_formulas(alloc, words[1].as_str(), words[2].as_str(), bytes);
    }
    if words.len() == 3 && words[0].as_str() == "substitute" {
        return report_changes(alloc, words[1].as_str(), words[2].as_str());
    }
    report(alloc, "", bytes)
}

/// Runs the benchmark that the arguments name.
fn main(rt: HostRuntime) -> io::Result<()> {
    let alloc = rt.alloc();
    let words: Vec<String> = env::args(&rt)?.skip(1).collect(alloc)?;
    let mut source = InputPort::new(rt.stdin());
    let Ok(bytes) = read_all(alloc, &mut source, MOST_BYTES) else {
        return println!(rt; "no input");
    };
    let found = report_words(alloc, &words, &bytes)?;
    println!(rt; "{found}")
}
