//! Chains of the fewest levels: what `synth --least-depth yes` writes, and what `recheck --depth yes` reports on
//! valid and on faulty certificates.
use crate::running::{reported, reports};
use std::alloc::{AllocError, Global};

const SYNTH: &str = "synth --method fence --least-depth yes";

const RECHECK: &str = "recheck --depth yes";

/// The first lines of a certificate of x1 AND x2 and of x1 AND x2 AND x3: two steps on two levels.
const PREFIX: &str =
    "chains 1\ninputs 3\n00000011\n00000001\nbasis all\nmethod fence\nconflicts 100000\nmax 16\nsize 0\nfence\nrefuted\ndone\nsize 1\nfence 1\nrefuted\n132 0 1 2 9 17 0\ndone\nchain 2\nx4 x1 x2 0001\nx5 x3 x4 0001\nout x4\nout x5\nminimum 2\nend\n";

/// The log that refutes its only fence with fewer levels.
const FLATTER: &str =
    "fence 2\nrefuted\n276 -1 0 3 19 274 0\n277 -38 -15 9 0 181 194 0\n278 -33 -8 6 0 111 116 0\n279 24 33 -8 0 270 271 52 84 100 35 0\n280 -19 0 270 271 24 25 26 278 279 236 240 81 35 0\n281 -39 0 280 2 34 32 207 212 0\n282 28 0 280 229 10 8 278 279 236 270 240 271 35 256 272 281 273 2 34 196 180 36 0\n283 0 270 271 280 2 229 33 8 10 278 279 236 240 35 272 273 256 281 282 252 177 36 0\ndone\n";

/// The same with a budget of one clause, which leaves its only fence with fewer levels open.
const OPEN: &str =
    "chains 1\ninputs 3\n00000011\n00000001\nbasis all\nmethod fence\nconflicts 1\nmax 16\nsize 0\nfence\nrefuted\ndone\nsize 1\nfence 1\nrefuted\n132 0 1 2 9 17 0\ndone\nchain 2\nx4 x1 x2 0001\nx5 x3 x4 0001\nout x4\nout x5\nminimum 2\nend\ndepth 2\nfence 2\nopen\n276 -1 0 3 19 274 0\ndone\n";

/// The concatenation of these parts.
fn joined(alloc: Global, parts: [&str; 4]) -> Result<String, AllocError> {
    let mut text = String::new(alloc);
    for part in parts {
        text.push_str(part)?;
    }
    Ok(text)
}

/// Whether `recheck --depth yes` reports this on the text of these parts.
fn is_judged(alloc: Global, parts: [&str; 4], status: u8, out: &str, note: &str) -> bool {
    match joined(alloc, parts) {
        Ok(text) => reports(alloc, RECHECK, text.as_bytes(), status, out, note),
        Err(_) => false,
    }
}

/// Whether `recheck --depth yes` finds a text valid.
fn is_valid(alloc: Global, text: &[u8]) -> bool {
    match reported(alloc, RECHECK, text) {
        Ok(seen) => seen.status == 0,
        Err(_) => false,
    }
}

/// Whether `synth` writes a certificate of the fewest levels with this trailer, which is found valid.
fn is_found(alloc: Global, input: &str, ending: &str) -> bool {
    match reported(alloc, SYNTH, input.as_bytes()) {
        Ok(seen) => {
            seen.status == 0
                && seen.note.written().is_empty()
                && seen.out.written().ends_with(ending.as_bytes())
                && is_valid(alloc, seen.out.written())
        }
        Err(_) => false,
    }
}

/// Tables, and the trailers of their certificates.
const FOUND: &[(&str, &str)] = &[
    (
        "inputs 4\n0000000000000001\n",
        "chain 3\nx5 x1 x2 0001\nx6 x3 x4 0001\nx7 x5 x6 0001\nout x7\nminimum 3\nend\ndepth 2\nlevels 2\nend\n",
    ),
    ("inputs 4\n0000000000011111\n", "done\nlevels 3\nend\n"),
    (
        "inputs 2\n0--1\n",
        "minimum 0\nend\ndepth 0\nlevels 0\nend\n",
    ),
];

#[test]
fn synth_writes_valid_certificates_of_fewest_levels(rt: HostRuntime) {
    for &(input, ending) in FOUND {
        assert!(rt; is_found(rt.alloc(), input, ending), "{input}");
    }
}

/// The first lines of a bundle, its line of the depth, its logs and its ending; the status, and what is reported.
const JUDGED: &[(&str, &str, &str, &str, &str, u8, &str, &str)] = &[
    (
        "open levels",
        OPEN,
        "",
        "",
        "levels-bounded 1 2\nend\n",
        0,
        "levels-bounded 1 2\n",
        "",
    ),
    (
        "levels, beside open ones",
        OPEN,
        "",
        "",
        "levels 2\nend\n",
        8,
        "",
        "error: WrongLevels 30\n",
    ),
    (
        "refuted levels",
        PREFIX,
        "depth 2\n",
        FLATTER,
        "levels 2\nend\n",
        0,
        "levels 2\n",
        "",
    ),
    (
        "no log of the lower level",
        PREFIX,
        "depth 2\n",
        "",
        "levels 2\nend\n",
        8,
        "",
        "error: NotRefuted 26\n",
    ),
    (
        "a depth that isn't the chain's",
        PREFIX,
        "depth 3\n",
        FLATTER,
        "levels 2\nend\n",
        8,
        "",
        "error: WrongDepth 25\n",
    ),
    (
        "a depth without its number",
        PREFIX,
        "depth\n",
        FLATTER,
        "levels 2\nend\n",
        2,
        "",
        "error: Syntax 25\n",
    ),
    (
        "fewer levels than the chain has",
        PREFIX,
        "depth 2\n",
        FLATTER,
        "levels 1\nend\n",
        8,
        "",
        "error: WrongLevels 37\n",
    ),
    (
        "open levels, beside refuted ones",
        PREFIX,
        "depth 2\n",
        FLATTER,
        "levels-bounded 1 2\nend\n",
        8,
        "",
        "error: WrongLevels 37\n",
    ),
    (
        "another fence after the last",
        PREFIX,
        "depth 2\n",
        FLATTER,
        "fence 1 1\n",
        8,
        "",
        "error: NotRefuted 37\n",
    ),
    (
        "no end",
        PREFIX,
        "depth 2\n",
        FLATTER,
        "levels 2\n",
        2,
        "",
        "error: Syntax 38\n",
    ),
    (
        "a line after the end",
        PREFIX,
        "depth 2\n",
        FLATTER,
        "levels 2\nend\n\n",
        2,
        "",
        "error: Syntax 39\n",
    ),
    (
        "a fence that isn't one of this depth",
        PREFIX,
        "depth 2\n",
        "fence 1 1\n",
        "",
        8,
        "",
        "error: NotRefuted 26\n",
    ),
    (
        "a line that doesn't hold",
        PREFIX,
        "depth 2\n",
        "fence 2\nrefuted\n276 0 0\n",
        "",
        8,
        "",
        "error: StepRefused 28 NoConflict\n",
    ),
    (
        "a log without the empty clause",
        PREFIX,
        "depth 2\n",
        "fence 2\nrefuted\ndone\n",
        "",
        8,
        "",
        "error: NotRefuted 28\n",
    ),
    (
        "an open log without a clause",
        PREFIX,
        "depth 2\n",
        "fence 2\nopen\ndone\n",
        "",
        8,
        "",
        "error: OpenTooShort 28\n",
    ),
    ("no depth", PREFIX, "", "", "", 2, "", "error: Syntax 25\n"),
    (
        "a certificate that is cut off",
        "chains 1\n",
        "",
        "",
        "",
        2,
        "",
        "error: Bundle Syntax 2\n",
    ),
    (
        "the empty text",
        "",
        "",
        "",
        "",
        2,
        "",
        "error: Bundle Syntax 1\n",
    ),
    (
        "another method",
        "chains 1\ninputs 1\n01\nbasis all\nmethod ssv\nconflicts 7\nmax 0\nchain 0\nout x1\nminimum 0\nend\n",
        "",
        "",
        "",
        8,
        "",
        "error: NotLeastForm\n",
    ),
];

#[test]
fn recheck_reports_the_levels_or_the_first_fault(rt: HostRuntime) {
    for &(name, prefix, depth, logs, ending, status, out, note) in JUDGED {
        let well = is_judged(rt.alloc(), [prefix, depth, logs, ending], status, out, note);
        assert!(rt; well, "{name}");
    }
}
