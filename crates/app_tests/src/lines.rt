//! Tests of the command line: which command each line asks for.

use crate::running::words_of;
use command_line::{
    Command, Format, GenAction, ImproveSettings, SynthSettings, WordsError, read_words,
};
use op_basis::Basis;
use settings::{Method, MethodChoice};
use std::alloc::Global;

/// Whether a line asks for this command, or is refused with this error.
fn asks(alloc: Global, line: &str, wanted: Result<Command, WordsError>) -> bool {
    match words_of(alloc, line) {
        Ok(words) => read_words(&words) == wanted,
        Err(_) => false,
    }
}

/// A command without settings.
#[derive(Clone, Copy)]
enum Bare {
    Agree,
    Recheck,
    RecheckDepth,
    Equiv(u32),
    Gen(u32, GenAction),
}

/// The command without settings.
fn command_of(command: Bare) -> Command {
    match command {
        Bare::Agree => Command::Agree,
        Bare::Recheck => Command::Recheck,
        Bare::RecheckDepth => Command::RecheckDepth,
        Bare::Equiv(conflicts) => Command::Equiv(conflicts),
        Bare::Gen(blocks, action) => Command::Gen { blocks, action },
    }
}

/// Command lines, and the commands that they ask for.
const COMMANDS: &[(&str, Bare)] = &[
    ("agree", Bare::Agree),
    ("recheck", Bare::Recheck),
    ("recheck --depth no", Bare::Recheck),
    ("recheck --depth yes", Bare::RecheckDepth),
    ("equiv", Bare::Equiv(100_000)),
    ("equiv --conflicts 7", Bare::Equiv(7)),
    ("gen --blocks 3", Bare::Gen(3, GenAction::Write)),
    (
        "gen --run write --blocks 10000",
        Bare::Gen(10_000, GenAction::Write),
    ),
    (
        "gen --run improve --blocks 1",
        Bare::Gen(1, GenAction::Improve),
    ),
];

#[test]
fn commands_without_settings_are_read(rt: HostRuntime) {
    for &(line, command) in COMMANDS {
        assert!(rt; asks(rt.alloc(), line, Ok(command_of(command))), "{line}");
    }
}

/// The basis, the method, the greatest size, the conflicts, whether the fewest levels are searched for, and the effort.
type Synth = (u16, Method, u32, u32, bool, u32);

/// A command with these settings.
fn synth_of(settings: Synth) -> Command {
    let (basis, method, max, conflicts, fewest_levels, effort) = settings;
    let settings = SynthSettings {
        basis: Basis::new(basis),
        method: MethodChoice::Named(method),
        max,
        conflicts,
        effort,
    };
    if fewest_levels {
        return Command::LeastDepth(settings);
    }
    Command::Synth(settings)
}

#[test]
fn synth_may_choose_its_method_by_the_tables(rt: HostRuntime) {
    let settings = SynthSettings {
        method: MethodChoice::Auto,
        ..SynthSettings::defaults()
    };
    assert!(rt;
        asks(
            rt.alloc(),
            "synth --method auto",
            Ok(Command::Synth(settings))
        )
    );
}

/// Command lines of `synth`, and their settings. Options that aren't named have their defaults.
const SYNTHS: &[(&str, Synth)] = &[
    ("synth", (65_535, Method::Ssv, 16, 100_000, false, 1)),
    (
        "synth --max 3 --basis nand",
        (16_384, Method::Ssv, 3, 100_000, false, 1),
    ),
    (
        "synth --method plain",
        (65_535, Method::Plain, 16, 100_000, false, 1),
    ),
    (
        "synth --method select",
        (65_535, Method::Select, 16, 100_000, false, 1),
    ),
    (
        "synth --method fence",
        (65_535, Method::Fence, 16, 100_000, false, 1),
    ),
    (
        "synth --method strong",
        (65_535, Method::Strong, 16, 100_000, false, 1),
    ),
    (
        "synth --method strong-fence",
        (65_535, Method::StrongFence, 16, 100_000, false, 1),
    ),
    (
        "synth --conflicts 10000000 --max 0 --method ssv",
        (65_535, Method::Ssv, 0, 10_000_000, false, 1),
    ),
    (
        "synth --basis 0110,1001 --conflicts 1",
        (576, Method::Ssv, 16, 1, false, 1),
    ),
    (
        "synth --effort 1000",
        (65_535, Method::Ssv, 16, 100_000, false, 1000),
    ),
    (
        "synth --effort 0",
        (65_535, Method::Ssv, 16, 100_000, false, 0),
    ),
    // the fewest levels are searched for by fences
    (
        "synth --least-depth yes --method fence",
        (65_535, Method::Fence, 16, 100_000, true, 1),
    ),
    (
        "synth --method fence --max 3 --least-depth yes",
        (65_535, Method::Fence, 3, 100_000, true, 1),
    ),
    (
        "synth --method fence --least-depth no",
        (65_535, Method::Fence, 16, 100_000, false, 1),
    ),
    (
        "synth --least-depth no",
        (65_535, Method::Ssv, 16, 100_000, false, 1),
    ),
];

#[test]
fn options_of_synth_are_read(rt: HostRuntime) {
    for &(line, settings) in SYNTHS {
        assert!(rt; asks(rt.alloc(), line, Ok(synth_of(settings))), "{line}");
    }
}

/// The format, the basis, the method, the cap, the rounds, the conflicts, whether observability don't-cares are
/// used, the effort, and the seed.
type Improve = (Format, u16, Method, u32, u32, u32, bool, u32, u32);

/// A command with these settings.
fn improve_of(settings: Improve) -> Command {
    let (format, basis, method, cap, rounds, conflicts, observe, effort, seed) = settings;
    let settings = ImproveSettings {
        basis: Basis::new(basis),
        method,
        cap,
        rounds,
        conflicts,
        observe,
        effort,
        seed,
    };
    Command::Improve { format, settings }
}

/// Command lines of `improve`, and their settings.
const IMPROVES: &[(&str, Improve)] = &[
    (
        "improve",
        (
            Format::Blif,
            65_535,
            Method::Ssv,
            5,
            1000,
            100_000,
            false,
            0,
            1,
        ),
    ),
    (
        "improve --format blif --cap 0",
        (
            Format::Blif,
            65_535,
            Method::Ssv,
            0,
            1000,
            100_000,
            false,
            0,
            1,
        ),
    ),
    (
        "improve --rounds 1 --cap 8 --basis nand --conflicts 7 --method fence",
        (Format::Blif, 16_384, Method::Fence, 8, 1, 7, false, 0, 1),
    ),
    (
        "improve --rounds 100000 --conflicts 10000000",
        (
            Format::Blif,
            65_535,
            Method::Ssv,
            5,
            100_000,
            10_000_000,
            false,
            0,
            1,
        ),
    ),
    // observability don't-cares
    (
        "improve --observe no",
        (
            Format::Blif,
            65_535,
            Method::Ssv,
            5,
            1000,
            100_000,
            false,
            0,
            1,
        ),
    ),
    (
        "improve --observe yes",
        (
            Format::Blif,
            65_535,
            Method::Ssv,
            5,
            1000,
            100_000,
            true,
            0,
            1,
        ),
    ),
    (
        "improve --cap 5 --observe yes --rounds 1000",
        (
            Format::Blif,
            65_535,
            Method::Ssv,
            5,
            1000,
            100_000,
            true,
            0,
            1,
        ),
    ),
    // moves that keep the number of gates
    (
        "improve --effort 1000 --cap 4",
        (
            Format::Blif,
            65_535,
            Method::Ssv,
            4,
            1000,
            100_000,
            false,
            1000,
            1,
        ),
    ),
    // bases of BENCH are sets of its gates
    (
        "improve --format bench",
        (
            Format::Bench,
            17_346,
            Method::Ssv,
            5,
            1000,
            100_000,
            false,
            0,
            1,
        ),
    ),
    (
        "improve --basis bench --format bench",
        (
            Format::Bench,
            17_346,
            Method::Ssv,
            5,
            1000,
            100_000,
            false,
            0,
            1,
        ),
    ),
    (
        "improve --format bench --basis nand",
        (
            Format::Bench,
            16_384,
            Method::Ssv,
            5,
            1000,
            100_000,
            false,
            0,
            1,
        ),
    ),
    (
        "improve --format bench --basis 0110,1001",
        (
            Format::Bench,
            576,
            Method::Ssv,
            5,
            1000,
            100_000,
            false,
            0,
            1,
        ),
    ),
    // the seed of random choices
    (
        "improve --seed 1000000 --effort 5",
        (
            Format::Blif,
            65_535,
            Method::Ssv,
            5,
            1000,
            100_000,
            false,
            5,
            1_000_000,
        ),
    ),
];

#[test]
fn options_of_improve_are_read(rt: HostRuntime) {
    for &(line, settings) in IMPROVES {
        assert!(rt; asks(rt.alloc(), line, Ok(improve_of(settings))), "{line}");
    }
}

/// Lines that aren't command lines.
const NOTHING: &[&str] = &[
    "",
    "Agree",
    "agree agree",
    "recheck --depth",
    "recheck --depth maybe",
    "recheck --depth yes --depth yes",
    "recheck --least-depth yes",
    "agree --depth no",
    "synth --least-depth yes",
    "synth --least-depth yes --method ssv",
    "synth --least-depth yes --method strong-fence",
    "synth --least-depth yes --method auto",
    "improve --method auto",
    "synth --method plain --least-depth yes",
    "synth --method fence --least-depth Yes",
    "synth --method fence --least-depth 1",
    "synth --method fence --depth yes",
    "improve --method fence --least-depth yes",
    "equiv --conflicts 0",
    "equiv --max 3",
    "gen",
    "gen --blocks 0",
    "gen --blocks 3 --run both",
    "gen --blocks 10001",
    "synth --method",
    "synth plain",
    "synth --method Plain",
    "synth --method fences",
    "synth --method ssv --method ssv",
    "synth --max=3",
    "synth --max 17",
    "synth --max 03",
    "synth --conflicts 0",
    "synth --conflicts 10000001",
    "synth --basis none",
    "synth -- --max 3",
    "improve --cap 0 --cap 0",
    "improve --cap 9",
    "improve --cap 05",
    "improve --rounds 0",
    "improve --rounds 100001",
    "improve --conflicts 0",
    "improve --basis",
    "improve --method none",
    "improve --max 3",
    "improve --format aiger",
    "improve --observe",
    "improve --observe Yes",
    "improve --observe yes --observe yes",
    "synth --observe yes",
    "improve --effort 1001",
    "improve --effort -1",
    "improve --effort yes",
    "synth --effort 1001",
    "synth --seed 1",
    "improve --seed 1000001",
    "gen --blocks 3 --observe yes",
    "improve --format bench --basis all",
    "improve --format bench --basis u2",
    "improve --basis 0001,0010 --format bench",
];

#[test]
fn other_lines_are_refused(rt: HostRuntime) {
    for &line in NOTHING {
        assert!(rt; asks(rt.alloc(), line, Err(WordsError::Usage)), "{line}");
    }
    let none: Vec<String> = Vec::new(rt.alloc());
    assert!(rt; read_words(&none) == Err(WordsError::Usage));
}
