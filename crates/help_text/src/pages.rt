//! The pages on the program and on each command.

use crate::commands::{COMMANDS, CommandName, name_of, purpose_of};
use crate::options::{Allowed, Row, default_of, options_of};
use crate::pen::{Part, push_blanks, push_parts, push_wrapped};
use crate::topics::push_topic_names;
use std::alloc::AllocError;

/// The version of the program.
const VERSION: &[u8] = b"batsokemi 1.1\n";

/// The column in which what an option means begins.
const MEANING: usize = 29;

/// The column in which the purpose of a command begins.
const PURPOSE: usize = 12;

/// The column in which the names of subjects begin.
const TOPICS: usize = 22;

const HEAD: &[u8] = b"batsokemi COMMAND [OPTION VALUE].. [FILE..]

Exact synthesis of Boolean chains with certificates, resynthesis of netlists, and combinational
equivalence checking. Every function is proved to be safe and to end, and what the program
answers is proved: docs/GUARANTEES.md says what.

";

const AFTER_COMMANDS: &[u8] = b"
  help COMMAND        options of a command with ranges and defaults, and an example
  help TOPIC          one of";

const TAIL: &[u8] = b"  help --completion S completions for a shell: bash, zsh or fish
  help --manual       the manual page
  help --options      the table of options, for programs
  --version           the version

Files and options come after the command, in any order; without a file, or for `-`, standard input is
read. `--` ends the options: what comes after it is a file. With each command:

  -o FILE             the answer goes to FILE, which is written completely or not at all
  --certificate FILE  of synth and equiv: the whole answer goes to FILE, and only the chain and the
                      verdict are written

  batsokemi synth full-adder.tables
  batsokemi improve in.blif -o out.blif
  batsokemi equiv in.blif out.blif

Status: 0 an answer; 4 a budget was spent; 8 a difference, or an invalid certificate; 1 usage error;
2 malformed input; 3 beyond a limit; 5 reading, 6 writing failed; 7 out of memory.
";

/// Appends the version.
pub(crate) fn push_version(page: &mut Vec<u8>) -> Result<(), AllocError> {
    page.extend_from_slice(VERSION)
}

/// Appends a line on a command.
fn push_purpose(page: &mut Vec<u8>, command: CommandName) -> Result<(), AllocError> {
    let name = name_of(command);
    push_blanks(page, 2)?;
    page.extend_from_slice(name)?;
    push_blanks(page, PURPOSE.saturating_sub(name.len()).saturating_sub(2))?;
    page.extend_from_slice(purpose_of(command))?;
    Ok(page.push(b'\n')?)
}

/// Appends the page on the program.
pub(crate) fn push_program(page: &mut Vec<u8>) -> Result<(), AllocError> {
    page.extend_from_slice(HEAD)?;
    for command in COMMANDS {
        push_purpose(page, *command)?;
    }
    page.extend_from_slice(AFTER_COMMANDS)?;
    let mut names = Vec::new(*page.allocator());
    push_topic_names(&mut names)?;
    push_wrapped(page, &names, TOPICS.saturating_add(6), TOPICS)?;
    page.extend_from_slice(TAIL)
}

/// Appends words with a comma and a blank between them.
pub(crate) fn push_listed(text: &mut Vec<u8>, words: &[&'static [u8]]) -> Result<(), AllocError> {
    let mut is_first = true;
    for word in words {
        if !is_first {
            text.extend_from_slice(b", ")?;
        }
        is_first = false;
        text.extend_from_slice(word)?;
    }
    Ok(())
}

/// Appends the values that an option takes, as `a number from 0 to 16`.
pub(crate) fn push_allowed(text: &mut Vec<u8>, allowed: Allowed) -> Result<(), AllocError> {
    match allowed {
        Allowed::Number(low, high) => push_parts(
            text,
            &[Part::Number(low), Part::Text(b" to "), Part::Number(high)],
        ),
        Allowed::Bytes(high) => push_parts(text, &[Part::Text(b"0 to "), Part::Count(high)]),
        Allowed::Words(words) => push_listed(text, words),
        Allowed::WordsOr(words, high) => {
            push_listed(text, words)?;
            push_parts(text, &[Part::Text(b", or 0 to "), Part::Number(high)])
        }
        Allowed::Basis => text.extend_from_slice(
            b"all, u2, bench, nand, or operators as 0001,0110, each once",
        ),
        Allowed::File => text.extend_from_slice(b"the name of a file"),
        Allowed::Bits => text.extend_from_slice(b"characters 0 and 1, or - for none"),
    }
}

/// Appends what an option means, its values and its default.
pub(crate) fn push_meaning(text: &mut Vec<u8>, row: &Row) -> Result<(), AllocError> {
    text.extend_from_slice(row.says)?;
    let default = default_of(row);
    let is_file = matches!(row.allowed, Allowed::File);
    if is_file && default.is_none() {
        return Ok(());
    }
    text.extend_from_slice(b" [")?;
    push_allowed(text, row.allowed)?;
    if let Some(value) = default {
        push_parts(text, &[Part::Text(b"; default "), value])?;
    }
    text.extend_from_slice(b"]")
}

/// Appends the row of an option.
fn push_row(page: &mut Vec<u8>, row: &Row) -> Result<(), AllocError> {
    let mut meaning = Vec::new(*page.allocator());
    push_meaning(&mut meaning, row)?;
    push_blanks(page, 2)?;
    push_parts(
        page,
        &[
            Part::Text(row.name),
            Part::Text(b" "),
            Part::Text(row.value),
        ],
    )?;
    let column = row
        .name
        .len()
        .saturating_add(row.value.len())
        .saturating_add(3);
    push_blanks(page, MEANING.saturating_sub(column))?;
    push_wrapped(page, &meaning, column.max(MEANING), MEANING)
}

/// Appends the rows of a command's options.
fn push_rows(page: &mut Vec<u8>, rows: &[Row]) -> Result<(), AllocError> {
    for row in rows {
        push_row(page, row)?;
    }
    Ok(())
}

const SYNTH: &[u8] = b"batsokemi synth [OPTION VALUE].. [TABLES]

Reads truth tables of up to 6 inputs and 8 outputs, with don't-cares. Writes a chain with the fewest
two-input steps and its certificate, a refutation of each smaller size. The verdict:

  minimum R          the chain has R steps, and no smaller chain agrees with the tables
  none X             no chain of at most X steps agrees, where X is the value of --max
  bounded LOW R      the chain has R steps, no chain of fewer than LOW agrees; in between the budget was spent
  open LOW           no chain of fewer than LOW steps agrees, and more isn't known
  levels D           (--least-depth yes) no chain of R steps has fewer than D levels
  levels-bounded LOW D  the same up to fewer than LOW levels, where the budget was spent

Tables: the line `inputs N`, then a line for each output with 2^N characters 0, 1 or - (don't-care). Row 0
comes first, and x1 is the most significant digit of a row's number. Each line ends with LF, the last one too;
tools/tables converts hex tables, and lines with CR LF or without the last LF.

With --size R, and by fences with --part P, only this part is searched: what stands in a certificate between
`size R` and the next size for it, or its chain. `python3 -m batsokemi conquer` makes a certificate of parts.

";

const BASES: &[u8] = b"
BASIS is all, u2 (all that depend on both operands but XOR and XNOR), bench (AND, OR, XOR and their
complements), nand, or operators by their values at 00, 01, 10, 11 with commas between them, as 0001,0110.
";

const SYNTH_EXAMPLE: &[u8] = b"
Example: the sum and the carry of three bits
  printf 'inputs 3\\n01101001\\n00010111\\n' > adder.tables
  batsokemi synth --certificate adder.chains adder.tables
";

const RECHECK: &[u8] = b"batsokemi recheck [OPTION VALUE].. [CERTIFICATE]

Writes the verdict of a certificate of `synth` if and only if the certificate is valid: it builds the formula
of each size from the tables and checks each line of each refutation. It reads at most 256 MiB, or --most-bytes.

";

const RECHECK_EXAMPLE: &[u8] = b"
Example:
  batsokemi recheck adder.chains
";

const FORMULA: &[u8] = b"batsokemi formula [OPTION VALUE].. [CERTIFICATE] [-o FILE]

Writes the formula of a part of a certificate of `synth` in DIMACS, for other programs, and with --log the log
of the part as plain LRAT; the ids of its hints are the numbers of the clauses. A part is a subproblem of a size:
one of many with fence and strong-fence, and all of it with the others. The certificate is valid, as for
`recheck`.

";

const FORMULA_EXAMPLE: &[u8] = b"
Example: why one step isn't enough
  batsokemi formula --size 1 --log one.lrat adder.chains -o one.cnf
";

const AGREE: &[u8] = b"batsokemi agree [FILE]

Reads truth tables, a chain (`chain R`, its steps and outputs) and the line `end`. Writes `agrees`, or
`differs H T`: output H, from 1, has another value on row T, from 0; both are the least possible.

";

const AGREE_EXAMPLE: &[u8] = b"
Example: OR is not XOR
  printf 'inputs 2\\n0110\\nchain 1\\nx3 x1 x2 0111\\nout x3\\nend\\n' | batsokemi agree
";

const IMPROVE: &[u8] = b"batsokemi improve [OPTION VALUE].. [NETLIST] [-o NETLIST]

Reads a netlist in BLIF, BENCH or AIGER and writes an equivalent one of the same format
with no more gates, by exact resynthesis of windows of up to --cap gates. For AIGER the default of --basis
is u2: AND gates with complements; it is written in the form that was read, or as the name of -o ends: .aag
(ASCII) or .aig (binary). The report goes to standard error:

  gates A -> B       two-input gates before and after: a wider .names counts as several, a copy or a
                     constant as none; with --only yes, A counts them once they are over --basis, where
                     they may be more than were read
  levels D -> E      with --levels: the gates on a longest path, before and after; with keep or N these
                     are all lines, since no window is searched exactly
  undecided G [P] C  the search for the window of C gates with root G (and partner P) spent its budget;
                     its certificate follows
  settled            no other listed window up to the cap has a smaller implementation
  stopped            the limit of --rounds was reached first

Nothing is written before the end. A smaller --cap ends sooner. With an --effort of 0 there is one stage of
walks, and none below 6 gates where levels aren't limited.

";

const IMPROVE_EXAMPLE: &[u8] = b"
Examples:
  batsokemi improve --cap 4 in.blif -o out.blif
  batsokemi improve --levels keep in.aag -o out.aig
";

const EQUIV: &[u8] = b"batsokemi equiv [OPTION VALUE].. FIRST SECOND

Compares two netlists of the same inputs, outputs and latches: outputs and next states under every
assignment of inputs and latches. Two files, each in BLIF, BENCH or AIGER, or one BLIF text with both, of
which the first ends with `.end`.

  equal              they are equivalent; an LRAT refutation of their miter follows, and `done`
  differ output Y    output Y differs (or `differ latch Q`) where the inputs and latches have the values
                     of the next line, `at BITS`; of two files `differ output Y: 0 and 1` follows on
                     standard error, with the values in both, and `A=1` for each input and latch
  undecided          the budget was spent; the learnt clauses follow

The error `DifferentInterface`: inputs, outputs and clocks, in order, and each latch's output, control and
initial value must be the same.

With --match names the inputs, outputs and latches of two files are compared by their names, in any order.
The error `Second NoInput A` (or `First`, `NoOutput`, `NoLatch`): a netlist lacks a name of the other. The
error `DifferentLatches`: clocks differ, or latches of one name in control or initial value.

With --formula the miter of two files in BLIF is written besides, for other programs, and with --log the
log of `equal`; the ids of its hints are the numbers of the clauses. The netlists are then compared once
more. Both options name files of their own.

With --at nothing is compared: two files are simulated where the inputs and latches have the bits of BITS,
as of the line `at BITS`. The first line says whether they are `equal` or `differ` there; then come lines
`A=1` for each input and latch, and `output Y: 0 and 1` (or `latch Q: 0 and 1`) with the values in both.

";

const EQUIV_EXAMPLE: &[u8] = b"
Examples:
  batsokemi equiv in.blif out.blif
  batsokemi equiv --formula two.cnf --log two.lrat in.blif out.blif
  batsokemi equiv --at 0110 in.blif out.blif
  batsokemi equiv --match names in.blif out.aig
";

const GEN: &[u8] = b"batsokemi gen --blocks N [--run improve]

Writes a BLIF netlist of N blocks, each of which can be made smaller, for measurements.

";

const GEN_EXAMPLE: &[u8] = b"
Example:
  batsokemi gen --blocks 100 -o hundred.blif
";

/// What a command does.
fn description_of(command: CommandName) -> &'static [u8] {
    match command {
        CommandName::Synth => SYNTH,
        CommandName::Recheck => RECHECK,
        CommandName::Formula => FORMULA,
        CommandName::Agree => AGREE,
        CommandName::Improve => IMPROVE,
        CommandName::Equiv => EQUIV,
        CommandName::Gen => GEN,
    }
}

/// An example of a command.
fn example_of(command: CommandName) -> &'static [u8] {
    match command {
        CommandName::Synth => SYNTH_EXAMPLE,
        CommandName::Recheck => RECHECK_EXAMPLE,
        CommandName::Formula => FORMULA_EXAMPLE,
        CommandName::Agree => AGREE_EXAMPLE,
        CommandName::Improve => IMPROVE_EXAMPLE,
        CommandName::Equiv => EQUIV_EXAMPLE,
        CommandName::Gen => GEN_EXAMPLE,
    }
}

/// Whether a command has the option `--basis`.
fn has_basis(command: CommandName) -> bool {
    matches!(command, CommandName::Synth | CommandName::Improve)
}

/// Appends the page on a command.
pub(crate) fn push_command(page: &mut Vec<u8>, command: CommandName) -> Result<(), AllocError> {
    page.extend_from_slice(description_of(command))?;
    push_rows(page, options_of(command))?;
    if has_basis(command) {
        page.extend_from_slice(BASES)?;
    }
    page.extend_from_slice(example_of(command))
}
