//! The pages on formats, and on windows.

use std::alloc::AllocError;

/// A subject with a page.
#[derive(Clone, Copy)]
pub(crate) struct Topic {
    name: &'static [u8],
    page: &'static [u8],
}

const ERRORS: &[u8] = b"Error lines

Where there is no answer, one line goes to standard error, which programs read:

  error: NAME, and then the numbers or words of the fault, each after a blank

and a second one for people: the file, the line, what stands there, and what was expected.

  Usage              the words are no command line                                      status 1
  TooLong            more bytes than the command reads                                         3
  ReadFault          reading failed                                                            5
  WriteFault         writing failed                                                            6
  Memory             memory ran out                                                            7
  any other name     the text is malformed; is beyond a limit; doesn't hold              2; 3; 8

Standard output is then empty, except that after WriteFault, and of synth after Memory, it may have a prefix of
an answer. A file of -o is then as before.
";

const TABLES: &[u8] = b"Truth tables

  tables = \"inputs \" number LF row+
  row    = ( \"0\" | \"1\" | \"-\" )* LF

The number n of inputs is 0 to 6. There are one to eight rows, one for each output, each of 2^n characters:
character t, from 0, is the output's value where x1 .. xn are the binary digits of t, and - is a don't-care. x1
is the most significant digit, so that 0010 is \"x1 and not x2\". The sum and the carry of three bits:

  inputs 3
  01101001
  00010111

tools/tables converts hex tables, and lines with CR LF or without the last LF. At most 65,536 bytes are read.
";

const CHAINS: &[u8] = b"Boolean chains

  chain = \"chain \" number LF step* out+
  step  = place \" \" place \" \" place \" \" word LF
  out   = \"out \" ( \"0\" | \"1\" | place ) LF
  place = \"x\" number          word = ( \"0\" | \"1\" ){4}

A chain computes its outputs in steps, gates of two operands each; the number is that of the steps, 0 to 16. The
inputs have the places 1 to n, and the steps follow in order. A step has its place, its two operands, which are
lower places, and its operator by its values at 00, 01, 10 and 11: 0001 is AND, 0110 XOR, 0111 OR. Parity of three:

  chain 2
  x4 x1 x2 0110
  x5 x3 x4 0110
  out x5

agree reads tables, a chain and the line end.
";

const BASES: &[u8] = b"Bases

  basis = \"all\" | \"u2\" | \"bench\" | \"nand\" | word ( \",\" word )*

  all    all sixteen operators
  u2     0001 0010 0100 0111 1000 1011 1101 1110: all that depend on both operands, but XOR and XNOR
  bench  0001 0110 0111 1000 1001 1110: AND, XOR, OR, NOR, XNOR, NAND
  nand   1110

A basis is the set of operators that gates may have. A word has an operator's values at 00, 01, 10 and 11.
";

const LOGS: &[u8] = b"Refutation logs

  log-line = id \" \" ( literal \" \" )* \"0 \" ( id \" \" )* \"0\" LF     an addition: a clause, then its hints
           | id \" d \" ( id \" \" )* \"0\" LF                         a deletion

A log shows that a formula is unsatisfiable: LRAT with additions by reverse unit propagation (RUP) and deletions,
without RAT. A literal is a variable, with - before it where it is negated. The clauses of the formula have the
ids 1, 2 and so on; an addition's id is greater than all before. Each hint but the last is a clause with exactly
one literal that isn't false so far, and the last is one with none.
";

const CERTIFICATES: &[u8] = b"Certificates

  certificate = \"chains 1\" LF tables \"basis \" basis LF \"method \" method LF \"conflicts \" number LF
                \"max \" number LF section* chain? verdict LF \"end\" LF
  section     = \"size \" number LF subproblem*
  subproblem  = fence? ( \"refuted\" | \"open\" ) LF log-line* \"done\" LF

synth writes a certificate, and recheck writes its verdict if and only if it is valid: each size below is refuted
by a log over a formula that recheck builds itself, and the chain agrees with the tables.

  minimum R      R steps are enough, and no fewer
  none X         no chain of at most X steps agrees
  bounded LOW R  R steps are enough, and fewer than LOW aren't
  open LOW       no chain of fewer than LOW steps agrees
";

const LEVELS: &[u8] = b"Depth certificates

  depth-certificate = certificate \"depth \" number LF subproblem*
                      ( \"levels \" number | \"levels-bounded \" number \" \" number ) LF \"end\" LF

A depth certificate shows that a chain of the fewest steps also has the fewest levels. It begins with a certificate
by fences whose verdict is minimum R; then comes a subproblem for each fence of R steps with fewer levels.

  levels D              R steps are the fewest; a chain of R steps has D levels, and none has fewer
  levels-bounded LOW D  R steps are the fewest; a chain of R steps has D levels, and none has fewer than LOW

synth --method fence --least-depth yes writes one, and recheck --depth yes reads it.
";

const BLIF: &[u8] = b"Netlists: BLIF

  .model NAME        one model at most, and no hierarchy
  .inputs NAME..     .outputs NAME..     .clock NAME..
  .names NAME.. NAME the table of the last name, with cover lines: a cube of 0, 1 and - and the value 0 or 1
  .latch NAME NAME   its input and its output; then maybe a type and a control, and the initial value 0 to 3
  .end               ends the netlist

A profile of the Berkeley Logic Interchange Format (1992). A comment begins with #, and a line that ends with \\
goes on in the next one. Each name is driven at most once: by .inputs, a table or a latch; tables form no loop.
.subckt, .gate, .mlatch and .exdc aren't read: yosys writes what is read after `flatten; techmap; abc -g AND`.

  .model parity
  .inputs a b
  .outputs y
  .names a b y
  01 1
  10 1
  .end
";

const BENCH: &[u8] = b"Netlists: BENCH

  INPUT(name)        OUTPUT(name)
  name = KEY(name, ..)    KEY is AND, NAND, OR, NOR, XOR, XNOR, NOT, BUFF or BUF
  name = DFF(name)        a latch

The format of the ISCAS benchmark files, read and written by improve --format bench, and where the name of the
file that is read ends with .bench. Keys may be upper or lower
case, lines may come in any order, and a comment begins with #.

  INPUT(a)
  INPUT(b)
  OUTPUT(y)
  y = XOR(a, b)
";

const AIGER: &[u8] = b"Netlists: AIGER

  aag M I L O A                   the greatest variable; how many inputs, latches, outputs and gates
  LITERAL                         an input, on a line of its own; then the latches:
  LITERAL NEXT [0, 1 or LITERAL]  its next state and its initial value: 0, 1, or either; then the outputs:
  LITERAL                         and the gates, each AND of two literals:
  LITERAL LITERAL LITERAL
  i0 NAME                         a name of an input; so l0 of a latch, o0 of an output
  c                               a comment follows

The ASCII form of AIGER 1.9, read and written by improve --format aiger, and where the name of the file that is
read ends with .aag or .aig; equiv reads it too. A literal is twice a variable, and one more for its complement;
0 and 1 are the constants. The binary form, which begins with `aig`, is read in the same places, and improve
writes the form that it read, or as the name of -o ends; an error has the line of the ASCII form, which
`aigtoaig` makes. Two counts more, B and C, say how many bad states and constraints follow the outputs, with
names as b0 and c0: they are outputs too, and improve writes each of them as what it was.

  aag 3 2 0 1 1
  2
  4
  7
  6 2 4
";

const PAIRS: &[u8] = b"Netlists compared

  pair   = netlist netlist                                       two files, or one text: the first with its .end
  answer = \"equal\" LF log-line* \"done\" LF
         | \"differ \" ( \"output \" | \"latch \" ) name LF \"at \" ( ( \"0\" | \"1\" )+ | \"-\" ) LF
         | \"undecided\" LF log-line* \"done\" LF

Both netlists have one interface: the same inputs, outputs and clocks in the same order, and latches
that agree in number, order, output, control and initial value.

  equal      the outputs and next states are the same under each assignment; the lines refute the miter  status 0
  differ     they differ under these bits of the inputs and then the latches                                    8
  undecided  the budget of --conflicts was spent                                                                4
";

const WINDOWS: &[u8] = b"Windows

A window is a set of gates below a root gate, and maybe a partner beside it, taken greedily up to a number of gates
that --cap bounds. Its inputs are the nodes outside that it reads, at most 6; its outputs are its gates that are
read outside, at most 8. A chain with the window's function and fewer steps replaces it.

A row of its inputs that no assignment of the nodes below produces is a satisfiability don't-care (SDC): it is
found over a bounded cone of at most 12 leaves. With --observe yes also rows on which no output depends on the
window are don't-cares (ODC), found over a bounded cone above it.

settled means that no listed window up to the cap has a shorter chain, except those that the report names
undecided.
";

const TOPICS: &[Topic] = &[
    Topic {
        name: b"errors",
        page: ERRORS,
    },
    Topic {
        name: b"tables",
        page: TABLES,
    },
    Topic {
        name: b"chains",
        page: CHAINS,
    },
    Topic {
        name: b"bases",
        page: BASES,
    },
    Topic {
        name: b"logs",
        page: LOGS,
    },
    Topic {
        name: b"certificates",
        page: CERTIFICATES,
    },
    Topic {
        name: b"levels",
        page: LEVELS,
    },
    Topic {
        name: b"blif",
        page: BLIF,
    },
    Topic {
        name: b"bench",
        page: BENCH,
    },
    Topic {
        name: b"aiger",
        page: AIGER,
    },
    Topic {
        name: b"pairs",
        page: PAIRS,
    },
    Topic {
        name: b"windows",
        page: WINDOWS,
    },
];

/// The subject with a name.
pub(crate) fn topic_named(word: &[u8]) -> Option<Topic> {
    for topic in TOPICS {
        if topic.name == word {
            return Some(*topic);
        }
    }
    None
}

/// Appends the page on a subject.
pub(crate) fn push_topic(page: &mut Vec<u8>, topic: Topic) -> Result<(), AllocError> {
    page.extend_from_slice(topic.page)
}

/// All subjects.
pub(crate) fn topics() -> &'static [Topic] {
    TOPICS
}

/// The name of a subject.
pub(crate) fn topic_name(topic: Topic) -> &'static [u8] {
    topic.name
}

/// Appends the names of all subjects with a blank after each.
pub(crate) fn push_topic_names(page: &mut Vec<u8>) -> Result<(), AllocError> {
    for topic in TOPICS {
        page.extend_from_slice(topic.name)?;
        page.push(b' ')?;
    }
    Ok(())
}
