//! Theorems about BENCH texts, each the contract of a function with an empty body. The definitions are those of
//! `net_theory`, `net_document`, `bench_text` and `bench_core`.
#![tactic(auto)]

ghost use Rattle.std.specs.Prelude.{◌≡◌, ℕ, List, All, true, slice_get, Some, IfErr};
ghost use Rattle.net_theory.specs.declared.data.Gate.{Gate};
ghost use Rattle.net_theory.specs.Document.{Name, Document, has, source_names};
ghost use Rattle.net_theory.specs.WellFormed.{IsWellFormed};
ghost use Rattle.net_theory.specs.Cost.{cost};
ghost use Rattle.net_theory.specs.Circuit.{Circuit, Describes};
ghost use Rattle.net_document.specs.Format.{IsCircuitOfText, IsReadBack, IsTextOf, IsFormat};
ghost use Rattle.bench_core.specs.Spelling.{spelled, circuit_text};
ghost use Rattle.blif_core.specs.Written.{written};
ghost use Rattle.bench_core.specs.Gates.{as_gates, bench_written};
ghost use Rattle.bench_laws.specs.Spelled.{CanSpell, IsBenchSpelling, IsWritable, CanWriteBench, IsLineFault};
ghost use Rattle.bench_text.specs.Statements.{listed_of};
ghost use Rattle.bench_core.specs.Bench.{bench_format, is_gate_word};
ghost use Rattle.bench_core.specs.Writable.{IsBenchCircuit};

use blif_laws::blif_is_a_format;

/// Each gate of the circuit of a BENCH text has an operator of the format: AND, OR, XOR or a complement of these.
pub fn gates_have_operators_of_gates()
    ensures { (bytes : List ℕ) (c : Circuit) (i : ℕ) (g : Gate) → IsCircuitOfText bench_format bytes c →
        slice_get c.net.gates i ≡ Some g → is_gate_word g.op ≡ true }
{}

/// If each table of a well-formed document can be written as a gate, replacing the tables by gates (constants by
/// gates over one of its sources) keeps the document's functions and its cost.
pub fn documents_of_gates_do_the_same()
    ensures well { (source : Name) (d : Document) → IsWellFormed d → All CanSpell d.tables →
        has (source_names d) source ≡ true → IsWellFormed (as_gates source d) }
    ensures describes { (source : Name) (d : Document) (c : Circuit) → IsWellFormed d → All CanSpell d.tables →
        has (source_names d) source ≡ true → Describes d c → Describes (as_gates source d) c }
    ensures cost { (source : Name) (d : Document) → IsWellFormed d → All CanSpell d.tables →
        has (source_names d) source ≡ true → cost (as_gates source d) ≡ cost d }
{}

/// A document with a BENCH text is read back from it, with its tables as gates.
pub fn documents_are_read_back()
    ensures { (source : Name) (d : Document) → IsBenchSpelling source d →
        IsReadBack bench_format (spelled source d) (as_gates source d) }
{}

/// The circuit of every BENCH text can be written in BENCH.
pub fn circuits_of_texts_can_be_written()
    ensures { (bytes : List ℕ) (c : Circuit) → IsCircuitOfText bench_format bytes c → IsBenchCircuit c }
{}

/// The text that `write_bench` writes lists a well-formed document that is equivalent to the circuit and costs at
/// most as many gates as the circuit has.
pub fn circuits_are_read_back()
    ensures { (c : Circuit) → IsWritable c → IsTextOf bench_format (circuit_text c) c }
{
    // for the prover: this follows from the laws of BLIF
    blif_is_a_format();
}

/// The cost of a writable circuit is the same in BENCH as in BLIF.
pub fn circuits_cost_the_same()
    ensures { (c : Circuit) → IsWritable c → cost (bench_written c) ≡ cost (written c) }
{
    // for the prover: this follows from the laws of BLIF
    blif_is_a_format();
}

/// BENCH is a format: its texts list documents of gates, the text of a writable circuit is read back, and the
/// circuit of every text is writable, also after its net is replaced by one that implements it with operators of
/// the format.
pub fn bench_is_a_format()
    ensures { IsFormat bench_format CanWriteBench }
{
    // for the prover: this follows from the laws of BLIF
    blif_is_a_format();
}

/// The errors of the lines of a BENCH text are Syntax, NotSupported, TooWide, LineTooLong and NameTooLong.
pub fn lines_have_few_faults()
    ensures { (bytes : List ℕ) → IfErr (listed_of bytes) IsLineFault }
{}
