//! Both forms are a format, as the contract of a function with an empty body.

ghost use Rattle.net_document.specs.Format.{IsFormat};
ghost use Rattle.aiger_laws.specs.Writable.{CanWriteAiger};
ghost use Rattle.aiger_forms.specs.Forms.{aiger_forms};

use aiger_laws::aiger_is_a_format;

/// AIGER in either form is a format: texts are parsed within the limits, the text of a circuit that can be written is
/// read back, and the circuit of every text can be written, also after its net is replaced by one that implements it
/// with AND gates with complements.
#[tactic(auto, using(crate::specs::FormLaws::formats))]
pub fn forms_are_a_format()
    ensures { IsFormat aiger_forms CanWriteAiger }
{
    // for the prover: the ASCII form is a format
    aiger_is_a_format();
}
