//! The header of a certificate.
ghost use Rattle.std.specs.Prelude.{◌≡◌, ◌<◌, ◌++◌, codes, decimal, OnOk, OnErr};
ghost use Rattle.cert_theory.specs.Spelling as spelling;
ghost use Rattle.cert_text.specs.Texts.{spelled, header_text};

use crate::tables::{push_numbered, push_tables};
use op_basis::{Basis, write_basis};
use settings::{Method, method_name};
use std::alloc::AllocError;
use tt_core::Spec;

/// Appends the first line.
#[tactic(auto, unfolding(crate::specs::Texts::spelled))]
fn push_first(text: &mut Vec<u8>) -> Result<(), AllocError>
    ensures { OnOk result (text.new.items ≡ text.old.items ++ spelled spelling.first_text) }
{
    text.extend_from_slice(b"chains 1\n")
}

/// Appends the line of the number of inputs.
#[tactic(auto, unfolding(crate::specs::Texts::spelled))]
fn push_inputs(text: &mut Vec<u8>, n: u32) -> Result<(), AllocError>
    ensures { OnOk result (text.new.items ≡ text.old.items ++ spelled (codes "inputs " ++ decimal n)) }
{
    push_numbered(text, b"inputs ", n)
}

/// Appends the line of the basis.
#[tactic(auto, unfolding(cert_theory::specs::Spelling::basis_line, crate::specs::Texts::spelled))]
fn push_basis(text: &mut Vec<u8>, basis: Basis) -> Result<(), AllocError>
    requires { 0 < basis }
    ensures { OnOk result (text.new.items ≡ text.old.items ++ spelled (spelling.basis_line basis)) }
{
    text.extend_from_slice(b"basis ")?;
    write_basis(basis, text)?;
    text.extend_from_slice(b"\n")
}

/// Appends the line of the method.
#[tactic(auto, unfolding(cert_theory::specs::Spelling::method_line, crate::specs::Texts::spelled))]
fn push_method(text: &mut Vec<u8>, method: Method) -> Result<(), AllocError>
    ensures { OnOk result (text.new.items ≡ text.old.items ++ spelled (spelling.method_line method)) }
{
    text.extend_from_slice(b"method ")?;
    text.extend_from_slice(method_name(method))?;
    text.extend_from_slice(b"\n")
}

/// Appends the lines of the conflict limit and of the greatest size.
#[tactic(auto, // for the prover
unfolding(cert_theory::specs::Spelling::conflicts_line, cert_theory::specs::Spelling::max_line, // for the prover
crate::specs::Texts::spelled))]
fn push_bounds(text: &mut Vec<u8>, conflicts: u32, max: u32) -> Result<(), AllocError>
    ensures { OnOk result (text.new.items ≡ text.old.items ++
        (spelled (spelling.conflicts_line conflicts) ++ spelled (spelling.max_line max))) }
{
    push_numbered(text, b"conflicts ", conflicts)?;
    push_numbered(text, b"max ", max)
}

/// Appends the lines of a header.
#[tactic(auto, unfolding(crate::specs::Texts::header_text))]
pub fn push_header(
    text: &mut Vec<u8>,
    spec: &Spec,
    basis: Basis,
    method: Method,
    conflicts: u32,
    max: u32,
) -> Result<(), AllocError>
    requires { 0 < basis }
    ensures { OnOk result (text.new.items ≡ text.old.items ++
        header_text (record { spec = spec.now; basis = basis; method = method; conflicts = conflicts; max = max })) }
{
    push_first(text)?;
    push_inputs(text, spec.n())?;
    push_tables(text, spec)?;
    push_basis(text, basis)?;
    push_method(text, method)?;
    push_bounds(text, conflicts, max)
}

/// Appends the lines of a header, over a basis that isn't empty. On an error `out` is unchanged.
#[tactic(auto, using(crate::proofs::Written::headers))]
pub fn write_header(
    spec: &Spec,
    basis: Basis,
    method: Method,
    conflicts: u32,
    max: u32,
    out: &mut Vec<u8>,
) -> Result<(), AllocError>
    requires { 0 < basis }
    ensures ok { OnOk result (out.new.items ≡ out.old.items ++
        spelling.text_of (spelling.header_lines (record {
          spec = spec.now;
          basis = basis;
          method = method;
          conflicts = conflicts;
          max = max;
        }))) }
    ensures err { OnErr result (out.new.items ≡ out.old.items) }
{
    let mut text = Vec::new(*out.allocator());
    push_header(&mut text, spec, basis, method, conflicts, max)?;
    out.extend_from_slice(&text)
}
