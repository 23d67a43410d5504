//! The least cover of a table.
ghost use Rattle.std.specs.Prelude.{◌≡◌, ◌++◌, IfOk, OnOk};
ghost use Rattle.net_theory.specs.Document.{is_same, has};
ghost use Rattle.net_core.specs.Wholes.{cover_of, JoinsSome};
ghost use Rattle.blif_covers.specs.Least as spec;

use net_core::{Body, Cover, Cube};
use std::alloc::{AllocError, Global};

/// Whether a cube has these bytes.
fn is_row(row: &[u8], cube: &Cube) -> bool
    ensures { result ≡ is_same row.now cube.now }
{
    row == cube.get()
}

/// Whether a row is listed.
#[tactic(auto, unfolding(net_theory::specs::Document::has))]
fn is_listed(cubes: &[Cube], row: &[u8]) -> bool
    ensures { result ≡ has cubes.now row.now }
{
    cubes.iter().any(|cube| is_row(row, cube))
}

/// Appends a row, unless it is listed.
fn push_unlisted(
    alloc: Global,
    rows: &mut Vec<Cube>,
    cubes: &[Cube],
    row: &[u8],
) -> Result<(), AllocError>
    ensures { OnOk result (rows.new.items ≡ rows.old.items ++ spec.unlisted cubes.now row.now) }
{
    if !is_listed(cubes, row) {
        rows.push(Cube::new(Vec::from_slice(alloc, row)?))?;
    }
    Ok(())
}

/// The rows of two inputs that aren't listed.
#[tactic(auto, unfolding(crate::specs::Least::other_rows))]
fn other_rows(alloc: Global, cubes: &[Cube]) -> Result<Vec<Cube>, AllocError>
    ensures { IfOk result (λ rows. rows.items ≡ spec.other_rows cubes.now) }
{
    let mut rows = Vec::new(alloc);
    push_unlisted(alloc, &mut rows, cubes, b"00")?;
    push_unlisted(alloc, &mut rows, cubes, b"01")?;
    push_unlisted(alloc, &mut rows, cubes, b"10")?;
    push_unlisted(alloc, &mut rows, cubes, b"11")?;
    Ok(rows)
}

/// Whether three of the four rows of two inputs are listed.
fn lists_three(cover: &Cover) -> bool
    ensures { result ≡ spec.lists_three cover.now }
{
    cover.width == 2 && cover.cubes.len() == 3
}

/// The least cover.
#[tactic(auto, unfolding(crate::specs::Least::least_cover))]
fn least_cover(alloc: Global, cover: Cover) -> Result<Cover, AllocError>
    ensures { IfOk result (λ least. least ≡ spec.least_cover cover) }
{
    if !lists_three(&cover) {
        return Ok(cover);
    }
    Ok(Cover {
        width: 2,
        cubes: other_rows(alloc, &cover.cubes)?,
        on: !cover.on,
    })
}

/// The least body. One that joins its inputs stays.
#[tactic(auto, using(crate::proofs::Bodies::bodies))]
pub(crate) fn least_body(alloc: Global, body: Body) -> Result<Body, AllocError>
    requires { JoinsSome body }
    ensures cover { IfOk result (λ least. cover_of least ≡ spec.least_cover (cover_of body)) }
    ensures some { IfOk result JoinsSome }
{
    match body {
        Body::Cubes(cover) => Ok(Body::Cubes(least_cover(alloc, cover)?)),
        Body::Joined(whole) => Ok(Body::Joined(whole)),
    }
}
