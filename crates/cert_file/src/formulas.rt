//! The subproblems of a size and their formulas, by the header's method.
ghost use Rattle.std.specs.Prelude.{◌≡◌, ◌≤◌, ◌<◌, IfOk, Contains};
ghost use Rattle.cert_theory.specs.Certificate as certificates;
ghost use Rattle.chain_theory.specs.Limits.{most_steps};

use cert_theory::Header;
use cnf_core::Cnf;
use enc_base::Encoding;
use enc_fence::FenceEnc;
use enc_select::Select;
use enc_ssv::{Plain, Ssv};
use enc_strong::{Strong, StrongFence};
use enc_theory::Subproblem;
use settings::Method;
use std::alloc::{AllocError, Global};

/// The subproblems of a size, in order.
#[tactic(auto, unfolding(cert_theory::specs::Coding::coding_of))]
pub(crate) fn subproblems_of(
    alloc: Global,
    header: &Header,
    size: u32,
) -> Result<Vec<Subproblem>, AllocError>
    requires { size ≤ most_steps }
    ensures { IfOk result (λ subproblems. subproblems.items ≡ certificates.subproblems_of header.now size) }
{
    match header.method {
        Method::Plain => Plain.subproblems(alloc, &header.spec, size),
        Method::Ssv => Ssv.subproblems(alloc, &header.spec, size),
        Method::Select => Select.subproblems(alloc, &header.spec, size),
        Method::Fence => FenceEnc.subproblems(alloc, &header.spec, size),
        Method::Strong => Strong.subproblems(alloc, &header.spec, size),
        Method::StrongFence => StrongFence.subproblems(alloc, &header.spec, size),
    }
}

/// The formula of a subproblem.
#[tactic(auto, unfolding(cert_theory::specs::Coding::coding_of))]
pub(crate) fn formula_of(
    alloc: Global,
    header: &Header,
    size: u32,
    subproblem: &Subproblem,
) -> Result<Cnf, AllocError>
    requires size { size ≤ most_steps }
    requires operators { 0 < header.now.basis }
    requires subproblem { Contains (certificates.subproblems_of header.now size) subproblem.now }
    ensures { IfOk result (λ cnf. cnf ≡ certificates.formula_of header.now size subproblem.now) }
{
    match header.method {
        Method::Plain => Plain.formula(alloc, &header.spec, header.basis, size, subproblem),
        Method::Ssv => Ssv.formula(alloc, &header.spec, header.basis, size, subproblem),
        Method::Select => Select.formula(alloc, &header.spec, header.basis, size, subproblem),
        Method::Fence => FenceEnc.formula(alloc, &header.spec, header.basis, size, subproblem),
        Method::Strong => Strong.formula(alloc, &header.spec, header.basis, size, subproblem),
        Method::StrongFence => {
            StrongFence.formula(alloc, &header.spec, header.basis, size, subproblem)
        }
    }
}
