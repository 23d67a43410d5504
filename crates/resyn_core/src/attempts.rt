//! What resynthesis needs from the code that attempts a window.
use cert_theory::Certificate;
use improve_theory::WindowCandidate;
use net_core::Net;
use settings::ImproveSettings;
use std::alloc::{AllocError, Global};

/// The result of an attempt.
#[derive(Drop)]
pub enum Attempted {
    /// No gain: there is no window of this root, partner and count, or it has too many inputs or outputs, or
    /// no chain of fewer steps than it has gates implements it.
    NoGain,
    /// The conflict limit was reached, with a window of at least six gates: the certificate of the search.
    Open(Certificate),
    /// A gain: a shorter chain has replaced the window, and the net is smaller.
    Accepted,
}

/// A net whose windows can be attempted one after the other, by some settings.
pub trait Attempts {
    ghost use Rattle.std.specs.Prelude.{◌≡◌, ◌≤◌, IfOk, OnOk};
    ghost use Rattle.net_theory.specs.Net.{Net};
    ghost use Rattle.settings.specs.declared.improve.ImproveSettings.{ImproveSettings};
    ghost use Rattle.settings.specs.Improve.{IsInRange};
    ghost use Rattle.window_theory.specs.Paths.{IsGate};
    ghost use Rattle.improve_theory.specs.Candidates.{IsNextPartner};
    ghost use Rattle.improve_theory.specs.Changes.{IsNoLarger};
    ghost use Rattle.resyn_core.specs.Outcomes.{IsAttempted};

    /// The settings.
    ghost settings_of: { Self → ImproveSettings };

    /// The current net.
    ghost net_of: { Self → Net };

    /// The settings.
    fn settings(&self) -> ImproveSettings
        ensures value { result ≡ settings_of self.now }
        ensures range { IsInRange result };

    /// The current net.
    fn net(&self) -> &Net
        ensures { result.now ≡ net_of self.now };

    /// Merges structurally equal gates (structural hashing), where the settings allow it.
    fn strash(&mut self, alloc: Global) -> Result<(), AllocError>
        ensures asked { OnOk result (settings_of self.new ≡ settings_of self.old) }
        ensures merged { OnOk result (IsNoLarger (settings_of self.old) (net_of self.old) (net_of self.new)) };

    /// Attempts the window of a root, a partner or none, and a count from 1 to the cap. There may be no such
    /// window, and `partner` may be no partner of the root.
    fn attempt(
        &mut self,
        alloc: Global,
        candidate: WindowCandidate,
    ) -> Result<Attempted, AllocError>
        requires gate { IsGate (net_of self.old) candidate.root }
        requires from { 1 ≤ candidate.count }
        requires to { candidate.count ≤ (settings_of self.old).cap }
        ensures asked { IfOk result (λ _. settings_of self.new ≡ settings_of self.old) }
        ensures attempted { IfOk result (λ attempted. IsAttempted (settings_of self.old) (net_of self.old)
            (net_of self.new) candidate attempted) };

    /// The greatest partner of a gate below `below`.
    fn next_partner(&self, alloc: Global, root: u32, below: u32) -> Result<Option<u32>, AllocError>
        requires gate { IsGate (net_of self.now) root }
        ensures { IfOk result (λ next. IsNextPartner (net_of self.now) root below next) };
}
