//! The attempt of a window: its specification, the search, and the new net.
ghost use Rattle.std.specs.Prelude.{◌≡◌, ◌≤◌, IfOk, OnOk};
ghost use Rattle.settings.specs.Improve.{IsInRange};
ghost use Rattle.window_theory.specs.Paths.{IsGate};
ghost use Rattle.window_theory.specs.Window.{IsWindow, Belongs};
ghost use Rattle.improve_theory.specs.declared.candidate.WindowCandidate.{WindowCandidate as CandidateValue};
ghost use Rattle.improve_theory.specs.Settled.{IsListedCandidate};
ghost use Rattle.window_core.specs.Fanouts.{AreFanouts};
ghost use Rattle.window_attempt.specs.Attempting.{IsDecidedFor, IsAttemptOutcome};

use crate::asking::local_spec;
use crate::merging::merged;
use crate::partners::{is_partner_or_none, next_partner};
use crate::replacing::replaced;
use decide_core::{Decided, Header, SpecCache, decide};
use improve_theory::WindowCandidate;
use net_core::Net;
use resyn_core::{Attempted, Attempts};
use sat_solve::Solver;
use settings::ImproveSettings;
use std::alloc::{AllocError, Global};
use std::marker::{Model, PhantomData};
use window_core::{Fanouts, Window, fanouts_of, window_by};

/// A net whose windows are attempted by a solver, with its index, the settings, and the cache of earlier
/// searches.
#[derive(Drop)]
pub struct WindowAttempts<S> {
    settings: ImproveSettings,
    net: Net,
    fanouts: Fanouts,
    cache: SpecCache,
    solver: PhantomData<S>,
}

impl<S> Model for WindowAttempts<S> {
    ghost use Rattle.window_attempt.specs.Attempting.{Attempting, IsAttempting};

    ghost Value = { Attempting };

    ghost view = { λ t. record { settings = t.settings; net = t.net; fanouts = t.fanouts; basis = t.cache.basis } };

    ghost invariant = { λ t. IsAttempting (record {
      settings = t.settings;
      net = t.net;
      fanouts = t.fanouts;
      basis = t.cache.basis;
    }) };
}

/// Searches for a chain shorter than the window, for its local specification by the settings.
#[tactic(auto, using(crate::specs::AttemptingLaws::attempting))]
fn decide_window<S: Solver>(
    alloc: Global,
    net: &Net,
    fanouts: &Fanouts,
    window: &Window,
    settings: ImproveSettings,
    cache: &mut SpecCache,
) -> Result<Decided, AllocError>
    requires fanouts { AreFanouts net.now fanouts.now }
    requires belongs { Belongs net.now window.now }
    requires range { IsInRange settings }
    requires basis { cache.old.basis ≡ settings.basis }
    ensures decided { IfOk result (λ decided. IsDecidedFor settings net.now window.now decided) }
    ensures basis { cache.new.basis ≡ cache.old.basis }
{
    let max = window.gates().len() as u32 - 1;
    let spec = local_spec(alloc, net, fanouts, window, settings.observe)?;
    // for the prover: brings the invariants of the specification and of the basis into the proof
    let _inputs = spec.n();
    let _operators = settings.basis.get();
    let header = Header {
        spec,
        basis: settings.basis,
        method: settings.method,
        conflicts: settings.conflicts,
        max,
    };
    let decided = decide::<S>(alloc, cache, &header)?;
    Ok(decided)
}

/// The result of an attempt, with the new net where there is one.
#[derive(Drop)]
enum AttemptOutcome {
    NoGain,
    Open(decide_core::Certificate),
    Accepted(Net),
}

/// Attempts a window of a net.
#[tactic(auto, using(crate::specs::AttemptingLaws::attempting))]
fn attempt_window<S: Solver>(
    alloc: Global,
    net: &Net,
    fanouts: &Fanouts,
    window: &Window,
    settings: ImproveSettings,
    cache: &mut SpecCache,
) -> Result<AttemptOutcome, AllocError>
    requires fanouts { AreFanouts net.now fanouts.now }
    requires belongs { Belongs net.now window.now }
    requires range { IsInRange settings }
    requires basis { cache.old.basis ≡ settings.basis }
    ensures outcome { (candidate : CandidateValue) →
        IsWindow net.now candidate.root candidate.partner candidate.count window.now →
        IsListedCandidate net.now settings.cap candidate →
        IfOk result (λ outcome. IsAttemptOutcome settings net.now candidate outcome) }
    ensures basis { cache.new.basis ≡ cache.old.basis }
{
    // for the prover: brings the net's invariant into the proof
    let _gates = net.gates();
    match decide_window::<S>(alloc, net, fanouts, window, settings, cache)? {
        Decided::Least => Ok(AttemptOutcome::NoGain),
        Decided::Open(search) => Ok(AttemptOutcome::Open(search)),
        Decided::Shorter(chain) => Ok(AttemptOutcome::Accepted(replaced(
            alloc, net, window, &chain, settings,
        )?)),
    }
}

/// Attempts the window of a candidate, if there is one.
#[tactic(auto, using(crate::specs::AttemptingLaws::attempting))]
fn attempt_candidate<S: Solver>(
    alloc: Global,
    net: &Net,
    fanouts: &Fanouts,
    settings: ImproveSettings,
    cache: &mut SpecCache,
    candidate: WindowCandidate,
) -> Result<AttemptOutcome, AllocError>
    requires fanouts { AreFanouts net.now fanouts.now }
    requires range { IsInRange settings }
    requires gate { IsGate net.now candidate.root }
    requires from { 1 ≤ candidate.count }
    requires to { candidate.count ≤ settings.cap }
    requires basis { cache.old.basis ≡ settings.basis }
    ensures outcome { IfOk result (λ outcome. IsAttemptOutcome settings net.now candidate outcome) }
    ensures basis { cache.new.basis ≡ cache.old.basis }
{
    // for the prover: brings the net's invariant into the proof
    let _gates = net.gates();
    if !is_partner_or_none(alloc, net, fanouts, candidate.root, candidate.partner)? {
        return Ok(AttemptOutcome::NoGain);
    }
    match window_by(
        alloc,
        net,
        fanouts,
        candidate.root,
        candidate.partner,
        candidate.count,
    )? {
        None => Ok(AttemptOutcome::NoGain),
        Some(window) => attempt_window::<S>(alloc, net, fanouts, &window, settings, cache),
    }
}

impl<S> WindowAttempts<S> {
    /// The net with its index, an empty cache and these settings.
    pub fn new(
        alloc: Global,
        net: Net,
        settings: ImproveSettings,
    ) -> Result<WindowAttempts<S>, AllocError>
        requires { IsInRange settings }
        ensures net { IfOk result (λ attempts. attempts.net ≡ net) }
        ensures settings { IfOk result (λ attempts. attempts.settings ≡ settings) }
    {
        let fanouts = fanouts_of(alloc, &net)?;
        let cache = SpecCache::new(alloc, settings.basis);
        Ok(WindowAttempts {
            settings,
            net,
            fanouts,
            cache,
            solver: PhantomData,
        })
    }

    /// The final net.
    pub fn into_net(self) -> Net
        ensures { result ≡ self.net }
    {
        let WindowAttempts {
            settings: _,
            net,
            fanouts: _,
            cache: _,
            solver: _,
        } = self;
        net
    }

    /// Replaces the net, and makes its index anew.
    fn put(&mut self, alloc: Global, net: Net) -> Result<(), AllocError>
        ensures net { OnOk result (self.new.net ≡ net) }
        ensures settings { OnOk result (self.new.settings ≡ self.old.settings) }
    {
        self.fanouts = fanouts_of(alloc, &net)?;
        self.net = net;
        Ok(())
    }
}

impl<S: Solver> Attempts for WindowAttempts<S> {
    ghost settings_of = { λ t. t.settings };

    ghost net_of = { λ t. t.net };

    fn settings(&self) -> ImproveSettings {
        self.settings
    }

    fn net(&self) -> &Net {
        &self.net
    }

    // A cap of 1 keeps structurally equal gates: each of them alone needs a step.
    #[tactic(auto, using(crate::specs::MergedLaws::merging))]
    fn strash(&mut self, alloc: Global) -> Result<(), AllocError> {
        if self.settings.cap < 2 {
            return Ok(());
        }
        match merged(alloc, &self.net)? {
            None => Ok(()),
            Some(net) => {
                self.put(alloc, net)?;
                Ok(())
            }
        }
    }

    #[tactic(auto, using(crate::specs::AttemptingLaws::attempting))]
    fn attempt(
        &mut self,
        alloc: Global,
        candidate: WindowCandidate,
    ) -> Result<Attempted, AllocError> {
        match attempt_candidate::<S>(
            alloc,
            &self.net,
            &self.fanouts,
            self.settings,
            &mut self.cache,
            candidate,
        )? {
            AttemptOutcome::NoGain => Ok(Attempted::NoGain),
            AttemptOutcome::Open(search) => Ok(Attempted::Open(search)),
            AttemptOutcome::Accepted(net) => {
                self.put(alloc, net)?;
                Ok(Attempted::Accepted)
            }
        }
    }

    fn next_partner(
        &self,
        alloc: Global,
        root: u32,
        below: u32,
    ) -> Result<Option<u32>, AllocError> {
        next_partner(alloc, &self.net, &self.fanouts, root, below)
    }
}
