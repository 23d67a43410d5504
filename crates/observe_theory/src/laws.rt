//! Laws about the definitions, each the contract of a function that does nothing.
ghost use Rattle.std.specs.Prelude.{◌≡◌, ℕ, ◌<◌, Bool, true, ◌++◌, List, map, slice_get, Some};
ghost use Rattle.chain_theory.specs.Specification.{Specification};
ghost use Rattle.chain_theory.specs.Chain.{Chain, IsChain};
ghost use Rattle.chain_theory.specs.Agreement.{Agrees, HasChain};
ghost use Rattle.chain_theory.specs.Operator.{Basis};
ghost use Rattle.net_theory.specs.declared.data.Sig.{Sig};
ghost use Rattle.net_theory.specs.Net.{Net, IsNet, end_of, sig_value, value, sink_values};
ghost use Rattle.window_theory.specs.Nodes.{among};
ghost use Rattle.window_theory.specs.Window.{Window, IsOutsideFanout, Belongs};
ghost use Rattle.window_theory.specs.Care.{values_with, HasRow};
ghost use Rattle.window_theory.specs.Substituted.{Fits, substituted_value};
ghost use Rattle.observe_theory.specs.FanoutCone.{AreFollowing, IsFollower, FanoutCone, IsFanoutCone};
ghost use Rattle.observe_theory.specs.Unobservable.{AreObserving, IsUnobservable};
ghost use Rattle.observe_theory.specs.Observed.{IsObservedOf};
ghost use Rattle.observe_theory.specs.ApartLaws.{ArePut};

/// A fanout cone is found from below: each follower is above all gates that were taken before it. So no side
/// input is in the window's transitive fanout (TFO), and neither is an input of the window or a leaf of the
/// observing fanin cone: these keep their values whatever bits the window's outputs are forced to.
pub fn side_inputs_are_apart()
    ensures rising { (n : Net) (gates taken : List ℕ) (x q : ℕ) → IsNet n → AreFollowing n gates taken →
        IsFollower n (taken ++ gates) x → among taken q ≡ true → q < x }
    ensures side_inputs { (n : Net) (w : Window) (t : FanoutCone) (p : ℕ) → IsNet n → IsFanoutCone n w t →
        among t.side_inputs p ≡ true → IsOutsideFanout n w.gates p }
    ensures inputs { (n : Net) (w : Window) (p : ℕ) → Belongs n w → among w.inputs p ≡ true →
        IsOutsideFanout n w.gates p }
    ensures leaves { (n : Net) (w : Window) (t : FanoutCone) (leaves : List ℕ) (p : ℕ) → IsNet n → Belongs n w →
        IsFanoutCone n w t →
        AreObserving n w t leaves → among leaves p ≡ true → IsOutsideFanout n w.gates p }
    ensures values { (n : Net) (w : Window) (given put : ℕ → Bool) (p : ℕ) → IsNet n → Belongs n w →
        ArePut n given put →
        IsOutsideFanout n w.gates p → p < end_of n → values_with n (among w.outputs) put p ≡ value n given p }
{}

/// On an unobservable row every sink keeps its value, whatever bits the window's outputs are forced to.
pub fn unobservable_rows_keep_the_sinks()
    ensures { (n : Net) (w : Window) (t : FanoutCone) (row i : ℕ) (s : Sig) (given put : ℕ → Bool) → IsNet n →
        Belongs n w →
        IsFanoutCone n w t → IsUnobservable n w t row → HasRow (value n given) w.inputs row → ArePut n given put →
        slice_get n.sinks i ≡ Some s → sig_value (values_with n (among w.outputs) put) s ≡
        sig_value (value n given) s }
{}

/// A chain that implements the observed specification of a window can be substituted for it: it
/// fits, and all sinks keep their values.
pub fn observed_chains_keep_the_sinks()
    ensures fit { (n : Net) (w : Window) (s : Specification) (c : Chain) → IsChain c → IsObservedOf n w s →
        Agrees c s → Fits w c }
    ensures sinks { (n : Net) (w : Window) (s : Specification) (c : Chain) (given : ℕ → Bool) → IsNet n →
        Belongs n w →
        IsChain c → IsObservedOf n w s → Agrees c s → map (sig_value (substituted_value n w c given)) n.sinks ≡
        sink_values n given }
{}

/// A window has exactly one fanout cone, and the same chains implement all its observed specifications. So if
/// no chain of fewer steps implements one of them, none implements the others.
pub fn observed_specifications_are_one()
    ensures fanout_cone { (n : Net) (w : Window) (t u : FanoutCone) → IsFanoutCone n w t → IsFanoutCone n w u →
        t ≡ u }
    ensures chains { (n : Net) (w : Window) (s z : Specification) (basis : Basis) (r : ℕ) → IsObservedOf n w s →
        IsObservedOf n w z →
        HasChain s basis r → HasChain z basis r }
{}
