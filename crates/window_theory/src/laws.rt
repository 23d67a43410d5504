//! Laws about the definitions, each the contract of a function that does nothing.
ghost use Rattle.std.specs.Prelude.{◌≡◌, ℕ, ◌+◌, ◌^◌, ◌≤◌, ◌<◌, Bool, true, false, Option, List, length};
ghost use Rattle.chain_theory.specs.Operator.{Basis};
ghost use Rattle.chain_theory.specs.Specification.{Specification};
ghost use Rattle.chain_theory.specs.Agreement.{Agrees, HasChain};
ghost use Rattle.chain_theory.specs.Chain.{Chain, IsChain};
ghost use Rattle.net_theory.specs.Net.{Net, IsNet, end_of, gate_value, value, sink_values};
ghost use Rattle.net_theory.specs.Implements.{Implements};
ghost use Rattle.window_theory.specs.Nodes.{among, IsRising, AreJust};
ghost use Rattle.window_theory.specs.Paths.{IsGate, IsConvex};
ghost use Rattle.window_theory.specs.Partner.{ArePartners};
ghost use Rattle.window_theory.specs.Window.{Window, IsGrowthCandidate, AreTaken, Takes, IsInput, IsOutput, HasPartner};
ghost use Rattle.window_theory.specs.Window.{Belongs, IsWindow};
ghost use Rattle.window_theory.specs.FaninCone.{ExpandsTo};
ghost use Rattle.window_theory.specs.FaninConeLaws.{AreBelow};
ghost use Rattle.window_theory.specs.Care.{values_with, IsGiven, IsEvaluatedPart, HasRow, IsCareRow};
ghost use Rattle.window_theory.specs.Care.{IsSpecificationOf};
ghost use Rattle.window_theory.specs.Care.{HasNoFewer};
ghost use Rattle.window_theory.specs.CarePartLaws.{AreInside};
ghost use Rattle.window_theory.specs.Substituted.{Fits, IsSubstitution};
ghost use Rattle.chain_theory.specs.Limits.{most_inputs, most_outputs};

/// A convex set of gates with exactly its inputs and outputs belongs to the net, and the gates of every
/// window that belongs are convex. The inputs of the window of a root are below all its gates, so this window
/// belongs. A root, a partner or none, and a count have at most one window, and a gate has exactly one list
/// of partners.
pub fn windows_belong()
    ensures low { (n : Net) (root : ℕ) (partner : Option ℕ) (count : ℕ) (w : Window) (p q : ℕ) → IsNet n →
        IsWindow n root partner count w → IsInput n w.gates p → among w.gates q ≡ true → p < q }
    ensures belong { (n : Net) (root : ℕ) (partner : Option ℕ) (count : ℕ) (w : Window) → IsNet n →
        IsWindow n root partner count w → Belongs n w }
    ensures exact { (n : Net) (w : Window) → IsNet n → IsRising w.gates →
        ((p : ℕ) → among w.gates p ≡ true → IsGate n p) →
        IsConvex n (among w.gates) → AreJust (IsInput n w.gates) w.inputs → AreJust (IsOutput n w.gates) w.outputs →
        Belongs n w }
    ensures convex { (n : Net) (w : Window) → Belongs n w → IsConvex n (among w.gates) }
    ensures one { (n : Net) (root : ℕ) (partner : Option ℕ) (count : ℕ) (w v : Window) →
        IsWindow n root partner count w →
        IsWindow n root partner count v → w ≡ v }
    ensures partners { (n : Net) (g : ℕ) (a b : List ℕ) → ArePartners n g a → ArePartners n g b → a ≡ b }
{}

/// Where there is no window: once no candidate is left, no window has more gates than were taken; and the
/// gates that are taken decide whether they form a window, since the partner is among them and they have at
/// most 6 inputs and 8 outputs.
pub fn windows_end()
    ensures longest { (n : Net) (root : ℕ) (partner : Option ℕ) (count : ℕ) (taken : List ℕ) (w : Window) →
        AreTaken n root partner taken → ((p : ℕ) → IsGrowthCandidate n root partner taken p → ⊥) →
        IsWindow n root partner count w → count ≤ length taken }
    ensures partner { (n : Net) (root : ℕ) (partner : Option ℕ) (count : ℕ) (gates : List ℕ) (w : Window) →
        Takes n root partner count gates → IsWindow n root partner count w → HasPartner partner gates }
    ensures inputs { (n : Net) (root : ℕ) (partner : Option ℕ) (count : ℕ) (gates inputs : List ℕ) (w : Window) →
        Takes n root partner count gates → AreJust (IsInput n gates) inputs → IsWindow n root partner count w →
        length inputs ≤ most_inputs }
    ensures outputs { (n : Net) (root : ℕ) (partner : Option ℕ) (count : ℕ) (gates outputs : List ℕ) (w : Window) →
        Takes n root partner count gates → AreJust (IsOutput n gates) outputs → IsWindow n root partner count w →
        length outputs ≤ most_outputs }
{}

/// Values where the bits of some nodes are fixed, without recursion: sources and fixed nodes have their given
/// bits, and each other gate has its operator's value. So a part of a net can be evaluated by itself, and the
/// gates of a window depend on its inputs alone.
pub fn parts_have_values()
    ensures source { (n : Net) (fixed given : ℕ → Bool) (p : ℕ) → p ≤ n.sources →
        values_with n fixed given p ≡ given p }
    ensures fixed { (n : Net) (fixed given : ℕ → Bool) (p : ℕ) → fixed p ≡ true →
        values_with n fixed given p ≡ given p }
    ensures gate { (n : Net) (fixed given : ℕ → Bool) (p : ℕ) (is : IsGate n p) → IsNet n → fixed p ≡ false →
        values_with n fixed given p ≡ gate_value (values_with n fixed given) is.gate }
    ensures same { (n : Net) (fixed f g : ℕ → Bool) (p : ℕ) → IsNet n → ((q : ℕ) → IsGiven n fixed q → f q ≡ g q) →
        p < end_of n → values_with n fixed f p ≡ values_with n fixed g p }
    ensures part { (n : Net) (fixed given inside bits : ℕ → Bool) (p : ℕ) → IsNet n →
        IsEvaluatedPart n fixed given inside bits →
        inside p ≡ true → bits p ≡ values_with n fixed given p }
    ensures window { (n : Net) (w : Window) (f g : ℕ → Bool) (p : ℕ) → IsNet n → Belongs n w →
        ((q : ℕ) → among w.inputs q ≡ true → f q ≡ g q) → among w.gates p ≡ true →
        values_with n (among w.inputs) f p ≡ values_with n (among w.inputs) g p }
{}

/// The nodes of a net have exactly one list of leaves, and under every assignment of the sources the bits of
/// the nodes are a care row. So are the bits of a window's inputs.
pub fn real_rows_are_care_rows()
    ensures leaves { (n : Net) (nodes : List ℕ) → IsNet n → AreBelow (end_of n) nodes → (leaves : List ℕ) ×
        ExpandsTo n nodes leaves }
    ensures one { (n : Net) (nodes a b : List ℕ) → ExpandsTo n nodes a → ExpandsTo n nodes b → a ≡ b }
    ensures values { (n : Net) (fixed given : ℕ → Bool) (p : ℕ) → IsNet n →
        values_with n fixed (value n given) p ≡ value n given p }
    ensures rows { (n : Net) (nodes : List ℕ) (given : ℕ → Bool) (t : ℕ) → IsNet n → AreBelow (end_of n) nodes →
        HasRow (value n given) nodes t → IsCareRow n nodes t }
    ensures window { (n : Net) (w : Window) (given : ℕ → Bool) → IsNet n → Belongs n w →
        (t : ℕ) × (t < 2 ^ length w.inputs) × HasRow (value n given) w.inputs t × IsCareRow n w.inputs t }
{}

/// Care rows are found by evaluating the fanin cone by itself: a row that occurs in this part of the net
/// under some bits of the leaves is a care row, and each care row occurs under some bits of the leaves.
pub fn care_rows_are_shown()
    ensures shown { (n : Net) (nodes leaves : List ℕ) (given inside bits : ℕ → Bool) (t : ℕ) → IsNet n →
        ExpandsTo n nodes leaves →
        IsEvaluatedPart n (among leaves) given inside bits → AreInside inside nodes → HasRow bits nodes t →
        IsCareRow n nodes t }
    ensures found { (n : Net) (nodes leaves : List ℕ) (inside bits : ℕ → Bool) (t : ℕ) (care : IsCareRow n nodes t) →
        IsNet n →
        ExpandsTo n nodes leaves → IsEvaluatedPart n (among leaves) care.given inside bits → AreInside inside nodes →
        HasRow bits nodes t }
{}

/// The same chains implement all specifications of a window. So if no chain of fewer steps implements one of
/// them, none implements the others.
pub fn specifications_are_one()
    ensures chains { (n : Net) (w : Window) (s z : Specification) (basis : Basis) (r : ℕ) → IsSpecificationOf n w s →
        IsSpecificationOf n w z → HasChain s basis r → HasChain z basis r }
    ensures none { (n : Net) (w : Window) (s : Specification) (basis : Basis) (count q : ℕ) →
        HasNoFewer n basis w count →
        IsSpecificationOf n w s → q < count → HasChain s basis q → ⊥ }
{}

/// A chain can be substituted for any window that belongs to a net, if the result has fewer than 2^31 nodes.
/// Where it implements the window's specification, the sinks keep their values, and where it also has no more
/// steps than the window has gates, the new net implements the old one.
pub fn chains_take_places()
    ensures some { (n : Net) (w : Window) (c : Chain) → IsNet n → Belongs n w → Fits w c →
        n.sources + length n.gates + length c.steps < 2 ^ 31 + length w.gates → (m : Net) × IsSubstitution n w c m }
    ensures values { (n m : Net) (w : Window) (s : Specification) (c : Chain) (given : ℕ → Bool) → IsNet n →
        Belongs n w →
        IsChain c → IsSpecificationOf n w s → Agrees c s → IsSubstitution n w c m →
        sink_values m given ≡ sink_values n given }
    ensures implements { (n m : Net) (w : Window) (s : Specification) (c : Chain) → IsNet n → Belongs n w →
        IsChain c →
        IsSpecificationOf n w s → Agrees c s → IsSubstitution n w c m → length c.steps ≤ length w.gates →
        Implements n m }
{}
