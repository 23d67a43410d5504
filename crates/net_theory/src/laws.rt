//! Theorems about the definitions. Each is the contract of a function with an empty body.
ghost use Rattle.std.specs.Prelude.{◌≡◌, ℕ, ◌+◌, ◌-◌, ◌≤◌, ◌<◌, ◌^◌, ◌↔◌, Bool, true, map, length, slice_get, Some};
ghost use Rattle.std.specs.Prelude.{List};
ghost use Rattle.std.specs.List.{list_any, list_all};
ghost use Rattle.net_theory.specs.declared.data.Gate.{Gate};
ghost use Rattle.net_theory.specs.declared.data.Sig.{Sig};
ghost use Rattle.net_theory.specs.declared.data.Sig.TheVariants.{Node};
ghost use Rattle.net_theory.specs.Net.{Net, IsNet, AreGates, value, gate_value, sig_value, values_of};
ghost use Rattle.net_theory.specs.Cover.{Cover, IsCover, is_odd, cover_value};
ghost use Rattle.net_theory.specs.Document.{Document, are_distinct, table_output};
ghost use Rattle.net_theory.specs.Dependence.{IsAcyclic};
ghost use Rattle.net_theory.specs.Expansion.{expanded};
ghost use Rattle.net_theory.specs.Cost.{cover_cost, wide_cost};
ghost use Rattle.net_theory.specs.Whole.{and_cover, or_cover, xor_cover, itself, value_where};
ghost use Rattle.net_theory.specs.BuiltLaws.{IsBuilt};
ghost use Rattle.net_theory.specs.WideLaws.{AreSigsBelow};
ghost use Rattle.graph_core.specs.Visit.{order_of};
ghost use Rattle.net_theory.specs.NetOf.{graph_of, source_count};
ghost use Rattle.net_theory.specs.WellFormed.{IsWellFormed};
ghost use Rattle.net_theory.specs.Circuit.{Circuit, IsProper, Describes, IsCircuitOf};
ghost use Rattle.net_theory.specs.Reach.{IsReachedFrom, is_sink, reach};
ghost use Rattle.net_theory.specs.Implements.{Implements, IsCleanedUp};
ghost use Rattle.net_theory.specs.Dangling.{cleanup};
ghost use Rattle.net_theory.specs.Operators.{HasOperator};
ghost use Rattle.net_theory.specs.ExchangeLaws.{with_net};
ghost use Rattle.net_theory.specs.Limits.{most_gates};

/// The value of a source is the bit given to it; the value of a gate is its operator applied to the
/// values of its operands.
pub fn values_of_nodes()
    ensures source { (n : Net) (given : ℕ → Bool) (p : ℕ) → p ≤ n.sources → value n given p ≡ given p }
    ensures gate { (n : Net) (given : ℕ → Bool) (i : ℕ) (g : Gate) → IsNet n → slice_get n.gates i ≡ Some g →
        value n given (n.sources + 1 + i) ≡ gate_value (value n given) g }
{}

/// Decomposing a cover appends as many gates as the cover costs and changes no earlier gate. The
/// returned signal has the cover's value at the values of the inputs.
pub fn covers_become_gates()
    ensures { (sources : ℕ) (gates : List Gate) (c : Cover) (inputs : List Sig) → AreGates sources gates →
        AreSigsBelow (sources + 1 + length gates) inputs → IsCover c → c.width ≡ length inputs →
        IsBuilt sources gates (cover_cost c inputs) (λ given.
        cover_value c (map (sig_value (values_of given sources gates)) inputs)) (expanded sources gates c inputs) }
{}

/// The covers for AND, OR and XOR of all inputs, and for their complements, compute these functions. Each
/// of them with n > 2 inputs is decomposed into n - 1 gates.
pub fn whole_covers_join_their_inputs()
    ensures and { (on : Bool) (bits : List Bool) → cover_value (and_cover (length bits) on) bits ≡
        value_where on (list_all itself bits) }
    ensures or { (on : Bool) (bits : List Bool) → 0 < length bits → cover_value (or_cover (length bits) on) bits ≡
        value_where on (list_any itself bits) }
    ensures xor { (on : Bool) (bits : List Bool) → cover_value (xor_cover (length bits) on) bits ≡
        value_where on (is_odd bits) }
    ensures cost { (width : ℕ) (on : Bool) → 2 ≤ width → (wide_cost (and_cover width on) ≡ width - 1) ×
        (wide_cost (or_cover width on) ≡ width - 1) × (wide_cost (xor_cover width on) ≡ width - 1) }
{}

/// If no table depends on itself, the tables have a topological order. The converse holds if no two tables
/// drive the same name.
pub fn tables_have_an_order()
    ensures some { (d : Document) → IsAcyclic d → (order : List ℕ) × (order_of (graph_of d.tables) ≡ Some order) }
    ensures only { (d : Document) (order : List ℕ) → are_distinct (map table_output d.tables) ≡ true →
        order_of (graph_of d.tables) ≡ Some order → IsAcyclic d }
{}

/// Every well-formed document has a circuit. The circuit can be written, its net is the document's, and
/// under every assignment its sinks have the values that the document's tables determine. The bound on
/// the sources keeps the net below 2^31 nodes.
pub fn documents_have_circuits()
    ensures { (d : Document) → IsWellFormed d → source_count d + most_gates < 2 ^ 31 → (c : Circuit) ×
        IsCircuitOf d c }
{}

/// The marks computed by `reach` are exactly the transitive fanin of the roots; `is_sink` has the nodes of the
/// sinks.
pub fn marks_are_what_is_reached()
    ensures marks { (n : Net) (roots : ℕ → Bool) (p : ℕ) → IsNet n →
        ((reach n roots p ≡ true) ↔ IsReachedFrom n roots p) }
    ensures sinks { (n : Net) (p : ℕ) → ((is_sink n p ≡ true) ↔ ((i : ℕ) × (slice_get n.sinks i ≡ Some (Node p)))) }
{}

/// Removing the dangling gates keeps the values of all sinks and leaves no dangling gate. Each remaining
/// gate has the operator of a gate of the old net.
pub fn dangling_gates_can_be_removed()
    ensures left { (n : Net) → IsNet n → IsCleanedUp n (cleanup n) }
    ensures operators { (n : Net) (op : ℕ) → IsNet n → HasOperator (cleanup n) op → HasOperator n op }
{}

/// A circuit's net can be replaced by one that implements it: the circuit can still be written, each
/// document that described it still does, and `Implements` is transitive.
pub fn nets_can_be_exchanged()
    ensures proper { (c : Circuit) (m : Net) → IsProper c → Implements c.net m → IsProper (with_net c m) }
    ensures describes { (d : Document) (c : Circuit) (m : Net) → Implements c.net m → Describes d c →
        Describes d (with_net c m) }
    ensures again { (a b c : Net) → Implements a b → Implements b c → Implements a c }
{}
