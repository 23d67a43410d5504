//! Consequences of the definitions. Each law is the contract of a function with an empty body.
ghost use Rattle.std.specs.Prelude.{◌≡◌, ◌↔◌, ◌≤◌, true, ℕ, List, [], ◌∷◌, codes};
ghost use Rattle.std.specs.List.Sorted.{IsPermutation};
ghost use Rattle.settings.specs.declared.methods.Method.TheVariants.{Fence};
ghost use Rattle.settings.specs.declared.methods.MethodChoice.TheVariants.{Named};
ghost use Rattle.settings.specs.declared.synth.SynthSettings.{SynthSettings};
ghost use Rattle.settings.specs.declared.improve.ImproveSettings.{ImproveSettings};
ghost use Rattle.settings.specs.Synth.{defaults, IsInRange};
ghost use Rattle.settings.specs.Improve as improver;
ghost use Rattle.command_line.specs.declared.command.Format.{Format};
ghost use Rattle.command_line.specs.declared.command.Format.TheVariants.{Blif, Bench};
ghost use Rattle.command_line.specs.declared.command.GenAction.{GenAction};
ghost use Rattle.command_line.specs.declared.command.Command.{Command};
ghost use Rattle.command_line.specs.declared.command.Command.TheVariants.{Synth, LeastDepth, Improve, Equiv, Gen};
ghost use Rattle.command_line.specs.CommandLine.{AsksFor, IsBudget, IsAsked, defaults_for};
ghost use Rattle.command_line.specs.Options.{is_within};
ghost use Rattle.settings.specs.Limits.{most_blocks};
ghost use Rattle.command_line.specs.Spelling.{OptionPair, flat, SpellsOptions};
ghost use Rattle.command_line.specs.WithinLaws.{AreWithin};

/// Words ask for a command if and only if they are its name and then pairs of an option's name and a value: the
/// command takes each option, and no option occurs twice. An option that is named has the value that its word
/// spells, and any other option has its default.
pub fn words_are_a_name_and_pairs()
    ensures { (words : List (List ℕ)) (command : Command) → AsksFor words command ↔ SpellsOptions words command }
{}

/// The order of the pairs doesn't matter.
pub fn order_of_options_is_free()
    ensures { (name : List ℕ) (pairs other : List OptionPair) (command : Command) → IsPermutation pairs other →
        AsksFor (name ∷ flat pairs) command → AsksFor (name ∷ flat other) command }
{}

/// The settings of `synth` and `improve` are in their ranges, and so are the budget of `equiv` and the number of
/// blocks of `gen`. The basis of `improve` fits the format. The method of the search for the fewest levels is
/// always `fence`.
pub fn settings_are_in_range()
    ensures synth { (words : List (List ℕ)) (settings : SynthSettings) → AsksFor words (Synth settings) →
        IsInRange settings }
    ensures least_depth { (words : List (List ℕ)) (settings : SynthSettings) → AsksFor words (LeastDepth settings) →
        IsInRange settings × (settings.method ≡ Named Fence) }
    ensures improve { (words : List (List ℕ)) (format : Format) (settings : ImproveSettings) →
        AsksFor words (Improve format settings) → IsAsked format settings }
    ensures equiv { (words : List (List ℕ)) (budget : ℕ) → AsksFor words (Equiv budget) → IsBudget budget }
    ensures blocks { (words : List (List ℕ)) (blocks : ℕ) (action : GenAction) → AsksFor words (Gen blocks action) →
        (1 ≤ blocks) × (blocks ≤ most_blocks) }
{}

/// Without options `synth` and `improve` have their default settings, and so has `improve` with only a format.
pub fn names_alone_ask_for_the_defaults()
    ensures synth { AsksFor (codes "synth" ∷ []) (Synth defaults) }
    ensures improve { AsksFor (codes "improve" ∷ []) (Improve Blif improver.defaults) }
    ensures bench { AsksFor (codes "improve" ∷ codes "--format" ∷ codes "bench" ∷ [])
        (Improve Bench (defaults_for Bench)) }
{}

/// A basis is a subset of another if and only if each of its operators is one of the other.
pub fn bases_within_have_their_operators()
    ensures { (set all : ℕ) → (is_within set all ≡ true) ↔ AreWithin set all }
{}
