//! What a caller of the library can rely on. Each law is the contract of a function with an empty body.
ghost use Rattle.std.specs.Prelude.{◌≡◌, ℕ, ◌<◌, ◌≤◌, List, length};
ghost use Rattle.text_core.specs.Items.{items_of};
ghost use Rattle.net_theory.specs.Limits.{most_of_netlist};
ghost use Rattle.command_line.specs.declared.command.Command.{Command};
ghost use Rattle.command_line.specs.declared.command.Command.TheVariants.{Equiv};
ghost use Rattle.command_line.specs.CommandLine.{AsksFor};
ghost use Rattle.frame_core.specs.Reported.{too_long_refusal};
ghost use Rattle.frame_core.specs.Task.{IsBeyond, IsAnswerable};
ghost use Rattle.cmd_equiv.specs.WithReport.{WithFault, MeetsWithFault, with_refusal, with_task};
ghost use Rattle.chain_app.specs.Tasks.{task_of};
ghost use Rattle.chain_app.specs.KeepsPromises.{KeepsPromises};
ghost use Rattle.chain_app.specs.Pair.{KeepsPair, first_too_long, no_comparison};
ghost use Rattle.batsokemi_c.specs.Called.{HasLackedRoom, IsAnswered, IsPairAnswered};
ghost use Rattle.batsokemi_c.specs.Answering.{HasSteadyRun, HasSteadyPair, Asks, AsksToCompare};
ghost use Rattle.batsokemi_c.specs.Answering.{AnswersWith, AreRefusal, AreErrorLine, TellsMemory, usage_refusal};

/// No call ends with status 5: reading the caller's bytes can't fail.
pub fn calls_never_fail_to_read()
    ensures { (c i o o' n n' : List ℕ) (s ol nl : ℕ) → IsAnswered c i o o' n n' s ol nl → s ≡ 5 → ⊥ }
{}

/// Status 6 means that a call of a sink in memory failed, which happens where memory for the output or for the notes
/// couldn't be had.
pub fn write_faults_lack_room()
    ensures { (c i o o' n n' : List ℕ) (s ol nl : ℕ) (a : IsAnswered c i o o' n n' s ol nl) →
        s ≡ 6 → HasLackedRoom KeepsPromises c i a.out a.note a.ended }
{}

/// With enough memory, so with any status but 6 and 7, no call failed at all, and each clause of the program's promises
/// applies to the run.
pub fn calls_have_steady_runs()
    ensures { (c i o o' n n' : List ℕ) (s ol nl : ℕ) (a : IsAnswered c i o o' n n' s ol nl) →
        (s ≡ 6 → ⊥) → (s ≡ 7 → ⊥) → HasSteadyRun c i a.out a.note a.ended }
{}

/// With enough memory an input without a fault gets its answer: the output and the notes are those of a reply to it.
pub fn calls_answer()
    ensures { (c i o o' n n' : List ℕ) (s ol nl : ℕ) (asked : Command) (bytes : List ℕ)
        (a : IsAnswered c i o o' n n' s ol nl) → Asks c i asked bytes → IsAnswerable (task_of asked) bytes →
        (s ≡ 6 → ⊥) → (s ≡ 7 → ⊥) → AnswersWith (task_of asked) bytes a.out a.note s }
{}

/// With enough memory an input with a fault is refused, and so are an input that is too long and words that aren't a
/// command: the notes are the error line, and the output is empty.
pub fn calls_refuse()
    ensures faults { (c i o o' n n' : List ℕ) (s ol nl : ℕ) (asked : Command) (bytes : List ℕ)
        (fault : (task_of asked).Fault) (a : IsAnswered c i o o' n n' s ol nl) → Asks c i asked bytes →
        (task_of asked).Meets bytes fault → (s ≡ 6 → ⊥) → (s ≡ 7 → ⊥) →
        AreRefusal a.out a.note s ((task_of asked).refusal fault) }
    ensures long { (c i o o' n n' : List ℕ) (s ol nl : ℕ) (asked : Command) (bytes : List ℕ)
        (a : IsAnswered c i o o' n n' s ol nl) → Asks c i asked bytes → IsBeyond (task_of asked).reads bytes →
        (s ≡ 6 → ⊥) → (s ≡ 7 → ⊥) → AreRefusal a.out a.note s too_long_refusal }
    ensures usage { (c i o o' n n' : List ℕ) (s ol nl : ℕ) (a : IsAnswered c i o o' n n' s ol nl) →
        ((asked : Command) → AsksFor (items_of c) asked → ⊥) →
        (s ≡ 6 → ⊥) → (s ≡ 7 → ⊥) → AreRefusal a.out a.note s usage_refusal }
{}

/// With the statuses 1, 2 and 3 the output is empty, and the notes are an error line.
pub fn error_lines_stand()
    ensures { (c i o o' n n' : List ℕ) (s ol nl : ℕ) (a : IsAnswered c i o o' n n' s ol nl) →
        0 < s → s < 4 → AreErrorLine a.out a.note }
{}

/// With status 7 the notes are the error line of memory; or, where not even the words had room, nothing was written.
pub fn memory_lines_stand()
    ensures { (c i o o' n n' : List ℕ) (s ol nl : ℕ) (a : IsAnswered c i o o' n n' s ol nl) →
        s ≡ 7 → TellsMemory a.out a.note }
{}

// ---- two texts

/// No comparison of two texts ends with status 5.
pub fn pairs_never_fail_to_read()
    ensures { (c f i o o' n n' : List ℕ) (s ol nl : ℕ) → IsPairAnswered c f i o o' n n' s ol nl → s ≡ 5 → ⊥ }
{}

/// Status 6 of a comparison means that a call of a sink in memory failed.
pub fn pair_write_faults_lack_room()
    ensures { (c f i o o' n n' : List ℕ) (s ol nl : ℕ) (a : IsPairAnswered c f i o o' n n' s ol nl) →
        s ≡ 6 → HasLackedRoom (KeepsPair f) c i a.out a.note a.ended }
{}

/// With enough memory no call failed at all in a comparison of two texts, and each clause of its promise applies.
pub fn pairs_have_steady_runs()
    ensures { (c f i o o' n n' : List ℕ) (s ol nl : ℕ) (a : IsPairAnswered c f i o o' n n' s ol nl) →
        (s ≡ 6 → ⊥) → (s ≡ 7 → ⊥) → HasSteadyPair c f i a.out a.note a.ended }
{}

/// With enough memory two texts without a fault get their answer, which is a reply to these two.
pub fn pairs_answer()
    ensures { (c f i o o' n n' : List ℕ) (s ol nl budget : ℕ) (a : IsPairAnswered c f i o o' n n' s ol nl) →
        AsksToCompare c budget → length f ≤ most_of_netlist → IsAnswerable (with_task budget f) i →
        (s ≡ 6 → ⊥) → (s ≡ 7 → ⊥) → AnswersWith (with_task budget f) i a.out a.note s }
{}

/// With enough memory two texts with a fault are refused, and so are a text that is too long, be it the first or the
/// second, and words that ask for no comparison: the notes are the error line, and the output is empty.
pub fn pairs_refuse()
    ensures faults { (c f i o o' n n' : List ℕ) (s ol nl budget : ℕ) (fault : WithFault)
        (a : IsPairAnswered c f i o o' n n' s ol nl) → AsksToCompare c budget → length f ≤ most_of_netlist →
        MeetsWithFault f i fault → (s ≡ 6 → ⊥) → (s ≡ 7 → ⊥) → AreRefusal a.out a.note s (with_refusal fault) }
    ensures long_first { (c f i o o' n n' : List ℕ) (s ol nl budget : ℕ)
        (a : IsPairAnswered c f i o o' n n' s ol nl) → AsksToCompare c budget → most_of_netlist < length f →
        (s ≡ 6 → ⊥) → (s ≡ 7 → ⊥) → AreRefusal a.out a.note s first_too_long }
    ensures long_second { (c f i o o' n n' : List ℕ) (s ol nl budget : ℕ)
        (a : IsPairAnswered c f i o o' n n' s ol nl) → AsksToCompare c budget → length f ≤ most_of_netlist →
        most_of_netlist < length i → (s ≡ 6 → ⊥) → (s ≡ 7 → ⊥) → AreRefusal a.out a.note s too_long_refusal }
    ensures usage { (c f i o o' n n' : List ℕ) (s ol nl : ℕ) (a : IsPairAnswered c f i o o' n n' s ol nl) →
        ((budget : ℕ) → AsksFor (items_of c) (Equiv budget) → ⊥) →
        (s ≡ 6 → ⊥) → (s ≡ 7 → ⊥) → AreRefusal a.out a.note s no_comparison }
{}

/// With the statuses 1, 2 and 3 the output of a comparison is empty, and the notes are an error line.
pub fn pair_error_lines_stand()
    ensures { (c f i o o' n n' : List ℕ) (s ol nl : ℕ) (a : IsPairAnswered c f i o o' n n' s ol nl) →
        0 < s → s < 4 → AreErrorLine a.out a.note }
{}

/// With status 7 the notes of a comparison are the error line of memory; or nothing was written.
pub fn pair_memory_lines_stand()
    ensures { (c f i o o' n n' : List ℕ) (s ol nl : ℕ) (a : IsPairAnswered c f i o o' n n' s ol nl) →
        s ≡ 7 → TellsMemory a.out a.note }
{}
