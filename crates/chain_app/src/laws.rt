//! Consequences of the definitions. Each law is the contract of a function with an empty body.
ghost use Rattle.std.specs.Prelude.{◌≡◌, ℕ, List};
ghost use Rattle.settings.specs.declared.improve.ImproveSettings.{ImproveSettings};
ghost use Rattle.settings.specs.declared.synth.SynthSettings.{SynthSettings};
ghost use Rattle.command_line.specs.declared.command.Command.{Command};
ghost use Rattle.command_line.specs.declared.command.Command.TheVariants.{Agree, Recheck, RecheckDepth, Synth};
ghost use Rattle.command_line.specs.declared.command.Command.TheVariants.{LeastDepth, Improve, Equiv, Gen};
ghost use Rattle.command_line.specs.declared.command.GenAction.{GenAction};
ghost use Rattle.command_line.specs.CommandLine.{AsksFor};
ghost use Rattle.frame_core.specs.declared.status.Status.TheVariants.{Done};
ghost use Rattle.frame_core.specs.Run.{Run, HasInput};
ghost use Rattle.frame_core.specs.Promise.{AllSteady};
ghost use Rattle.frame_core.specs.Task.{IsAnswerable, IsAnswerStatus, IsTask};
ghost use Rattle.cmd_lines.specs.Answering.{AsksWell, MustAnswer};
ghost use Rattle.cmd_agree.specs.Obligations.{HasQuestion, IsAgreeStatus};
ghost use Rattle.cmd_recheck.specs.Obligations.{IsValid, IsValidDepth};
ghost use Rattle.cmd_synth.specs.Obligations.{HasTables, IsSynthStatus};
ghost use Rattle.cmd_improve.specs.ImproveReport.{FormatAsked};
ghost use Rattle.cmd_improve.specs.Obligations.{IsImprovable};
ghost use Rattle.cmd_equiv.specs.Obligations.{CanBeCompared};
ghost use Rattle.chain_app.specs.KeepsPromises.{KeepsPromises};
ghost use Rattle.chain_app.specs.Tasks.{task_of};

/// The task of every command is well formed: an input has answers or at most one refusal, never both, and
/// neither if it is too long.
pub fn tasks_are_well_formed()
    ensures { (command : Command) → IsTask (task_of command) }
{}

/// Commands have to answer: if no call failed, no read and no write, and memory didn't run out, a run that keeps
/// its promises has the status of an answer, not of an error, for each input that has an answer: `agree` for
/// tables and a chain, `recheck` for a valid certificate of either kind, `synth` for tables, `improve` for a
/// netlist, `equiv` for two netlists with the same interface, and `gen` always.
pub fn inputs_get_answers()
    ensures agree { (r : Run) → KeepsPromises r → MustAnswer (AsksWell Agree HasQuestion) IsAgreeStatus r }
    ensures recheck { (r : Run) → KeepsPromises r → MustAnswer (AsksWell Recheck IsValid) (λ s. s ≡ Done) r }
    ensures recheck_depth { (r : Run) → KeepsPromises r →
        MustAnswer (AsksWell RecheckDepth IsValidDepth) (λ s. s ≡ Done) r }
    ensures synth { (r : Run) (asked : SynthSettings) → KeepsPromises r →
        MustAnswer (AsksWell (Synth asked) HasTables) IsSynthStatus r }
    ensures least_depth { (r : Run) (asked : SynthSettings) → KeepsPromises r →
        MustAnswer (AsksWell (LeastDepth asked) HasTables) IsSynthStatus r }
    ensures improve { (r : Run) (format : FormatAsked) (asked : ImproveSettings) → KeepsPromises r →
        MustAnswer (AsksWell (Improve format asked) (IsImprovable format)) (λ s. s ≡ Done) r }
    ensures equiv { (r : Run) (budget : ℕ) → KeepsPromises r →
        MustAnswer (AsksWell (Equiv budget) CanBeCompared) IsAnswerStatus r }
    ensures generated { (r : Run) (blocks : ℕ) (action : GenAction) → KeepsPromises r →
        MustAnswer (λ x. AsksFor x.words (Gen blocks action)) (λ s. s ≡ Done) r }
    // The same for every command and every input without a fault.
    ensures each { (r : Run) (command : Command) (input : List ℕ) → KeepsPromises r →
        AsksFor r.words command →
        HasInput (task_of command).reads r.source.bytes input →
        IsAnswerable (task_of command) input →
        AllSteady r → IsAnswerStatus r.status }
{}
