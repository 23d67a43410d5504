//! The theorems about depth certificates, each as the contract of a function that does nothing.
ghost use Rattle.std.specs.Prelude.{◌≡◌, ℕ, ◌<◌, List, length, Contains, Ok};
ghost use Rattle.text_core.specs.Lines.{lines_of};
ghost use Rattle.tt_core.specs.Words.{Words, specification};
ghost use Rattle.op_basis.specs.Basis.{members};
ghost use Rattle.depth_theory.specs.declared.data.DepthVerdict.{DepthVerdict};
ghost use Rattle.depth_theory.specs.Flatter.{fences_for, flatter};
ghost use Rattle.depth_theory.specs.FlatterLaws.{AreRising};
ghost use Rattle.depth_theory.specs.DepthCertificate.{DepthCertificate, IsDepth};
ghost use Rattle.depth_theory.specs.DepthMeaning.{Means};
ghost use Rattle.depth_theory.specs.DepthSpelling.{IsDepthText, HasDepth};
ghost use Rattle.depth_theory.specs.DepthJudging.{Answer, IsJudged};

/// The fences to refute are exactly the listed ones with fewer levels, and those with fewer levels come first.
pub fn flatter_fences_are_listed_by_levels()
    ensures each { (w : Words) (r d : ℕ) (f : List ℕ) → Contains (fences_for w r) f → length f < d →
        Contains (flatter w r d) f }
    ensures only { (w : Words) (r d : ℕ) (f : List ℕ) → Contains (flatter w r d) f → Contains (fences_for w r) f ×
        (length f < d) }
    ensures rising { (w : Words) (r d : ℕ) → AreRising (flatter w r d) }
{}

/// The verdict of a depth certificate is true, whoever made it.
pub fn depths_are_true()
    ensures { (b : DepthCertificate) (is : IsDepth b) →
        Means (specification b.certificate.header.spec) (members b.certificate.header.basis)
        (length is.chain.steps) b.verdict }
{}

/// Bytes are judged to have a verdict exactly if they are the text of a depth certificate with that verdict.
pub fn depths_are_spelled()
    ensures only { (bytes : List ℕ) (v : DepthVerdict) → IsJudged (lines_of bytes) (Ok v) → HasDepth bytes v }
    ensures each { (bytes : List ℕ) (b : DepthCertificate) (answer : Answer) → IsDepthText bytes b →
        IsJudged (lines_of bytes) answer → answer ≡ Ok b.verdict }
{}
