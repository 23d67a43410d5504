//! Laws that follow from the definitions alone. Each law is the contract of a function that does nothing; the
//! theorems about certificates are in `cert_laws`.
ghost use Rattle.std.specs.Prelude.{ℕ, ◌≤◌, ◌<◌, List, [], ◌∷◌, ◌++◌, length};
ghost use Rattle.cert_theory.specs.declared.data.Header.{Header};
ghost use Rattle.cert_theory.specs.Certificate.{Section, Certificate, IsHeader, IsSection};
ghost use Rattle.cert_theory.specs.Spelling.{header_lines, section_lines, text_of, IsCertificateText};
ghost use Rattle.cert_theory.specs.Prefix.{IsBegun, IsPrefix};

/// Prefixes of certificates: the whole text is one, the header is one, and a prefix stays one with the next
/// section appended.
pub fn prefixes_grow()
    ensures whole { (text : List ℕ) (b : Certificate) → IsCertificateText text b → IsPrefix b.header text }
    ensures header { (h : Header) → IsHeader h → 0 < length h.spec.on → IsBegun h [] (text_of (header_lines h)) }
    ensures section { (h : Header) (sections : List Section) (text : List ℕ) (s : Section) → IsBegun h sections text →
        IsSection h (length sections) s → length sections ≤ h.max →
        IsBegun h (sections ++ s ∷ []) (text ++ text_of (section_lines s)) }
{}
