//! What the wish for a basis means for a text that is read again, as the contract of a function that does nothing.
ghost use Rattle.std.specs.Prelude.{◌≡◌, ℕ, true, List};
ghost use Rattle.net_theory.specs.Document.{Name};
ghost use Rattle.net_document.specs.Format.{Format};
ghost use Rattle.settings.specs.declared.improve.ImproveSettings.{ImproveSettings};
ghost use Rattle.wish_names.specs.declared.wishes.Wishes.{Wishes};
ghost use Rattle.improve_wishes.specs.Wished.{IsWished, IsCannotExpress};

/// A text that was written over a basis has no gate that this basis can't express, when it is read again.
pub fn what_is_over_a_basis_is_expressed()
    ensures { (f : Format) (s : ImproveSettings) (w later : Wishes) (bytes text report : List ℕ) (name : Name) →
        w.only ≡ true → IsWished f s w bytes text report → IsCannotExpress f s later text name → ⊥ }
{}
