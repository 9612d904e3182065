//! What a text means is one thing. There is no code here: the function's clauses state a law, and its empty body is
//! proved to meet them.

ghost use Rattle.std.specs.Prelude.{◌≡◌, ◌⊎◌, ℕ, List};
ghost use Rattle.il_model.specs.Program.{Program};
ghost use Rattle.il_text.specs.declared.fault.Fault.{Fault};
ghost use Rattle.il_text.specs.Meaning.{IsTypedProgramOfText, IsTextFault, IsGoodText};

/// A text says one typed program, or it has one fault, and never both. So what is answered of it is one thing, unless
/// memory runs out.
pub fn a_text_means_one_thing()
    ensures program { (text : List ℕ) (P Q : Program)
        → IsTypedProgramOfText text P → IsTypedProgramOfText text Q → P ≡ Q }
    ensures fault { (text : List ℕ) (f g : Fault) → IsTextFault text f → IsTextFault text g → f ≡ g }
    ensures one_of_both { (text : List ℕ) → IsGoodText text ⊎ ((f : Fault) × IsTextFault text f) }
    ensures never_both { (text : List ℕ) (P : Program) (f : Fault)
        → IsTypedProgramOfText text P → IsTextFault text f → ⊥ }
{}
