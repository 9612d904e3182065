//! What an assembler gives is one thing. There is no code here: the function's clauses state a law, and its empty body
//! is proved to meet them.

ghost use Rattle.std.specs.Prelude.{◌≡◌, ◌⊎◌, ℕ};
ghost use Rattle.il_model.specs.Program.{Program};
ghost use Rattle.il_model.specs.declared.typing.TypeFault.{TypeFault};
ghost use Rattle.il_model.specs.Settled.{IsTypedProgramOf};
ghost use Rattle.il_assembler.specs.Assembled.{IsFirstFault};

/// A program has one typed program, or it has one first fault, and never both. So what `assemble` answers is one thing,
/// unless memory runs out.
pub fn a_program_is_typed_or_refused()
    ensures one_of_both { (P : Program)
        → ((Q : Program) × IsTypedProgramOf P Q) ⊎ ((n : ℕ) × (f : TypeFault) × IsFirstFault P n f) }
    ensures never_both { (P Q : Program) (n : ℕ) (f : TypeFault) → IsTypedProgramOf P Q → IsFirstFault P n f → ⊥ }
    ensures typed { (P Q R : Program) → IsTypedProgramOf P Q → IsTypedProgramOf P R → Q ≡ R }
    ensures fault { (P : Program) (m n : ℕ) (f g : TypeFault)
        → IsFirstFault P m f → IsFirstFault P n g → (m ≡ n) × (f ≡ g) }
{}
