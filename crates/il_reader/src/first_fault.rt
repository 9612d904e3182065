//! What a text says and where its fault stands, by the grammar alone. There is no code here: the functions' clauses
//! state laws, and their empty bodies are proved to meet them.

ghost use Rattle.std.specs.Prelude.{◌≡◌, ◌⊎◌, ℕ, List};
ghost use Rattle.il_reader.specs.declared.fault.Fault.{Fault};
ghost use Rattle.il_reader.specs.Texts.{SourceText, Reads};
ghost use Rattle.il_reader.specs.FirstFault.{IsFaultOf, WorkedFaults};

/// Each text says one thing, or it has one fault, and never both. So what `read` answers is one thing, unless memory
/// runs out.
pub fn a_text_is_read_or_refused()
    ensures one_of_both { (bytes : List ℕ)
        → ((s : SourceText) × Reads bytes s) ⊎ ((g : Fault) × IsFaultOf bytes g) }
    ensures never_both { (bytes : List ℕ) (s : SourceText) (g : Fault) → Reads bytes s → IsFaultOf bytes g → ⊥ }
    ensures source { (bytes : List ℕ) (s r : SourceText) → Reads bytes s → Reads bytes r → s ≡ r }
    ensures fault { (bytes : List ℕ) (f g : Fault) → IsFaultOf bytes f → IsFaultOf bytes g → f ≡ g }
{}

/// What the definitions give for worked texts.
pub fn worked_faults()
    ensures { WorkedFaults }
{}
