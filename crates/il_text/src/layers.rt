//! The printed fault of each layer's error.

ghost use Rattle.std.specs.Prelude.{◌≡◌};
ghost use Rattle.il_text.specs.Telling.{of_read, of_declaration, of_assembly, of_load};

use crate::fault::Fault;
use il_assembler::AsmError;
use il_declarations::DeclError;
use il_loader::{LoadError, LoadFault};
use il_reader::ReadError;

impl From<ReadError> for Fault {
    ghost from_gives = { λ error fault. fault ≡ of_read error };

    fn from(error: ReadError) -> Fault {
        match error {
            ReadError::Fault(fault) => Fault::Read {
                number: fault.kind.number(),
                line: fault.place.line,
                column: fault.place.column,
            },
            ReadError::Memory => Fault::Memory,
        }
    }
}

impl From<DeclError> for Fault {
    ghost from_gives = { λ error fault. fault ≡ of_declaration error };

    fn from(error: DeclError) -> Fault {
        match error {
            DeclError::Fault(fault) => Fault::Declaration {
                number: fault.kind.number(),
                line: fault.place.line,
                column: fault.place.column,
            },
            DeclError::Memory => Fault::Memory,
        }
    }
}

impl From<AsmError> for Fault {
    ghost from_gives = { λ error fault. fault ≡ of_assembly error };

    fn from(error: AsmError) -> Fault {
        match error {
            AsmError::Fault { fault, instruction } => Fault::Assembly {
                number: fault.number(),
                instruction,
            },
            AsmError::Memory => Fault::Memory,
        }
    }
}

impl From<LoadError> for Fault {
    ghost from_gives = { λ error fault. fault ≡ of_load error };

    fn from(error: LoadError) -> Fault {
        let number = error.number();
        match error {
            LoadError::Fault(
                LoadFault::BadWord { position }
                | LoadFault::BadType { position }
                | LoadFault::BadTarget { position },
            ) => Fault::LoadAt { number, position },
            LoadError::Fault(_) => Fault::Load { number },
            LoadError::Memory => Fault::Memory,
        }
    }
}
