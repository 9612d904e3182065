//! Laws of images.

ghost use Rattle.std.specs.Prelude.{◌≡◌, ℕ, List, Ok};
ghost use Rattle.il_model.specs.Program.{Program};
ghost use Rattle.il_model.specs.Fits.{IsImage};
ghost use Rattle.il_loader.specs.Images.{IsWellFormed, Reading, AreBytes, ReadsImages};
ghost use Rattle.il_loader.specs.Judging.{image_of};

/// The programs that have an image, in that each part reads back from its code, are the well-formed ones.
pub fn know_well_formed()
    ensures image { (Q : Program) → IsWellFormed Q → IsImage Q }
    ensures well_formed { (Q : Program) → IsImage Q → IsWellFormed Q }
{}

/// To read bytes from left to right, as `load` does, is to read images: each program from its own, and none from other
/// bytes. Whatever reads images reads the same of bytes.
pub fn know_reading()
    ensures reads { ReadsImages image_of }
    ensures one { (reading other : Reading) → ReadsImages reading → ReadsImages other
        → (bytes : List ℕ) (Q : Program) → AreBytes bytes → reading bytes ≡ Ok Q → other bytes ≡ Ok Q }
{}
