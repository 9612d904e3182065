//! Commands that have what memory they take.

ghost use Rattle.std.specs.Prelude.{◌≡◌, IfOk};
ghost use Rattle.il_model.specs.declared.command.Command.TheVariants.{Change};
ghost use Rattle.ctl_debugger.specs.Prepared.{IsReady, IsWhole, prepared_as};

use ctl_scan::{Breakpoints, ScanCycle};
use il_loader::{Image, LoadError, load};
use il_model::Command;
use std::alloc::{AllocError, Global};
use std::marker::Model;

/// What a change of the program brings: the image, a scan cycle for it, whatever that holds, and no breakpoint.
#[derive(Drop)]
pub(crate) struct Fresh {
    pub image: Image,
    pub cycle: ScanCycle,
    pub breaks: Breakpoints,
}

#[derive(Drop)]
pub(crate) enum Kind {
    Given(Command),
    /// A change to bytes that are no image.
    NoImage,
    Change(Fresh),
}

/// A command that has what memory it takes.
#[derive(Drop)]
pub struct Ready {
    pub(crate) kind: Kind,
}

impl Model for Ready {
    ghost use Rattle.ctl_debugger.specs.Prepared.{Prepared, prepared_as, IsWhole};

    ghost Value = { Prepared };

    ghost view = { λ r. prepared_as r.kind };

    ghost invariant = { λ r. IsWhole r.kind };
}

/// A change to what these bytes are.
fn changed(alloc: Global, bytes: &[u8]) -> Result<Kind, AllocError>
    ensures whole { IfOk result IsWhole }
    ensures ready { IfOk result (λ kind. IsReady (Change bytes.now) (prepared_as kind)) }
{
    let image = match load(alloc, bytes) {
        Ok(image) => image,
        Err(LoadError::Memory) => return Err(AllocError),
        Err(LoadError::Fault(_)) => return Ok(Kind::NoImage),
    };
    let cycle = ScanCycle::new(alloc, &image)?;
    let breaks = Breakpoints::none(alloc, image.len())?;
    Ok(Kind::Change(Fresh {
        image,
        cycle,
        breaks,
    }))
}

/// Takes what memory a command takes. It looks at the command alone, and fails only where memory runs out.
pub fn prepare(alloc: Global, command: &Command) -> Result<Ready, AllocError>
    ensures { IfOk result (λ r. IsReady command.now r) }
{
    match command {
        Command::Change(bytes) => Ok(Ready {
            kind: changed(alloc, bytes.as_slice())?,
        }),
        _ => Ok(Ready {
            kind: Kind::Given(command.copy(alloc)?),
        }),
    }
}
