//! What lies in `left_right`'s two copies: a prefix of the list, and the number that threads share.
ghost use Rattle.std.specs.Prelude.{◌≡◌, ◌++◌, ◌∷◌, [], List, MatchResult};
ghost use Rattle.io_image.specs.declared.release.Release.{Release};
ghost use Rattle.left_right.specs.Handles.{published, pending};

use crate::list::{Front, LastNumber, Naming};
use crate::release::Release;
use left_right::{Absorb, WriteHandle};
use std::alloc::AllocError;
use std::marker::Model;
use std::sync::{Arc, Wait};

/// What shows releases by `left_right`.
pub type SharedPen<J, R> = WriteHandle<Shown<J>, Release, R>;

/// One of the two copies. Contracts see it as its list.
#[derive(Drop)]
pub struct Shown<J: Naming> {
    front: Front<J>,
    last: Arc<LastNumber<J>>,
}

impl<J: Naming> Model for Shown<J> {
    ghost use Rattle.std.specs.Prelude.{List};
    ghost use Rattle.io_image.specs.declared.release.Release.{Release};

    ghost Value = { List Release };

    ghost view = { λ s. s.front };
}

impl<J: Naming> Shown<J> {
    pub(crate) fn new(front: Front<J>, last: Arc<LastNumber<J>>) -> Shown<J>
        ensures { result ≡ front }
    {
        Shown { front, last }
    }

    pub(crate) fn front(&self) -> &Front<J>
        ensures { result.now ≡ self.now }
    {
        &self.front
    }
}

impl<J: Naming> Absorb<Release> for Shown<J> {
    // A clause reads an array as a list, of any length.
    type State = [Release; 0];

    ghost state = { λ s. s };

    ghost applied = { λ releases release. releases ++ release ∷ [] };

    /// The step that makes the list longer.
    fn absorb_first(&mut self, operation: &Release, _other: &Shown<J>) -> Result<(), AllocError> {
        let release = *operation;
        if release.number <= self.front.shown().number {
            return Err(AllocError);
        }
        if self.front.add(&self.last, release) {
            Ok(())
        } else {
            Err(AllocError)
        }
    }

    /// The list is longer already.
    fn absorb_second(&mut self, operation: Release, other: &Shown<J>) -> Result<(), Release> {
        if self.front.is_before(&other.front, &operation) {
            self.front = other.front.again();
            Ok(())
        } else {
            Err(operation)
        }
    }
}

/// What shows releases to readers.
pub trait Pen<J: Naming>: Drop {
    ghost use Rattle.std.specs.Prelude.{◌≡◌, ◌++◌, ◌∷◌, [], List, MatchResult};
    ghost use Rattle.io_image.specs.declared.release.Release.{Release};

    /// The list that readers find.
    ghost releases: { Self → List Release };

    /// Readers find the list with this release from now on, or the same as before.
    fn show(&mut self, release: Release) -> Result<(), AllocError>
        ensures { MatchResult result (λ _. releases self.new ≡ releases self.old ++ release ∷ [])
            (λ _. releases self.new ≡ releases self.old) };

    fn front(&self) -> &Front<J>
        ensures { result.now ≡ releases self.now };
}

impl<J: Naming, R: Wait + Drop> Pen<J> for WriteHandle<Shown<J>, Release, R> {
    ghost releases = { λ w. published w };

    fn show(&mut self, release: Release) -> Result<(), AllocError> {
        // A release that could not be absorbed would stay in the way. None does: only this writer makes the list
        // longer.
        if self.has_pending_operations() || self.append(release).is_err() {
            return Err(AllocError);
        }
        self.publish()
    }

    fn front(&self) -> &Front<J> {
        self.published().front()
    }
}
