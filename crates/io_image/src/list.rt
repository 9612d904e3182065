//! The list of releases. It exists in the proofs alone: threads share the number of its last release, and each keeps a
//! prefix of the list, which it saw.
ghost use Rattle.std.specs.Prelude.{◌≡◌, ◌<◌, ◌++◌, ◌∷◌, ◌⊎◌, [], MatchBool};
ghost use mathlib.Core.List.{IsPrefix};
ghost use Rattle.std.specs.Bool.{OnTrue};
ghost use Rattle.io_image.specs.Releases.{IsRising, number_of, shown, view_of, head_of};

use crate::release::{Release, View, view_of, view_of_none};
use logbook::{Gain, Offer, Plain, Play, Rule, Seen, Start, Word};
use std::marker::{Brand, Model, PhantomData};

/// The rule that each step keeps: the numbers of the list rise, and the word is the last of them.
pub struct Rises;

impl Rule<Release, u64> for Rises {
    ghost use Rattle.std.specs.Prelude.{[]};
    ghost use base.Fml.{ftrue};
    ghost use Rattle.io_image.specs.Releases.{IsKept};

    ghost holds = { λ cells log. IsKept cells log };

    ghost first = { [] };

    ghost hinted = { λ n log. Unit {0} };

    ghost shows = { λ log. [] };

    ghost keeps = { λ names log. ftrue };

    ghost moves = { λ ask before after answer. Unit {0} };
}

// A caller of a step gets nothing but what the step tells.
struct Ungained;

impl Gain<Release, u64> for Ungained {
    ghost use base.Fml.{ftrue};

    ghost after = { λ names about answer. ftrue };
}

// The step that adds a release to the list.
struct Add;

impl Play<Release, u64> for Add {
    ghost use Rattle.io_image.specs.Releases.{Adds};

    ghost then = { Adds };
}

// What the step asks for: the release.
impl Plain<Release, Release, u64> for Add {
    ghost use Rattle.std.specs.Prelude.{None};

    ghost ask = { λ release. release };

    ghost state = { λ release. None };
}

/// Which list it is, in the types of the writer and its readers. A call picks it where it passes `Brand`.
pub trait Naming {
    ghost use Rattle.logbook.specs.Pages.{Book};

    ghost book: { Book };
}

impl Naming for Brand {
    ghost book = { record { number = 0; log_name = 0; cells_name = 0 } };
}

/// An empty list of releases that has no name yet. Contracts see it as which list it is.
#[derive(Drop)]
pub struct NewList {
    last: Word<Release, u64, Rises>,
    seen: Seen<Release, u64, Rises>,
}

impl Model for NewList {
    ghost use Rattle.std.specs.Prelude.{◌≡◌, []};
    ghost use Rattle.logbook.specs.Pages.{Book};
    ghost use Rattle.io_image.specs.Releases.{head_of};

    ghost Value = { Book };

    ghost view = { λ l. l.seen.book };

    ghost invariant = { λ l. (l.seen.log ≡ []) × (l.last ≡ head_of l.seen.book) };
}

impl NewList {
    /// A list of its own.
    pub fn new() -> NewList {
        let (seen, mut first, _second) = Seen::open(Start::alone(), 0, 0);
        NewList {
            last: Word::tracked(0, &mut first),
            seen,
        }
    }

    /// The number that threads share, and the empty prefix of the list.
    pub(crate) fn named<J: Naming>(self) -> (LastNumber<J>, Front<J>)
        requires { self ≡ J.book }
        ensures { result.1 ≡ [] }
    {
        let NewList { last, seen } = self;
        let number = LastNumber {
            word: last,
            of: PhantomData,
        };
        let front = Front {
            view: view_of_none(),
            count: 0,
            seen,
            of: PhantomData,
        };
        (number, front)
    }
}

/// The number of the list's last release, which threads share.
#[derive(Drop)]
pub struct LastNumber<J: Naming> {
    word: Word<Release, u64, Rises>,
    of: PhantomData<J>,
    ghost word_is: { word ≡ head_of J.book },
}

fn is_same(one: &View, other: &View) -> bool
    ensures { OnTrue result (one.now ≡ other.now) }
{
    *one == *other
}

/// A prefix of the list, which was seen, with what it shows. Contracts see it as that list.
#[derive(Drop)]
pub struct Front<J: Naming> {
    view: View,
    count: u64,
    seen: Seen<Release, u64, Rises>,
    of: PhantomData<J>,
}

impl<J: Naming> Model for Front<J> {
    ghost use Rattle.std.specs.Prelude.{◌≡◌, List, length};
    ghost use Rattle.io_image.specs.declared.release.Release.{Release};
    ghost use Rattle.io_image.specs.Releases.{IsRising, shown};

    ghost Value = { List Release };

    ghost view = { λ f. f.seen.log };

    ghost invariant = { λ f. (f.view ≡ shown f.seen.log) × (f.count ≡ length f.seen.log) × (f.seen.book ≡ J.book)
        × IsRising f.seen.log };
}

impl<J: Naming> Front<J> {
    /// Its last release, or the safe image and 0.
    pub(crate) fn shown(&self) -> View
        ensures shown { result ≡ shown self.now }
        ensures rising { IsRising self.now }
    {
        self.view
    }

    /// A copy of this prefix.
    pub(crate) fn again(&self) -> Front<J>
        ensures same { result ≡ self.now }
        ensures rising { IsRising self.now }
    {
        Front {
            view: self.view,
            count: self.count,
            seen: self.seen.again(),
            of: PhantomData,
        }
    }

    /// Takes the other prefix where that one is longer. Of two prefixes of one list the shorter is a prefix of the
    /// longer.
    pub(crate) fn catch_up(&mut self, other: &Front<J>)
        ensures one { (self.new ≡ self.old) ⊎ (self.new ≡ other.now) }
        ensures this { IsPrefix self.old self.new }
        ensures that { IsPrefix other.now self.new }
    {
        let mut both = self.seen.again();
        both.learn(&other.seen);
        if self.count < other.count {
            self.view = other.view;
            self.count = other.count;
            self.seen = other.seen.again();
        }
    }

    /// Whether the other prefix is this one with the release after it.
    pub(crate) fn is_before(&self, other: &Front<J>, release: &Release) -> bool
        ensures { OnTrue result (other.now ≡ self.now ++ release.now ∷ []) }
    {
        let mut both = self.seen.again();
        both.learn(&other.seen);
        if self.count >= other.count || other.count - self.count != 1 {
            return false;
        }
        is_same(&other.view, &view_of(release))
    }

    /// Adds a release to all that was seen, and says whether it did. It did not where the list is longer.
    pub(crate) fn add(&mut self, last: &LastNumber<J>, release: Release) -> bool
        requires { number_of self.old < release.number }
        ensures { MatchBool result (self.new ≡ self.old ++ release ∷ []) (self.new ≡ self.old) }
    {
        let mut seen = self.seen.again();
        let mut offer: Offer<Release, u64, Rises, Ungained> = seen.plain::<Ungained, Release, Add>(
            &release,
        );
        let mut pen = seen.no_pen();
        let number = self.view.number;
        let found = last
            .word
            .compare_exchange::<Add, Ungained>(
                number,
                release.number,
                &mut seen,
                &mut offer,
                &mut pen,
            );
        if found != number {
            return false;
        }
        self.seen = seen;
        self.view = view_of(&release);
        self.count += 1;
        true
    }
}
