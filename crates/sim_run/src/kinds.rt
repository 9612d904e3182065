//! Which kinds of faults come in a run.

use sim_checker::What;
use sim_time::Draws;

/// A kind of fault.
#[derive(Clone, Copy, Debug, PartialEq, Eq)]
pub enum Kind {
    /// A process is killed, or its machine loses its power, and starts again.
    Crash,
    /// Most machines lose their power at once, and start again.
    Power,
    /// A machine stands still.
    Pause,
    /// An operator stops a machine, and starts it again.
    Stop,
    /// Segments are lost, and are sent again.
    Loss,
    /// What goes between machines takes longer.
    Delay,
    /// What goes between machines takes now more time, now less: in order over each connection, and not else.
    Reorder,
    /// Nothing goes from one machine to another, and maybe nothing back.
    Cut,
    /// Nothing goes from one machine to another.
    OneWay,
    /// Nothing goes to or from a machine.
    Isolate,
    /// The disk of a machine is full.
    DiskFull,
    /// It's slow.
    DiskSlow,
    /// It takes no write for some seconds.
    DiskReadOnly,
}

/// So many kinds may be drawn at most.
const MOST: usize = 16;

/// Those of the seeds that are stored; one that stands twice comes twice as often.
const STANDARD: [Kind; 12] = [
    Kind::Crash,
    Kind::Crash,
    Kind::Pause,
    Kind::Pause,
    Kind::Cut,
    Kind::Cut,
    Kind::Isolate,
    Kind::DiskFull,
    Kind::DiskSlow,
    Kind::Loss,
    Kind::Power,
    Kind::Stop,
];

/// All of them, each once.
const ALL: [Kind; 13] = [
    Kind::Crash,
    Kind::Power,
    Kind::Pause,
    Kind::Stop,
    Kind::Loss,
    Kind::Delay,
    Kind::Reorder,
    Kind::Cut,
    Kind::OneWay,
    Kind::Isolate,
    Kind::DiskFull,
    Kind::DiskSlow,
    Kind::DiskReadOnly,
];

/// The kinds of faults of a run.
#[derive(Clone, Copy)]
pub struct Kinds {
    drawn: [Kind; MOST],
    count: u8,
    /// Whether a machine may lose its disk where all lose their power.
    pub loses_disks: bool,
}

impl Kind {
    /// Its word.
    fn word(self) -> &'static str {
        match self {
            Kind::Crash => "crash",
            Kind::Power => "power",
            Kind::Pause => "pause",
            Kind::Stop => "stop",
            Kind::Loss => "loss",
            Kind::Delay => "delay",
            Kind::Reorder => "reorder",
            Kind::Cut => "cut",
            Kind::OneWay => "one-way",
            Kind::Isolate => "isolate",
            Kind::DiskFull => "disk-full",
            Kind::DiskSlow => "disk-slow",
            Kind::DiskReadOnly => "disk-read-only",
        }
    }

    /// What a line tells where it comes.
    pub(crate) fn told(self) -> What {
        match self {
            Kind::Crash => What::Crash,
            Kind::Power => What::Power,
            Kind::Pause => What::Pause,
            Kind::Stop => What::Stop,
            Kind::Loss => What::Loss,
            Kind::Delay => What::Delay,
            Kind::Reorder => What::Reorder,
            Kind::Cut => What::Cut,
            Kind::OneWay => What::OneWay,
            Kind::Isolate => What::Isolate,
            Kind::DiskFull => What::DiskFull,
            Kind::DiskSlow => What::DiskSlow,
            Kind::DiskReadOnly => What::DiskReadOnly,
        }
    }

    /// The one of this word, if there is one.
    fn of(word: &str) -> Option<Kind> {
        for kind in ALL {
            if kind.word() == word {
                return Some(kind);
            }
        }
        None
    }
}

impl Kinds {
    /// No fault comes.
    pub fn none() -> Kinds {
        Kinds {
            drawn: [Kind::Crash; MOST],
            count: 0,
            loses_disks: false,
        }
    }

    /// Those of the seeds that are stored.
    pub fn standard() -> Kinds {
        let mut kinds = Kinds::none();
        for kind in STANDARD {
            kinds = kinds.with(kind);
        }
        kinds.loses_disks = true;
        kinds
    }

    /// With all, each once; and disks are lost.
    fn with_all(self) -> Kinds {
        let mut kinds = self;
        for kind in ALL {
            kinds = kinds.with_once(kind);
        }
        kinds.loses_disks = true;
        kinds
    }

    /// With this one, unless it's there already.
    fn with_once(self, kind: Kind) -> Kinds {
        if self.has(kind) {
            self
        } else {
            self.with(kind)
        }
    }

    /// With one more, where there is room for it.
    fn with(self, kind: Kind) -> Kinds {
        let Kinds {
            mut drawn,
            count,
            loses_disks,
        } = self;
        let Some(place) = drawn.get_mut(usize::from(count)) else {
            return self;
        };
        *place = kind;
        Kinds {
            drawn,
            count: count.saturating_add(1),
            loses_disks,
        }
    }

    /// With those of this word: of `all`, of `none`, of `disk-lost`, or of one kind. None where it's none of these.
    pub fn with_word(self, word: &str) -> Option<Kinds> {
        match word {
            "none" => Some(self),
            "all" => Some(self.with_all()),
            "disk-lost" => Some(Kinds {
                loses_disks: true,
                ..self
            }),
            _ => Some(self.with_once(Kind::of(word)?)),
        }
    }

    /// Whether no fault comes.
    pub fn is_empty(&self) -> bool {
        self.count == 0
    }

    /// Whether this one comes.
    pub(crate) fn has(&self, kind: Kind) -> bool {
        let count = usize::from(self.count);
        self.drawn.iter().take(count).any(|it| *it == kind)
    }

    /// One of them; none where there is none.
    pub(crate) fn draw(&self, draws: &mut Draws) -> Option<Kind> {
        if self.is_empty() {
            return None;
        }
        let place = draws.below(u64::from(self.count));
        self.drawn.get(usize::try_from(place).unwrap_or(0)).copied()
    }
}
