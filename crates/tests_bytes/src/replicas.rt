//! Replicas of a group of three: events, what they make a replica send, and what it is then. Messages are frames.

use crate::frames::{frame_of, message_of};
use crate::notation::{behind, bytes_of, cut, front, lines_of, number_of, told, unreadable};
use crate::stores::Store;
use il_loader::{Image, load};
use il_model::Budget;
use std::alloc::{AllocError, Global};
use std::io;
use vr_model::{Body, Config, Event, Message, Party};
use vr_replica::{Replica, StepFault};

/// A replica with its store.
#[derive(Drop)]
struct Node {
    number: u8,
    replica: Replica,
    store: Store,
}

/// Replicas, and all messages that they sent.
#[derive(Drop)]
struct Group {
    nodes: Vec<Node>,
    sent: Vec<Message>,
}

/// Messages as they're said, or how many there are.
fn tell_messages(alloc: Global, sent: &[Message], said: &str) -> io::Result<String> {
    let count = sent.len();
    if count > 0 && !said.ends_with(" messages") && are_written(alloc, sent, said)? {
        told(alloc, said)
    } else {
        Ok(format!(in alloc; "{count} messages")?)
    }
}

/// What a step sent, or its fault.
type Stepped = Result<Vec<Message>, StepFault>;

/// What happens to a replica.
#[derive(Drop)]
enum Happens {
    Event(Event),
    Crash,
}

/// What happens by this name; a restart has a nonce.
fn happening(verb: &str, nonce: &str) -> Option<Happens> {
    match verb {
        "timeout" => Some(Happens::Event(Event::Timeout)),
        "resend" => Some(Happens::Event(Event::Resend)),
        "restart" => Some(Happens::Event(Event::Restart(nonce.parse::<u64>().ok()?))),
        _ => Some(Happens::Crash),
    }
}

/// The number of a replica, as `R1`.
fn number(text: &str) -> Option<u8> {
    text.strip_prefix('R')?.parse::<u8>().ok()
}

/// The place of an entry, as `op=1`, from 0.
fn place_of(text: &str) -> Option<u64> {
    number_of(text, "op=")?.checked_sub(1)
}

fn code(text: &str, name: &str, otherwise: u64) -> Option<u16> {
    u16::try_from(number_of(text, name).unwrap_or(otherwise)).ok()
}

/// A group of three with a checkpoint as `every=1` says.
fn config(text: &str) -> Option<Config> {
    Config::new(1, code(text, "every=", 0)?)
}

/// The image, as `image=494c..`.
fn image_of(alloc: Global, text: &str) -> io::Result<Image> {
    let bytes = bytes_of(alloc, behind(text, "image=").ok_or(unreadable())?)?;
    load(alloc, bytes.as_slice()).ok().ok_or(unreadable())
}

/// The replica of this number, as `every=1 budget=10 image=494c..` and maybe `is=down` say.
fn replica(alloc: Global, number: u8, text: &str) -> io::Result<Replica> {
    let (config, budget) = limits(text).ok_or(unreadable())?;
    let image = image_of(alloc, text)?;
    Ok(match behind(text, "is=") {
        None => Replica::new(alloc, config, number, image, budget)?,
        Some(_) => Replica::down(alloc, config, number, image, budget)?,
    })
}

/// A group's settings, and the budget of a scan, as `budget=10` says, or 10000.
fn limits(text: &str) -> Option<(Config, Budget)> {
    let budget = code(text, "budget=", 10_000)?;
    Some((config(text)?, Budget::new(u32::from(budget))?))
}

fn new_node(alloc: Global, number: u8, text: &str) -> io::Result<Node> {
    Ok(Node {
        number,
        replica: replica(alloc, number, text)?,
        store: Store::of(text),
    })
}

/// Puts the replicas of these numbers.
fn put_nodes(alloc: Global, nodes: &mut Vec<Node>, text: &str) -> io::Result<()> {
    for word in text.split_whitespace() {
        if let Some(number) = number(word) {
            nodes.push(new_node(alloc, number, text)?)?;
        }
    }
    Ok(())
}

/// Whether a message has the frame that is written.
fn is_written(alloc: Global, sent: &Message, text: &str) -> io::Result<bool> {
    let frame = frame_of(alloc, sent)?;
    Ok(frame.as_slice() == bytes_of(alloc, text)?.as_slice())
}

/// Whether messages are as they're written, with `; ` between them.
fn are_written(alloc: Global, sent: &[Message], text: &str) -> io::Result<bool> {
    let mut rest = sent;
    for text in text.split("; ") {
        let [first, others @ ..] = rest else {
            return Ok(false);
        };
        if !is_written(alloc, first, text)? {
            return Ok(false);
        }
        rest = others;
    }
    Ok(rest.is_empty())
}

impl Node {
    /// What an event makes it send, or its fault.
    fn step(&mut self, alloc: Global, happens: Happens) -> Stepped {
        match happens {
            Happens::Event(event) => self.replica.step(alloc, event, &mut self.store),
            Happens::Crash => {
                self.replica.crash(alloc);
                Ok(Vec::new(alloc))
            }
        }
    }

    /// Whether it's down, normal, or neither.
    fn is(&self) -> &'static str {
        if self.replica.is_down() {
            "down"
        } else if self.replica.is_normal() {
            "normal"
        } else {
            "not normal"
        }
    }

    /// What it is, and its commit number.
    fn standing(&self, alloc: Global) -> Result<String, AllocError> {
        let (is, commit) = (self.is(), self.replica.commit());
        format!(in alloc; "{is} commit={commit}")
    }

    /// Whether its log has this entry, as `op=1` and a message that asks for it.
    fn has(&self, alloc: Global, text: &str) -> Option<bool> {
        let (place, frame) = text.split_once(' ')?;
        let place = place_of(place)?;
        let message = message_of(alloc, frame).ok()?;
        let has = self.is_at(place, &message.body);
        drop(message);
        Some(has)
    }

    /// Whether its log has at a place what a message asks for.
    fn is_at(&self, place: u64, asked: &Body) -> bool {
        match asked {
            Body::Request(request) => self.replica.entry(place) == Some(request),
            _ => false,
        }
    }

    /// How many of the first entries its log has.
    fn entries(&self) -> usize {
        (0u64..8)
            .filter(|place| self.replica.entry(*place).is_some())
            .count()
    }

    /// How many entries are said, all of which its log has.
    fn count_said(&self, alloc: Global, said: &str) -> Option<usize> {
        let mut count = 0usize;
        for text in said.split(", ") {
            if text != "none" {
                self.has(alloc, text)?.then_some(())?;
                count = count.saturating_add(1);
            }
        }
        Some(count)
    }

    /// Whether its log has just these entries, or how many it has.
    fn log(&self, alloc: Global, said: &str) -> Result<String, AllocError> {
        let entries = self.entries();
        if self.count_said(alloc, said) == Some(entries) {
            String::from_str(alloc, said)
        } else {
            format!(in alloc; "{entries} entries")
        }
    }

    /// What there is of it: what it `is`, its `log` or its `store`.
    fn tell(&self, alloc: Global, what: &str, said: &str) -> io::Result<String> {
        Ok(match what {
            "is" => self.standing(alloc)?,
            "log" => self.log(alloc, said)?,
            _ => self.store.told(alloc)?,
        })
    }
}

impl Group {
    fn place(&self, number: u8) -> io::Result<usize> {
        let place = self.nodes.iter().position(|node| node.number == number);
        place.ok_or(unreadable())
    }

    fn node(&self, name: &str) -> io::Result<&Node> {
        let place = self.place(number(name).ok_or(unreadable())?)?;
        self.nodes.get(place).ok_or(unreadable())
    }

    /// The replica of this number.
    fn node_of(&mut self, number: u8) -> Option<&mut Node> {
        let place = self.nodes.iter().position(|node| node.number == number)?;
        self.nodes.get_mut(place)
    }

    /// What an event makes a replica of this number send, or its fault.
    fn step(&mut self, alloc: Global, number: u8, happens: Happens) -> io::Result<Stepped> {
        match self.node_of(number) {
            Some(node) => Ok(node.step(alloc, happens)),
            None => {
                drop(happens);
                Err(unreadable())
            }
        }
    }

    /// A message comes; to a client nothing happens.
    fn deliver(&mut self, alloc: Global, message: Message) -> io::Result<Stepped> {
        match message.to {
            Party::Client(_) => {
                drop(message);
                Ok(Ok(Vec::new(alloc)))
            }
            Party::Replica(number) => {
                self.step(alloc, number, Happens::Event(Event::Message(message)))
            }
        }
    }

    /// A copy of the message at this place among all that were sent.
    fn message(&self, alloc: Global, place: &str) -> io::Result<Message> {
        let sent = self.sent(place).ok_or(unreadable())?;
        Ok(sent.copy(alloc)?)
    }

    /// The message at this place.
    fn sent(&self, place: &str) -> Option<&Message> {
        self.sent.get(place.parse::<usize>().ok()?)
    }

    /// What happens to a replica: `timeout R1`, `resend R1`, `restart R1 7` with a nonce, `crash R1`.
    fn happen_to(&mut self, alloc: Global, verb: &str, rest: &str) -> io::Result<Stepped> {
        let (name, nonce) = front(rest, " ");
        let number = number(name).ok_or(unreadable())?;
        let happens = happening(verb, nonce).ok_or(unreadable())?;
        self.step(alloc, number, happens)
    }

    /// What happens: an event of a replica, `deliver 2`, or a message.
    fn happen(&mut self, alloc: Global, text: &str) -> io::Result<Stepped> {
        let (verb, rest) = front(text, " ");
        match verb {
            "timeout" | "resend" | "restart" | "crash" => self.happen_to(alloc, verb, rest),
            "deliver" => self.deliver_again(alloc, rest),
            _ => self.deliver(alloc, message_of(alloc, text)?),
        }
    }

    /// The message at this place comes.
    fn deliver_again(&mut self, alloc: Global, place: &str) -> io::Result<Stepped> {
        let message = self.message(alloc, place)?;
        self.deliver(alloc, message)
    }

    /// The messages that were sent, as they're said, or how many there are.
    fn tell_sent(
        &mut self,
        alloc: Global,
        mut sent: Vec<Message>,
        said: &str,
    ) -> io::Result<String> {
        let told = tell_messages(alloc, sent.as_slice(), said);
        let kept = self.sent.append(&mut sent);
        drop(sent);
        kept?;
        told
    }

    /// What an event comes to: the messages, or a fault.
    fn tell_event(&mut self, alloc: Global, text: &str, said: &str) -> io::Result<String> {
        match self.happen(alloc, text)? {
            Ok(sent) => self.tell_sent(alloc, sent, said),
            Err(fault) => Ok(format!(in alloc; "{fault}")?),
        }
    }

    /// Whether the message at this place is as it's said.
    fn tell_message(&self, alloc: Global, place: &str, said: &str) -> io::Result<String> {
        let message = self.sent(place).ok_or(unreadable())?;
        let is_said = is_written(alloc, message, said)?;
        told(alloc, if is_said { said } else { "another" })
    }

    /// What there is: `is R1`, `log R1`, `store R1`, or the message `sent 6`.
    fn tell(&mut self, alloc: Global, text: &str, said: &str) -> io::Result<String> {
        let (what, rest) = front(text, " ");
        match what {
            "is" | "log" | "store" => self.node(rest)?.tell(alloc, what, said),
            "sent" => self.tell_message(alloc, rest, said),
            _ => self.tell_event(alloc, text, said),
        }
    }

    /// A line with what comes of it.
    fn tell_line(&mut self, alloc: Global, line: &str) -> io::Result<String> {
        let (text, said) = cut(line, ": ")?;
        let told = self.tell(alloc, text, said)?;
        Ok(format!(in alloc; "{text}: {told}\n")?)
    }

    /// The lines of a run of these replicas.
    fn run(&mut self, alloc: Global, text: &str, body: &str) -> io::Result<String> {
        put_nodes(alloc, &mut self.nodes, text)?;
        self.tell_all(alloc, body)
    }

    fn tell_all(&mut self, alloc: Global, body: &str) -> io::Result<String> {
        let mut came = String::new(alloc);
        for line in lines_of(alloc, body)? {
            came.push_str(self.tell_line(alloc, line)?.as_str())?;
        }
        Ok(came)
    }
}

/// The lines of a run of these replicas, each with what comes of it.
pub fn run(alloc: Global, text: &str, body: &str) -> io::Result<String> {
    let mut group = Group {
        nodes: Vec::new(alloc),
        sent: Vec::new(alloc),
    };
    let came = group.run(alloc, text, body);
    drop(group);
    came
}
