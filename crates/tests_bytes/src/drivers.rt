//! Drivers of machines: what they do by looks at their replicas, by scans and replies, at times in milliseconds.

use crate::notation::{front, lines_of, number_of, put_made, unreadable};
use il_model::{Answer, Command, OutImage};
use io_image::StageBook;
use plc_machine::{Course, LastScan, MachineDriver, Pace, client_starts, led_view};
use std::alloc::{AllocError, Global};
use std::io;
use std::time::Duration;
use vr_model::{Body, ClientNumber, Config, Message, Party, Request, Standing, Status};

/// The client that each driver is.
const CLIENT: ClientNumber = ClientNumber { number: 1 };

/// A driver with its staged inputs, and the number of the scan that it submitted last.
#[derive(Drop)]
struct Driven {
    driver: MachineDriver,
    staging: StageBook,
    number: u64,
}

/// What comes out of a cell in a table of this title.
pub fn table(alloc: Global, title: &str, cell: &str) -> io::Result<String> {
    let found = match title {
        "led view" => led(cell),
        "start of a machine" => starts(cell),
        _ => None,
    };
    Ok(optional(alloc, found.ok_or(unreadable())?)?)
}

/// A number, or `none`.
fn optional(alloc: Global, number: Option<u64>) -> Result<String, AllocError> {
    match number {
        Some(number) => format!(in alloc; "{number}"),
        None => String::from_str(alloc, "none"),
    }
}

fn led(cell: &str) -> Option<Option<u64>> {
    let is_primary = number_of(cell, "primary=")? == 1;
    let standing = Standing {
        status: if is_primary {
            Status::Normal
        } else {
            Status::ViewChange
        },
        view: number_of(cell, "view=")?,
        is_primary,
    };
    Some(led_view(standing, number_of(cell, "failed=")? == 1))
}

fn starts(cell: &str) -> Option<Option<u64>> {
    match client_starts(cell.parse::<u64>().ok()?) {
        Some(starts) => Some(Some(u64::from(starts))),
        None => Some(None),
    }
}

/// The events of a driver, as `50 look view=1 moment=1000 came=20`, `50 look`, `120 submit`, `140 reply`, `140 held`,
/// `160 shows`, `250 retry`, each with what comes of it behind a colon.
pub fn run(alloc: Global, pace: &str, body: &str) -> io::Result<String> {
    tell_all(alloc, &mut begun(alloc, pace).ok_or(unreadable())?, body)
}

fn tell_all(alloc: Global, run: &mut Driven, body: &str) -> io::Result<String> {
    let mut said = String::new(alloc);
    for line in lines_of(alloc, body)? {
        put_event(alloc, run, front(line, ": ").0, &mut said)?;
    }
    Ok(said)
}

/// Puts an event with what comes of it.
fn put_event(alloc: Global, run: &mut Driven, event: &str, said: &mut String) -> io::Result<()> {
    let came = comes(alloc, run, event)?;
    Ok(put_made(said, format!(in alloc; "{event}: {came}\n"))?)
}

fn begun(alloc: Global, pace: &str) -> Option<Driven> {
    let pace = pace_of(pace)?;
    Some(Driven {
        driver: MachineDriver::new(&Config::new(1, 64)?, CLIENT, 0, pace),
        staging: StageBook::new(alloc),
        number: 0,
    })
}

fn pace_of(text: &str) -> Option<Pace> {
    Some(Pace {
        period: Duration::from_millis(number_of(text, "period=")?),
        fresh: Duration::from_millis(number_of(text, "fresh=")?),
    })
}

fn comes(alloc: Global, run: &mut Driven, event: &str) -> io::Result<String> {
    match timed(event) {
        Some((now, words)) => Ok(comes_at(alloc, run, words, now)?),
        None => Err(unreadable()),
    }
}

fn comes_at(
    alloc: Global,
    run: &mut Driven,
    words: &str,
    now: Duration,
) -> Result<String, AllocError> {
    match words {
        "submit" => submit(alloc, run, now),
        "reply" => optional(alloc, reply(run, released())),
        "held" => optional(alloc, reply(run, Answer::Held(3))),
        "shows" => optional(alloc, Some(u64::from(run.driver.shows(now)))),
        "retry" => retry(alloc, run),
        _ => look(alloc, run, words, now),
    }
}

/// How many messages are sent again.
fn retry(alloc: Global, run: &mut Driven) -> Result<String, AllocError> {
    let sends = run.driver.retry(alloc)?;
    format!(in alloc; "{}", sends.len())
}

/// An event, and when it comes.
fn timed(event: &str) -> Option<(Duration, &str)> {
    let (time, words) = event.split_once(' ')?;
    Some((Duration::from_millis(time.parse::<u64>().ok()?), words))
}

fn look(alloc: Global, run: &mut Driven, words: &str, now: Duration) -> Result<String, AllocError> {
    let looked = run
        .driver
        .look(number_of(words, "view="), last_in(words), now);
    match looked {
        Ok(()) => standing(alloc, run),
        Err(_) => String::from_str(alloc, "used up"),
    }
}

/// What its driver does now.
fn standing(alloc: Global, run: &Driven) -> Result<String, AllocError> {
    match run.driver.course() {
        Course::StandingBy => String::from_str(alloc, "stands by"),
        Course::Leading(lead) => {
            let (view, due, opens) = (lead.view, lead.due.as_millis(), lead.opens.as_millis());
            format!(in alloc; "leads {view} due {due} opens {opens}")
        }
    }
}

fn last_in(words: &str) -> Option<LastScan> {
    Some(LastScan {
        moment: number_of(words, "moment=")?,
        came: Duration::from_millis(number_of(words, "came=")?),
    })
}

/// The number and the moment of the scan that is submitted, or `none`.
fn submit(alloc: Global, run: &mut Driven, now: Duration) -> Result<String, AllocError> {
    let Some(sends) = run.driver.submit(alloc, &mut run.staging, now)? else {
        return String::from_str(alloc, "none");
    };
    match sends.first().map(|message| &message.body) {
        Some(Body::Request(request)) => {
            run.number = request.number;
            scan_of(alloc, request)
        }
        _ => String::from_str(alloc, "no request"),
    }
}

/// The number and the moment of a scan.
fn scan_of(alloc: Global, request: &Request) -> Result<String, AllocError> {
    let number = request.number;
    match request.command {
        Command::Scan { moment, .. } => format!(in alloc; "scan {number} at {moment}"),
        _ => String::from_str(alloc, "no scan"),
    }
}

/// The answer to a scan that is done.
fn released() -> Answer {
    Answer::Outputs {
        count: 1,
        image: OutImage::safe(),
    }
}

/// The number of what the REPLY to the scan that was submitted last, with this answer, releases, if it releases
/// anything.
fn reply(run: &mut Driven, answer: Answer) -> Option<u64> {
    let message = Message {
        from: Party::Replica(0),
        to: Party::Client(CLIENT),
        body: Body::Reply {
            view: 0,
            number: run.number,
            answer,
        },
    };
    Some(run.driver.on_reply(&message)?.number)
}
