//! The program `plc`: the words of its call, the files that they name, and the status it ends with.
#![tactic(auto)]

mod asking;
mod calls;
mod carrying;
mod comparing;
mod directories;
mod epochs;
mod fetching;
mod files;
mod groups;
mod keys;
mod machines;
mod operators;
mod random;
mod serving;
mod showing;
mod simulating;
mod stores;
mod tracing;
mod version;

ghost use Rattle.std.specs.Prelude.{IfOk, IfSome};
ghost use Rattle.plc.specs.Asked.{IsAsAsked, IsLostAfterAMinute};
ghost use Rattle.plc_words.specs.Asked.{IsToldOfWords};

use crate::asking::{Asking, ask};
use crate::carrying::{Carrying, carried, mode_of};
use crate::comparing::{Comparison, compare};
use crate::epochs::Entering;
use crate::fetching::{Request, Target, fetch};
use crate::machines::{Machine, tell_unserved};
use crate::operators::operators_of;
use crate::serving::{Report, Serving, settled};
use crate::showing::{another_showing, notices_at, notices_of};
use crate::simulating::{kinds_of, sim_group};
use crate::stores::Formatted;
use crate::tracing::{Life, close, next_life};
use crate::version::PRINTED;
use il_text::{Fault, tell};
use io_image::NewList;
use io_model::{Counted, CountedWrite};
use io_relay::{Lines, OpenRelay, relayed};
use plc_field::run_field;
use plc_host::Host;
use plc_member::Member;
use plc_page::Telling;
use plc_serve::serve;
use plc_status::ReportFile;
use plc_tool::Group;
use plc_words::{Words, WordsError, read_words, tell_words};
use sim_run::Run;
use std::alloc::Global;
use std::io::{BufWriter, Write};
use std::marker::Brand;
use std::os::fd::{AsRawFd, IntoRawFd};
use std::process::ExitCode;
use std::sync::Wait;
use std::thread::Threads;
use std::{env, fs, io};

/// Standard input, standard output and standard error are the descriptors below it.
const STREAMS: i32 = 3;

/// What the words of the call came to.
#[derive(Drop)]
enum Outcome {
    /// It's done, with this status.
    Done(u8),
    /// A console is to be asked.
    Ask(Asking),
    /// A controller is to be served.
    Serve(Serving),
    /// A machine of a group is to be served.
    ServeMachine(Machine),
    /// The inputs and outputs of a field are to be carried.
    Carry(Carrying),
    /// A program is to be fetched.
    Fetch(Request),
    /// Two programs are to be compared.
    Compare(Comparison),
}

/// Threads and sockets are used here alone.
fn main(rt: HostRuntime) -> ExitCode {
    let mut err = Counted::new(rt.stderr());
    if let Err(error) = hold_streams(&rt) {
        return ExitCode::from(tell(Fault::from(error), &mut err));
    }
    let mut out = match BufWriter::new(rt.alloc(), rt.stdout()) {
        Ok(out) => out,
        Err(error) => return ExitCode::from(tell(Fault::from(error), &mut err)),
    };
    let host = host_of(&rt);
    let status = match called(&rt, &mut out, &mut err) {
        Outcome::Done(status) => status,
        Outcome::Ask(asking) => ask(&host, &asking, &mut Counted::new(rt.stdout()), &mut err),
        Outcome::Fetch(request) => fetch(&rt, &host, request, &mut out, &mut err),
        Outcome::Compare(comparison) => compare(&host, comparison, &mut out, &mut err),
        Outcome::Serve(Serving { service, report }) => {
            let (lines, relay) = match told_by(&rt, rt.alloc(), rt.stderr()) {
                Ok(told) => told,
                Err(error) => return ExitCode::from(tell(Fault::from(error), &mut err)),
            };
            let path = report.as_ref().map(Report::written_at);
            let mut file = Counted::new(ReportFile::at(&rt, path));
            let list = NewList::new();
            let mut err = Counted::new(Telling::new(rt, lines, notices_of(&service.showing)));
            let status = serve::<Brand, _, _, _, _, _>(
                host, list, service, &mut file, &mut out, &mut err,
            );
            let status = settled(&rt, status, &report, &mut err);
            relay.close(&rt);
            status
        }
        Outcome::ServeMachine(
            Machine {
                group,
                keys,
                directory,
                showing,
                trace,
            },
        ) => {
            let (lines, relay) = match told_by(&rt, rt.alloc(), rt.stderr()) {
                Ok(told) => told,
                Err(error) => return ExitCode::from(tell(Fault::from(error), &mut err)),
            };
            let mut err = Counted::new(Telling::new(rt, lines, notices_of(&showing)));
            let (mut unserved, mut ended) = (None, None);
            match Member::open(host, directory.as_str()) {
                Ok(member) => {
                    let mut member = member.keyed(keys);
                    for _ in rt.forever() {
                        match next_life(&mut member, host, &group, &trace, ended, &mut err) {
                            Ok(Some(Life { begun, writer })) => {
                                let list = NewList::new();
                                let shown = another_showing(&rt, &showing);
                                ended = Some(begun.serve::<Brand, _>(
                                    host, list, &group, shown, &mut err,
                                ));
                                close(&rt, writer);
                            }
                            Ok(None) => break,
                            Err(refused) => {
                                unserved = Some(refused);
                                break;
                            }
                        }
                    }
                }
                Err(refused) => unserved = Some(refused),
            }
            let status = tell_unserved(directory.as_str(), unserved, &mut err);
            relay.close(&rt);
            status
        }
        Outcome::Carry(Carrying { text, mode, page }) => {
            let (lines, relay) = match told_by(&rt, rt.alloc(), rt.stderr()) {
                Ok(told) => told,
                Err(error) => return ExitCode::from(tell(Fault::from(error), &mut err)),
            };
            let mut err = Counted::new(Telling::new(rt, lines, notices_at(&page)));
            let mut counted = Counted::new(&mut out);
            let done = run_field(host, text.as_str(), mode, page, &mut counted, &mut err);
            let status = carried(rt.alloc(), done, &mut out, &mut err);
            relay.close(&rt);
            status
        }
    };
    ExitCode::from(status)
}

fn host_of(rt: &HostRuntime) -> Host<HostRuntime> {
    Host {
        rt: *rt,
        alloc: rt.alloc(),
    }
}

/// What is told of what goes on, so that nobody waits for who reads standard error; and what passes it on there.
fn told_by<R, W>(rt: &R, alloc: Global, err: W) -> io::Result<(Lines, OpenRelay)>
where
    R: Threads + Wait + Copy + Send + 'static,
    W: Write + Send + Drop + 'static,
{
    let (lines, relay) = relayed(alloc)?;
    Ok((lines, relay.open(rt, err)?))
}

/// Opens what can only be read, and is empty, at each of descriptors 0 to 2 that is closed: so no file or socket is
/// opened there, and a write to a stream that is closed fails.
fn hold_streams(rt: &HostRuntime) -> io::Result<()> {
    for _ in 0..STREAMS {
        let empty = fs::open(rt, "/dev/null")?;
        if empty.as_raw_fd() >= STREAMS {
            break;
        }
        // It stays open to the end.
        let _ = empty.into_raw_fd();
    }
    Ok(())
}

/// Does what the words of the call ask for, as far as no thread and no socket is needed.
#[tactic(auto, using(crate::proofs::Minute::as_asked))]
fn called<W: Write, E: CountedWrite>(rt: &HostRuntime, out: &mut W, err: &mut E) -> Outcome
    ensures { IsLostAfterAMinute result }
{
    let given = match given_words(rt) {
        Ok(given) => given,
        Err(error) => return Outcome::Done(told(&error, out, err)),
    };
    match read_words(rt.alloc(), given.as_slice()) {
        Ok(words) => perform(rt, words, out, err),
        Err(error) => Outcome::Done(told(&error, out, err)),
    }
}

/// Tells why words ask for no work, and answers the status: where they ask for the version, that is `PRINTED`.
fn told<W: Write, E: CountedWrite>(error: &WordsError, out: &mut W, err: &mut E) -> u8
    ensures { IsToldOfWords E.CountedWrite PRINTED.now error.now result (W.contents out.old) (W.contents out.new) err.old err.new }
{
    tell_words(error, PRINTED, out, err)
}

fn given_words(rt: &HostRuntime) -> Result<Vec<String>, WordsError> {
    Ok(env::args(rt)?.collect(rt.alloc())?)
}

/// What is to be served, asked or carried for the words of a call. What else they ask for is done.
fn perform<W: Write, E: CountedWrite>(
    rt: &HostRuntime,
    words: Words,
    out: &mut W,
    err: &mut E,
) -> Outcome
    ensures { IsAsAsked words.entry result }
{
    let status = done(rt, &words, out, err);
    match prepared(rt, words, err) {
        Ok(Some(outcome)) => outcome,
        Ok(None) => Outcome::Done(status),
        Err(status) => Outcome::Done(status),
    }
}

/// Does what is done at once for the words of a call, as files are read and lines printed: the status; 0 where that is
/// nothing.
fn done<W: Write, E: CountedWrite>(
    rt: &HostRuntime,
    words: &Words,
    out: &mut W,
    err: &mut E,
) -> u8 {
    match *words {
        Words::Asm { source, image } => calls::asm(rt, source, image, out, err),
        Words::List { image } => calls::list(rt, image, out, err),
        Words::Names { source } => calls::names(rt, source, out, err),
        Words::Where { source, asked } => calls::locate(rt, source, asked, out, err),
        Words::Run {
            source,
            commands,
            budget,
        } => calls::run(rt, source, commands, budget, out, err),
        Words::Sim {
            source,
            schedule,
            config,
            budget,
        } => calls::sim(rt, source, schedule, &Group { config, budget }, out, err),
        _ => simulated(rt, words, out, err),
    }
}

/// Runs a group by virtual time where words ask for that, and prints what is seen: the status; 0 where they don't.
fn simulated<W: Write, E: CountedWrite>(
    rt: &HostRuntime,
    words: &Words,
    out: &mut W,
    err: &mut E,
) -> u8 {
    match words {
        Words::SimGroup {
            source,
            group,
            seed,
            hours,
            faults,
            until,
            is_traced,
        } => {
            let run = Run {
                seed: u64::from(*seed),
                hours: u64::from(*hours),
                steps: *until,
                is_traced: *is_traced,
                kinds: kinds_of(faults.as_slice()),
            };
            sim_group(rt, *source, *group, &run, out, err)
        }
        _ => kept(rt, words, out, err),
    }
}

/// Does what is done at once for words about the file of a group, or the store of a machine: the status; 0 where that
/// is nothing.
fn kept<W: Write, E: CountedWrite>(
    rt: &HostRuntime,
    words: &Words,
    out: &mut W,
    err: &mut E,
) -> u8 {
    match *words {
        Words::Format {
            source,
            group,
            machine,
            waits,
            directory,
        } => {
            let asked = Formatted {
                machine,
                waits,
                directory,
            };
            stores::format(rt, source, group, &asked, err)
        }
        Words::NewGroup { group } => groups::new_group(rt, group, err),
        Words::NewKey { path } => keys::new_key(rt, path, err),
        Words::Show { directory } => stores::show(rt, directory, out, err),
        Words::Listing {
            is_changed,
            directory,
        } => stores::listing(rt, directory, is_changed, out, err),
        _ => entered(rt, words, out, err),
    }
}

/// Puts the store of a machine into another epoch where words ask for that: the status; 0 where they don't.
fn entered<W: Write, E: CountedWrite>(
    rt: &HostRuntime,
    words: &Words,
    out: &mut W,
    err: &mut E,
) -> u8 {
    match *words {
        Words::EnterEpoch {
            group,
            epoch: number,
            program,
            forgets,
            directory,
        } => {
            let asked = Entering {
                number,
                program,
                forgets,
                directory,
            };
            epochs::enter_epoch(rt, group, &asked, out, err)
        }
        _ => 0,
    }
}

/// What is to be served, asked or carried for the words of a call, if anything is; or the status where it can't be
/// prepared, which is told.
fn prepared<E: CountedWrite>(
    rt: &HostRuntime,
    words: Words,
    err: &mut E,
) -> Result<Option<Outcome>, u8>
    ensures { IfOk result (λ outcome. IfSome outcome (IsAsAsked words.entry)) }
{
    Ok(Some(match words {
        Words::Field {
            field,
            check,
            once,
            stop,
            status,
        } => {
            let mode = mode_of(check, once, stop);
            Outcome::Carry(Carrying::of(rt, field, mode, status, err)?)
        }
        Words::Ask { console, commands } => {
            Outcome::Ask(Asking::of_commands(rt, console, commands, err)?)
        }
        Words::Change { console, source } => {
            Outcome::Ask(Asking::of_change(rt, console, source, err)?)
        }
        Words::Fetch {
            origin,
            fetching,
            file: path,
            is_image,
        } => {
            let target = Target { path, is_image };
            Outcome::Fetch(Request::of(rt, origin, fetching, target, err)?)
        }
        Words::Diff { old, new, fetching } => {
            Outcome::Compare(Comparison::of(rt, old, new, fetching, err)?)
        }
        Words::ServeMachine {
            group,
            directory,
            trace,
        } => Outcome::ServeMachine(Machine::of(rt, group, directory, trace, err)?),
        Words::Serve {
            source,
            stores,
            report,
            settings,
            operators,
            clients,
        } => {
            let operators = operators_of(rt, operators, err)?;
            let serving = Serving::of(rt, source, stores.as_slice(), report, settings, err)?;
            Outcome::Serve(serving.with(operators, clients))
        }
        _ => return Ok(None),
    }))
}
