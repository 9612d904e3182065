//! Figures for Prometheus, in its text format (version 0.0.4 of the exposition formats).

ghost use Rattle.std.specs.Prelude.{◌≡◌, ◌<◌, length, OnOk};
ghost use Rattle.field_page.specs.Metrics.{controller_metrics, count_line, cycle_metrics, device_metrics};
ghost use Rattle.field_page.specs.Metrics.{figure_family, figure_line, figure_lines, figure_metrics, figure_name};
ghost use Rattle.field_page.specs.Metrics.{metrics_text, none_longer, rounds_family, rounds_metrics, rounds_of};
ghost use Rattle.field_page.specs.Metrics.{rounds_by, rounds_of_all, span_line, span_lines, span_text, sum_line};
ghost use Rattle.field_page.specs.Metrics.{address_line, answers_number, value_of};
ghost use Rattle.plc_figures.specs.Readings.{flag_number};
ghost use Rattle.plc_figures.specs.Texts.{IsAdded};

use crate::reading::{Party, Reading, Shown, State};
use crate::site::FieldSite;
use crate::text::{Within, put_millis, put_within};
use field_cycle::{BOUNDS, BUCKETS};
use plc_figures::{put, put_build, put_counter, put_family, put_number, sum_of};
use std::alloc::AllocError;

/// A figure of each device.
#[derive(Clone, Copy, PartialEq, Eq)]
pub enum Figure {
    Answers,
    Outputs,
    Replies,
    Skipped,
    Retries,
    Losses,
}

/// 1 where it's so, else 0.
fn flag(is_so: bool) -> u64
    ensures { result ≡ flag_number is_so }
{
    if is_so { 1 } else { 0 }
}

/// Whether one answers: 1 or 0.
fn answers_number(state: State) -> u64
    ensures { result ≡ answers_number state }
{
    match state {
        State::Answers => 1,
        _ => 0,
    }
}

fn value_of(device: &Shown, figure: Figure) -> u64
    ensures { result ≡ value_of figure device.now }
{
    match figure {
        Figure::Answers => answers_number(device.party.state),
        Figure::Outputs => flag(device.has_outputs),
        Figure::Replies => device.party.tally.replies,
        Figure::Skipped => device.party.tally.skipped,
        Figure::Retries => device.party.tally.retries,
        Figure::Losses => device.party.tally.losses,
    }
}

fn put_figure_name(out: &mut Vec<u8>, figure: Figure) -> Result<(), AllocError>
    ensures { OnOk result (IsAdded out.old.items (figure_name figure) out.new.items) }
{
    match figure {
        Figure::Answers => put(out, b"plc_field_answers"),
        Figure::Outputs => put(out, b"plc_field_outputs"),
        Figure::Replies => put(out, b"plc_field_replies_total"),
        Figure::Skipped => put(out, b"plc_field_skipped_total"),
        Figure::Retries => put(out, b"plc_field_retries_total"),
        Figure::Losses => put(out, b"plc_field_losses_total"),
    }
}

/// What a figure is, and of which type.
fn put_figure_family(out: &mut Vec<u8>, figure: Figure) -> Result<(), AllocError>
    ensures { OnOk result (IsAdded out.old.items (figure_family figure) out.new.items) }
{
    match figure {
        Figure::Answers => put_family(
            out,
            b"plc_field_answers",
            b"gauge",
            b"Whether the device answers.",
        ),
        Figure::Outputs => put_family(
            out,
            b"plc_field_outputs",
            b"gauge",
            b"Whether the device has outputs of the controller, and not what it falls back to.",
        ),
        Figure::Replies => put_family(
            out,
            b"plc_field_replies_total",
            b"counter",
            b"Replies of the device that were taken.",
        ),
        Figure::Skipped => put_family(
            out,
            b"plc_field_skipped_total",
            b"counter",
            b"Replies of the device that were late or came twice.",
        ),
        Figure::Retries => put_family(
            out,
            b"plc_field_retries_total",
            b"counter",
            b"Requests to the device that were sent once more.",
        ),
        Figure::Losses => put_family(
            out,
            b"plc_field_losses_total",
            b"counter",
            b"Connections to the device that were given up.",
        ),
    }
}

/// A figure of a device.
fn put_figure_line(out: &mut Vec<u8>, figure: Figure, device: &Shown) -> Result<(), AllocError>
    ensures { OnOk result (IsAdded out.old.items (figure_line figure device.now) out.new.items) }
{
    put_figure_name(out, figure)?;
    put(out, b"{device=\"")?;
    put_within(out, Within::Label, device.party.name.as_slice())?;
    put(out, b"\"} ")?;
    put_number(out, value_of(device, figure))?;
    put(out, b"\n")?;
    Ok(())
}

/// A figure of each device.
fn put_figure_lines(out: &mut Vec<u8>, figure: Figure, devices: &[Shown]) -> Result<(), AllocError>
    ensures { OnOk result (IsAdded out.old.items (figure_lines figure devices.now) out.new.items) }
{
    for device in devices {
        put_figure_line(out, figure, device)?;
    }
    Ok(())
}

/// What it is, and that of each device.
fn put_figure(out: &mut Vec<u8>, figure: Figure, devices: &[Shown]) -> Result<(), AllocError>
    ensures { OnOk result (IsAdded out.old.items (figure_metrics figure devices.now) out.new.items) }
{
    put_figure_family(out, figure)?;
    put_figure_lines(out, figure, devices)?;
    Ok(())
}

/// The figures of the devices.
fn put_devices(out: &mut Vec<u8>, devices: &[Shown]) -> Result<(), AllocError>
    ensures { OnOk result (IsAdded out.old.items (device_metrics devices.now) out.new.items) }
{
    put_figure(out, Figure::Answers, devices)?;
    put_figure(out, Figure::Outputs, devices)?;
    put_figure(out, Figure::Replies, devices)?;
    put_figure(out, Figure::Skipped, devices)?;
    put_figure(out, Figure::Retries, devices)?;
    put_figure(out, Figure::Losses, devices)?;
    Ok(())
}

/// The bucket of rounds up to this bound: so many up to it.
fn put_span_line(out: &mut Vec<u8>, name: &[u8], bound: u64, count: u64) -> Result<(), AllocError>
    ensures { OnOk result (IsAdded out.old.items (span_line name.now bound count) out.new.items) }
{
    put(out, b"plc_field_round_seconds_bucket{device=\"")?;
    put_within(out, Within::Label, name)?;
    put(out, b"\",le=\"")?;
    put_millis(out, bound)?;
    put(out, b"\"} ")?;
    put_number(out, count)?;
    put(out, b"\n")?;
    Ok(())
}

/// The bucket at this place, which has this bound, with those before it.
fn put_span(
    out: &mut Vec<u8>,
    name: &[u8],
    counts: &[u64; BUCKETS],
    place: usize,
    bound: u64,
) -> Result<(), AllocError>
    requires { place < 13 }
    ensures { OnOk result (IsAdded out.old.items (span_text name.now counts.now (place, bound)) out.new.items) }
{
    put_span_line(out, name, bound, sum_of(&counts[..place + 1]))
}

/// The buckets that have a bound.
fn put_spans(out: &mut Vec<u8>, name: &[u8], counts: &[u64; BUCKETS]) -> Result<(), AllocError>
    ensures { OnOk result (IsAdded out.old.items (span_lines name.now counts.now) out.new.items) }
{
    for (place, bound) in BOUNDS.iter().enumerate() {
        put_span(out, name, counts, place, *bound)?;
    }
    Ok(())
}

/// The bucket of all rounds.
fn put_none_longer(out: &mut Vec<u8>, name: &[u8], count: u64) -> Result<(), AllocError>
    ensures { OnOk result (IsAdded out.old.items (none_longer name.now count) out.new.items) }
{
    put(out, b"plc_field_round_seconds_bucket{device=\"")?;
    put_within(out, Within::Label, name)?;
    put(out, b"\",le=\"+Inf\"} ")?;
    put_number(out, count)?;
    put(out, b"\n")?;
    Ok(())
}

/// The times of all rounds together.
fn put_sum(out: &mut Vec<u8>, name: &[u8], millis: u64) -> Result<(), AllocError>
    ensures { OnOk result (IsAdded out.old.items (sum_line name.now millis) out.new.items) }
{
    put(out, b"plc_field_round_seconds_sum{device=\"")?;
    put_within(out, Within::Label, name)?;
    put(out, b"\"} ")?;
    put_millis(out, millis)?;
    put(out, b"\n")?;
    Ok(())
}

/// How many rounds there were.
fn put_count(out: &mut Vec<u8>, name: &[u8], count: u64) -> Result<(), AllocError>
    ensures { OnOk result (IsAdded out.old.items (count_line name.now count) out.new.items) }
{
    put(out, b"plc_field_round_seconds_count{device=\"")?;
    put_within(out, Within::Label, name)?;
    put(out, b"\"} ")?;
    put_number(out, count)?;
    put(out, b"\n")?;
    Ok(())
}

/// The times of the rounds of a device with this name: their buckets, all together, and how many there were.
fn put_rounds_of(
    out: &mut Vec<u8>,
    name: &[u8],
    counts: &[u64; BUCKETS],
    sum: u64,
) -> Result<(), AllocError>
    ensures { OnOk result (IsAdded out.old.items (rounds_of name.now counts.now sum) out.new.items) }
{
    let count = sum_of(counts);
    put_spans(out, name, counts)?;
    put_none_longer(out, name, count)?;
    put_sum(out, name, sum)?;
    put_count(out, name, count)?;
    Ok(())
}

/// The times of the rounds of a device.
fn put_rounds_by(out: &mut Vec<u8>, device: &Shown) -> Result<(), AllocError>
    ensures { OnOk result (IsAdded out.old.items (rounds_by device.now) out.new.items) }
{
    put_rounds_of(
        out,
        device.party.name.as_slice(),
        &device.spans.counts,
        device.spans.sum,
    )?;
    Ok(())
}

/// The times of the rounds of each device.
fn put_rounds_of_all(out: &mut Vec<u8>, devices: &[Shown]) -> Result<(), AllocError>
    ensures { OnOk result (IsAdded out.old.items (rounds_of_all devices.now) out.new.items) }
{
    for device in devices {
        put_rounds_by(out, device)?;
    }
    Ok(())
}

/// The same, and what they are.
fn put_rounds(out: &mut Vec<u8>, devices: &[Shown]) -> Result<(), AllocError>
    ensures { OnOk result (IsAdded out.old.items (rounds_metrics devices.now) out.new.items) }
{
    put_family(
        out,
        b"plc_field_round_seconds",
        b"histogram",
        b"Time from the first request of a round of the device to its last reply.",
    )?;
    put_rounds_of_all(out, devices)?;
    Ok(())
}

/// Whether the controller answers, by the address that is tried or connected.
fn put_address(out: &mut Vec<u8>, controller: &Party) -> Result<(), AllocError>
    ensures { OnOk result (IsAdded out.old.items (address_line controller.now) out.new.items) }
{
    put(out, b"plc_field_controller_answers{address=\"")?;
    put_within(out, Within::Label, controller.name.as_slice())?;
    put(out, b"\"} ")?;
    put_number(out, answers_number(controller.state))?;
    put(out, b"\n")?;
    Ok(())
}

/// The figures of the controller.
fn put_controller(out: &mut Vec<u8>, controller: &Party) -> Result<(), AllocError>
    ensures { OnOk result (IsAdded out.old.items (controller_metrics controller.now) out.new.items) }
{
    put_family(
        out,
        b"plc_field_controller_answers",
        b"gauge",
        b"Whether the controller answers at the address in force.",
    )?;
    put_address(out, controller)?;
    put_counter(
        out,
        b"plc_field_controller_replies_total",
        b"Replies of the controller that were taken.",
        controller.tally.replies,
    )?;
    put_counter(
        out,
        b"plc_field_controller_losses_total",
        b"Connections to the controller that were given up.",
        controller.tally.losses,
    )?;
    Ok(())
}

/// How many cycles began.
fn put_cycles(out: &mut Vec<u8>, cycles: u64) -> Result<(), AllocError>
    ensures { OnOk result (IsAdded out.old.items (cycle_metrics cycles) out.new.items) }
{
    put_counter(
        out,
        b"plc_field_cycles_total",
        b"Cycles that began.",
        cycles,
    )
}

/// Adds all figures of what shows, by the version of the program.
pub(crate) fn put_metrics(
    out: &mut Vec<u8>,
    site: &FieldSite,
    reading: &Reading,
) -> Result<(), AllocError>
    ensures { OnOk result (IsAdded out.old.items (metrics_text site.now.version.items reading.now) out.new.items) }
{
    put_build(out, site.version.as_slice())?;
    put_cycles(out, reading.cycles)?;
    put_controller(out, &reading.controller)?;
    put_devices(out, reading.devices.as_slice())?;
    put_rounds(out, reading.devices.as_slice())?;
    Ok(())
}
