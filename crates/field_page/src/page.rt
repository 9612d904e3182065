//! The page: its text, which is readable by itself, and the script that makes it a view.

ghost use Rattle.std.specs.Prelude.{◌≡◌, OnOk};
ghost use Rattle.field_page.specs.Page.{controller_line, cycles_line, device_line, device_lines, outputs_words};
ghost use Rattle.field_page.specs.Page.{page_text, party_words, rounds_words, tally_words};
ghost use Rattle.plc_figures.specs.Texts.{IsAdded};

use crate::reading::{Party, Reading, Shown};
use crate::site::FieldSite;
use crate::text::{Within, put_millis, put_text, put_within, state_name};
use field_cycle::{Spans, Tally};
use plc_figures::{put, put_number, sum_of};
use std::alloc::AllocError;

/// The page up to what shows.
const HEAD: &str = r#"<!doctype html>
<html lang="en">
<head>
<meta charset="utf-8">
<meta name="viewport" content="width=device-width, initial-scale=1">
<meta name="color-scheme" content="light dark">
<title>Field</title>
<link rel="stylesheet" href="style.css">
<script src="script.js" defer></script>
</head>
<body>
<header><span id="lamp" class="lamp"></span><h1>Field</h1><p id="says" role="status"></p><p id="version"></p></header>
<main>
<pre id="plain">
"#;

/// The page behind what shows.
const TAIL: &str = r#"</pre>
<div id="view" hidden>
<section class="wide tiles" id="tiles" aria-label="Cycles"></section>
<section class="wide"><h2>Devices</h2>
<table><thead><tr><th>Name</th><th>State</th><th>Outputs</th><th>Rounds</th><th>Last</th><th>Longest</th>
<th>Replies</th><th>Late or twice</th><th>Asked again</th><th>Lost</th></tr></thead>
<tbody id="devices"></tbody></table></section>
<section class="wide"><h2>What goes where</h2><pre id="table" tabindex="0"></pre></section>
<section class="wide" id="told"><h2>Notices</h2>
<ol id="notices" tabindex="0" aria-label="Notices, the last one first"></ol></section>
</div>
</main>
</body>
</html>
"#;

/// What the page does: it asks each second for what shows.
pub(crate) const SCRIPT: &str = r#"'use strict';
const byId = (id) => document.getElementById(id);
const make = (name, kind, ...inside) => {
  const made = document.createElement(name);
  if (kind) made.className = kind;
  made.append(...inside.map((it) => it instanceof Node ? it : String(it)));
  return made;
};
const fill = (id, made) => byId(id).replaceChildren(...made);
const count = (number) => number.toLocaleString('en');
const millis = (seconds) => Math.round(seconds * 1000) + ' ms';
const kindOf = (state) => state === 'answers' ? 'good' : state === 'lost' ? 'bad' : 'warn';
let before = null;

function rate(cycles) {
  const now = performance.now();
  const last = before;
  before = { now, cycles };
  return last === null ? '–' : ((cycles - last.cycles) * 1000 / (now - last.now)).toFixed(1);
}

function tiles(state) {
  const { controller, devices, cycles } = state;
  const tile = (name, value, kind) => make('div', 'tile', make('b', kind, value), make('span', '', name));
  const answering = devices.filter((it) => it.state === 'answers').length;
  fill('tiles', [tile('cycles a second', rate(cycles)), tile('cycles', count(cycles)),
    tile('controller', controller.name), tile('it ' + controller.state, count(controller.replies) + ' replies',
      kindOf(controller.state)),
    tile('devices answer', answering + ' of ' + devices.length, answering === devices.length ? '' : 'bad')]);
}

function device(it) {
  const cell = (value, kind) => make('td', kind, value);
  return make('tr', '', cell(it.name), cell(it.state, kindOf(it.state)), cell(it.outputs ? 'yes' : 'no'),
    cell(count(it.rounds)), cell(millis(it.last)), cell(millis(it.longest)), cell(count(it.replies)),
    cell(count(it.skipped)), cell(count(it.retries)), cell(count(it.losses)));
}

function notice(it) {
  const time = new Date(it.at * 1000);
  const shown = make('time', '', time.toLocaleTimeString('en-GB'));
  shown.dateTime = time.toISOString();
  shown.title = time.toLocaleString();
  return make('li', '', shown, it.line);
}

function says(kind, words) {
  byId('lamp').className = 'lamp ' + kind;
  byId('says').className = kind;
  byId('says').textContent = words;
}

function judge(state) {
  const lost = state.devices.filter((it) => it.state !== 'answers').map((it) => it.name);
  if (state.controller.state === 'lost') says('bad', 'the controller is lost');
  else if (state.controller.state !== 'answers') says('warn', 'the controller is not known yet');
  else if (lost.length > 0) says('bad', 'no answer from ' + lost.join(', '));
  else says('good', 'all devices answer');
}

async function show() {
  const answer = await fetch('state');
  if (!answer.ok) throw new Error(answer.status);
  const state = await answer.json();
  byId('version').textContent = 'plc ' + state.version;
  judge(state);
  tiles(state);
  fill('devices', state.devices.map(device));
  byId('table').textContent = state.table;
  byId('told').hidden = state.notices.length === 0;
  fill('notices', [...state.notices].reverse().map(notice));
  byId('plain').hidden = true;
  byId('view').hidden = false;
  byId('view').classList.remove('old');
}

async function go() {
  try {
    await show();
  } catch (fault) {
    says('bad', 'no answer: what is shown is old');
    byId('view').classList.add('old');
  }
  setTimeout(go, 1000);
}
go();
"#;

/// What was counted of a connection, in words.
fn put_tally(out: &mut Vec<u8>, tally: Tally) -> Result<(), AllocError>
    ensures { OnOk result (IsAdded out.old.items (tally_words tally) out.new.items) }
{
    put(out, b", ")?;
    put_number(out, tally.replies)?;
    put(out, b" replies, ")?;
    put_number(out, tally.skipped)?;
    put(out, b" late or twice, ")?;
    put_number(out, tally.retries)?;
    put(out, b" asked again, ")?;
    put_number(out, tally.losses)?;
    put(out, b" lost")?;
    Ok(())
}

/// The controller, or a device, in words.
fn put_party(out: &mut Vec<u8>, party: &Party) -> Result<(), AllocError>
    ensures { OnOk result (IsAdded out.old.items (party_words party.now) out.new.items) }
{
    put_within(out, Within::Html, party.name.as_slice())?;
    put(out, b": ")?;
    put(out, state_name(party.state))?;
    put_tally(out, party.tally)?;
    Ok(())
}

/// The times of rounds, in words.
fn put_spans(out: &mut Vec<u8>, spans: &Spans) -> Result<(), AllocError>
    ensures { OnOk result (IsAdded out.old.items (rounds_words spans.now) out.new.items) }
{
    put(out, b", ")?;
    put_number(out, sum_of(&spans.counts))?;
    put(out, b" rounds, the last ")?;
    put_millis(out, spans.last)?;
    put(out, b" s, the longest ")?;
    put_millis(out, spans.longest)?;
    put(out, b" s")?;
    Ok(())
}

/// Whether a device has outputs, in words.
fn outputs_words(has_outputs: bool) -> &'static [u8]
    ensures { result.now ≡ outputs_words has_outputs }
{
    if has_outputs {
        b", has outputs\n"
    } else {
        b", no outputs\n"
    }
}

/// A device, in words.
fn put_device(out: &mut Vec<u8>, device: &Shown) -> Result<(), AllocError>
    ensures { OnOk result (IsAdded out.old.items (device_line device.now) out.new.items) }
{
    put_party(out, &device.party)?;
    put_spans(out, &device.spans)?;
    put(out, outputs_words(device.has_outputs))?;
    Ok(())
}

/// The devices, a line each.
fn put_devices(out: &mut Vec<u8>, devices: &[Shown]) -> Result<(), AllocError>
    ensures { OnOk result (IsAdded out.old.items (device_lines devices.now) out.new.items) }
{
    for device in devices {
        put_device(out, device)?;
    }
    Ok(())
}

/// How many cycles began, in words.
fn put_cycles(out: &mut Vec<u8>, cycles: u64) -> Result<(), AllocError>
    ensures { OnOk result (IsAdded out.old.items (cycles_line cycles) out.new.items) }
{
    put(out, b"cycles: ")?;
    put_number(out, cycles)?;
    put(out, b"\n")?;
    Ok(())
}

/// The controller, in words.
fn put_controller(out: &mut Vec<u8>, controller: &Party) -> Result<(), AllocError>
    ensures { OnOk result (IsAdded out.old.items (controller_line controller.now) out.new.items) }
{
    put(out, b"controller ")?;
    put_party(out, controller)?;
    put(out, b"\n")?;
    Ok(())
}

/// Adds the page, with what shows in words, and with what goes where.
pub(crate) fn put_page(
    out: &mut Vec<u8>,
    site: &FieldSite,
    reading: &Reading,
) -> Result<(), AllocError>
    ensures { OnOk result (IsAdded out.old.items (page_text reading.now site.now.table.items) out.new.items) }
{
    put_text(out, HEAD)?;
    put_cycles(out, reading.cycles)?;
    put_controller(out, &reading.controller)?;
    put_devices(out, reading.devices.as_slice())?;
    put(out, b"\n")?;
    put_within(out, Within::Html, site.table.as_slice())?;
    put_text(out, TAIL)?;
    Ok(())
}
