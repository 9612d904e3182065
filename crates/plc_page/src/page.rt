//! The page: its text, which is readable by itself, and the style and the script that make it a view.

ghost use Rattle.std.specs.Prelude.{◌≡◌, OnOk};
ghost use Rattle.plc_page.specs.Page.{age_words, halt_words, page_text, point_line, point_lines, replica_line};
ghost use Rattle.plc_page.specs.Page.{replica_lines, scan_line, held_words, known_age, stopped_words};
ghost use Rattle.plc_page.specs.Page.{course_words, hearing_words, machine_line, machine_words, majority_words};
ghost use Rattle.plc_figures.specs.Texts.{IsAdded};

use plc_figures::{
    Halt, Machine, Point, Reading, Replica, Scans, phase_name, put, put_number, put_place,
    put_seconds, put_small_number, put_value, stop_name,
};
use std::alloc::AllocError;

/// What a browser may load for the page: its own style and script, and what shows; no other site may frame it.
pub(crate) const POLICY: &str =
    "default-src 'none'; connect-src 'self'; script-src 'self'; style-src 'self'; \
base-uri 'none'; form-action 'none'; frame-ancestors 'none'";

/// The page up to what shows.
const HEAD: &str = r#"<!doctype html>
<html lang="en">
<head>
<meta charset="utf-8">
<meta name="viewport" content="width=device-width, initial-scale=1">
<meta name="color-scheme" content="light dark">
<title>PLC</title>
<link rel="stylesheet" href="style.css">
<script src="script.js" defer></script>
</head>
<body>
<header><span id="lamp" class="lamp"></span><h1>PLC</h1><p id="says" role="status"></p>
<p id="forced" role="alert" hidden></p><p id="version"></p></header>
<main>
<pre id="plain">
"#;

/// The page behind what shows.
const TAIL: &str = r#"</pre>
<div id="view" hidden>
<section id="halted" class="wide" hidden>
<h2 id="why"></h2><ol id="listing" tabindex="0" aria-label="The program"></ol></section>
<section class="wide tiles" id="tiles" aria-label="Scans"></section>
<section id="group"><h2>Replicas</h2>
<table><thead><tr><th>Replica</th><th>State</th><th>View</th><th>Starts</th></tr></thead>
<tbody id="replicas"></tbody></table></section>
<section id="ins"><h2>Inputs</h2><ul id="inputs"></ul></section>
<section id="outs"><h2>Outputs</h2><ul id="outputs"></ul></section>
<section id="vals" class="wide" hidden><h2>Values</h2>
<input id="filter" type="search" placeholder="part of a name" aria-label="Show names with this in them">
<p id="forces" hidden></p>
<ul id="trends" aria-label="The last ten minutes"></ul>
<ul id="values"></ul></section>
<section id="told"><h2>Notices</h2>
<ol id="notices" tabindex="0" aria-label="Notices, the last one first"></ol></section>
</div>
</main>
</body>
</html>
"#;

/// How the page looks.
pub const STYLE: &str = r#":root {
  color-scheme: light dark;
  --page: #f4f5f7; --card: #ffffff; --text: #1c2128; --quiet: #626b77; --line: #dfe3e8;
  --good: #1a7f37; --bad: #c62828; --warn: #9a6700; --lit: #2fb344; --dark: #d5dae1; --mark: #ffe2df;
}
@media (prefers-color-scheme: dark) {
  :root {
    --page: #0e1116; --card: #171b22; --text: #e4e8ee; --quiet: #919cab; --line: #2a313c;
    --good: #4cc26b; --bad: #ff7b72; --warn: #e3b341; --lit: #3ddc64; --dark: #333c48; --mark: #4c1f20;
  }
}
* { box-sizing: border-box; }
body { margin: 0; background: var(--page); color: var(--text); font: 15px/1.45 system-ui, "DejaVu Sans", sans-serif; }
header { display: flex; flex-wrap: wrap; gap: .25rem .75rem; align-items: center; padding: .75rem 1.25rem;
  background: var(--card); border-bottom: 1px solid var(--line); }
h1 { font-size: 1.15rem; margin: 0; letter-spacing: .04em; }
header p { margin: 0; }
#version { margin-left: auto; color: var(--quiet); font-size: .85rem; }
#forced { background: var(--bad); color: var(--card); font-weight: 700; letter-spacing: .06em; padding: .1rem .7rem;
  border-radius: .3rem; }
#forced[hidden] { display: none; }
main { max-width: 76rem; margin: 0 auto; padding: 1.25rem; }
#view { display: grid; gap: 1rem; grid-template-columns: repeat(auto-fit, minmax(min(21rem, 100%), 1fr)); }
#view[hidden], section[hidden], pre[hidden] { display: none; }
section { background: var(--card); border: 1px solid var(--line); border-radius: .6rem; padding: .9rem 1.1rem;
  min-width: 0; }
.wide { grid-column: 1 / -1; }
h2 { font-size: .8rem; margin: 0 0 .6rem; color: var(--quiet); text-transform: uppercase; letter-spacing: .08em; }
.tiles { display: grid; gap: 1rem; grid-template-columns: repeat(auto-fit, minmax(7.5rem, 1fr)); }
.tile b { display: block; font-size: 1.35rem; font-weight: 600; line-height: 1.4; white-space: nowrap;
  font-variant-numeric: tabular-nums; }
.tile span { color: var(--quiet); font-size: .85rem; }
table { width: 100%; border-collapse: collapse; font-variant-numeric: tabular-nums; }
th { text-align: left; font-weight: 500; color: var(--quiet); font-size: .85rem; }
th, td { padding: .3rem .5rem .3rem 0; border-bottom: 1px solid var(--line); }
tbody tr:last-child td { border-bottom: 0; }
ul, ol { list-style: none; margin: 0; padding: 0; }
#inputs li, #outputs li, #values li { display: flex; gap: .7rem; align-items: center; padding: .3rem 0;
  border-bottom: 1px solid var(--line); }
#inputs li:last-child, #outputs li:last-child, #values li:last-child { border-bottom: 0; }
.name { overflow-wrap: anywhere; }
.place { margin-left: auto; color: var(--quiet); font: .85rem ui-monospace, "DejaVu Sans Mono", monospace; }
.number { min-width: 4.5rem; text-align: right; font-weight: 600; font-variant-numeric: tabular-nums; }
.lamp { flex: none; display: inline-block; width: .95rem; height: .95rem; border-radius: 50%; background: var(--dark);
  box-shadow: inset 0 0 0 1px #0003; }
.lamp.on, .lamp.good { background: var(--lit); box-shadow: inset 0 0 0 1px #0002, 0 0 .5rem var(--lit); }
.lamp.bad { background: var(--bad); box-shadow: 0 0 .5rem var(--bad); }
.lamp.warn { background: var(--warn); box-shadow: 0 0 .5rem var(--warn); }
.bit { min-width: 4.5rem; display: flex; gap: .5rem; align-items: center; justify-content: flex-end;
  color: var(--quiet); }
#inputs .fold, #outputs .fold, #values .fold { display: block; }
#values .set { background: var(--mark); }
#forces { margin: .2rem 0 .4rem; color: var(--bad); font-weight: 600; overflow-wrap: anywhere; }
#values .set .name::after { content: "forced"; margin-left: .6rem; color: var(--bad); font-size: .8rem;
  font-weight: 700; }
#values button { font: inherit; color: inherit; background: none; border: 0; padding: 0; text-align: left;
  cursor: pointer; }
#values button[aria-pressed="true"] { text-decoration: underline; }
#trends li { display: flex; flex-wrap: wrap; gap: .7rem; align-items: center; padding: .3rem 0; }
#trends svg { flex-basis: 100%; height: 4rem; background: var(--page); border-radius: .3rem; }
#trends path { fill: none; stroke: var(--lit); stroke-width: 1.5; vector-effect: non-scaling-stroke; }
#filter { font: inherit; width: 100%; max-width: 24rem; padding: .3rem .5rem; margin-bottom: .4rem;
  color: inherit; background: var(--page); border: 1px solid var(--line); border-radius: .3rem; }
.fold ul { margin-top: .3rem; padding-left: 1.3rem; border-top: 1px solid var(--line); }
summary { display: flex; gap: .7rem; align-items: center; cursor: pointer; }
summary::-webkit-details-marker { display: none; }
summary::before { content: "\25b8"; width: .6rem; color: var(--quiet); }
details[open] > summary::before { content: "\25be"; }
summary > * { pointer-events: none; }
.lamps { display: flex; flex-wrap: wrap; gap: .35rem; justify-content: flex-end; max-width: 50%; }
.good { color: var(--good); }
.bad { color: var(--bad); font-weight: 600; }
.warn { color: var(--warn); font-weight: 600; }
#halted { border-color: currentColor; }
#halted h2 { color: inherit; }
#halted ol { color: var(--text); font-weight: 400; }
#listing, #notices { max-height: 18rem; overflow: auto; font: .85rem/1.6 ui-monospace, "DejaVu Sans Mono", monospace; }
#listing { counter-reset: line; }
#listing .stop { box-shadow: inset .3rem 0 var(--warn); }
#listing li { counter-increment: line; white-space: pre; padding: 0 .5rem 0 4rem; position: relative;
  min-width: max-content; }
#listing li::before { content: counter(line); position: absolute; left: 0; width: 3rem; text-align: right;
  color: var(--quiet); }
#listing li[aria-current] { background: var(--mark); color: inherit; font-weight: 700;
  box-shadow: inset .25rem 0 var(--bad); }
#notices li { padding: .15rem 0; } #notices time { color: var(--quiet); margin-right: .9rem; }
pre { margin: 0; overflow: auto; font: .9rem/1.6 ui-monospace, "DejaVu Sans Mono", monospace; }
.old { opacity: .45; }
:focus-visible { outline: 2px solid var(--good); outline-offset: 2px; border-radius: .3rem; }
@media (max-width: 30rem) { main { padding: .75rem; } .tile b { font-size: 1.2rem; } #version { display: none; } }
"#;

/// What the page does: it asks each second for what shows.
pub(crate) const SCRIPT: &str = r#"'use strict';
const byId = (id) => document.getElementById(id);
const make = (name, kind, ...inside) => {
  const made = document.createElement(name);
  if (kind) made.className = kind;
  made.append(...inside.map((it) => it instanceof Node ? it : String(it)));
  return made;
};
const fill = (id, made) => byId(id).replaceChildren(...made);
const duration = (time) => time < 1 ? Math.round(time * 1000) + ' ms' : time < 120 ? time.toFixed(1) + ' s'
  : Math.round(time / 60) + ' min';
const isNormal = (it) => it.status === 'normal' && !it.failed;
const standsBy = (state) => state.machine !== null && !state.machine.driving;
const isAlone = (state) => state.machine !== null && !state.machine.majority;
const heard = (machine) => machine.heard + ' of ' + machine.others;
let before = null;

function rate(scans) {
  const now = performance.now();
  const last = before;
  before = { now, count: scans.count };
  return last === null ? '–' : ((scans.count - last.count) * 1000 / (now - last.now)).toFixed(1);
}

function tiles(state) {
  const { scans, machine } = state;
  const normal = state.replicas.filter(isNormal).length;
  const all = state.replicas.length;
  const tile = (name, value, kind) => make('div', 'tile', make('b', kind, value), make('span', '', name));
  const made = [tile('scans a second', rate(scans)), tile('last interval', duration(scans.interval))];
  if (scans.age !== null && !standsBy(state))
    made.push(tile('last release', duration(scans.age) + ' ago', scans.fresh ? '' : 'bad'));
  made.push(tile('scans', scans.count.toLocaleString('en')), tile('late scans', scans.late.toLocaleString('en')));
  if (machine === null) made.push(tile('replicas normal', normal + ' of ' + all, normal === all ? '' : 'warn'));
  else made.push(tile('epoch', machine.epoch), tile('other machines heard', heard(machine),
    isAlone(state) ? 'bad' : machine.heard < machine.others ? 'warn' : ''));
  made.push(tile('requests of clients', state.clients.requests.toLocaleString('en')));
  fill('tiles', made);
}

const isBit = (it) => it.place[2] === 'X';

function lamp(it) {
  const made = make('span', it.value ? 'lamp on' : 'lamp');
  made.setAttribute('aria-hidden', 'true');
  return made;
}

function point(it, name) {
  const shown = isBit(it) ? make('span', 'bit', it.value ? 'on' : 'off', lamp(it)) : make('span', 'number', it.value);
  return make('li', '', make('span', 'name', name), make('span', 'place', it.place), shown);
}

// Elements that are there already stay as they are: one that was opened stays open, and keeps the focus.
function refill(list, made) {
  made.forEach((it, at) => {
    const there = list.children[at];
    if (there === undefined) list.append(it);
    else if (there !== it) there.replaceWith(it);
  });
  while (list.children.length > made.length) list.lastElementChild.remove();
}

const folds = new Map();

function foldAt(front) {
  if (!folds.has(front)) {
    const line = make('summary');
    const list = make('ul');
    folds.set(front, { item: make('li', 'fold', make('details', '', line, list)), line, list });
  }
  return folds.get(front);
}

function count(points) {
  const bits = points.filter(isBit);
  return bits.length === 0 ? points.length + (points.length === 1 ? ' value' : ' values')
    : bits.filter((it) => it.value).length + ' of ' + bits.length + ' on';
}

// An instance is one line, with a lamp for each bit, until it's opened.
function fold(front, name, points) {
  const { item, line, list } = foldAt(front);
  line.replaceChildren(make('span', 'name', name), make('span', 'place', count(points)),
    make('span', 'lamps', ...points.filter(isBit).map(lamp)));
  refill(list, branches(front, points));
  return item;
}

// What stands under a name with a dot behind it, of which the first parts are the front.
function branches(front, points) {
  const parts = new Map();
  for (const it of points) {
    const end = it.name.indexOf('.', front.length) + 1;
    const part = it.name.slice(0, end > 0 ? end : undefined);
    parts.set(part, [...(parts.get(part) ?? []), it]);
  }
  return [...parts].map(([part, inside]) => part.endsWith('.')
    ? fold(part, part.slice(front.length, -1), inside) : point(inside[0], part.slice(front.length)));
}

function points(box, list, points) {
  byId(box).hidden = points.length === 0;
  refill(byId(list), branches('', points));
}

// What was seen of the names that were chosen in the last ten minutes: only this page has it.
const chosen = new Map();
const SPAN = 600;

function number(it) {
  const { value } = it;
  if (typeof value === 'number') return value;
  return value.startsWith('16#') ? parseInt(value.slice(3), 16) : Number(value);
}

function sample(all, now) {
  for (const it of all) if (it.value !== null) chosen.get(it.name)?.push({ at: now, value: number(it) });
  for (const samples of chosen.values()) while (samples.length > 0 && samples[0].at < now - SPAN) samples.shift();
}

const drawn = (name, given) => {
  const made = document.createElementNS('http://www.w3.org/2000/svg', name);
  for (const [key, it] of Object.entries(given)) made.setAttribute(key, it);
  return made;
};

// A value stays until another one is seen; where nothing was for five seconds, there's a gap.
function path(samples, now, least, most) {
  const y = (it) => most === least ? 30 : (57 - 54 * (it.value - least) / (most - least)).toFixed(1);
  const x = (it) => (SPAN - now + it.at).toFixed(1);
  return samples.map((it, at) => at === 0 || it.at - samples[at - 1].at > 5 ? 'M' + x(it) + ' ' + y(it)
    : 'H' + x(it) + 'V' + y(it)).join('');
}

function trend([name, samples], now) {
  const seen = samples.map((it) => it.value);
  const least = Math.min(...seen);
  const most = Math.max(...seen);
  const box = drawn('svg', { viewBox: '0 0 600 60', preserveAspectRatio: 'none', role: 'img',
    'aria-label': name + ' in the last ten minutes' });
  if (seen.length > 0) box.append(drawn('path', { d: path(samples, now, least, most) }));
  const words = seen.length === 0 ? 'not seen' : least === most ? String(least) : least + ' to ' + most;
  return make('li', '', make('span', 'name', name), make('span', 'place', words), box);
}

function choose(name) {
  if (!chosen.delete(name)) chosen.set(name, []);
}

// A row stays the same element, so that it keeps the focus.
const rows = new Map();

function row(name) {
  if (!rows.has(name)) {
    const pick = make('button', 'name', name);
    pick.title = 'shows its last ten minutes, or no more';
    pick.onclick = () => choose(name);
    const place = make('span', 'place');
    const box = make('span', '');
    rows.set(name, { item: make('li', '', pick, place, box), pick, place, box });
  }
  return rows.get(name);
}

function value(it) {
  const { item, pick, place, box } = row(it.name);
  item.className = it.forced ? 'set' : '';
  pick.setAttribute('aria-pressed', chosen.has(it.name));
  place.textContent = it.place === null ? it.type ?? '' : it.type + ' ' + it.place;
  box.className = it.type === 'BOOL' ? 'bit' : 'number';
  if (it.type === 'BOOL') box.replaceChildren(it.value ? 'on' : 'off', lamp(it));
  else box.textContent = it.type === 'TIME' ? it.value + ' ms' : it.value;
  return item;
}

// An instance is one line until it's opened; the filter opens nothing.
function instance(it, fields) {
  const { item, line, list } = foldAt('values of ' + it.name);
  line.replaceChildren(make('span', 'name', it.name), make('span', 'place', it.type),
    make('span', 'lamps', ...fields.filter((field) => field.type === 'BOOL').map(lamp)));
  refill(list, fields.map(value));
  return item;
}

// Where breakpoints were when values were asked for last.
let breaks = [];

async function values() {
  const answer = await fetch('values');
  const seen = answer.ok ? await answer.json() : null;
  byId('vals').hidden = seen === null;
  if (seen === null) return;
  breaks = seen.breaks;
  byId('forces').hidden = seen.forces.length === 0;
  byId('forces').textContent = 'Forced: ' + seen.forces.map((it) => it.place + ' = ' + it.value).join(', ');
  const now = performance.now() / 1000;
  sample([...seen.variables, ...seen.instances.flatMap((it) => it.fields)], now);
  fill('trends', [...chosen].map((it) => trend(it, now)));
  const wanted = byId('filter').value.trim().toLowerCase();
  const fits = (it) => it.name.toLowerCase().includes(wanted);
  const blocks = seen.instances.map((it) => [it, it.fields.filter(fits)]).filter(([, fields]) => fields.length > 0);
  refill(byId('values'), [...seen.variables.filter(fits).map(value),
    ...blocks.map(([it, fields]) => instance(it, fields))]);
}

function replica(it, isGood) {
  const state = it.failed ? it.status + ', store failed' : it.primary ? it.status + ', primary' : it.status;
  const kind = it.failed || it.status === 'down' ? 'bad' : it.status === 'normal' && isGood ? 'good' : 'warn';
  return make('tr', '', make('td', '', it.replica), make('td', kind, state), make('td', '', it.view),
    make('td', '', it.starts));
}

function notice(it) {
  const time = new Date(it.at * 1000);
  const shown = make('time', '', time.toLocaleTimeString('en-GB'));
  shown.dateTime = time.toISOString();
  shown.title = time.toLocaleString();
  return make('li', '', shown, it.line);
}

async function program() {
  const text = (await (await fetch('program')).text()).trimEnd();
  return text === '' ? [] : text.split('\n');
}

async function halted(halt) {
  byId('halted').hidden = halt === null;
  if (halt === null) return;
  const isHeld = halt.why === 'held';
  const all = await program();
  const first = all.lastIndexOf('END_VAR') + 1;
  const at = first + halt.position;
  const place = all.length > 0 ? 'line ' + (at + 1) : 'instruction ' + halt.position;
  byId('halted').className = isHeld ? 'wide warn' : 'wide bad';
  byId('why').textContent = isHeld ? 'Held before ' + place : 'Stopped at ' + place + ': ' + halt.why;
  const box = byId('listing');
  if (box.children.length !== all.length) fill('listing', all.map((line) => make('li', '', line)));
  box.querySelectorAll('.stop').forEach((it) => it.classList.remove('stop'));
  for (const position of all.length > 0 ? breaks : []) box.children[first + position]?.classList.add('stop');
  const marked = box.children[at];
  if (marked === undefined || marked.hasAttribute('aria-current')) return;
  box.querySelector('[aria-current]')?.removeAttribute('aria-current');
  marked.setAttribute('aria-current', 'true');
  box.scrollTop = marked.offsetTop - box.offsetTop - box.clientHeight / 2;
}

function says(kind, words) {
  byId('lamp').className = 'lamp ' + kind;
  byId('says').className = kind;
  byId('says').textContent = words;
}

function judge(state) {
  const { halt, age, fresh } = state.scans;
  const { machine, view } = state;
  const primary = state.replicas.find((it) => it.primary);
  const down = state.replicas.filter((it) => !isNormal(it)).map((it) => it.replica);
  const isBad = down.length > 0;
  if (isAlone(state)) says('bad', 'no majority: machine ' + machine.number + ' hears ' + heard(machine));
  else if (standsBy(state)) says(isBad ? 'warn' : 'good', 'machine ' + machine.number + ' stands by in view ' + view
    + (isBad ? '; its replica is not normal' : ''));
  else if (halt !== null && halt.why === 'held') says('warn', 'held at a breakpoint');
  else if (halt !== null) says('bad', 'stopped: ' + halt.why);
  else if (age !== null && !fresh) says('bad', 'nothing was released for ' + duration(age));
  else if (isBad) says('warn', 'runs; replica ' + down.join(', ') + ' not normal');
  else if (machine !== null) says('good', 'machine ' + machine.number + ' drives in view ' + view);
  else if (primary === undefined) says('warn', 'no replica leads');
  else says('good', 'runs; replica ' + primary.replica + ' leads in view ' + view);
}

async function show() {
  const answer = await fetch('state');
  if (!answer.ok) throw new Error(answer.status);
  const state = await answer.json();
  const { version, process } = state;
  byId('version').textContent = 'plc ' + version
    + (process === null ? '' : ', ' + (process.memory / 1048576).toFixed(1) + ' MB');
  judge(state);
  const forced = 'FORCED ' + state.forces;
  if (byId('forced').textContent !== forced) byId('forced').textContent = forced;
  byId('forced').hidden = state.forces === 0;
  tiles(state);
  fill('replicas', state.replicas.map((it) => replica(it, !isAlone(state))));
  points('ins', 'inputs', state.inputs);
  points('outs', 'outputs', state.outputs);
  byId('told').hidden = state.notices.length === 0;
  fill('notices', [...state.notices].reverse().map(notice));
  byId('plain').hidden = true;
  byId('view').hidden = false;
  byId('view').classList.remove('old');
  await halted(standsBy(state) ? null : state.scans.halt);
}

async function go() {
  try {
    await show();
  } catch (fault) {
    says('bad', 'no answer: what is shown is old');
    byId('view').classList.add('old');
  }
  setTimeout(go, 1000);
}

// By itself, since values may be waited for: where no replica leaves any, the rest of the page goes on.
async function look() {
  try {
    await values();
  } catch (fault) {
    byId('vals').hidden = true;
  }
  setTimeout(look, 1000);
}
go();
look();
"#;

/// Adds a text.
pub(crate) fn put_text(out: &mut Vec<u8>, text: &str) -> Result<(), AllocError>
    ensures { OnOk result (IsAdded out.old.items text.now out.new.items) }
{
    put(out, text.as_bytes())?;
    Ok(())
}

/// How long ago the scan began that released outputs last, in words.
fn put_known_age(out: &mut Vec<u8>, age: u64) -> Result<(), AllocError>
    ensures { OnOk result (IsAdded out.old.items (known_age age) out.new.items) }
{
    put(out, b", the last ")?;
    put_seconds(out, age)?;
    put(out, b" s ago")?;
    Ok(())
}

/// The same, if there was one.
fn put_age(out: &mut Vec<u8>, age: Option<u64>) -> Result<(), AllocError>
    ensures { OnOk result (IsAdded out.old.items (age_words age) out.new.items) }
{
    match age {
        None => Ok(()),
        Some(age) => put_known_age(out, age),
    }
}

/// Where the last scan was held, in words.
fn put_held(out: &mut Vec<u8>, position: u64) -> Result<(), AllocError>
    ensures { OnOk result (IsAdded out.old.items (held_words position) out.new.items) }
{
    put(out, b", held before instruction ")?;
    put_number(out, position)?;
    Ok(())
}

/// Why and where the last scan stopped, in words.
fn put_stopped(out: &mut Vec<u8>, why: &[u8], position: u64) -> Result<(), AllocError>
    ensures { OnOk result (IsAdded out.old.items (stopped_words why.now position) out.new.items) }
{
    put(out, b", stopped by ")?;
    put(out, why)?;
    put(out, b" at instruction ")?;
    put_number(out, position)?;
    Ok(())
}

/// By what the last scan was held or stopped, if it was.
fn put_halt(out: &mut Vec<u8>, halt: Option<Halt>) -> Result<(), AllocError>
    ensures { OnOk result (IsAdded out.old.items (halt_words halt) out.new.items) }
{
    match halt {
        None => Ok(()),
        Some(Halt::Held(position)) => put_held(out, u64::from(position)),
        Some(Halt::Stopped(stop, position)) => {
            put_stopped(out, stop_name(stop), u64::from(position))
        }
    }
}

/// The scans, in words.
fn put_scans(out: &mut Vec<u8>, scans: &Scans) -> Result<(), AllocError>
    ensures { OnOk result (IsAdded out.old.items (scan_line scans.now) out.new.items) }
{
    put(out, b"scans: ")?;
    put_number(out, scans.releases)?;
    put_age(out, scans.age)?;
    put_halt(out, scans.halt)?;
    put(out, b"\n")?;
    Ok(())
}

/// Whether a machine drives, in words.
fn course_words(is_driving: bool) -> &'static [u8]
    ensures { result.now ≡ course_words is_driving }
{
    if is_driving {
        b" drives"
    } else {
        b" stands by"
    }
}

/// Whether a machine and those that it hears are a majority, in words.
fn majority_words(is_majority: bool) -> &'static [u8]
    ensures { result.now ≡ majority_words is_majority }
{
    if is_majority {
        b", "
    } else {
        b", no majority: "
    }
}

/// What a machine hears, in words: whether that's a majority with it, how many others it hears, and how many there are.
fn put_hearing(out: &mut Vec<u8>, machine: Machine) -> Result<(), AllocError>
    ensures { OnOk result (IsAdded out.old.items (hearing_words machine) out.new.items) }
{
    put(out, majority_words(machine.has_majority))?;
    put(out, b"hears ")?;
    put_small_number(out, machine.heard)?;
    put(out, b" of ")?;
    put_small_number(out, machine.others)?;
    Ok(())
}

/// A machine, in words.
fn put_known_machine(out: &mut Vec<u8>, machine: Machine) -> Result<(), AllocError>
    ensures { OnOk result (IsAdded out.old.items (machine_line machine) out.new.items) }
{
    put(out, b"machine ")?;
    put_small_number(out, machine.number)?;
    put(out, course_words(machine.is_driving))?;
    put(out, b", epoch ")?;
    put_number(out, machine.epoch)?;
    put_hearing(out, machine)?;
    put(out, b"\n")?;
    Ok(())
}

/// The same, if it's of one.
fn put_machine(out: &mut Vec<u8>, machine: Option<Machine>) -> Result<(), AllocError>
    ensures { OnOk result (IsAdded out.old.items (machine_words machine) out.new.items) }
{
    match machine {
        None => Ok(()),
        Some(machine) => put_known_machine(out, machine),
    }
}

/// A replica, in words.
fn put_replica(out: &mut Vec<u8>, shown: &Replica) -> Result<(), AllocError>
    ensures { OnOk result (IsAdded out.old.items (replica_line shown.now) out.new.items) }
{
    put(out, b"replica ")?;
    put_small_number(out, shown.number)?;
    put(out, b": ")?;
    put(out, phase_name(shown.standing.status))?;
    put(out, b", view ")?;
    put_number(out, shown.standing.view)?;
    put(out, b"\n")?;
    Ok(())
}

/// All replicas, a line each.
fn put_replicas(out: &mut Vec<u8>, replicas: &[Replica]) -> Result<(), AllocError>
    ensures { OnOk result (IsAdded out.old.items (replica_lines replicas.now) out.new.items) }
{
    for shown in replicas {
        put_replica(out, shown)?;
    }
    Ok(())
}

/// An input or an output, in words.
fn put_point(out: &mut Vec<u8>, point: &Point) -> Result<(), AllocError>
    ensures { OnOk result (IsAdded out.old.items (point_line point.now) out.new.items) }
{
    put(out, point.name.as_slice())?;
    put(out, b" ")?;
    put_place(out, point.place)?;
    put(out, b" = ")?;
    put_value(out, point.value)?;
    put(out, b"\n")?;
    Ok(())
}

/// Inputs or outputs, a line each.
fn put_points(out: &mut Vec<u8>, points: &[Point]) -> Result<(), AllocError>
    ensures { OnOk result (IsAdded out.old.items (point_lines points.now) out.new.items) }
{
    for point in points {
        put_point(out, point)?;
    }
    Ok(())
}

/// Adds the page, with what shows in words.
pub(crate) fn put_page(out: &mut Vec<u8>, reading: &Reading) -> Result<(), AllocError>
    ensures { OnOk result (IsAdded out.old.items (page_text reading.now) out.new.items) }
{
    put_text(out, HEAD)?;
    put_scans(out, &reading.scans)?;
    put_machine(out, reading.machine)?;
    put_replicas(out, reading.replicas.as_slice())?;
    put_points(out, reading.inputs.as_slice())?;
    put_points(out, reading.outputs.as_slice())?;
    put_text(out, TAIL)?;
    Ok(())
}
