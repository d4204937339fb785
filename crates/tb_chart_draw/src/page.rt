//! The page around the data of a chart. Its script draws the rows in sight, and handles keys and the pointer.

/// The part of the page before the data.
pub(crate) const PAGE_BEFORE: &[u8] = br##"<!DOCTYPE html>
<html lang="en">
<head>
<meta charset="utf-8">
<meta name="viewport" content="width=device-width,initial-scale=1">
<title>Chart</title>
<style>
:root{color-scheme:light dark;--paper:#fff;--ink:#111;--soft:#555;--thin:#999;--pick:#ffe9a8;--hit:#dcecff;--line:#ccc}
@media screen and (prefers-color-scheme:dark){:root{--paper:#1b1b1b;--ink:#eee;--soft:#aaa;--thin:#777;--pick:#5a4a00;--hit:#1d3a5c;--line:#444}}
*{box-sizing:border-box}
html,body{margin:0;height:100%;background:var(--paper);color:var(--ink);font:13px ui-monospace,'DejaVu Sans Mono',monospace}
body{display:grid;grid-template:auto 1fr auto/minmax(0,1fr) minmax(260px,34%);height:100vh}
body.alone{grid-template-columns:minmax(0,1fr) 0}
body.alone #code{display:none}
header,footer{grid-column:1/-1;padding:6px 10px;display:flex;gap:12px;align-items:center;flex-wrap:wrap}
header{border-bottom:1px solid var(--line)}
footer{border-top:1px solid var(--line);min-height:2.4em;white-space:pre-wrap;overflow-wrap:anywhere;max-height:9em;overflow:auto}
h1{font-size:14px;margin:0}
input[type=search]{font:inherit;width:16em;background:var(--paper);color:var(--ink);border:1px solid var(--thin);padding:3px 6px}
button,summary{font:inherit;background:var(--paper);color:var(--ink);border:1px solid var(--thin);padding:3px 8px;cursor:pointer}
details{position:relative}
summary{list-style:none}
#lines,#keys{position:absolute;z-index:5;top:2.2em;left:0;background:var(--paper);border:1px solid var(--thin);padding:8px;max-height:60vh;overflow:auto;white-space:nowrap}
#lines label{display:block}
#view{overflow:auto;position:relative;outline:none}
#heads{position:sticky;top:0;z-index:2;background:var(--paper);display:block}
#sizer{position:relative}
#rows{position:absolute;left:0;top:0;display:block}
#code{overflow:auto;border-left:1px solid var(--line);padding:6px 0}
#code div{white-space:pre;padding:0 10px 0 0;width:max-content;min-width:100%}
#code i{display:inline-block;width:4.5em;text-align:right;padding-right:1em;color:var(--soft);background:var(--paper);font-style:normal;user-select:none;position:sticky;left:0}
#code b{font-weight:inherit;cursor:pointer;border-bottom:1px dotted var(--thin);scroll-margin:0 1em 0 5em}
#code b.on{background:var(--pick);outline:2px solid var(--ink);font-weight:bold}
svg text{fill:var(--ink);font:12px ui-monospace,'DejaVu Sans Mono',monospace;paint-order:stroke;stroke:var(--paper);stroke-width:4px;stroke-linejoin:round}
svg .h{font-weight:bold;text-anchor:middle;stroke:none}
svg .s{font-size:11px;text-anchor:middle;stroke:none}
svg .n{font-size:11px;text-anchor:end;fill:var(--soft)}
svg path,svg rect{fill:none;stroke:var(--ink);stroke-width:1.4px}
svg .b,svg .c{fill:var(--paper)}
svg .c{rx:12px;stroke-dasharray:5 3}
svg .l{stroke:var(--thin);stroke-width:1px;stroke-dasharray:2 3}
svg .f{fill:var(--ink)}
svg .t{stroke-dasharray:2 3}
svg .d{stroke-dasharray:8 4}
svg .a{stroke-dasharray:12 3 2 3}
svg .r{stroke-width:1px;stroke-dasharray:1 4}
svg .q{stroke-width:3px}
svg .x{stroke-width:1.8px}
svg .z{fill:transparent;stroke:none}
svg g{cursor:pointer}
svg g.hit .z{fill:var(--hit)}
svg g.on .z{fill:var(--pick)}
svg g.pick .z{stroke:var(--ink);stroke-width:2px}
svg g.hit .n{fill:var(--ink);font-weight:bold}
svg .g{fill:var(--paper);stroke:none}
svg g.hit .g{fill:var(--hit)}
svg g.on .g{fill:var(--pick)}
svg g.hit text,svg g.on text{stroke:none}
@media print{body{display:block;height:auto}header,footer,#code{display:none}#view{overflow:visible}}
</style>
</head>
<body>
<header>
<h1 id="title"></h1>
<label>find <input id="find" type="search" autocomplete="off"></label>
<button id="back" title="Shift+Enter, or N">previous</button>
<button id="next" title="Enter, or n">next</button>
<span id="count" role="status"></span>
<details name="menu"><summary>lifelines</summary><div id="lines"></div></details>
<button id="side" title="s">source</button>
<details name="menu"><summary>keys</summary><div id="keys">/ find &#183; n, N or Enter, Shift+Enter next and previous<br>Down, Up or j, k one row &#183; PageDown, PageUp twenty<br>Home, End first and last row<br>Left, Right scroll &#183; s source on or off<br>a show all lifelines &#183; Escape let go</div></details>
</header>
<main id="view" tabindex="0"><svg id="heads"></svg><div id="sizer"><svg id="rows"></svg></div></main>
<aside id="code"></aside>
<footer id="status"></footer>
<script id="data" type="application/json">"##;

/// The part of the page after the data.
pub(crate) const PAGE_AFTER: &[u8] = br##"</script>
<script>
'use strict';
const $ = id => document.getElementById(id);
const data = JSON.parse($('data').textContent);
const PITCH = 28, HEAD = 56, LEFT = 72;
const view = $('view'), heads = $('heads'), sizer = $('sizer'), rowsBox = $('rows');
const esc = text => text.replace(/[&<>"]/g, c => ({'&': '&amp;', '<': '&lt;', '>': '&gt;', '"': '&quot;'}[c]));
const short = (text, most) => { const c = [...text]; return c.length <= most ? text : c.slice(0, most - 1).join('') + '\u2026'; };
const LINE = {message: 'm', note: 't', question: 'm', order: 'e', event: 'e', answer: 'd', start: 'a', end: 'a'};
const FULL = {message: 1, note: 1, question: 1};
const rows = data.rows.map(r => ({number: r[0], kind: r[1], from: r[2], to: r[3], line: r[4], label: r[5], atoms: pairs(r.slice(6))}));
const hidden = new Set();
let shown = [], places = [], step = 150, hits = [], hit = -1, picked = -1, pointed = -1, still = false, byAtom = new Map(), atomOf = null;

function pairs(list) {
  const all = [];
  for (let i = 0; i + 1 < list.length; i += 2) all.push(list[i] + '.' + list[i + 1]);
  return all;
}

// Which rows are shown: those of which no end is hidden.
function sift() {
  const seen = data.lines.map((_, i) => i).filter(i => !hidden.has(i));
  places = [];
  seen.forEach((line, column) => { places[line] = column; });
  step = seen.length <= 12 ? 150 : seen.length <= 40 ? 110 : 76;
  shown = [];
  rows.forEach((row, i) => {
    if (row.from < 0 || (places[row.from] !== undefined && places[row.to] !== undefined)) shown.push(i);
  });
  let width = LEFT + Math.max(seen.length, 1) * step + 16;
  for (const i of shown) if (rows[i].from >= 0) width = Math.max(width, Math.min(x(places[rows[i].from]), x(places[rows[i].to])) + 24 + Math.min(100, rows[i].label.length) * 7.4);
  sizer.style.width = width + 'px';
  sizer.style.height = shown.length * PITCH + 20 + 'px';
  heads.setAttribute('width', width);
  heads.setAttribute('height', HEAD);
  heads.innerHTML = seen.map((line, column) => head(data.lines[line], x(column), seen.length > 12)).join('');
  look();
  draw();
}

const x = column => LEFT + column * step + step / 2;

function head(line, at, narrow) {
  const [kind, name, place] = line;
  const below = kind === 'process' ? (narrow ? '' : 'process ') + place : kind === 'tool' ? 'lane ' + place : '';
  return `<g><title>${esc(kind + ' ' + name + ' ' + below)}</title><rect class="${kind === 'process' ? 'b' : 'c'}" x="${at - step / 2 + 5}" y="8" width="${step - 10}" height="40"/>` +
    `<text class="h" x="${at}" y="25">${esc(short(name, Math.floor((step - 14) / 7.2)))}</text><text class="s" x="${at}" y="41">${below}</text></g>`;
}

// Only the rows in sight are in the page, so that a long log scrolls as a short one does.
function draw(all) {
  const first = all ? 0 : Math.max(0, Math.min(shown.length, Math.floor((view.scrollTop - HEAD) / PITCH)) - 10);
  const last = all ? Math.min(shown.length, 5000) : Math.min(shown.length, first + Math.ceil(view.clientHeight / PITCH) + 24);
  const height = (last - first) * PITCH;
  const parts = [];
  places.forEach(column => { parts.push(`<path class="l" d="M${x(column)} 0V${height + 20}"/>`); });
  const left = all ? 0 : view.scrollLeft;
  for (let i = first; i < last; i++) parts.push(one(shown[i], (i - first) * PITCH + 18, left));
  if (all && last < shown.length) parts.push(`<text x="${LEFT}" y="${height + 14}">and ${shown.length - last} more rows</text>`);
  rowsBox.setAttribute('width', sizer.style.width.slice(0, -2));
  rowsBox.setAttribute('height', height + 20);
  rowsBox.style.top = first * PITCH + 'px';
  rowsBox.innerHTML = parts.join('');
  paint();
}

// The number of a row, and the text of a rule, stay at the left edge of what is in sight.
function one(i, y, left) {
  const row = rows[i], label = esc(short(row.label, 100)), width = places.length ? LEFT + places.filter(p => p !== undefined).length * step : LEFT + step;
  let body;
  if (row.from < 0) {
    body = `<path class="${row.kind === 'tick' ? 'r' : 'q'}" d="M${LEFT} ${y}H${width}"/><text x="${left + LEFT + 4}" y="${y - 5}">${label}</text>`;
  } else {
    const a = x(places[row.from]), b = x(places[row.to]);
    if (row.kind === 'mark') body = `<rect class="f" x="${a - 3}" y="${y - 3}" width="6" height="6"/><text x="${a + 9}" y="${y + 4}">${label}</text>`;
    else if (row.kind === 'stop') body = `<path class="x" d="M${a - 6} ${y - 6}l12 12m0 -12l-12 12"/><text x="${a + 11}" y="${y + 4}">${label}</text>`;
    else if (row.kind === 'lost') body = `<path class="e" d="M${a} ${y}h-26"/><path class="x" d="M${a - 34} ${y - 4}l8 8m0 -8l-8 8"/><text x="${a + 9}" y="${y + 4}">${label}</text>`;
    else {
      const s = b > a ? -1 : 1, full = FULL[row.kind];
      const tip = full ? `M${b} ${y}l${9 * s} -4v8z` : `M${b} ${y}m${9 * s} -5l${-9 * s} 5l${9 * s} 5`;
      body = `<text x="${Math.min(a, b) + 14}" y="${y - 5}">${label}</text><path class="${LINE[row.kind]}" d="M${a} ${y}H${b}"/><path class="${full ? 'f' : 'x'}" d="${tip}"/>`;
    }
  }
  const edge = left > 0 ? `<rect class="g" x="${left}" y="${y - 17}" width="${LEFT - 6}" height="${PITCH - 2}"/>` : '';
  return `<g data-row="${i}"><rect class="z" x="0" y="${y - 18}" width="100%" height="${PITCH}"/>${body}${edge}<text class="n" x="${left + LEFT - 12}" y="${y + 4}">${row.number}</text></g>`;
}

// The source, with each place at which an atom begins as something to point at.
function write() {
  const starts = new Map();
  let index = 0, byte = 0;
  const at = new Map();
  data.atoms.forEach((marks, body) => {
    for (let i = 0; i + 1 < marks.length; i += 2) {
      const key = marks[i];
      if (!starts.has(key)) starts.set(key, {to: marks[i + 1], atoms: []});
      starts.get(key).atoms.push(body + '.' + (i / 2 + 1));
      at.set(body + '.' + (i / 2 + 1), key);
    }
  });
  atomOf = at;
  rows.forEach((row, i) => row.atoms.forEach(atom => {
    const key = at.get(atom);
    if (key === undefined) return;
    if (!byAtom.has(key)) byAtom.set(key, []);
    byAtom.get(key).push(i);
  }));
  let out = '<div><i>1</i>', line = 1, end = -1;
  for (const c of data.source) {
    if (byte === end) { out += '</b>'; end = -1; }
    const mark = starts.get(byte);
    if (mark && end < 0) { out += `<b data-at="${byte}">`; end = mark.to; }
    if (c === '\n') out += `</div><div><i>${++line}</i>`;
    else out += esc(c);
    const code = c.codePointAt(0);
    byte += code < 0x80 ? 1 : code < 0x800 ? 2 : code < 0x10000 ? 3 : 4;
  }
  $('code').innerHTML = (out + '</div>').replace(/<div><i>\d+<\/i><\/div>$/, '');
}

// What is pointed at, or else picked, is shown in the foot, in the chart and in the source.
function paint() {
  const now = pointed >= 0 ? pointed : picked;
  const lit = new Set(hits);
  for (const g of rowsBox.querySelectorAll('g')) {
    const i = +g.dataset.row;
    g.classList.toggle('hit', lit.has(i));
    g.classList.toggle('on', i === now);
    g.classList.toggle('pick', i === picked);
  }
  for (const b of $('code').querySelectorAll('b.on')) b.classList.remove('on');
  if (now >= 0) mark(rows[now].atoms.map(atom => atomOf.get(atom)));
  $('status').textContent = now >= 0 ? rows[now].line : '';
}

// The atom of the sender comes into sight last, so that it stays there.
function mark(keys) {
  const found = keys.filter(key => key !== undefined).map(key => $('code').querySelector(`b[data-at="${key}"]`));
  for (const b of found.reverse()) {
    b.classList.add('on');
    b.scrollIntoView({block: 'nearest', inline: 'nearest'});
  }
}

function look() {
  const words = $('find').value.toLowerCase();
  hits = words ? shown.filter(i => rows[i].line.toLowerCase().includes(words)) : [];
  hit = -1;
  tell();
}

function tell() {
  $('count').textContent = hits.length ? (hit < 0 ? '' : hit + 1 + ' of ') + hits.length + (hits.length === 1 ? ' entry' : ' entries') : $('find').value ? 'no entry' : '';
}

function seek(by) {
  if (!hits.length) return;
  if (hit < 0) {
    const after = hits.findIndex(i => i > picked);
    hit = by > 0 ? (after < 0 ? 0 : after) : ((after < 0 ? hits.length : after) - 1 + hits.length) % hits.length;
  } else hit = (hit + by + hits.length) % hits.length;
  pick(hits[hit]);
  tell();
}

function pick(i) {
  picked = i;
  pointed = -1;
  still = true;
  if (i >= 0) {
    const top = shown.indexOf(i) * PITCH + HEAD;
    if (top < view.scrollTop + HEAD + PITCH || top > view.scrollTop + view.clientHeight - 2 * PITCH) view.scrollTop = top - view.clientHeight / 2;
    const row = rows[i];
    if (row.from >= 0) {
      const a = Math.min(x(places[row.from]), x(places[row.to])), b = Math.max(x(places[row.from]), x(places[row.to]));
      if (a - step / 2 < view.scrollLeft + LEFT || b + step / 2 > view.scrollLeft + view.clientWidth) view.scrollLeft = Math.max(0, a - step - LEFT);
    }
  }
  draw();
}

function move(by) {
  const now = shown.indexOf(picked);
  go(now < 0 ? (by > 0 ? 0 : shown.length - 1) : now + by);
}

function go(to) {
  if (shown.length) pick(shown[Math.min(shown.length - 1, Math.max(0, to))]);
}

function hide(line, off) {
  if (off) hidden.add(line); else hidden.delete(line);
  if (picked >= 0 && rows[picked].from >= 0 && (hidden.has(rows[picked].from) || hidden.has(rows[picked].to))) picked = -1;
  pointed = -1;
  sift();
}

function boxes() {
  $('lines').innerHTML = '<button id="all">all</button> <button id="none">none</button>' + data.lines.map(([kind, name, place], i) =>
    `<label><input type="checkbox" data-line="${i}"${hidden.has(i) ? '' : ' checked'}> ${esc(name)} ${kind === 'process' ? 'process ' + place : kind === 'tool' ? 'lane ' + place : ''}</label>`).join('');
}

function all() {
  hidden.clear();
  boxes();
  sift();
}

function none() {
  data.lines.forEach((_, i) => hidden.add(i));
  if (picked >= 0 && rows[picked].from >= 0) picked = -1;
  boxes();
  sift();
}

function shut() {
  document.querySelectorAll('details').forEach(d => { d.open = false; });
}

const rowAt = target => { const g = target.closest && target.closest('g[data-row]'); return g ? +g.dataset.row : -1; };

// After a key, the rows move below a pointer that rests. It points at nothing until it moves.
const point = i => { if (i !== pointed) { pointed = i; paint(); } };
rowsBox.addEventListener('mouseover', e => { if (!still) point(rowAt(e.target)); });
rowsBox.addEventListener('mousemove', e => { if (e.movementX || e.movementY) { still = false; point(rowAt(e.target)); } });
rowsBox.addEventListener('mouseleave', () => point(-1));
rowsBox.addEventListener('click', e => { const i = rowAt(e.target); pick(i === picked ? -1 : i); });
view.addEventListener('scroll', () => requestAnimationFrame(() => draw()));
window.addEventListener('resize', () => draw());
window.addEventListener('beforeprint', () => draw(true));
window.addEventListener('afterprint', () => draw());
$('code').addEventListener('mouseover', e => {
  const b = e.target.closest('b[data-at]');
  if (!b) return;
  const list = byAtom.get(+b.dataset.at) || [];
  b.title = list.length + (list.length === 1 ? ' entry' : ' entries');
  const lit = new Set(list);
  for (const g of rowsBox.querySelectorAll('g')) g.classList.toggle('on', lit.has(+g.dataset.row));
});
$('code').addEventListener('mouseout', () => paint());
$('code').addEventListener('click', e => {
  const b = e.target.closest('b[data-at]');
  if (!b) return;
  const there = new Set(shown);
  hits = (byAtom.get(+b.dataset.at) || []).filter(i => there.has(i));
  hit = -1;
  $('find').value = '';
  seek(1);
  draw();
});
$('lines').addEventListener('change', e => hide(+e.target.dataset.line, !e.target.checked));
$('lines').addEventListener('click', e => { e.stopPropagation(); if (e.target.id === 'all') all(); else if (e.target.id === 'none') none(); });
document.addEventListener('click', e => { if (!e.target.closest('details')) shut(); });
$('find').addEventListener('input', () => { look(); draw(); });
$('next').addEventListener('click', () => seek(1));
$('back').addEventListener('click', () => seek(-1));
$('side').addEventListener('click', () => { document.body.classList.toggle('alone'); draw(); });
document.addEventListener('keydown', e => {
  if (e.ctrlKey || e.metaKey || e.altKey) return;
  if (e.key === 'Escape') { $('find').value = ''; look(); pick(-1); shut(); view.focus(); return; }
  if (e.target === $('find')) {
    if (e.key === 'Enter') { seek(e.shiftKey ? -1 : 1); view.focus(); e.preventDefault(); }
    return;
  }
  if (e.key === 'Enter' && e.target.closest('button,summary,input')) return;
  const keys = {
    '/': () => { $('find').focus(); $('find').select(); }, n: () => seek(1), N: () => seek(-1), Enter: () => seek(e.shiftKey ? -1 : 1),
    ArrowDown: () => move(1), j: () => move(1), ArrowUp: () => move(-1), k: () => move(-1),
    PageDown: () => move(20), PageUp: () => move(-20), Home: () => go(0), End: () => go(shown.length - 1),
    s: () => $('side').click(),
    a: () => all(),
  };
  if (keys[e.key]) { keys[e.key](); e.preventDefault(); }
});
$('title').textContent = data.title;
document.title = data.title;
write();
boxes();
sift();
view.focus();
</script>
</body>
</html>
"##;
