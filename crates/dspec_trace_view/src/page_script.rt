//! What the page of kept paths does.

/// The script of the page. It shows what it reads as text alone. Its checksum stands in the page's policy.
pub(crate) const SCRIPT: &str = r##"
"use strict";
const data = JSON.parse(document.getElementById("data").textContent);
const at = (id) => document.getElementById(id);
const HEIGHT = 28;
const COLUMNS = ["took", "why", "thread", "begin", "records", "cut", "first"];
const SHAPES = { bad: "cross", slow: "triangle", asked: "square", other: "circle" };

function made(tag, name, text) {
  const element = document.createElement(tag);
  if (name) element.className = name;
  if (text !== undefined) element.textContent = text;
  return element;
}
function kindOf(why) {
  if (why === "failed" || why === "crash" || why === "signal") return "bad";
  if (why === "slow") return "slow";
  return why === "asked" || why === "sampled" ? "asked" : "other";
}
/* A span as the table in a terminal has it: what is less than a thousandth of its unit is left out. */
function spanText(ns) {
  if (ns < 1e3) return ns + " ns";
  const [unit, name] = ns < 1e6 ? [1e3, "us"] : ns < 1e9 ? [1e6, "ms"] : [1e9, "s"];
  return Math.floor(ns / unit) + "." + String(Math.floor(ns % unit / (unit / 1000))).padStart(3, "0") + " " + name;
}
/* The time of day so many nanoseconds after the first mark; where no clock tells it, seconds from there on. */
function timeText(ns) {
  if (!data.begin) return "+" + (ns / 1e9).toFixed(6) + " s";
  const rest = Number(data.begin.slice(20, 29)) + ns;
  const date = new Date(Date.parse(data.begin.slice(0, 19) + "Z") + Math.floor(rest / 1e9) * 1000);
  return date.toISOString().slice(11, 19) + "." + String(Math.floor(rest % 1e9 / 1e3)).padStart(6, "0");
}
function valueText(field, value) {
  const label = field.labels ? field.labels.get(String(value)) : undefined;
  return label === undefined ? String(value) : label + " (" + value + ")";
}
for (const event of data.events) {
  for (const field of event.fields) {
    if (field.labels) field.labels = new Map(field.labels.map((label, i, both) => [String(both[i - 1]), label]).filter((_, i) => i % 2));
  }
}
/* What the data has of a path, with its records: [event, nanoseconds after the one before, values ..] one after another. */
function pathOf(list, place) {
  const [folder, number, begin, took, why, thread, cut, key, flat] = list;
  const records = [];
  for (let i = 0, time = begin; i < flat.length;) {
    const event = data.events[flat[i]];
    time += flat[i + 1];
    records.push({ event, time, values: flat.slice(i + 2, i + 2 + event.fields.length) });
    i += 2 + event.fields.length;
  }
  const path = { place, folder, number, begin, took, why: data.whys[why], thread, cut, key, records };
  path.first = records.length ? wordsOf(records[0]) : "";
  return path;
}
function wordsOf(record) {
  return record.event.name + record.event.fields.map((field, i) => " " + field.name + "=" + valueText(field, record.values[i])).join("");
}
function textOf(path) {
  if (path.text === undefined) {
    path.text = (path.number + " " + path.why + " " + path.thread + " " + threadText(path) + " " + path.key + " " + path.records.map(wordsOf).join(" ")).toLowerCase();
  }
  return path.text;
}
const threads = new Map(data.threads.map(([folder, thread, name]) => [folder + "/" + thread, name]));
function threadText(path) {
  const name = threads.get(path.folder + "/" + path.thread);
  return path.thread === 0 ? "unknown" : (name ? name + " " : "") + path.thread;
}
const all = data.paths.map(pathOf);
let shown = all, order = "took", down = true, reason = null, chosen = null;

/* ---- What is shown. ---- */

const UNITS = { ns: 1, us: 1e3, ms: 1e6, s: 1e9 };
function testOf(word) {
  const span = /^took([<>])=?(\d+(?:\.\d+)?)(ns|us|ms|s)$/.exec(word);
  if (span) {
    const due = Number(span[2]) * UNITS[span[3]];
    return span[1] === ">" ? (path) => path.took >= due : (path) => path.took <= due;
  }
  if (word.startsWith("why:")) return (path) => path.why.toLowerCase() === word.slice(4);
  return (path) => textOf(path).includes(word);
}
const KEYS = Object.fromEntries(COLUMNS.map((column) => [column, (path) => column === "records" ? path.records.length : path[column]]));
function update() {
  const tests = at("find").value.toLowerCase().split(/\s+/).filter(Boolean).map(testOf);
  if (reason !== null) tests.push((path) => path.why === reason);
  shown = all.filter((path) => tests.every((test) => test(path)));
  const key = KEYS[order];
  shown.sort((one, other) => {
    const [a, b] = [key(one), key(other)];
    const by = a < b ? -1 : a > b ? 1 : one.place - other.place;
    return down ? -by : by;
  });
  at("shown").textContent = shown.length + " of " + all.length + " paths";
  at("space").style.height = shown.length * HEIGHT + "px";
  for (const button of document.querySelectorAll("#titles button")) {
    button.setAttribute("aria-sort", button.dataset.column === order ? (down ? "descending" : "ascending") : "none");
    button.textContent = button.dataset.title + (button.dataset.column === order ? (down ? " ▼" : " ▲") : "");
  }
  drawRows();
  drawAxis();
}
function rowOf(path, place) {
  const row = made("div", "row");
  row.style.top = place * HEIGHT + "px";
  row.setAttribute("role", "option");
  row.id = "path-" + path.place;
  row.setAttribute("aria-selected", String(path === chosen));
  row.append(made("span", "number", spanText(path.took)), made("span", "why why-" + kindOf(path.why), path.why), made("span", "wide number", threadText(path)),
    made("span", "wide begin", timeText(path.begin)), made("span", "number", path.records.length), made("span", "wide number cut", path.cut), made("span", "", path.first));
  row.addEventListener("click", () => choose(path));
  return row;
}
function drawRows() {
  const box = at("rows"), from = Math.max(0, Math.floor(box.scrollTop / HEIGHT) - 5), to = Math.min(shown.length, from + Math.ceil(box.clientHeight / HEIGHT) + 10);
  at("space").replaceChildren(...shown.slice(from, to).map((path, i) => rowOf(path, from + i)));
  if (chosen) box.setAttribute("aria-activedescendant", "path-" + chosen.place);
}

/* ---- The axis: a mark a path, to the right by when it began, upwards by how long it took. ---- */

function mark(to, shape, x, y) {
  to.beginPath();
  if (shape === "circle") to.arc(x, y, 3, 0, 7);
  if (shape === "square") to.rect(x - 3, y - 3, 6, 6);
  if (shape === "triangle") { to.moveTo(x, y - 4); to.lineTo(x + 4, y + 3); to.lineTo(x - 4, y + 3); to.closePath(); }
  if (shape === "cross") { to.moveTo(x - 3, y - 3); to.lineTo(x + 3, y + 3); to.moveTo(x + 3, y - 3); to.lineTo(x - 3, y + 3); }
  to.stroke();
}
const placeOf = (path, width, height) => [12 + (width - 24) * path.begin / Math.max(data.span, 1), height - 16 - (height - 34) * Math.log10(Math.max(path.took, 1)) / most];
const most = Math.max(1, ...[all.reduce((one, path) => Math.max(one, Math.log10(Math.max(path.took, 1))), 1)]);
function drawAxis() {
  const canvas = at("axis"), scale = window.devicePixelRatio || 1, width = canvas.clientWidth, height = canvas.clientHeight;
  canvas.width = width * scale;
  canvas.height = height * scale;
  const to = canvas.getContext("2d"), colors = getComputedStyle(document.documentElement), color = (name) => colors.getPropertyValue("--" + name);
  to.scale(scale, scale);
  to.font = "11px system-ui, sans-serif";
  for (let power = 0; power <= most; power += 3) {
    const y = height - 16 - (height - 34) * power / most;
    to.strokeStyle = color("line");
    to.strokeRect(0, y, width, 0);
    to.fillStyle = color("soft");
    to.fillText(["1 ns", "1 us", "1 ms", "1 s", "1000 s"][power / 3] || "", 4, y - 3);
  }
  to.fillText(timeText(0), 4, height - 3);
  const end = timeText(data.span);
  to.fillText(end, width - to.measureText(end).width - 4, height - 3);
  to.lineWidth = 1.3;
  for (const path of shown) {
    const kind = kindOf(path.why);
    to.strokeStyle = color(kind);
    mark(to, SHAPES[kind], ...placeOf(path, width, height));
  }
  if (chosen) {
    const [x, y] = placeOf(chosen, width, height);
    to.strokeStyle = color("text");
    to.beginPath();
    to.arc(x, y, 8, 0, 7);
    to.stroke();
  }
  canvas.setAttribute("aria-label", shown.length + " paths from " + timeText(0) + " to " + end + ", by how long they took; the table has them in words");
}
function nearest(event) {
  const box = at("axis").getBoundingClientRect();
  let found = null, least = 400;
  for (const path of shown) {
    const [x, y] = placeOf(path, box.width, box.height), far = (x - event.clientX + box.left) ** 2 + (y - event.clientY + box.top) ** 2;
    if (far < least) [found, least] = [path, far];
  }
  return found;
}

/* ---- One path. ---- */

function spansOf(path) {
  const open = [], spans = [];
  for (const { event, time } of path.records) {
    if (event.name.endsWith("_begin")) {
      const span = { name: event.name.slice(0, -6), begin: time, end: path.begin + path.took, depth: open.length };
      open.push(span);
      spans.push(span);
    } else if (event.name.endsWith("_end")) {
      const place = open.map((span) => span.name).lastIndexOf(event.name.slice(0, -4));
      if (place >= 0) for (const span of open.splice(place)) span.end = time;
    }
  }
  return spans;
}
function barsOf(path) {
  const spans = spansOf(path), box = made("div", "bars"), part = (ns) => 100 * ns / Math.max(path.took, 1) + "%";
  for (const span of spans) {
    const bar = made("div", "bar", span.name + " " + spanText(span.end - span.begin));
    bar.title = bar.textContent;
    bar.style.left = part(span.begin - path.begin);
    bar.style.width = part(span.end - span.begin);
    bar.style.top = 4 + span.depth * 22 + "px";
    box.append(bar);
  }
  box.style.height = 8 + (1 + spans.reduce((most, span) => Math.max(most, span.depth), 0)) * 22 + "px";
  return spans.length ? box : null;
}
function recordOf(path, record) {
  const row = made("div", "record"), words = made("div", "words");
  words.append(made("span", "name", record.event.name));
  record.event.fields.forEach((field, i) => words.append(" ", made("span", "soft", field.name + "="), valueText(field, record.values[i])));
  row.append(made("div", "offset", "+" + spanText(record.time - path.begin)), words);
  return row;
}
/* The records from one on; a gap is long that takes a tenth of the path, and more than a microsecond. */
function putRecords(box, path, from) {
  const to = Math.min(path.records.length, from + 500);
  for (let i = from; i < to; i++) {
    const gap = i ? path.records[i].time - path.records[i - 1].time : 0;
    if (gap > 1000 && gap * 10 >= path.took) box.append(made("div", "gap", "⋮ " + spanText(gap) + " without a record"));
    box.append(recordOf(path, path.records[i]));
  }
  if (to === path.records.length) return;
  const more = made("button", "", path.records.length - to + " more records");
  more.addEventListener("click", () => { more.remove(); putRecords(box, path, to); });
  box.append(more);
}
function linkedTo(path) {
  return path.key ? all.filter((other) => other !== path && other.key === path.key) : [];
}
function drawOne() {
  const box = at("one");
  box.replaceChildren();
  if (!chosen) return box.append(made("p", "soft", "Choose a path in the table."));
  const path = chosen, title = made("h2", "", "Path " + path.number + ": ");
  title.append(made("span", "why-" + kindOf(path.why), path.why));
  box.append(title, made("p", "soft", spanText(path.took) + " from " + timeText(path.begin) + ", thread " + threadText(path) + ", " + path.records.length + " records, " + path.cut + " cut" +
    (data.traces.length > 1 ? ", of " + data.traces[path.folder] : "") + (path.key ? ", key " + path.key : "")));
  for (const other of linkedTo(path)) {
    const link = made("button", "", "same key: path " + other.number + " of " + data.traces[other.folder]);
    link.addEventListener("click", () => choose(other));
    box.append(link);
  }
  for (const crash of data.crashes) if (crash.folder === path.folder && crash.path === path.number) box.append(crashLine(crash, false));
  const bars = barsOf(path);
  if (bars) box.append(bars);
  putRecords(box, path, 0);
}
function choose(path) {
  chosen = path;
  const box = at("rows"), place = shown.indexOf(path);
  if (place >= 0 && (place * HEIGHT < box.scrollTop || (place + 1) * HEIGHT > box.scrollTop + box.clientHeight)) box.scrollTop = place * HEIGHT - box.clientHeight / 2;
  drawRows();
  drawAxis();
  drawOne();
}

/* ---- The head. ---- */

function crashLine(crash, hasLink) {
  const line = made("p", "crash");
  line.append(made("b", "", "Crash: " + crash.signal), " at " + crash.place + ", thread " + crash.thread + ", " + timeText(crash.time),
    crash.path ? ", in path " + crash.path : ", in no path that is known");
  const path = all.find((other) => other.folder === crash.folder && other.number === crash.path);
  if (path && hasLink) {
    const link = made("button", "", "show it");
    link.addEventListener("click", () => choose(path));
    line.append(" ", link);
  }
  const place = /^(\w[\w.+-]*)\+(0x[0-9a-f]+)$/.exec(crash.place);
  if (place) line.append(made("br"), made("code", "", "addr2line -fe " + place[1] + " " + place[2]), made("span", "soft", " names its line"));
  return line;
}
function drawHead() {
  document.title = at("title").textContent = data.traces.join(", ");
  at("span").textContent = (data.begin ? data.begin.slice(0, 10) + ", " : "") + "from " + timeText(0) + " to " + timeText(data.span) + ", " + spanText(data.span);
  at("crashes").append(...data.crashes.map((crash) => crashLine(crash, true)));
  const counts = new Map();
  for (const path of all) counts.set(path.why, (counts.get(path.why) || 0) + 1);
  for (const [why, count] of [...counts].sort((one, other) => other[1] - one[1])) {
    const item = made("li"), button = made("button", "why-" + kindOf(why), why + " " + count);
    button.setAttribute("aria-pressed", "false");
    button.addEventListener("click", () => {
      reason = reason === why ? null : why;
      for (const other of document.querySelectorAll("#reasons button")) other.setAttribute("aria-pressed", String(other === button && reason !== null));
      update();
    });
    item.append(button);
    at("reasons").append(item);
  }
  const told = [[all.length, "paths kept"], [data.thrown, "thrown away"], [data.refused, "refused"], [data.missed, "records missed"], [data.outside, "records outside a path"]];
  at("numbers").append(...told.map(([count, words]) => made("span", "", count + " " + words)));
}
const WIDE = new Set(["thread", "begin", "cut"]);
for (const column of COLUMNS) {
  const cell = made("span", column + (WIDE.has(column) ? " wide" : "") + (["why", "begin", "first"].includes(column) ? "" : " number")), button = made("button");
  button.dataset.column = column;
  button.dataset.title = column === "first" ? "first record" : column;
  button.addEventListener("click", () => { down = order === column ? !down : column !== "first" && column !== "why"; order = column; at("rows").scrollTop = 0; update(); });
  cell.append(button);
  at("titles").append(cell);
}
at("find").addEventListener("input", update);
at("rows").addEventListener("scroll", drawRows);
at("axis").addEventListener("click", (event) => { const path = nearest(event); if (path) choose(path); });
at("rows").addEventListener("keydown", (event) => {
  const steps = { ArrowDown: 1, ArrowUp: -1, PageDown: 12, PageUp: -12, Home: -all.length, End: all.length }, step = steps[event.key];
  if (step === undefined || !shown.length) return;
  event.preventDefault();
  choose(shown[Math.min(shown.length - 1, Math.max(0, shown.indexOf(chosen) + step))]);
});
window.addEventListener("resize", () => { drawRows(); drawAxis(); });
matchMedia("(prefers-color-scheme: dark)").addEventListener("change", drawAxis);
drawHead();
update();
drawOne();
document.documentElement.dataset.ready = Math.round(performance.now());
"##;
