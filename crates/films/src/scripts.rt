//! The script of the page of a film.

/// Plays the changes that stand in the page, and draws what they give.
pub(crate) const FILM_SCRIPT: &[u8] = b"\
\"use strict\";\n\
const $ = id => document.getElementById(id);\n\
const SIGN = {\"~\": \" \", a: \"&\", b: \"\\\\\", g: \">\", l: \"<\", q: \"\\\"\"};\n\
const GLYPHS = \" 1234567890#@:>\\\"^/STUVWXYZ|,%=\\\\+-JKLMNOPQR!$*];_&ABCDEFGHI?.)[<}\";\n\
const KINDS = [\"\", \"halted\", \"check ADDRESS\", \"check INSTRUCTION\", \"check DATA\", \"c\
heck OVERLAP\", \"check READER EMPTY\", \"check PUNCH FULL\", \"check PRINTER FULL\"];\n\
const plain = text => text.replace(/[~abglq]/g, sign => SIGN[sign]);\n\
const five = number => String(number).padStart(5, \"0\");\n\
const put = (tag, name, text) => { const e = document.createElement(tag); if (name) e.classNam\
e = name; if (text !== undefined) e.textContent = text; return e; };\n\
let size = 0, before = 0;\n\
const source = [], deck = new Map(), steps = [];\n\
function cell(item) {\n\
const colon = item.indexOf(\":\"), sign = item[item.length - 1];\n\
return [+item.slice(0, colon), SIGN[sign] || sign, item[colon + 1] === \"'\" && item.length > \
colon + 2];\n\
}\n\
function step(items) {\n\
const s = {cells: [], values: [], spans: [], paper: [], cards: [], said: \"\"};\n\
for (const item of items) {\n\
const tag = item[0], rest = item.slice(1), colon = rest.indexOf(\":\");\n\
if (tag >= \"0\" && tag <= \"9\") s.cells.push(cell(item));\n\
else if (tag === \"d\") s.said = plain(rest);\n\
else if (tag === \"p\") { const [form, line] = rest.slice(0, colon).split(\".\"); s.paper.push\
({form: +form, line: +line, text: plain(rest.slice(colon + 1))}); }\n\
else if (tag === \"u\") s.cards.push({pocket: +rest.slice(0, colon), text: plain(rest.slice(co\
lon + 1))});\n\
else if (tag <= \"Z\") { const [first, last] = rest.split(\".\"); s.spans.push({tag, first: +f\
irst, last: +last}); }\n\
else s.values.push([tag, +rest]);\n\
}\n\
return s;\n\
}\n\
for (const line of $(\"film\").textContent.split(\"\\n\")) {\n\
const words = line.split(\" \");\n\
if (words[0] === \"Z\") size = +words[1];\n\
else if (words[0] === \"N\") before = +words[1];\n\
else if (words[0] === \"S\") source.push({place: words[1] === \"-\" ? -1 : +words[1], text: pl\
ain(words[2])});\n\
else if (words[0] === \"R\") deck.set(+words[1], plain(words[2]));\n\
else if (words[0] === \"C\") steps.push(step(words.slice(1)));\n\
}\n\
const glyph = new Array(size).fill(\" \"), mark = new Array(size).fill(false), paper = [], car\
ds = [], undone = [];\n\
const now = {i: 0, a: 0, b: 0, c: 0, o: 0, t: 0, w: 0, f: 0, n: 0, r: 0, k: 0, x: 0, l: 0, q: \
0};\n\
const used = new Set([0]);\n\
let at = -1;\n\
function forward() {\n\
const s = steps[++at], old = {cells: [], values: [], paper: paper.length, cards: cards.length}\
;\n\
for (const [p, g, m] of s.cells) {\n\
old.cells.push([p, glyph[p], mark[p]]);\n\
glyph[p] = g; mark[p] = m;\n\
used.add(Math.floor(p / 50));\n\
stale.add(p);\n\
}\n\
for (const [tag, value] of s.values) { old.values.push([tag, now[tag]]); now[tag] = value; }\n\
paper.push(...s.paper); cards.push(...s.cards);\n\
undone[at] = old;\n\
}\n\
function back() {\n\
const old = undone[at--];\n\
for (const [p, g, m] of old.cells) { glyph[p] = g; mark[p] = m; stale.add(p); }\n\
for (const [tag, value] of old.values) now[tag] = value;\n\
paper.length = old.paper; cards.length = old.cards;\n\
}\n\
const stale = new Set();\n\
const last = steps.length - 1;\n\
const words = steps.map(s => s.spans.find(one => one.tag === \"I\"));\n\
const addresses = words.map(word => word ? word.first : -1);\n\
const raws = steps.map((s, n) => {                   // the characters of each instruction, as \
they are before it\n\
const word = words[n], text = word ? glyph.slice(word.first, word.last + 1).join(\"\") : \"\";\
\n\
forward();\n\
return text;\n\
});\n\
const final = {...now}, longest = Math.max(40, ...paper.map(one => one.text.length));\n\
const rows = new Map(), list = $(\"source\").querySelector(\"ol\"), texts = new Map();\n\
const entry = addresses.findIndex(place => place > 80);\n\
function program() {\n\
const placed = new Set(source.map(card => card.place));\n\
const others = [...new Set(addresses.filter(place => place >= 0 && !placed.has(place)))].sort(\
(one, other) => one - other);\n\
$(\"which\").textContent = source.length ? \"Source\" : \"Instructions done, by address\";\n\
const add = (place, text, name) => {\n\
const row = put(\"li\", name);\n\
if (place >= 0 || source.length) row.append(put(\"i\", \"\", place >= 0 ? five(place) + \" \" \
: \"      \"));\n\
const body = put(\"span\", \"\", text);\n\
row.append(body); list.append(row);\n\
if (place >= 0 && !rows.has(place)) { rows.set(place, row); texts.set(place, body); }\n\
if (place >= 0 && addresses.includes(place)) {\n\
row.classList.add(\"todo\");\n\
row.onclick = () => { let n = addresses.indexOf(place, at + 1); if (n < 0) n = addresses.index\
Of(place); show(n); };\n\
}\n\
};\n\
for (const card of source) add(card.place, card.text.slice(5, 72).trimEnd(), card.place < 0 ? \
\"note\" : \"\");\n\
if (source.length && others.length) list.append(put(\"li\", \"note\", \"\\nNot placed by the s\
ource: the loading cards, and others\"));\n\
for (const place of others) add(place, both(addresses.indexOf(place)));\n\
}\n\
const both = n => raws[n].padEnd(9) + steps[n].said;\n\
const wide = () => $(\"slots\").clientWidth >= 620 ? 50 : 25;\n\
function shownRows(first, end, width, olds) {\n\
const all = [], has = start => {\n\
for (let p = Math.max(first, start); p <= end && p < start + width; p++) if (olds.has(p) || gl\
yph[p] !== \" \") return true;\n\
return false;\n\
};\n\
for (let start = first - first % width; start <= end; start += width) all.push(start);\n\
if (all.length <= 3) return all;\n\
const some = all.filter(has);\n\
if (!some.length) return all.slice(0, 1);\n\
return some.length <= 3 ? some : [some[0], some[1], some[some.length - 1]];\n\
}\n\
function slot(name, spans, width, olds) {\n\
const box = put(\"div\", \"slot \" + name.toLowerCase());\n\
box.append(put(\"b\", \"\", name));\n\
if (!spans.length) { box.append(put(\"div\", \"empty\", name === \"I\" ? \"no instruction\" : \
\"none\")); return box; }\n\
let used = 0;\n\
for (const {first, last: end} of spans) {\n\
for (const start of shownRows(first, end, width, olds)) {\n\
if (used++ >= 5) break;\n\
const row = put(\"div\", \"row\"), cells = put(\"div\", \"cells\");\n\
cells.style.setProperty(\"--w\", width);\n\
row.append(put(\"small\", \"\", five(start)), cells);\n\
for (let p = start; p < start + width && p < size; p++) {\n\
const inside = p >= first && p <= end, old = olds.get(p);\n\
const cell = put(\"div\", \"c\" + (mark[p] ? \" w\" : \"\") + (inside ? \" f\" : \"\") + (old \
? \" new\" : \"\")\n\
+ (p === now[name.toLowerCase()] ? \" here\" : \"\"), glyph[p]);\n\
if (old && old[1] !== glyph[p] && inside) cell.append(put(\"s\", \"\", old[1] === \" \" ? \"\\\
u00b7\" : old[1]));\n\
cells.append(cell);\n\
}\n\
box.append(row);\n\
}\n\
}\n\
return box;\n\
}\n\
function lamp(label, text, name) {\n\
const box = put(\"div\", name || \"\");\n\
box.append(put(\"small\", \"\", label), put(\"b\", \"\", text));\n\
return box;\n\
}\n\
function lamps() {\n\
const ended = now.x === 1 ? \"halted\" : now.x ? KINDS[now.x] : \"running\";\n\
$(\"lamps\").replaceChildren(lamp(\"next, register I\", five(now.i), \"i\"), lamp(\"register A\
\", five(now.a), \"a\"), lamp(\"register B\", five(now.b), \"b\"),\n\
lamp(\"compare\", [\"B = A\", \"B < A\", \"B > A\"][now.c]),\n\
lamp(\"overflow\", now.o ? \"on\" : \"off\", now.o ? \"lit\" : \"\"), lamp(\"channel 12\", now\
.t ? \"on\" : \"off\", now.t ? \"lit\" : \"\"),\n\
lamp(\"machine\", ended, now.x > 1 ? \"bad\" : now.x ? \"lit\" : \"\"));\n\
}\n\
function drawn(text) {                               // a card, on the stock that stands in th\
e page\n\
const NS = \"http://www.w3.org/2000/svg\", svg = document.createElementNS(NS, \"svg\");\n\
svg.setAttribute(\"viewBox\", \"0 0 7375 3250\");\n\
svg.setAttribute(\"role\", \"img\");\n\
svg.setAttribute(\"aria-label\", text || \"a blank card\");\n\
const add = (tag, attributes) => { const e = document.createElementNS(NS, tag); for (const key \
in attributes) e.setAttribute(key, attributes[key]); svg.append(e); return e; };\n\
add(\"use\", {href: \"#stock\"});\n\
let holes = \"\";\n\
[...text].forEach((g, column) => { for (const row of punches(GLYPHS.indexOf(g))) holes += `M${\
251 + 87 * column - 27} ${188 + 250 * row}h55v125h-55z`; });\n\
add(\"path\", {class: \"hole\", d: holes});\n\
add(\"text\", {class: \"print\", y: 150, x: Array.from(text, (g, column) => 251 + 87 * column)\
.join(\" \")}).textContent = text;\n\
return svg;\n\
}\n\
function punches(code) {                             // rows from above: 0 is row 12, 1 row 11\
, 2 row 0, 3 row 1\n\
const zone = code >> 4, part = code & 15, rows = zone === 0 ? [] : [3 - zone];\n\
if (code === 16) return [4, 10];\n\
if (part === 10) return [[2], [2, 4, 10], [1, 2], [0, 2]][zone];\n\
if (part >= 11) return [...rows, part - 6, 10];\n\
return part ? [...rows, part + 2] : rows;\n\
}\n\
const shownCard = {reader: null, punch: null};\n\
function card(place, text, none) {\n\
if (shownCard[place] === text) return;\n\
shownCard[place] = text;\n\
$(place).replaceChildren(text === undefined ? put(\"div\", \"none\", none) : drawn(text));\n\
}\n\
function forms() {\n\
const here = 66 * now.f + now.n, lines = new Map(paper.map(one => [66 * one.form + one.line, o\
ne.text]));\n\
const fresh = steps[at].paper.map(one => 66 * one.form + one.line);\n\
const out = [];\n\
for (let k = Math.max(67, here - 15); k <= Math.max(here, 82); k++) {\n\
const line = (k - 1) % 66 + 1;\n\
const row = put(\"div\", ((line - 1) / 3 & 1 ? \"\" : \"g\") + (line === 1 && k > 67 ? \" fold\
\" : \"\") + (fresh.includes(k) ? \" last\" : \"\") + (k === here ? \" here\" : \"\"), lines.g\
et(k) || \"\");\n\
out.push(row);\n\
}\n\
$(\"paper\").replaceChildren(...out);\n\
$(\"form\").textContent = `Printer: form ${now.f}, line ${now.n}; ${now.l} printed`;\n\
}\n\
let cells = [];\n\
function core() {                                    // the rows of 50 in which the film has s\
omething\n\
const box = $(\"core\");\n\
for (const {spans} of steps) for (const {first, last: end} of spans) {\n\
for (let row = Math.floor(first / 50); row <= Math.floor(end / 50); row++) used.add(row);\n\
}\n\
for (const start of [...used].sort((one, other) => one - other).map(row => 50 * row)) {\n\
const row = put(\"div\", start && !used.has(start / 50 - 1) ? \"gap\" : \"\");\n\
row.append(put(\"small\", \"\", five(start) + \" \"));\n\
for (let p = start; p < start + 50 && p < size; p++) { cells[p] = put(\"span\", \"\", \" \"); \
row.append(cells[p]); }\n\
box.append(row);\n\
}\n\
}\n\
let lit = [];\n\
function storage(olds) {\n\
for (const p of lit) stale.add(p);\n\
lit = [];\n\
const names = new Map();\n\
for (const {tag, first, last: end} of steps[at].spans) for (let p = first; p <= end; p++) name\
s.set(p, tag.toLowerCase());\n\
for (const p of names.keys()) { lit.push(p); stale.add(p); }\n\
for (const p of olds.keys()) { lit.push(p); stale.add(p); }\n\
for (const p of stale) if (cells[p]) {\n\
cells[p].textContent = glyph[p];\n\
cells[p].className = (mark[p] ? \"w \" : \"\") + (names.get(p) || \"\") + (olds.has(p) ? \" ne\
w\" : \"\");\n\
}\n\
stale.clear();\n\
}\n\
let marked = [];\n\
function where() {\n\
for (const row of marked) row.classList.remove(\"at\", \"next\");\n\
const here = rows.get(addresses[at]), next = now.x ? null : rows.get(addresses[at + 1]);\n\
marked = [here, next].filter(Boolean);\n\
if (here) {\n\
here.classList.add(\"at\");\n\
const body = texts.get(addresses[at]);\n\
if (!source.some(one => one.place === addresses[at])) body.textContent = both(at);\n\
const box = $(\"source\"), top = here.offsetTop - box.offsetTop;\n\
if (top < box.scrollTop + 30 || top > box.scrollTop + box.clientHeight - 60) box.scrollTop = t\
op - box.clientHeight / 2;\n\
}\n\
if (next) next.classList.add(\"next\");\n\
[...list.children].forEach((row, k, all) => row.classList.toggle(\"near\", !!here && Math.abs(\
k - all.indexOf(here)) < 12));\n\
}\n\
function happened() {\n\
const s = steps[at], out = [];\n\
for (const [tag, value] of s.values) if (tag === \"r\") out.push(`Card ${value} is read.`);\n\
for (const one of s.paper) out.push(`Form ${one.form} line ${one.line} is printed: ${one.text.\
trim()}`);\n\
if (s.cards.length) out.push(`Card ${now.q} is punched.`);\n\
return out;\n\
}\n\
let playing = 0;\n\
function show(n) {\n\
n = Math.min(last, Math.max(0, n));\n\
while (at < n) forward();\n\
while (at > n) back();\n\
const s = steps[at], olds = new Map(at ? undone[at].cells.map(one => [one[0], one]) : []), wid\
th = wide();\n\
$(\"slide\").value = at;\n\
const number = at ? before + at : before;\n\
$(\"slide\").setAttribute(\"aria-valuetext\", `step ${number}`);\n\
$(\"count\").textContent = `${number} of ${before + last}`;\n\
$(\"number\").textContent = at ? `Instruction ${number}` : \"Start\";\n\
const text = at ? addresses[at] < 0 ? `${five(now.i)}  ` : `${five(addresses[at])}  ${raws[at]\
}` : \"\";\n\
$(\"done\").replaceChildren(put(\"span\", \"\", at ? text + \"   \" : before ? `after ${before\
} instructions` : \"card 1 is loaded; next 00001\"), put(\"b\", \"\", at ? s.said || (words[at\
] ? \"\" : \"no instruction\") : \"\"));\n\
const events = at ? happened() : [];\n\
$(\"said\").replaceChildren(put(\"span\", \"\", events.join(\" \")));\n\
if (now.x) $(\"said\").append(put(\"b\", now.x > 1 ? \"bad\" : \"\", ` ${at === last ? ENDED : \
KINDS[now.x]}`));\n\
lamps();\n\
const of = tag => at ? s.spans.filter(one => one.tag === tag) : [];\n\
$(\"slots\").replaceChildren(slot(\"I\", of(\"I\"), width, olds), slot(\"A\", of(\"A\"), width\
, olds), slot(\"B\", of(\"B\"), width, olds));\n\
const loaded = deck.get(now.r);\n\
$(\"read\").textContent = `Reader: card ${now.r}` + (deck.has(now.r + 1) ? \"\" : \", the last \
of the deck\");\n\
card(\"reader\", loaded, \"no card is read\");\n\
$(\"punched\").textContent = now.q ? `Punch: card ${now.q}` + (cards.length && cards[cards.len\
gth - 1].pocket ? `, pocket ${cards[cards.length - 1].pocket}` : \"\") : final.q ? \"Punch\" : \
\"Punch: no card\";\n\
if (final.q) card(\"punch\", cards.length ? cards[cards.length - 1].text : undefined, \"no car\
d is punched\");\n\
forms(); storage(olds); where();\n\
for (const id of [\"home\", \"left\"]) $(id).disabled = at === 0;\n\
for (const id of [\"right\", \"end\"]) $(id).disabled = at === last;\n\
}\n\
function stop() {\n\
clearInterval(playing); playing = 0;\n\
$(\"play\").setAttribute(\"aria-label\", \"Play\");\n\
$(\"play\").firstChild.firstChild.setAttribute(\"d\", \"M3 1v14l11-7z\");\n\
$(\"now\").setAttribute(\"aria-live\", \"polite\");\n\
}\n\
function play() {\n\
if (playing) return stop();\n\
if (at === last) show(0);\n\
$(\"now\").setAttribute(\"aria-live\", \"off\");\n\
$(\"play\").setAttribute(\"aria-label\", \"Stop\");\n\
$(\"play\").firstChild.firstChild.setAttribute(\"d\", \"M3 1h4v14H3zM9 1h4v14H9z\");\n\
playing = setInterval(() => { show(at + 1); if (at === last) stop(); }, +$(\"speed\").value);\n\
}\n\
const isEvent = s => s.paper.length || s.cards.length || s.values.some(([tag]) => tag === \"r\"\
);\n\
function nextUnit() { let n = at + 1; while (n < last && !isEvent(steps[n])) n++; show(n); }\n\
function ticks() {                                   // what the units did, along the slider\n\
const box = $(\"marks\"), width = box.clientWidth, pen = box.getContext(\"2d\"), ratio = devic\
ePixelRatio || 1;\n\
box.width = width * ratio; box.height = 8 * ratio;\n\
pen.scale(ratio, ratio);\n\
const tick = (n, color) => { pen.fillStyle = color; pen.fillRect(8 + (width - 16) * n / Math.m\
ax(1, last) - .75, 0, 1.5, 8); };\n\
steps.forEach((s, n) => {\n\
if (!n) return;\n\
if (s.values.some(([tag]) => tag === \"r\")) tick(n, \"#b09a50\");\n\
if (s.paper.length) tick(n, \"#2c6e2c\");\n\
if (s.cards.length) tick(n, \"#1d2f6f\");\n\
});\n\
if (final.x > 1) tick(last, \"#a00\");\n\
}\n\
const ended = $(\"ended\").textContent, ENDED = ended[0].toUpperCase() + ended.slice(1);\n\
program(); core();\n\
$(\"paper\").style.setProperty(\"--columns\", longest);\n\
$(\"slide\").max = last;\n\
$(\"slide\").oninput = () => { stop(); show(+$(\"slide\").value); };\n\
$(\"home\").onclick = () => { stop(); show(0); };\n\
$(\"end\").onclick = () => { stop(); show(last); };\n\
$(\"left\").onclick = () => { stop(); show(at - 1); };\n\
$(\"right\").onclick = () => { stop(); show(at + 1); };\n\
$(\"play\").onclick = play;\n\
$(\"speed\").onchange = () => { if (playing) { stop(); play(); } };\n\
$(\"program\").onclick = () => { stop(); show(entry); };\n\
$(\"program\").hidden = entry < 1;\n\
$(\"unit\").onclick = () => { stop(); nextUnit(); };\n\
$(\"halt\").onclick = $(\"end\").onclick;\n\
$(\"halt\").title = final.x ? ENDED : \"The film ends here\";\n\
$(\"halt\").textContent = final.x > 1 ? \"Check\" : final.x ? \"Halt\" : \"End\";\n\
onkeydown = event => {\n\
if (event.ctrlKey || event.altKey || event.metaKey || /^(select|textarea)$/i.test(event.target\
.tagName)) return;\n\
const key = event.key, onButton = event.target.tagName === \"BUTTON\";\n\
const deed = {ArrowLeft: () => { stop(); show(at - (event.shiftKey ? 10 : 1)); }, ArrowRight: \
() => { stop(); show(at + (event.shiftKey ? 10 : 1)); },\n\
Home: $(\"home\").onclick, End: $(\"end\").onclick, p: () => { if (entry > 0) $(\"program\").o\
nclick(); }, u: $(\"unit\").onclick}[key];\n\
if (deed) { event.preventDefault(); deed(); }\n\
else if (key === \" \" && !onButton) { event.preventDefault(); play(); }\n\
};\n\
onresize = () => { ticks(); show(at); };\n\
for (const row of used) for (let p = 50 * row; p < 50 * row + 50; p++) stale.add(p);\n\
const wanted = /^#([0-9]+)$/.exec(location.hash);\n\
show(wanted ? +wanted[1] - before : 0);\n\
ticks();\n";
