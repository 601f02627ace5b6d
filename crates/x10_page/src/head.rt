//! What stands before a run's data in its page. Written by `page/make` from the files in `page`; change those, not this.

/// All that stands before a run's data in its page.
pub const HEAD: &str = "\
<!DOCTYPE html>\n<html lang=\"en\">\n<head>\n<meta charset=\"utf-8\">\n<meta name=\"viewport\" con\
tent=\"width=device-width, initial-scale=1\">\n<meta http-equiv=\"Content-Security-Policy\"\n cont\
ent=\"default-src 'none'; style-src 'unsafe-inline'; script-src 'unsafe-inline'\">\n<title>A run, \
step by step</title>\n<style>\n/* Colours are those of Okabe and Ito, which people with any kind o\
f colour vision can tell apart. */\n:root {\n  color-scheme: light dark;\n  --ink: #111418;\n  --p\
aper: #ffffff;\n  --ground: #eef0f3;\n  --quiet: #4f5762;\n  --line: #b9bfc8;\n  --mark: #d55e00;\
\n  --tint: #fdebdc;\n  --event: #a84800;\n  --now: #0072b2;\n  --code: #f4f6f8;\n  --spawn: #009e\
73;\n  --shift: #e69f00;\n  --reply: #cc79a7;\n  font: clamp(15px, 0.5vw + 9.5px, 20px)/1.35 syste\
m-ui, \"Segoe UI\", \"DejaVu Sans\", Arial, sans-serif;\n}\n@media (prefers-color-scheme: dark) {\
\n  :root {\n    --ink: #f3f4f6;\n    --paper: #1b1e23;\n    --ground: #101215;\n    --quiet: #b9c\
0ca;\n    --line: #4d545f;\n    --mark: #e69f00;\n    --tint: #3d2f10;\n    --event: #e69f00;\n   \
\x20--now: #56b4e9;\n    --code: #262a31;\n  }\n}\n* { box-sizing: border-box; }\nbody { margin: 0\
; color: var(--ink); background: var(--ground); }\nh2, h3, p, ul, ol, table { margin: 0; padding: \
0; font-size: 1rem; font-weight: inherit; }\nul, ol { list-style: none; }\ncode, .code, .registers\
, .value, #listing { font-family: ui-monospace, \"DejaVu Sans Mono\", Consolas, monospace; }\n.uns\
een { position: absolute; width: 1px; height: 1px; overflow: hidden; clip-path: inset(50%); }\n:fo\
cus-visible { outline: 3px solid var(--now); outline-offset: 2px; }\n\n/* the head: controls, the \
event, a map of the places */\n#head {\n  position: sticky; top: 0; z-index: 1; padding: 0.6rem 1r\
em 0.5rem;\n  background: var(--paper); border-bottom: 2px solid var(--line);\n}\n.controls { disp\
lay: flex; flex-wrap: wrap; gap: 0.5rem; align-items: center; }\n.controls label { display: flex; \
gap: 0.4rem; align-items: center; color: var(--quiet); }\n.controls .wide { flex: 1 1 12rem; }\n.c\
ontrols input[type=\"range\"] { width: 100%; accent-color: var(--now); }\nbutton, select {\n  font\
: inherit; color: var(--ink); background: var(--code); border: 1px solid var(--quiet);\n  border-r\
adius: 0.3rem; padding: 0.25rem 0.7rem; cursor: pointer;\n}\n#play { min-width: 4.8rem; }\nbutton:\
hover { border-color: var(--now); }\nbutton:disabled { color: var(--quiet); border-color: var(--li\
ne); cursor: default; }\n.now { margin-top: 0.45rem; font-size: 1.3rem; line-height: 1.3; min-heig\
ht: 1.3em; overflow-wrap: anywhere; }\n#position { color: var(--quiet); margin-right: 0.6em; font-\
variant-numeric: tabular-nums; }\n#event { font-weight: 700; }\n#notes { display: flex; flex-wrap:\
\x20wrap; gap: 0 1.2rem; min-height: 1.35em; overflow-wrap: anywhere; }\n#notes li::before { conte\
nt: \"\\2022\\a0\"; color: var(--mark); font-weight: 700; }\n#map { display: flex; flex-wrap: wrap\
; gap: 0.2rem; margin-top: 0.35rem; }\n#map button {\n  width: 2rem; padding: 0 0 0.05rem; font-si\
ze: 0.8rem; border-color: var(--line); background: none; color: var(--quiet);\n}\n#map .alive { ba\
ckground: var(--code); border-color: var(--quiet); color: var(--ink); font-weight: 700; }\n#map .h\
ere { outline: 3px solid var(--mark); outline-offset: 0; }\n\n/* places: at most so many columns a\
s `--most`; where there are many places, one that is quiet takes a third of a column */\nmain { di\
splay: grid; grid-template-columns: minmax(0, 1fr) 17rem; gap: 0.8rem; padding: 0.8rem 1rem; align\
-items: start; }\n#places {\n  --least: max(14.2rem, (100% - (var(--most) - 1) * 0.8rem) / var(--m\
ost));\n  display: grid; grid-template-columns: repeat(auto-fill, minmax(min(100%, var(--least)), \
1fr)); gap: 0.8rem; align-items: start;\n}\n#places.crowded { grid-template-columns: repeat(auto-f\
ill, minmax(4.4rem, 1fr)); gap: 0.5rem; }\n.crowded .place { grid-column: span 3; }\n.crowded .pla\
ce.small { grid-column: span 1; }\n/* what can't be seen isn't laid out */\n.crowded .place:not(.s\
mall) { content-visibility: auto; contain-intrinsic-size: auto 24rem; }\n.place, aside { backgroun\
d: var(--paper); border: 1px solid var(--line); border-radius: 0.4rem; padding: 0.5rem 0.7rem; min\
-width: 0; }\n.place.here { border-color: var(--mark); box-shadow: 0 0 0 2px var(--mark); }\n.plac\
e h2 { display: flex; flex-wrap: wrap; gap: 0 0.5rem; align-items: baseline; white-space: nowrap; \
}\n.which, aside h2 { font-size: 1.1rem; font-weight: 700; }\n.place small { color: var(--quiet); \
font-size: 0.8rem; }\n.place .tag { margin-left: auto; color: var(--event); font-size: 0.8rem; fon\
t-weight: 700; }\n.place.quiet { background: none; border-style: dashed; }\n.quiet .which { font-s\
ize: 0.95rem; font-weight: 400; color: var(--quiet); }\n.place.small { padding: 0.1rem 0.35rem; }\
\n.small .which { font-size: 0.85rem; }\n.part { margin-top: 0.6rem; color: var(--quiet); font-siz\
e: 0.85rem; font-weight: 700; border-bottom: 1px solid var(--line); }\n.new { box-shadow: inset 0.\
3rem 0 0 var(--mark); background: var(--tint); font-weight: 700; }\n.gone { color: var(--quiet); t\
ext-decoration: line-through; }\n\n/* an activity */\n.stays { display: grid; grid-template-column\
s: repeat(auto-fill, minmax(min(100%, 24rem), 1fr)); gap: 0 1rem; align-items: start; }\n.stay { m\
argin-top: 0.4rem; padding: 0.3rem 0 0.3rem 0.6rem; border-top: 1px solid var(--line); min-width: \
0; }\n.stay:first-child { border-top: 0; }\n/* what is scrolled to isn't below the head */\n.place\
, .stay { scroll-margin-block: var(--below, 9rem) 0.8rem; }\n.stay.began, .stay.moved { box-shadow\
: inset 0.3rem 0 0 var(--mark); }\n.stay.tried { border-left: 0.3rem dashed var(--mark); padding-l\
eft: 0.3rem; }\n.stay h3 { display: flex; flex-wrap: wrap; gap: 0 0.6rem; align-items: baseline; }\
\n.stay .name { font-weight: 700; font-size: 1.05rem; }\n.state { margin-left: auto; padding: 0 0.\
5em; font-size: 0.85rem; font-weight: 700; border: 2px solid var(--now); border-radius: 1em; white\
-space: nowrap; }\n.state.works { background: var(--now); color: var(--paper); }\n.state.waits { b\
order-style: dashed; border-color: var(--quiet); }\n.state.away { border-style: dotted; border-col\
or: var(--quiet); }\n.state.inside { background: var(--ink); color: var(--paper); border-color: va\
r(--ink); }\n.state.newly { outline: 3px solid var(--mark); outline-offset: 1px; }\n.told { color:\
\x20var(--quiet); font-size: 0.88rem; overflow-wrap: anywhere; }\n.frame { display: flex; flex-wra\
p: wrap; gap: 0.2rem 0.8rem; align-items: start; margin-top: 0.2rem; }\n.frame > :first-child { fl\
ex: 1 1 9rem; min-width: 0; }\n.frame > :last-child { flex: 1.6 1 12rem; min-width: 0; }\n.code { \
background: var(--code); font-size: 0.92rem; overflow-x: auto; padding-block: 0.1rem; }\n.code li \
{ display: flex; white-space: pre; padding-right: 0.4rem; }\n.code .number { flex: 0 0 3.4rem; pad\
ding-right: 0.6rem; text-align: right; color: var(--quiet); font-weight: 400; }\n.code [aria-curre\
nt] { font-weight: 700; outline: 1px solid var(--now); outline-offset: -1px; }\n.pointer, .code [a\
ria-current] .number { color: var(--now); font-weight: 700; }\n.code [aria-current] .number::befor\
e { content: \"\\25b6\\a0\"; }\n.registers { border-collapse: collapse; font-size: 0.92rem; width:\
\x20100%; }\n.registers th { width: 2.4rem; padding-left: 0.6rem; text-align: left; vertical-align\
: top; font-weight: inherit; color: var(--quiet); }\n.registers td { padding-right: 0.4rem; vertic\
al-align: top; }\n.registers .kind { width: 3.7rem; color: var(--quiet); font-weight: 400; }\n.val\
ue { overflow-wrap: anywhere; }\n.loop { padding-left: 0.6rem; font-size: 0.9rem; }\n.loop:not(.ne\
w) { color: var(--quiet); }\n.more { margin-top: 0.2rem; padding: 0 0.5rem; font-size: 0.8rem; bor\
der-color: var(--line); }\nsummary { cursor: pointer; font-size: 0.88rem; color: var(--quiet); }\n\
\n/* finishes, lines, the heap */\n.list { columns: 22rem auto; column-gap: 1rem; }\n[data-part=\"\
lines\"] .list { columns: auto; }\n[data-part=\"finishes\"] .value { font-family: inherit; }\n[dat\
a-part=\"finishes\"] .value:not(.new) { font-weight: 400; }\n.list li { display: flex; flex-wrap: \
wrap; gap: 0 0.8rem; padding-left: 0.6rem; font-size: 0.92rem; break-inside: avoid; }\n.list .what\
\x20{ color: var(--quiet); font-weight: 400; }\n.list span.new { padding-inline: 0.6rem 0.3rem; }\
\n.list .value { min-width: 0; white-space: pre-wrap; }\n\n/* frames in flight, each type by the c\
olour and the stroke of its side */\naside { position: sticky; top: var(--below, 9rem); max-height\
: calc(100vh - var(--below, 9rem) - 0.8rem); overflow-y: auto; }\n#flights [data-frame] { margin-t\
op: 0.5rem; padding: 0.15rem 0.4rem 0.15rem 0.6rem; border-left: 0.35rem solid var(--quiet); }\n#f\
lights [data-frame].Spawn { border-left-color: var(--spawn); }\n#flights [data-frame].Shift { bord\
er-left-color: var(--shift); }\n#flights [data-frame].Back { border-left: 0.35rem dashed var(--rep\
ly); }\n#flights [data-frame].Report { border-left: 0.35rem dotted var(--quiet); }\n#flights > .ne\
w { box-shadow: none; outline: 3px solid var(--mark); }\n#flights .gone, #flights .none { margin-t\
op: 0.4rem; }\n#flights .lines { font-size: 0.88rem; font-weight: 400; overflow-wrap: anywhere; }\
\n.none { color: var(--quiet); }\n.help { margin-top: 0.8rem; border-top: 1px solid var(--line); p\
adding-top: 0.4rem; }\n#listing { margin: 0.3rem 0 0; font-size: 0.85rem; overflow-x: auto; }\n.he\
lp p { margin: 0.3rem 0; padding-left: 0.6rem; font-size: 0.9rem; }\n@media (max-width: 60rem) {\n\
\x20 main { grid-template-columns: minmax(0, 1fr); }\n  aside { position: static; max-height: none\
; }\n}\n@media print {\n  :root { --ink: #000000; --paper: #ffffff; --ground: #ffffff; --quiet: #3\
33333; --line: #888888; --tint: #ffffff;\n    --code: #ffffff; --now: #000000; --mark: #000000; --\
event: #000000; font-size: 10pt; }\n  .controls, #map, .more, .help { display: none; }\n  .stay > \
.more { display: block; padding: 0; border: 0; }\n  #head, aside { position: static; max-height: n\
one; }\n  .crowded .place:not(.small) { content-visibility: visible; grid-column: 1 / -1; }\n  .st\
ays { grid-template-columns: repeat(auto-fill, minmax(min(100%, 15rem), 1fr)); }\n  .stay, #flight\
s > li { break-inside: avoid; }\n  #flights { columns: 14rem auto; }\n  * { print-color-adjust: ex\
act; }\n}\n</style>\n</head>\n<body>\n<header id=\"head\">\n<h1 class=\"unseen\">A run, step by st\
ep</h1>\n<div class=\"controls\">\n<button id=\"first\" type=\"button\" title=\"First moment (Home\
)\">First</button>\n<button id=\"back\" type=\"button\" title=\"One event back (left)\">Back</butt\
on>\n<button id=\"forward\" type=\"button\" title=\"One event forward (right)\">Forward</button>\n\
<button id=\"last\" type=\"button\" title=\"Last moment (End)\">Last</button>\n<button id=\"play\"\
\x20type=\"button\" title=\"Go forward by itself\">Play</button>\n<label>Events a second\n<select \
id=\"speed\"><option>1</option><option selected>2</option><option>5</option><option>20</option></s\
elect>\n</label>\n<label class=\"wide\"><span class=\"unseen\">Moment</span><input id=\"slider\" t\
ype=\"range\" min=\"0\" value=\"0\"></label>\n<label><input id=\"follow\" type=\"checkbox\" checke\
d> Follow the event</label>\n</div>\n<p class=\"now\" aria-live=\"polite\"><span id=\"position\"><\
/span> <span id=\"event\"></span></p>\n<ul id=\"notes\" aria-label=\"What it did\"></ul>\n<nav id=\
\"map\" aria-label=\"Places\"></nav>\n</header>\n<main>\n<div id=\"places\"></div>\n<aside aria-la\
belledby=\"flights-title\">\n<h2 id=\"flights-title\">Frames in flight</h2>\n<ul id=\"flights\"></\
ul>\n<details class=\"help\">\n<summary>Listing</summary>\n<pre id=\"listing\"></pre>\n</details>\
\n<details class=\"help\">\n<summary>Keys and marks</summary>\n<p>Left and right: one event. Page \
up and page down: ten. Home and End: the first and the last moment.\nThe address ends in the numbe\
r of the event, as <code>#12</code>.</p>\n<p class=\"new\">A bar, a tint and bold type: this event\
\x20changed it.</p>\n<p><b class=\"pointer\">&#9654;</b> is the next instruction of an activity, a\
nd a bar marks the one that this event did;\na broken bar: it had nothing to do.\n<code>f3 at 1, k\
ey 2</code> is the activity with key 2 of place 1, which began with function 3.</p>\n</details>\n<\
/aside>\n</main>\n<noscript><p>This page needs JavaScript. It loads nothing from anywhere.</p></no\
script>\n<script id=\"run\" type=\"application/json\">\n";
