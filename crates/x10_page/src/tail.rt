//! What stands behind a run's data in its page. Written by `page/make` from the files in `page`; change those, not this.

/// All that stands behind a run's data in its page.
pub const TAIL: &str = "\
\n</script>\n<script>\n\"use strict\";\n// A run, moment by moment. The data are in the element `r\
un`; docs/FORMATS.md says what they are.\n\nconst PARTS = [\"stays\", \"objects\", \"rails\", \"te\
xts\", \"exports\", \"lines\"];\nconst NO_PLACE = Object.fromEntries(PARTS.map((part) => [part, []\
]));\n// The state is kept for each so many moments; those between are made from it by their diffe\
rences.\nconst STRIDE = 50;\n\nconst run = JSON.parse(document.getElementById(\"run\").textContent\
);\n// A moment's number is how many events of the run were made until then.\nconst FIRST = run.be\
fore;\nconst LAST = FIRST + run.moments.length - 1;\n\n// ---- the listing ----\n\n// The instruct\
ions of each function, a line for each. No text of the listing has a line feed in it.\nconst funct\
ions = run.listing.split(\"\\nfunc \").slice(1).map((it) => it.split(\"\\nend\")[0].split(\"\\n\")\
.slice(1));\nconst ENTRY = Number(run.listing.split(\"\\nentry \")[1]);\n\n/** How many loops are \
around an instruction. Their slots are the first ones, the outermost first. */\nfunction loopsArou\
nd(number, pc) {\n  const code = functions[number].slice(0, pc);\n  const count = (name) => code.f\
ilter((line) => line.startsWith(name)).length;\n  return count(\"LOOP \") - count(\"ENDL \");\n}\n\
\n// ---- states ----\n\n/** The list that a difference makes of another one, which stays as it is\
. */\nfunction changed(list, [length, ...elements]) {\n  if (!elements.length && length === list.l\
ength) return list;\n  return Object.assign(list.slice(0, length), Object.fromEntries(elements));\
\n}\n\n/** The state after a moment's event; what didn't change is shared with the state before. *\
/\nfunction after(state, moment) {\n  const places = state.places.slice();\n  for (const [place, p\
arts] of moment.places) {\n    const old = places[place] ?? NO_PLACE;\n    places[place] = Object.\
fromEntries(PARTS.map((part) => [part, changed(old[part], parts[part])]));\n  }\n  const taken = f\
rameOf(state, eventOf(moment).number);\n  const flights = [...state.flights.filter((it) => it !== \
taken), ...moment.posts.map(readFrame)];\n  const isMain = state.isMain && Boolean(places[0].stays\
[0]);\n  return { places, flights, reports: reportsAfter(state.reports, taken), isMain };\n}\n\n/*\
* What was reported to the homes, with a frame more: for each finish and each place that reports t\
he greatest counts. */\nfunction reportsAfter(reports, frame) {\n  if (frame?.type !== \"Report\")\
\x20return reports;\n  const finish = finishKey(frame.finish);\n  const known = reports[finish]?.[\
frame.from] ?? { sent: [], received: [] };\n  const greatest = (side) => frame[side].map((count, n\
) => Math.max(count, known[side][n] ?? 0));\n  const counts = { sent: greatest(\"sent\"), received\
: greatest(\"received\") };\n  return { ...reports, [finish]: { ...reports[finish], [frame.from]: \
counts } };\n}\n\n/** The state of the first moment. Key 0 of place 0 is main where it has begun w\
ith the entry function. */\nfunction firstState() {\n  const flights = run.flights.slice(1).map(re\
adFrame);\n  const state = after({ places: [], flights, reports: {} }, run.moments[0]);\n  const s\
tay = state.places[0].stays[0];\n  return { ...state, isMain: stay?.back === null && stay.frames.a\
t(-1).function === ENTRY };\n}\n\nconst kept = [firstState()];\n\n// The finishes that were open a\
t the first moment: what was reported on them until then isn't known.\nconst openBefore = new Set(\
kept[0].places.flatMap(({ stays }) => stays.flatMap((it) => it?.finishes ?? [])).map(finishKey));\
\n\n// The state that was asked for last, from which one goes forward.\nlet latest = { at: 0, stat\
e: kept[0] };\n\n/** The state at a moment. */\nfunction stateAt(number) {\n  const index = number\
\x20- FIRST;\n  const from = Math.min(Math.floor(index / STRIDE), kept.length - 1) * STRIDE;\n  le\
t { at, state } = latest.at <= index && latest.at >= from ? latest : { at: from, state: kept[from \
/ STRIDE] };\n  while (at < index) {\n    state = after(state, run.moments[++at]);\n    if (at % S\
TRIDE === 0) kept[at / STRIDE] = state;\n  }\n  latest = { at, state };\n  return state;\n}\n\n// \
---- events and frames ----\n\n/** What a moment's event is, and which frames it put out. */\nfunc\
tion eventOf({ event, posts }) {\n  const [letter, ...words] = event.split(\"\\n\")[0].split(\" \"\
);\n  const [one, two, called, pc] = words.map(Number);\n  const kind = { S: \"step\", D: \"delive\
ry\", \"-\": \"idle\" }[letter] ?? \"start\";\n  const isOfFrame = letter === \"D\" || two === und\
efined;\n  const whose = isOfFrame ? { number: one, place: two } : { place: one, key: two, functio\
n: called, pc };\n  return { kind, ...whose, posted: posts.map(([number]) => number) };\n}\n\n/** \
A frame in flight, read from its lines. */\nfunction readFrame([number, to, text]) {\n  const [fir\
st, ...lines] = text.trimEnd().split(\"\\n\");\n  const [, type, from] = /^frame: (\\w+), .*from p\
lace (\\d+)/.exec(first);\n  const words = (name) => lines.find((line) => line.startsWith(name + \
\": \"))?.slice(name.length + 2);\n  const numbers = (name) => (words(name)?.match(/\\d+/g) ?? [])\
.map(Number);\n  const [finish, home] = numbers(\"finish\");\n  const read = { number, to, type, f\
rom: Number(from), lines, finish: { number: finish, home }, waiting: numbers(\"waiting\") };\n  re\
turn { ...read, function: words(\"function\"), sent: numbers(\"sent\"), received: numbers(\"receiv\
ed\") };\n}\n\n/** The frame in flight with a number. */\nfunction frameOf(state, number) {\n  ret\
urn state.flights.find((it) => it.number === number);\n}\n\nfunction finishKey(finish) {\n  return\
\x20`${finish.home}:${finish.number}`;\n}\n// Tells of a run in words.\n\nfunction toldFrame(frame\
) {\n  if (!frame) return \"?\";\n  if (frame.type === \"Back\") return `Back to stay ${frame.wait\
ing[0]}`;\n  if (frame.type === \"Report\") return `Report of place ${frame.from} on ${toldFinish(\
frame.finish)}`;\n  return `${frame.type} of function ${frame.function}`;\n}\n\nfunction toldFinis\
h(finish) {\n  return finishKey(finish) === \"0:0\" ? \"the root finish\" : `finish ${finish.numbe\
r} of place ${finish.home}`;\n}\n\n/** The pairs of places whose counts for a finish differ, as fa\
r as its home knows them: by its own counts and by reports. */\nfunction missing(state, finish) {\
\n  if (openBefore.has(finishKey(finish))) return [\"reports before the first event shown aren't i\
n this page\"];\n  const known = { ...state.reports[finishKey(finish)], [finish.home]: finish };\n\
\x20 const count = (place, side, other) => known[place]?.[side][other] ?? 0;\n  return state.place\
s.flatMap((one, from) => state.places.flatMap((other, to) => {\n    const [sent, received] = [coun\
t(from, \"sent\", to), count(to, \"received\", from)];\n    return sent === received ? [] : [`plac\
e ${from} to ${to}: ${sent} sent, ${received} received, as reported`];\n  }));\n}\n\n/** The name \
of an activity: main, or the function that it began with, and where it is. */\nfunction nameOf(sta\
te, place, key) {\n  const stay = state.places[place]?.stays[key];\n  const isMain = state.isMain \
&& place === 0 && key === 0;\n  const name = stay ? `f${stay.frames.at(-1).function}` : \"none\";\
\n  return `${isMain ? \"main\" : name} at ${place}, key ${key}`;\n}\n\n/** Which stay works for o\
ne that is away, which stays are under a finish, and which stay of a place is inside a region. */\
\nfunction linksOf(state) {\n  const [workers, under, inside] = [new Map(), new Map(), new Map()];\
\n  state.places.forEach(({ stays }, place) => {\n    stays.forEach((stay, key) => {\n      if (!s\
tay) return;\n      const finish = finishKey(stay.under);\n      if (!under.has(finish)) under.set\
(finish, []);\n      under.get(finish).push([place, key]);\n      if (stay.back) workers.set(`${st\
ay.back}`, [place, key]);\n      if (stay.inside) inside.set(place, key);\n    });\n  });\n  retur\
n { workers, under, inside };\n}\n\n/** The first few of some texts, and how many more there are. \
*/\nfunction few(texts, many) {\n  return texts.length > many ? [...texts.slice(0, many), `${texts\
.length - many} more`] : texts;\n}\n\n/** Where a stay is that is away. */\nfunction toldAway(stat\
e, links, place, key) {\n  const worker = links.workers.get(`${[place, key]}`);\n  if (worker) ret\
urn `away: ${nameOf(state, ...worker)} works for it`;\n  const frame = state.flights.find(({ waiti\
ng }) => isSame(waiting, [key, place]));\n  return frame ? `away: frame ${frame.number} is on its \
way to place ${frame.to}` : \"away\";\n}\n\n/** What a stay at a FINE waits for. */\nfunction told\
Wait(state, links, place, finish) {\n  const others = (links.under.get(finishKey(finish)) ?? []).f\
ilter(([at]) => at !== place);\n  const names = few(others.map((it) => nameOf(state, ...it)), 3).j\
oin(\"; \");\n  const told = [`at FINE: ${toldFinish(finish)}, ${finish.live} alive here`];\n  ret\
urn [...told, ...(names ? [`alive elsewhere: ${names}`] : []), ...few(missing(state, finish), 4)];\
\n}\n\n/** Why a stay doesn't work, and where its result goes. */\nfunction toldStay(state, links,\
\x20place, key) {\n  const stay = state.places[place].stays[key];\n  const inside = links.inside.g\
et(place) ?? key;\n  const told = stay.back ? [`its result goes back to ${nameOf(state, ...stay.ba\
ck)}`] : [];\n  if (stay.away) return [toldAway(state, links, place, key), ...told];\n  if (inside\
\x20!== key) return [`kept out: ${nameOf(state, place, inside)} is inside an atomic region`, ...to\
ld];\n  return stay.idle && stay.finishes.length ? [...toldWait(state, links, place, stay.finishes\
[0]), ...told] : told;\n}\n\n/** The event of a moment, in words. */\nfunction toldEvent(event, be\
fore) {\n  const { kind, number, place, key } = event;\n  if (kind === \"start\") return FIRST ? `\
after ${FIRST} events` : \"before the first event\";\n  if (kind === \"delivery\") return `frame $\
{number} arrives at place ${place}: ${toldFrame(frameOf(before, number))}`;\n  if (number !== unde\
fined) return `nothing to do: frame ${number} isn't in flight`;\n  const name = nameOf(before, pla\
ce, key);\n  if (kind === \"step\") return `step of ${name}: ${functions[event.function][event.pc]\
}`;\n  const why = before.places[place]?.stays[key] && toldStay(before, linksOf(before), place, ke\
y)[0];\n  return `nothing to do: ${name}${why ? ` is ${why}` : \"\"}`;\n}\n\n/** What else an even\
t did: frames put out, activities that began or ended, lines printed. */\nfunction notesOf(event, \
before, now) {\n  const told = event.posted.map((number) => {\n    const frame = frameOf(now, numb\
er);\n    return `puts out frame ${number} to place ${frame?.to}: ${toldFrame(frame)}`;\n  });\n  \
const [old, it] = [before, now].map((state) => state.places[event.place] ?? NO_PLACE);\n  const mo\
st = Math.max(it.stays.length, old.stays.length);\n  for (let key = 0; key < most; key++) told.pus\
h(...changesOfStay(before, now, event.place, key));\n  return [...told, ...it.lines.slice(old.line\
s.length).map((line) => `prints ${clipped(line)}`)];\n}\n\nfunction changesOfStay(before, now, pla\
ce, key) {\n  const [old, stay] = [before, now].map((state) => state.places[place].stays[key]);\n \
\x20if (old === stay || (!old && !stay)) return [];\n  if (!stay) return [`${nameOf(before, place,\
\x20key)} ends`];\n  const name = nameOf(now, place, key);\n  if (!old) return [`${name} begins`];\
\n  const told = [];\n  if (old.away !== stay.away) told.push(stay.away ? `${name} is away until i\
ts result comes` : `${name} goes on`);\n  if (stay.finishes.length > old.finishes.length) told.pus\
h(`opens ${toldFinish(stay.finishes[0])}`);\n  if (stay.finishes.length < old.finishes.length) tol\
d.push(`closes ${toldFinish(old.finishes[0])}`);\n  return told;\n}\n\nconst ENDS = {\n  ended: \"\
The run has ended: the root finish is closed.\",\n  stopped: \"The run isn't shown further: it was\
\x20cut at --to, at a limit, or for lack of memory.\",\n};\n// Shows a run: what is in the data ge\
ts into the page as text alone, never as markup.\n\n// How much of a long list is shown, how many \
characters of a long value, and how many bytes of a rail.\nconst SHOWN = 20;\nconst WIDEST = 80;\n\
const BYTES = 32;\nconst IS_CROWDED = run.places > 8;\n// How many lines of the listing are shown \
on each side of an instruction.\nconst AROUND = IS_CROWDED ? 1 : 2;\n\n// ---- elements of the pag\
e ----\n\n/** An element with attributes, or of a class, and in it elements and texts. */\nfunctio\
n element(tag, attributes, ...children) {\n  const made = document.createElement(tag);\n  const al\
l = typeof attributes === \"string\" ? { class: attributes } : attributes;\n  for (const [name, va\
lue] of Object.entries(all)) {\n    if (value !== undefined && value !== false) made.setAttribute(\
name, value);\n  }\n  made.append(...children.flat().filter((it) => it !== undefined));\n  return \
made;\n}\n\nfunction clipped(text) {\n  return text.length > WIDEST ? `${text.slice(0, WIDEST)}\\u\
2026 (${text.length} characters)` : text;\n}\n\nconst isSame = (one, other) => one === other || JS\
ON.stringify(one) === JSON.stringify(other);\n\n/** The classes that have a true value. */\nfuncti\
on classes(names) {\n  return Object.keys(names).filter((name) => names[name]).join(\" \") || unde\
fined;\n}\n\n// What was unfolded, by name.\nconst unfolded = new Set();\n\n/** A control that unf\
olds what has this name, and folds it again. */\nfunction unfolding(name, more, fewer) {\n  const \
text = unfolded.has(name) ? fewer : more;\n  const button = element(\"button\", { type: \"button\"\
, class: \"more\", \"data-unfolds\": name }, text);\n  button.addEventListener(\"click\", () => {\
\n    if (!unfolded.delete(name)) unfolded.add(name);\n    show(shown.number, true);\n    document\
.querySelector(`[data-unfolds=\"${name}\"]`)?.focus();\n  });\n  return button;\n}\n\n/** The rows\
\x20of a list, and a control for all: without them only the first ones, and those that changed. */\
\nfunction rowsOf(name, what, list, before, row) {\n  const all = unfolded.has(name);\n  const row\
s = [];\n  let others = 0;\n  list.forEach((value, index) => {\n    const isNew = index >= before.\
length || !isSame(value, before[index]);\n    if (all || index < SHOWN || (isNew && others++ < SHO\
WN)) rows.push(row(value, index, before[index], isNew));\n  });\n  if (list.length > SHOWN) rows.p\
ush(element(\"li\", {}, unfolding(name, `all ${list.length} ${what}`, `fewer ${what}`)));\n  retur\
n rows;\n}\n\n// ---- an activity ----\n\n/** Where a frame stands, and the lines around it; `done\
` is the instruction that this event made. */\nfunction codeOf(name, frame, done) {\n  const code \
= functions[frame.function];\n  const [window, all] = [2 * AROUND + 1, unfolded.has(name)];\n  con\
st least = all ? 0 : Math.max(0, Math.min(frame.pc - AROUND, code.length - window));\n  const rows\
\x20= code.slice(least, all ? code.length : least + window).map((line, n) => {\n    const pc = lea\
st + n;\n    const marks = { \"aria-current\": pc === frame.pc && \"step\", class: classes({ new: \
pc === done }) };\n    return element(\"li\", marks, element(\"span\", \"number\", `${pc}`), line)\
;\n  });\n  const control = code.length > window ? [unfolding(name, `all ${code.length} lines`, \"\
fewer lines\")] : [];\n  return element(\"div\", {}, element(\"ol\", \"code\", rows), control);\n}\
\n\nfunction registersOf(frame, old) {\n  const before = new Map(old.registers.map(([register, ...\
rest]) => [register, `${rest}`]));\n  const rows = frame.registers.map(([register, kind, value]) =\
> {\n    const marks = { \"data-register\": register, class: classes({ new: before.get(register) !\
== `${[kind, value]}` }) };\n    const head = element(\"th\", { scope: \"row\" }, `r${register}`);\
\n    return element(\"tr\", marks, head, element(\"td\", \"kind\", kind), element(\"td\", \"value\
\", clipped(value)));\n  });\n  const loops = frame.loops.slice(0, loopsAround(frame.function, fra\
me.pc)).map((turns, slot) => {\n    return element(\"p\", classes({ loop: true, new: turns !== old\
.loops[slot] }), `loop ${slot}: turns left ${turns}`);\n  });\n  return element(\"div\", {}, eleme\
nt(\"table\", \"registers\", element(\"tbody\", {}, rows)), loops);\n}\n\n/** The frames of the ca\
llers, the nearest first, if they are unfolded, and a control for them. */\nfunction callersOf(nam\
e, frames) {\n  const fold = `${name} callers`;\n  const callers = (unfolded.has(fold) ? frames : \
[]).slice(1).map((frame, n) => {\n    const where = element(\"p\", \"told\", `function ${frame.fun\
ction}, at its call`);\n    const code = codeOf(`${name} caller ${frames.length - n}`, frame);\n  \
\x20 return element(\"div\", {}, where, element(\"div\", \"frame\", code, registersOf(frame, frame\
)));\n  });\n  const told = `called by function ${frames[1]?.function}; callers: ${frames.length -\
\x201}`;\n  return frames.length > 1 ? [...callers, unfolding(fold, told, \"hide the callers\")] :\
\x20[];\n}\n\nfunction conditionOf(stay) {\n  if (stay.away) return \"away\";\n  if (stay.inside) \
return \"inside\";\n  return stay.idle ? \"waits\" : \"works\";\n}\n\n/** An activity; `old` is wh\
at it was before the event, or undefined. */\nfunction stayItem({ event, now, told, isHere }, plac\
e, key, stay, old) {\n  const name = `${place} stay ${key}`;\n  const top = stay.frames[0];\n  con\
st condition = conditionOf(stay);\n  // what the event was, if it was one of this activity\n  cons\
t did = isHere && event.key === key && event.kind;\n  const hasMoved = did === \"step\" || (old?.a\
way && !stay.away);\n  const marks = { stay: true, began: !old, moved: hasMoved, tried: did === \"\
idle\" };\n  // the frame that was there before, with as many callers\n  const before = old?.frame\
s.at(-stay.frames.length) ?? { registers: [], loops: top.loops };\n  const hasStayed = did === \"s\
tep\" && old?.frames.length === stay.frames.length;\n  const state = classes({ state: true, [condi\
tion]: true, newly: old && conditionOf(old) !== condition });\n  const inWords = element(\"span\",\
\x20state, condition === \"inside\" ? \"in atomic region\" : condition);\n  const where = `in func\
tion ${top.function}, under ${toldFinish(stay.under)}`;\n  const lines = [...told[key], where].map\
((line) => element(\"li\", {}, line));\n  return element(\n    \"li\",\n    { class: classes(marks\
), \"data-key\": key },\n    element(\"h3\", {}, element(\"span\", \"name\", nameOf(now, place, ke\
y)), inWords),\n    element(\"ul\", \"told\", lines),\n    element(\"div\", \"frame\", codeOf(name\
, top, hasStayed ? event.pc : undefined), registersOf(top, before)),\n    callersOf(name, stay.fra\
mes),\n  );\n}\n\n/** The activities of a place, and those that this event ended. */\nfunction sta\
ysOf(view, place, stays, before) {\n  const keys = [...stays.keys()].filter((key) => stays[key]);\
\n  const [list, old] = [stays, before].map((from) => keys.map((key) => from[key] ?? undefined));\
\n  const row = (stay, n, was) => stayItem(view, place, keys[n], stay, was);\n  const ended = [...\
before.keys()].filter((key) => before[key] && !stays[key]).map((key) => {\n    const name = elemen\
t(\"span\", \"name gone\", nameOf(view.before, place, key));\n    return element(\"li\", \"stay mo\
ved\", element(\"h3\", {}, name, \"has ended\"));\n  });\n  return element(\"ul\", \"stays\", rows\
Of(`${place} stays`, \"activities\", list, old, row), ended);\n}\n\n// ---- the rest of a place --\
--\n\n/** A cell of a row. */\nfunction cell(text, isNew) {\n  return element(\"span\", classes({ \
value: true, new: isNew }), text);\n}\n\n// Of an element of each list what it is, and its cells.\
\nconst CELLS = {\n  objects: ([number, fields], index, old) => {\n    const cells = fields.map((v\
alue, field) => cell(`${field}: ${clipped(value)}`, old && old[1][field] !== value));\n    return \
[`object ${index}, class ${number}`, ...cells];\n  },\n  rails: (bytes, index, old) => {\n    cons\
t others = old ? [...bytes.keys()].filter((n) => bytes[n] !== old[n]) : [];\n    const value = byt\
es.slice(0, BYTES).join(\" \") + (bytes.length > BYTES ? \" \\u2026\" : \"\");\n    const marked =\
\x20others.slice(0, 4).map((n) => cell(`byte ${n}: ${bytes[n]}`, true));\n    return [`rail ${inde\
x}, length ${bytes.length}`, cell(value), ...marked];\n  },\n  texts: (text, index) => [`text ${in\
dex}`, cell(clipped(JSON.stringify(text)))],\n  exports: ([number, object], index) => [`reference \
${index}, class ${number}`, cell(`object ${object}`)],\n  lines: (line) => [undefined, cell(clippe\
d(line))],\n  finishes: (it, index, old) => {\n    const cells = [[\"live\", `${it.live} alive her\
e`], ...countsOf(it)];\n    return [toldFinish(it), ...cells.map(([side, text]) => cell(text, !isS\
ame(it[side], old?.[side])))];\n  },\n};\n\n/** A part of a place that is a list, unless there is \
nothing in it. */\nfunction partOf(place, name, title, list, before) {\n  const rows = rowsOf(`${p\
lace} ${name}`, name, list, before, (value, index, old, isNew) => {\n    const [what, ...cells] = \
CELLS[name](value, index, old);\n    return element(\"li\", { class: classes({ new: isNew }) }, wh\
at && element(\"span\", \"what\", what), cells);\n  });\n  return rows.length ? [element(\"div\", \
{ \"data-part\": name }, element(\"h3\", \"part\", title), element(\"ul\", \"list\", rows))] : [];\
\n}\n\n/** The finishes that a place's stays name, with what it counts of each. */\nfunction finis\
hesOf(stays) {\n  const all = stays.filter(Boolean).flatMap((stay) => [stay.under, ...stay.finishe\
s]);\n  const list = [...new Map(all.map((it) => [finishKey(it), it])).values()];\n  return list.s\
ort((one, other) => one.home - other.home || one.number - other.number);\n}\n\n/** The counts of e\
ach side that aren't 0, with their places. */\nfunction countsOf(it) {\n  const told = (side, word\
) => it[side].map((count, place) => count && `${count} ${word} ${place}`).filter(Boolean);\n  cons\
t sides = [[\"sent\", told(\"sent\", \"to\")], [\"received\", told(\"received\", \"from\")]];\n  r\
eturn sides.filter(([, counts]) => counts.length).map(([side, counts]) => [side, `${side} ${counts\
.join(\", \")}`]);\n}\n\nconst TITLES = { lines: \"printed\", objects: \"objects\", rails: \"rails\
\", texts: \"texts\", exports: \"exported\" };\n\n/** What a place shows: its activities, finishes\
, lines and heap. */\nfunction contentOf(view, place, now, before) {\n  const [finishes, old] = [n\
ow, before].map((it) => finishesOf(it.stays));\n  const was = finishes.map((it) => old.find((other\
) => finishKey(other) === finishKey(it)));\n  const counted = partOf(place, \"finishes\", \"finish\
es, counted here\", finishes, was);\n  const lists = Object.entries(TITLES).flatMap(([name, title]\
) =>\n    partOf(place, name, `${title}: ${now[name].length}`, now[name], before[name]));\n  retur\
n [staysOf(view, place, now.stays, before.stays), ...counted, ...lists];\n}\n\n/** The card of a p\
lace; one where nothing lives and nothing is new is small where there are many. */\nfunction place\
Element(view, place) {\n  const now = view.now.places[place];\n  const before = view.isHere ? view\
.before.places[place] : now;\n  const count = now.stays.filter(Boolean).length;\n  const isQuiet =\
\x20!view.isHere && !count;\n  const isSmall = isQuiet && IS_CROWDED && !unfolded.has(`${place}`);\
\n  const title = [element(\"span\", \"which\", `Place ${place}`)];\n  if (!isSmall) title.push(el\
ement(\"small\", {}, `${count || \"none\"} alive`));\n  if (view.isHere) title.push(element(\"span\
\", \"tag\", \"\\u25c0 event\"));\n  const hasMore = PARTS.some((part) => now[part].length);\n  if\
\x20(isQuiet && IS_CROWDED && hasMore) title.push(unfolding(`${place}`, \"show\", \"hide\"));\n  c\
onst marks = { class: classes({ place: true, here: view.isHere, quiet: isQuiet, small: isSmall }),\
\x20\"data-place\": place };\n  return element(\"section\", marks, element(\"h2\", {}, title), isS\
mall ? [] : contentOf(view, place, now, before));\n}\n\nfunction flightItem(frame, index, old, isN\
ew) {\n  const heading = element(\"p\", {}, `${frame.type} ${frame.number}: place ${frame.from} \\\
u2192 ${frame.to}`);\n  const told = frame.type === \"Report\" ? [frame.lines[0], ...countsOf(fram\
e).map(([, text]) => text)] : frame.lines;\n  const lines = few(told, SHOWN).map((line) => element\
(\"li\", {}, clipped(line)));\n  const marks = { class: classes({ [frame.type]: true, new: isNew }\
), \"data-frame\": frame.number };\n  return element(\"li\", marks, heading, element(\"ul\", \"lin\
es\", lines));\n}\n\n/** The frame that has just arrived, and those in flight. */\nfunction flight\
sOf(before, now, event) {\n  const taken = frameOf(before, event.number);\n  const gone = taken ? \
[element(\"li\", \"gone\", `${taken.type} ${taken.number} has arrived`)] : [];\n  const old = now.\
flights.map((it) => (event.posted.includes(it.number) ? undefined : it));\n  const rows = [...gone\
, ...rowsOf(\"flights\", \"frames\", now.flights, old, flightItem)];\n  return rows.length ? rows \
: [element(\"li\", \"none\", \"none\")];\n}\n\n// ---- the page ----\n\nconst byId = (name) => doc\
ument.getElementById(name);\n// What is shown: the moment, and of each place the element and what \
it was made from.\nconst shown = { number: undefined, cards: [] };\n\n/** Scrolls to what an event\
\x20changed; and again in the next moments, since what comes into view may have another height. */\
\nfunction follow(place, times) {\n  const card = shown.cards[place].card;\n  (card.querySelector(\
\".moved, .began, .tried\") ?? card).scrollIntoView({ block: \"nearest\" });\n  if (times > 1) req\
uestAnimationFrame(() => follow(place, times - 1));\n}\n\n/** Makes the card of a place again, whe\
re it isn't as it was. */\nfunction showPlace(view, place, anew) {\n  const now = view.now.places[\
place];\n  const told = JSON.stringify(view.told);\n  const old = shown.cards[place];\n  if (!anew\
\x20&& !view.isHere && !old.isHere && old.now === now && old.told === told) return;\n  const card \
= placeElement(view, place);\n  old.card.replaceWith(card);\n  shown.cards[place] = { now, told, i\
sHere: view.isHere, card };\n  const count = now.stays.filter(Boolean).length;\n  const button = b\
yId(\"map\").children[place];\n  button.className = classes({ alive: count, here: view.isHere }) ?\
? \"\";\n  button.title = `place ${place}: ${count} alive`;\n}\n\nfunction showEvent(number, event\
, before, now) {\n  const told = toldEvent(event, before);\n  const notes = [...notesOf(event, bef\
ore, now), ...(number === LAST ? [ENDS[run.end]] : [])];\n  byId(\"position\").textContent = `even\
t ${number} of ${LAST}`;\n  byId(\"event\").textContent = told;\n  byId(\"notes\").replaceChildren\
(...notes.map((it) => element(\"li\", {}, it)));\n  byId(\"slider\").value = number;\n  byId(\"sli\
der\").setAttribute(\"aria-valuetext\", `event ${number}: ${told}`);\n  for (const name of [\"firs\
t\", \"back\"]) byId(name).disabled = number === FIRST;\n  for (const name of [\"forward\", \"last\
\"]) byId(name).disabled = number === LAST;\n}\n\n/** Shows a moment; with `anew` all of it is mad\
e again. */\nfunction show(number, anew) {\n  const before = stateAt(Math.max(FIRST, number - 1));\
\n  const now = stateAt(number);\n  const event = eventOf(run.moments[number - FIRST]);\n  const l\
inks = linksOf(now);\n  shown.number = number;\n  showEvent(number, event, before, now);\n  now.pl\
aces.forEach(({ stays }, place) => {\n    const told = stays.map((stay, key) => stay && toldStay(n\
ow, links, place, key));\n    showPlace({ event, before, now, told, isHere: event.place === place \
}, place, anew);\n  });\n  byId(\"flights\").replaceChildren(...flightsOf(before, now, event));\n \
\x20document.body.style.setProperty(\"--below\", `${byId(\"head\").offsetHeight + 12}px`);\n  if (\
byId(\"follow\").checked && event.place !== undefined) follow(event.place, 4);\n  keepAddress();\n\
}\n\n/** Goes to a moment, or to the nearest one that there is. */\nfunction goTo(number) {\n  con\
st nearest = Math.max(FIRST, Math.min(LAST, number));\n  if (nearest !== shown.number) show(neares\
t);\n}\n\nlet resting;\n\n/** The address follows once the page is at rest, since browsers limit h\
ow often it may change. */\nfunction keepAddress() {\n  clearTimeout(resting);\n  resting = setTim\
eout(() => history.replaceState(null, \"\", `#${shown.number}`), 300);\n}\n\n/** Goes to the momen\
t that the address names. */\nfunction goToAddress() {\n  goTo(Number(/^#(\\d+)$/.exec(location.ha\
sh)?.[1] ?? FIRST));\n  keepAddress();\n}\n\nlet playing;\n\nfunction play(isOn) {\n  clearInterva\
l(playing);\n  const forward = () => (shown.number < LAST ? goTo(shown.number + 1) : play(false));\
\n  playing = isOn && setInterval(forward, 1000 / Number(byId(\"speed\").value));\n  byId(\"play\"\
).textContent = isOn ? \"Pause\" : \"Play\";\n}\n\n// How many events a key goes forward.\nconst K\
EYS = { ArrowLeft: -1, ArrowRight: 1, PageUp: -10, PageDown: 10, Home: -Infinity, End: Infinity };\
\n\nfunction pressed(event) {\n  const isOther = event.ctrlKey || event.altKey || event.metaKey ||\
\x20event.target.tagName === \"SELECT\";\n  if (isOther || !(event.key in KEYS)) return;\n  event.\
preventDefault();\n  goTo(shown.number + KEYS[event.key]);\n}\n\nfunction begin() {\n  byId(\"plac\
es\").style.setProperty(\"--most\", run.places < 4 ? run.places : IS_CROWDED ? 12 : 4);\n  byId(\"\
places\").classList.toggle(\"crowded\", IS_CROWDED);\n  Object.assign(byId(\"slider\"), { min: FIR\
ST, max: LAST });\n  byId(\"listing\").textContent = run.listing;\n  for (let place = 0; place < r\
un.places; place++) {\n    shown.cards.push({ card: byId(\"places\").appendChild(element(\"section\
\", {})) });\n    const button = byId(\"map\").appendChild(element(\"button\", { type: \"button\" \
}, `${place}`));\n    button.addEventListener(\"click\", () => shown.cards[place].card.scrollIntoV\
iew());\n  }\n  const { Home: first, ArrowLeft: back, ArrowRight: forward, End: last } = KEYS;\n  \
for (const [name, events] of Object.entries({ first, back, forward, last })) {\n    byId(name).add\
EventListener(\"click\", () => goTo(shown.number + events));\n  }\n  byId(\"play\").addEventListen\
er(\"click\", () => play(!playing));\n  byId(\"slider\").addEventListener(\"input\", () => goTo(Nu\
mber(byId(\"slider\").value)));\n  byId(\"speed\").addEventListener(\"change\", () => play(Boolean\
(playing)));\n  document.addEventListener(\"keydown\", pressed);\n  addEventListener(\"hashchange\
\", goToAddress);\n  goToAddress();\n}\n\nbegin();\n</script>\n</body>\n</html>\n";
