/// What stands behind the run: the script, which has no library and asks for nothing in the network.
pub const SCRIPT: &[u8] = br##"</script>
<script>
"use strict";
// The page of a run, whose value docs/SHOW.md describes. One key more is used where it is there: `scenario`, the scenario's text,
// for what no row tells: first counts, limits, priorities, first messages, permissions. Without it, what the rows tell is shown.

// ---- Reading: rows and calls ----

// The first words by which a reply or an answer tells of a failure; of these calls it is a name, but for two words that are none.
const FAILURES = new Set(["busy", "nomsg", "again", "oops", "nodev", "inval", "fault", "full"]);
const NAMING = new Set(["set", "list", "begin", "subwait"]);
const fails = (word, said) => NAMING.has(word) ? said === "nomsg" || said === "again" : FAILURES.has(said.split(" ", 1)[0]);

// A row with the parts of its line: `PLAYER.STEP WORD ARGS = REPLY`, with `look` before it where it is a look.
function readRow(row, index, places) {
  const cut = row.text.indexOf(" = "), words = row.text.slice(0, cut).split(" "), reply = row.text.slice(cut + 3);
  const look = words[0] === "look", [word, ...args] = words.slice(look ? 2 : 1);
  const place = look ? -1 : places.get(row.service) ?? 0;
  if (!look) places.set(row.service, place + 1);
  const late = word === "announce" && reply.split(" ").some(said => FAILURES.has(said.split(":")[1]));
  const op = [word, ...args].join(" "), said = `${op} = ${reply}`;
  return {...row, index, look, word, args, reply, op, said, place, call: null, bad: late || (!look && fails(word, reply))};
}

// The next step of a publish whose listener's script is over: its next visit, or its end.
const goesOn = ({channel}, {service, said}) => service === channel ? said === "free = ok" : said.startsWith(`visit ${channel} `);

// The calls of one player, by its rows in the order of its steps, and its answers by step. A call in a listener's script is
// deeper than the publish that plays it.
function readCalls(own, answers, calls) {
  const open = [];
  for (const row of own) {
    if (row.service === "work" && (row.word === "begin" || row.word === "end")) continue;
    const outer = open.at(-1);
    if (outer?.inScript && goesOn(outer, row)) outer.inScript = false;
    else if (!outer || outer.inScript) open.push({player: row.player, rows: [], depth: open.length, inScript: false});
    const call = row.call = open.at(-1), answer = answers.get(row.step);
    if (call.rows.push(row) === 1) calls.push(call);
    if (answer) Object.assign(open.pop(), {word: answer.word, answer: answer.answer, bad: fails(answer.word, answer.answer)});
    else if (row.word === "visit" && row.reply === "run") Object.assign(call, {inScript: true, channel: row.args[0]});
  }
}

// A call that isn't answered goes on to the end. Its word is that of its first step that is no check and no alarm.
const UNANSWERED = {
  pollarm: "poll", offer: "publish", enter: "read or notify", cancelstart: "cancelsync", flushstart: "flush", drainstart: "drain",
};

function finishCall(call, foot) {
  const begun = call.rows.find(row => row.service !== "table" && row.service !== "clock") ?? call.rows[0];
  const end = call.rows.at(-1), [first, last] = [call.rows[0].index, end.index].sort((a, b) => a - b);
  Object.assign(call, {first, last: call.word ? last : foot, end, word: call.word ?? UNANSWERED[begun.word] ?? begun.word});
}

// The whole run: its rows, those of each player, its calls, and in which rows players died.
function readRun(run) {
  const places = new Map(), died = new Map(), calls = [];
  const rows = run.rows.map((row, index) => readRow(row, index, places));
  const own = run.players.map(() => []), answers = run.players.map(() => new Map());
  for (const row of rows) {
    own[row.player].push(row);
    if (row.word === "check" && row.reply.startsWith("oops")) died.set(row.player, row.index);
  }
  for (const list of own) list.sort((a, b) => a.step - b.step);
  for (const answer of run.answers) answers[answer.player].set(answer.step, answer);
  own.forEach((list, player) => readCalls(list, answers[player], calls));
  for (const call of calls) finishCall(call, died.get(call.player) ?? rows.length - 1);
  return {run, names: run.players, rows, own, answers, calls, died};
}

// Finds the spans that touch some rows without a look at the others: they stand by the powers of two above their lengths.
function spansOf(spans) {
  const levels = Array.from({length: 33}, () => new Map());
  for (const span of spans) {
    const level = 32 - Math.clz32(span.last - span.first), key = Math.floor(span.first / 2 ** level);
    levels[level].get(key)?.push(span) ?? levels[level].set(key, [span]);
  }
  return (from, to) => levels.flatMap((places, level) => {
    const found = [];
    const most = places.size ? to / 2 ** level : -1;
    for (let key = Math.floor(from / 2 ** level) - 1; key <= most; key++) found.push(...places.get(key) ?? []);
    return found;
  }).filter(span => span.first <= to && span.last >= from).sort((a, b) => a.first - b.first || b.last - a.last);
}

// ---- The state of the objects: the machines of docs/MACHINES.md, led by the replies ----

// Who waits, in the order in which they are served, and whose wait is decided and hasn't ended.
const noWaits = () => ({waiting: [], decided: []});

// An object by the words behind its name in its declaration; by none, what is known of it without.
const NEW = {
  thread: ([prio, mode]) => ({prio, user: mode === "user", dead: false, may: []}),
  queue: ([prio, state]) => ({prio, started: state !== "off", draining: false, plugged: false, runs: null, line: []}),
  item: () => ({waits: null, runs: null, cancelling: false, armed: null}),
  sem: ([count, limit = Infinity, raw]) => (
    {count: Number(count), limit: Number(limit), raw: raw === "raw", takers: noWaits(), polls: noWaits()}),
  msgq: ([, most = Infinity, raw]) => (
    {most: Number(most), raw: raw === "raw", messages: [], putters: noWaits(), getters: noWaits(), polls: noWaits()}),
  signal: ([raw]) => ({raw: raw === "raw", raised: false, result: "0", stamp: 0}),
  listener: () => ({enabled: true}),
  sub: ([most = Infinity]) => ({most: Number(most), enabled: true, channels: [], takers: noWaits()}),
  chan: ([, message]) => ({message, holder: null, masked: [], waits: noWaits()}),
};

function declare(at, {run}) {
  for (const line of run.scenario.split("\n")) {
    const [word, name, ...more] = line.split(" ");
    if (word === "script") return;
    if (word === "allow") at.get(name)?.may.push(more[0]);
    if (NEW[word]) at.set(name, {kind: word, ...NEW[word](more)});
  }
}

// The kind of a service's object, by the first of its rows whose words tell it.
const KINDS = [
  ["sem", /^(give|reset|count|take\w* .*= (got|busy))/], ["msgq", /^(put|peek|get\w* \w|purge|used|free = \d)/],
  ["chan", /^(offer|enter|claim|set|list|finish|mask|get =|free = ok)/], ["listener", /^visit .* = run/],
  ["sub", /^(visit .* = (pushed|full)|take\w* .*= (?!wait|again))/], ["signal", /^(raise|clear|check)/],
];

// The objects that the rows name, where no scenario declares them. The count of a semaphore is known there once a row tells it.
function findObjects(at, {rows}) {
  const kinds = new Map(), add = (name, kind) => at.has(name) || at.set(name, {kind, ...NEW[kind]([])});
  for (const {service, word, args, said} of rows) {
    if (service !== "work") kinds.set(service, kinds.get(service) ?? KINDS.find(([, form]) => form.test(said))?.[0]);
    else if (/^(begin|end|start|stop|drainstart|unplug)$/.test(word)) add(args[0], "queue");
    else if (word !== "announce" && !word.endsWith("done")) add(args[0], "item");
    if (/^(submit|schedule|reschedule)$/.test(word) && args[1] !== "-") add(args[1], "queue");
  }
  for (const [name, kind] of kinds) if (name !== "clock" && name !== "table") add(name, kind ?? "sem");
}

// Before the first row: the objects by name, time at the clock and at the work service, alarms, how many were admitted, and who
// waits in a cancelsync, a flush or a drain.
function firstState(read) {
  const at = new Map();
  (read.run.scenario ? declare : findObjects)(at, read);
  const prio = read.names.map(name => Number(at.get(name)?.prio ?? 0));
  return {at, prio, time: 0, worktime: 0, alarms: [], admitted: 0, waits: []};
}

function join(waits, row, prio, payload) {
  const before = waits.waiting.findIndex(wait => wait.prio > prio);
  waits.waiting.splice(before < 0 ? waits.waiting.length : before, 0, {player: row.player, place: row.place, prio, payload});
}

const without = (waits, row) => waits.filter(wait => wait.player !== row.player || wait.place !== Number(row.args[0]));

function decideFirst(waits, answer) {
  const first = waits.waiting.shift();
  if (first) waits.decided.push({...first, answer});
  return first;
}

// Decides all who wait: then 0 wait.
function decideAll(waits, answer) {
  while (decideFirst(waits, answer));
  return 0;
}

// Where those stand whose waits begin with such a word or end with `end` or `quit` behind it.
const LISTS = {
  take: "takers", put: "putters", get: "getters", poll: "polls", pollarm: "polls", offer: "waits", enter: "waits", claim: "waits",
};
const MANNERS = {offer: "publish", enter: "read or notify", claim: "claim"};

// A message is put, before or behind the others: the first get that waits has it.
function putIn(msgq, row, place) {
  if (row.reply !== "ok" || decideFirst(msgq.getters, row.args[0])) return;
  msgq.messages.splice(place, 0, row.args[0]);
  decideFirst(msgq.polls, "noted");
}

const gain = (chan, {player, word, reply}) => { if (reply === "got") chan.holder = {player, payload: MANNERS[word]}; };
// A channel that is freed goes to the first who waits.
const handOn = (chan, {reply}) => { if (reply === "ok") chan.holder = decideFirst(chan.waits, "got") ?? null; };

const OBSERVER = {
  visit(seen, {reply, args}) { if (reply === "pushed" && !decideFirst(seen.takers, args[0])) seen.channels.push(args[0]); },
  take(sub, {reply}) { if (reply !== "wait" && reply !== "nomsg") sub.channels.shift(); },
  enable(seen, {args}) { seen.enabled = args[0] === "on"; },
};

// What each operation does to an object but to who waits, which is the same for all.
const MACHINES = {
  sem: {
    take(sem, {reply}) { sem.count = reply === "got" ? Math.max(0, sem.count - 1) : 0; },
    give(sem) {
      if (decideFirst(sem.takers, "got")) return;
      sem.count = Math.min(sem.count + 1, sem.limit);
      decideFirst(sem.polls, "noted");
    },
    reset(sem) { sem.count = decideAll(sem.takers, "again"); },
    count(sem, {reply}) { sem.count = Number(reply); },
    pollarm(sem, {reply}) { if (reply !== "ready") sem.count = 0; },
  },
  msgq: {
    put(msgq, row) { putIn(msgq, row, msgq.messages.length); },
    putfront(msgq, row) { putIn(msgq, row, 0); },
    get(msgq, {reply}) {
      if (reply === "wait" || reply === "nomsg") return;
      msgq.messages.shift();
      const moved = decideFirst(msgq.putters, "ok");
      if (moved) msgq.messages.push(moved.payload);
    },
    purge(msgq) { msgq.messages.length = decideAll(msgq.putters, "nomsg"); },
  },
  signal: {
    raise(signal, {args, reply}) { Object.assign(signal, {raised: true, result: args[0], stamp: Number(reply)}); },
    clear(signal, {reply}) { Object.assign(signal, {raised: false, result: "0", stamp: Number(reply)}); },
  },
  chan: {
    offer: gain, enter: gain, claim: gain, free: handOn, finish: handOn,
    set(chan, {args}) { chan.message = args[0]; },
    get(chan, {reply}) { chan.message = reply; },
    mask(chan, {args: [name, on], reply}) {
      chan.masked = less(chan.masked, name);
      if (reply === "ok" && on === "on") chan.masked.push(name);
    },
  },
  listener: OBSERVER, sub: OBSERVER,
};

// The item is admitted where the words say so: `1 aN QUEUE`, `2 aN QUEUE`.
function admit(state, name, [, number, home]) {
  const item = state.at.get(name), queue = state.at.get(home);
  if (!item || !queue) return;
  item.waits = {item: name, number: Number(number.slice(1)), queue: home};
  queue.line.push(item.waits);
  state.admitted = item.waits.number + 1;
}

// An admission is over: who waits for it may go on, and so may who drains its queue, where nothing of that is left.
function isOver(state, {number, queue: name}) {
  const queue = state.at.get(name), isDone = !queue.runs && !queue.line.length;
  if (isDone) queue.draining = false;
  for (const wait of state.waits) wait.come ||= wait.number === number || (isDone && wait.queue === name);
}

function cancel(state, name) {
  const item = state.at.get(name), dropped = item.waits;
  Object.assign(item, {armed: null, waits: null, cancelling: item.runs !== null});
  if (!dropped) return;
  const {line} = state.at.get(dropped.queue);
  line.splice(line.findIndex(one => one.number === dropped.number), 1);
  isOver(state, dropped);
}

function delay(state, {word, args: [name, queue, ticks], reply}) {
  const item = state.at.get(name);
  if (word === "reschedule") item.armed = null;
  if (reply === "1") item.armed = {queue, until: state.worktime + Number(ticks)};
  else admit(state, name, reply.split(" "));
}

// The player waits in a cancelsync, a flush or a drain, and waits no more.
const awaits = (state, {player, place, word, args: [name]}, what) =>
  state.waits.push({player, place, word: UNANSWERED[word], name, come: false, ...what});
const stopWaiting = (state, row) => { state.waits = without(state.waits, row); };

const WORK = {
  submit: (state, {args, reply}) => admit(state, args[0], reply.split(" ")),
  cancel: (state, {args}) => cancel(state, args[0]),
  cancelstart(state, row) {
    cancel(state, row.args[0]);
    if (row.reply === "wait") awaits(state, row, {number: state.at.get(row.args[0]).runs.number});
  },
  flushstart(state, row) {
    const item = state.at.get(row.args[0]), number = row.reply.split(" ")[1] ?? "a-1";
    if (item.armed && Number(number.slice(1)) >= state.admitted) {
      admit(state, row.args[0], [row.reply, number, item.runs?.queue ?? item.armed.queue]);
    }
    item.armed = null;
    if (row.reply !== "false") awaits(state, row, {number: Number(number.slice(1))});
  },
  canceldone: stopWaiting, flushdone: stopWaiting, draindone: stopWaiting, schedule: delay, reschedule: delay,
  start: (state, {args}) => { state.at.get(args[0]).started = true; },
  unplug: (state, {args}) => { state.at.get(args[0]).plugged = false; },
  stop: (state, {args, reply}) => { if (reply === "ok") state.at.get(args[0]).started = false; },
  drainstart(state, row) {
    const [name, mode] = row.args, queue = state.at.get(name);
    queue.plugged ||= mode === "plug";
    queue.draining ||= row.reply === "wait";
    if (row.reply === "wait") awaits(state, row, {queue: name});
  },
  announce(state, {reply}) {
    const [, now, ...told] = reply.split(" ");
    state.worktime = Number(now);
    for (const [name, ...words] of told.map(one => one.split(":"))) {
      state.at.get(name).armed = null;
      admit(state, name, words);
    }
  },
  begin(state, {args, reply}) {
    const item = state.at.get(reply.split(" ")[0]), queue = state.at.get(args[0]);
    queue.line.shift();
    queue.runs = item.waits;
    Object.assign(item, {runs: item.waits, waits: null});
  },
  end(state, {args}) {
    const queue = state.at.get(args[0]), {runs} = queue;
    Object.assign(state.at.get(runs.item), {runs: null, cancelling: false});
    queue.runs = null;
    isOver(state, runs);
  },
};

const forget = (state, row) => { state.alarms = state.alarms.filter(alarm => alarm.player !== row.player); };
const CLOCK = {
  announce(state, {reply}) { state.time = Number(reply.split(" ")[1]); },
  alarm(state, {player, reply}) { state.alarms.push({player, moment: Number(reply.split(" ")[1])}); },
  alarmend: forget,
};

const less = (list, one) => list.filter(other => other !== one);
const TABLE = {
  grant(state, {args: [name, object]}) { const it = state.at.get(name); it.may = [...less(it.may, object), object]; },
  revoke(state, {args: [name, object]}) { const it = state.at.get(name); it.may = less(it.may, object); },
  release(state, {args: [object]}, own) { if (own.may) own.may = less(own.may, object); },
  public(state, {args: [name]}) { state.at.get(name).public = true; },
  init(state, {args: [name]}) { state.at.get(name).raw = false; },
  user(state, row, own) { own.user = true; },
  check(state, {reply}, own) { own.dead ||= reply.startsWith("oops"); },
};

function advanceObject(object, row, prio) {
  const ends = /^(take|put|get|poll|claim)(?:end|quit)$/.exec(row.word);
  const {waiting, decided} = ends ? object[LISTS[ends[1]]] : {};
  if (ends) object[LISTS[ends[1]]] = {waiting: without(waiting, row), decided: without(decided, row)};
  if (/^(wait|armed)$/.test(row.reply)) join(object[LISTS[row.word]], row, prio, MANNERS[row.word] ?? row.args[0]);
  MACHINES[object.kind][row.word]?.(object, row);
}

// One step more. What the machines have no place for, as in a trace that isn't lawful, changes nothing more.
function advance(state, row, read) {
  if (row.look) return;
  try {
    if (row.service === "work") WORK[row.word]?.(state, row);
    else if (row.service === "clock") CLOCK[row.word]?.(state, row);
    else if (row.service === "table") TABLE[row.word]?.(state, row, state.at.get(read.names[row.player]));
    else advanceObject(state.at.get(row.service), row, state.prio[row.player]);
  } catch (error) {
    if (!(error instanceof TypeError)) throw error;
  }
  if (row.call?.end === row && row.call.answer !== undefined) forget(state, row);
}

// The state behind so many rows: one is kept every so many rows, and the one that was asked for last.
function historyOf(read) {
  const every = Math.max(256, Math.ceil(read.rows.length / 128)), kept = [firstState(read)];
  let rows = 0, state = structuredClone(kept[0]);
  return count => {
    const near = Math.min(Math.floor(count / every), kept.length - 1);
    if (rows > count || rows < near * every) [rows, state] = [near * every, structuredClone(kept[near])];
    while (rows < count) {
      advance(state, read.rows[rows++], read);
      if (rows === kept.length * every) kept.push(structuredClone(state));
    }
    return state;
  };
}

// What is said of an object, part by part; what is false or 0 isn't said.
const sayWaits = (names, what, {waiting, decided}, more = () => "") => [
  waiting.length && `${what}: ${waiting.map(wait => names[wait.player] + more(wait)).join(", ")}`,
  decided.length && `not told yet: ${decided.map(wait => `${names[wait.player]} (${wait.answer})`).join(", ")}`,
];
const sayInWork = (names, waits) =>
  waits.map(({player, word, come}) => `${names[player]} is in ${word}${come ? ", which may end" : ""}`);
const sayMost = most => most < Infinity ? ` of ${most}` : "";
const sayList = (list, most, what) => `${list.length}${sayMost(most)} ${what}${list.length ? `: ${list.join(" ")}` : ""}`;
const sayAdmission = one => `${one.item} a${one.number}`;

const SAID = {
  thread: (names, {dead, user, may}) => [dead && "ended by an oops", user && "user", may.length && `may use ${may.join(", ")}`],
  queue: (names, {runs, line, started, draining, plugged}, waits) => [
    runs && `runs ${sayAdmission(runs)}`, line.length && `line: ${line.map(sayAdmission).join(", ")}`, !started && "not started",
    draining && "drains", plugged && "plugged", ...sayInWork(names, waits),
  ],
  item: (names, {runs, cancelling, waits: one, armed}, waits) => [
    runs && `runs on ${runs.queue} as a${runs.number}`, cancelling && "is being cancelled",
    one && `admitted to ${one.queue} as a${one.number}`, armed && `armed until tick ${armed.until} for ${armed.queue}`,
    ...sayInWork(names, waits),
  ],
  sem: (names, {count, limit, takers, polls}) => [
    Number.isNaN(count) ? "count not told yet" : `count ${count}${sayMost(limit)}`,
    ...sayWaits(names, "wait", takers), ...sayWaits(names, "poll", polls),
  ],
  msgq: (names, {messages, most, putters, getters, polls}) => [
    sayList(messages, most, "messages"), ...sayWaits(names, "wait to put", putters, wait => ` ${wait.payload}`),
    ...sayWaits(names, "wait to get", getters), ...sayWaits(names, "poll", polls),
  ],
  signal: (names, {raised, result, stamp}) => [raised ? `raised ${result}` : "clear", stamp && `write ${stamp}`],
  listener: (names, {enabled}) => [!enabled && "disabled"],
  sub: (names, {enabled, channels, most, takers}) => [
    !enabled && "disabled", sayList(channels, most, "channels"), ...sayWaits(names, "wait", takers),
  ],
  chan: (names, {message, holder, masked, waits}) => [
    message && `message ${message}`, holder && `held by ${names[holder.player]} (${holder.payload})`,
    masked.length && `masked: ${masked.join(", ")}`, ...sayWaits(names, "wait", waits, wait => ` (${wait.payload})`),
  ],
};

function saidOf(names, state) {
  const said = new Map(), waits = new Map();
  for (const wait of state.waits) waits.set(wait.name, [...waits.get(wait.name) ?? [], wait]);
  for (const [name, object] of state.at) {
    const words = SAID[object.kind](names, object, waits.get(name) ?? []);
    said.set(name, [...words, object.public && "public", object.raw && "not initialised"].filter(Boolean).join("; "));
  }
  return said;
}
</script>
<script>
"use strict";
// ---- The page: what is seen of the run ----

// In pixels: the columns at the left, the place for arrows beside a lane and for bars in it, the heads, a line of the trace, a letter.
const GUTTER = 118, GAP = 24, STRIPS = 14, HEADS = 40, LINE = 18, LETTER = 7.23;
const FIELDS = ["player", "object", "word"];
const by = id => document.getElementById(id);
const escaped = text => String(text).replace(/[&<>"]/g, sign => `&#${sign.charCodeAt(0)};`);
const cut = (text, most) => {
  const kept = Math.max(3, most) - 1;
  return text.length <= kept + 1 ? text : `${text.slice(0, Math.ceil(kept / 2))}\u2026${text.slice(-Math.floor(kept / 2))}`;
};
const element = (name, attributes, ...inner) => {
  const said = Object.entries(attributes).map(([key, value]) => ` ${key}="${escaped(value)}"`);
  return `<${name}${said.join("")}>${inner.join("")}</${name}>`;
};
const styled = (name, text) => text && element("tspan", {class: name}, escaped(text));
const options = list => ["", ...list].map(name => element("option", {}, escaped(name))).join("");

// A row's text in so many letters: with its call's word in the first row of a call, and the answer in the last. What is too long
// is cut in the middle, so that the answer is seen.
function label(row, letters) {
  const {call, reply} = row, answer = (call?.end === row && call.answer) || "";
  const within = answer !== "" && `${reply} `.startsWith(`${answer} `);
  const word = call?.rows[0] === row && call.word !== row.word ? `${call.word}: ` : "";
  const mark = answer && !within ? " \u21d2 " : "";
  const told = cut(answer, letters - word.length - 10), room = letters - word.length - mark.length - told.length - 3;
  const said = cut(within ? reply.slice(answer.length) : reply, room - 6);
  const left = cut(`${row.look ? "look " : ""}${row.op}`, room - said.length);
  const bold = styled(call?.bad ? "bad" : "bold", mark + told), plain = styled(row.bad && !within ? "bad" : "soft", said);
  return `${styled("bold", word)}${escaped(left)} = ${within ? bold + plain : plain + bold}`;
}

const read = readRun(JSON.parse(by("run").textContent)), behind = historyOf(read);
const {run, names, rows, own, answers, calls, died} = read, count = rows.length;
const chart = by("chart"), trace = by("trace"), lines = [], lineAt = [], callsAt = spansOf(calls);
const lastOf = bar => bar.last ?? died.get(bar.player) ?? count - 1;
const barsAt = spansOf(run.bars.map(bar => ({...bar, open: bar.last === null, last: lastOf(bar)})));
const arrowsAt = spansOf(run.arrows.map(arrow => ({...arrow, first: arrow.from, last: arrow.to})));
[...rows].sort((a, b) => a.line - b.line).forEach((row, at, all) => {
  if (row.service !== all[at - 1]?.service) lines.push({head: `service ${row.service}`});
  lineAt[row.index] = lines.push({row}) - 1;
});
let chosen = 0, high = 21, wide = 200, bright = null, drawn = [0, -1];

const isBright = row => !bright || bright[row.index];
const dim = isSeen => isSeen ? "" : " dim";
const x = player => GUTTER + player * wide, right = player => x(player) + wide - GAP;
const inset = call => STRIPS + (call?.depth ?? 0) * 7;

// An arrow leads across to where nothing stands beside its lane, down there, and across again: no other text is in that row.
function drawArrow({kind, from, to}, top) {
  const a = rows[from].player, b = rows[to].player, beside = (b < a ? x(a) - GAP : right(a)) + 4 + from % 5 * 4;
  const start = b < a ? x(a) + STRIPS : right(a), end = a < b ? x(b) + STRIPS : right(b), y = (to + .4) * high - top;
  const on = from === chosen || to === chosen ? " on" : "", way = `M${start} ${(from + .7) * high - top}H${beside}V${y}H${end}`;
  return element("g", {"data-kind": kind, class: dim(isBright(rows[from]) || isBright(rows[to]))},
    element("path", {class: `arrow${on}`, d: way}),
    element("path", {class: "tip", d: `M${end} ${y}l${a < b ? -7 : 7} -3.5v7z`}));
}

function drawCall(call, top) {
  const left = x(call.player) + inset(call), said = call.answer === undefined ? ", not answered" : ` = ${call.answer}`;
  const looks = `box${call.bad ? " bad" : ""}${dim(call.rows.some(isBright))}`, height = (call.last - call.first + 1) * high;
  const place = {x: left, y: call.first * high - top + 1, width: right(call.player) - left, height: height - Math.min(3, high / 4)};
  return element("rect", {class: looks, rx: 3, ...place}, element("title", {}, escaped(`${names[call.player]}: ${call.word}${said}, steps ${call.rows[0].step} to ${call.end.step}`)));
}

// Of a wait the rows between its first and its last are hatched.
function drawBar({player, kind, depth, first, last, open}, top) {
  const y = first * high - top + 1, tall = Math.max(2, (last - first + 1) * high - 3), left = x(player) + inset(rows[first].call);
  const looks = kind + dim(isBright(rows[first]));
  if (kind !== "wait") return element("rect", {class: looks, x: x(player) + 1 + depth * 5, y, width: 5, height: tall});
  const hatched = Math.max(1, tall - (open ? 1 : 2) * high + 5);
  return element("rect", {class: looks, x: left, y: y + high - 3, width: right(player) - left, height: hatched});
}

// Draws the rows that are seen, and as many above and below them.
function draw() {
  const seen = Math.ceil(chart.clientHeight / high), from = Math.max(0, Math.floor(chart.scrollTop / high) - seen);
  const to = Math.min(count - 1, from + 3 * seen), top = from * high, foot = (to - from + 1) * high, marks = [];
  const all = Math.max(GUTTER + names.length * wide, chart.clientWidth);
  const letters = Math.floor((wide - GAP - STRIPS - 9) / LETTER);
  const lane = player => `M${x(player) + 8} 0V${Math.min(foot, Math.max(0, ((died.get(player) ?? to + 1) + .5) * high - top))}`;
  const out = [by("patterns").innerHTML, element("path", {class: "lane", d: names.map((name, player) => lane(player)).join("")})];
  for (const call of callsAt(from, to)) out.push(drawCall(call, top));
  for (const bar of barsAt(from, to)) out.push(drawBar(bar, top));
  out.push(element("rect", {class: "chosen", y: chosen * high - top, width: all, height: high}));
  for (const arrow of arrowsAt(from, to)) out.push(drawArrow(arrow, top));
  for (const row of rows.slice(from, to + 1)) {
    const y = row.index * high - top, left = x(row.player), base = y + high / 2 + 4, faint = dim(isBright(row));
    const isTime = row.service === "clock" && row.word === "announce", side = isTime ? `tick ${row.reply.slice(4)}` : row.service;
    if (isTime) out.push(element("path", {class: "rule", d: `M0 ${y + high - .5}H${all}`}));
    const isLast = died.get(row.player) === row.index, way = `M${left + 2} ${base - 10}l12 12m0 -12l-12 12`;
    if (isLast) out.push(element("path", {class: "cross", d: way}));
    if (high < 11) continue;
    const text = label(row, letters - (row.call?.depth ?? 0));
    out.push(element("text", {class: faint, x: left + inset(row.call) + 5, y: base}, text));
    marks.push(element("text", {class: `soft${faint}`, x: 6, y: base}, row.index));
    marks.push(element("text", {class: (isTime ? "moment" : "soft") + faint, x: 48, y: base}, escaped(cut(side, 9))));
  }
  for (const [id, width, html] of [["lanes", all, out], ["gutter", GUTTER - 2, marks]]) {
    by(id).style.top = `${top}px`;
    by(id).setAttribute("width", width);
    by(id).setAttribute("height", foot);
    by(id).innerHTML = html.join("");
  }
  drawn = [from, to];
}

// The heads say what each player does at the chosen row.
function drawHeads() {
  wide = Math.max(240, Math.min(420, Math.floor((chart.clientWidth - GUTTER - 4) / names.length)));
  const now = names.map(() => "-");
  for (const bar of barsAt(chosen, chosen)) if (bar.kind === "run") now[bar.player] = "runs";
  for (const {player, word, answer, last} of callsAt(chosen, chosen)) {
    now[player] = last === chosen && answer ? `${word} = ${answer}` : `in ${word}`;
  }
  for (const [player, row] of died) if (row <= chosen) now[player] = "ended by an oops";
  const isDead = player => died.get(player) <= chosen ? "bad" : "";
  const head = (name, player) => element("div", {class: isDead(player), style: `width:${wide}px`, title: name},
    element("b", {}, escaped(name)), element("span", {}, escaped(now[player])));
  const corner = element("div", {class: "corner", style: `width:${GUTTER}px`}, "row<br>service");
  by("heads").innerHTML = corner + names.map(head).join("");
  by("space").style = `width:${GUTTER + names.length * wide}px;height:${count * high + 40}px`;
  by("side").style.width = `${GUTTER - 1}px`;
}

function drawTrace() {
  const from = Math.max(0, Math.floor(trace.scrollTop / LINE) - 20), to = from + Math.ceil(trace.clientHeight / LINE) + 40;
  by("lines").style.height = `${lines.length * LINE}px`;
  by("lines").innerHTML = lines.slice(from, to).map(({head, row}, at) => element("div", {
    style: `top:${(from + at) * LINE}px`, "data-row": row?.index ?? "",
    class: head ? "head" : (row.bad ? "bad" : "") + dim(isBright(row)) + (row.index === chosen ? " chosen" : ""),
  }, element("i", {}, row?.line ?? ""), escaped(head ?? row.text))).join("");
}

function drawState() {
  const before = saidOf(names, behind(chosen)), state = behind(chosen + 1), alarms = [];
  for (const {player, moment} of state.alarms) alarms.push(`${names[player]} until ${moment}`);
  const put = (name, kind, said, was) => {
    const looks = (said === was ? "" : "changed") + (said ? "" : " idle") + dim(["", name].includes(by("object").value));
    return element("p", {"data-object": name, class: looks}, element("small", {}, kind), element("b", {}, escaped(name)),
      escaped(said || "idle"), said === was ? "" : element("small", {class: "was"}, escaped(`was: ${was || "idle"}`)));
  };
  const said = [...saidOf(names, state)].map(([name, one]) => [name, state.at.get(name).kind, one, before.get(name)]);
  by("time").textContent = `tick ${state.time}${state.worktime === state.time ? "" : `, at work ${state.worktime}`}`;
  if (alarms.length) said.push(["alarms", "clock", alarms.join(", "), alarms.join(", ")]);
  by("state").innerHTML = said.filter(([, kind, one, was]) => kind !== "thread" || one || was).map(one => put(...one)).join("");
}

function drawAnswers() {
  const {player, step} = rows[chosen], all = [...answers[player].values()], later = all.findIndex(answer => answer.step > step);
  const now = later < 0 ? all.length : later, from = Math.max(0, now - 40);
  by("whose").textContent = names[player];
  by("answers").innerHTML = all.slice(from, now + 20).map(({step: end, word, answer}, at) => element("div", {
    "data-row": own[player].find(row => row.step === end)?.index ?? chosen,
    class: (from + at < now ? "" : "later") + (fails(word, answer) ? " bad" : "") + (end === step ? " chosen" : ""),
  }, element("i", {}, end), `${word} = `, element("b", {}, escaped(answer)))).join("") || element("div", {}, "none");
  by("answers").children[now - from - 1]?.scrollIntoView({block: "nearest"});
}

// How far a place is scrolled, so that a line in it is seen.
const scrolled = (now, at, tall, shown) => at >= now && at + tall <= now + shown ? now : at - shown / 2;

function select(index) {
  chosen = Math.max(0, Math.min(count - 1, index));
  document.body.dataset.chosen = chosen;
  by("where").textContent = `row ${chosen} of ${count}`;
  by("place").textContent = `line ${rows[chosen].line}`;
  chart.scrollTop = scrolled(chart.scrollTop, chosen * high, high, chart.clientHeight - HEADS);
  chart.scrollLeft = scrolled(chart.scrollLeft, rows[chosen].player * wide, wide, chart.clientWidth - GUTTER);
  trace.scrollTop = scrolled(trace.scrollTop, lineAt[chosen] * LINE, LINE, trace.clientHeight);
  for (const redraw of [drawHeads, draw, drawTrace, drawState, drawAnswers]) redraw();
}

function step(by, fits) {
  let next = chosen + by;
  while (fits && rows[next] && !fits(rows[next])) next += by;
  if (rows[next]) select(next);
}

function zoom(factor) {
  const middle = (chart.scrollTop + chart.clientHeight / 2) / high;
  high = Math.max(2, Math.min(40, Math.round(high * factor), 12e6 / count));
  drawHeads();
  chart.scrollTop = middle * high - chart.clientHeight / 2;
  draw();
}

function filter() {
  const [player, object, word] = FIELDS.map(id => by(id).value);
  const isOf = row => row.service === object || row.said.split(/[ :]/).includes(object);
  const has = ({text, call}) => `${text} ${call?.word} = ${call?.answer}`.includes(word);
  const fits = row => (!player || names[row.player] === player) && (!object || isOf(row)) && has(row);
  bright = player || object || word ? rows.map(fits) : null;
  by("bright").textContent = bright ? `${bright.filter(Boolean).length} of ${count}` : "";
  select(chosen);
}

const isOwn = row => row.player === rows[chosen].player;
const keys = {
  ArrowDown: shift => step(1, shift && isBright), ArrowUp: shift => step(-1, shift && isBright),
  ArrowRight: () => step(1, isOwn), ArrowLeft: () => step(-1, isOwn), Home: () => select(0), End: () => select(count - 1),
  PageDown: () => select(chosen + 20), PageUp: () => select(chosen - 20), "+": () => zoom(1.25), "-": () => zoom(.8),
  Escape: () => filter(FIELDS.forEach(id => { by(id).value = ""; })),
};
document.onkeydown = event => {
  const isTyped = event.target.matches("input, select") && event.key !== "Escape";
  if (isTyped || event.ctrlKey || event.altKey || event.metaKey || !keys[event.key]) return;
  event.preventDefault();
  keys[event.key](event.shiftKey);
};
document.onclick = ({target}) => {
  const {key, row, object} = target.closest("[data-key], [data-row], [data-object]")?.dataset ?? {};
  if (key) keys[key](false);
  else if (row) select(Number(row));
  else if (object) filter(by("object").value = object);
};
for (const id of FIELDS) by(id).oninput = filter;

// The chart is dragged; where it wasn't dragged far, that was a click on a row.
let dragged = 0;
chart.onpointerdown = () => { dragged = 0; };
chart.onpointermove = ({buttons, movementX, movementY}) => {
  if (!buttons) return;
  dragged += Math.abs(movementX) + Math.abs(movementY);
  chart.scrollBy(-movementX, -movementY);
};
by("space").onclick = ({clientY}) => {
  const row = Math.floor((clientY - by("space").getBoundingClientRect().top) / high);
  if (dragged < 5 && rows[row]) select(row);
};
chart.onwheel = event => {
  if (!event.ctrlKey) return;
  event.preventDefault();
  zoom(event.deltaY < 0 ? 1.15 : .87);
};
chart.onscroll = () => {
  const [from, to] = drawn;
  if (chart.scrollTop < from * high || chart.scrollTop + chart.clientHeight > (to + 1) * high) draw();
};
trace.onscroll = drawTrace;
window.onresize = () => select(chosen);

by("ending").textContent = by("ending").className = document.title = run.ending;
by("count").textContent = `${count} steps of ${names.length} players${run.agrees ? "" : ", in the services' order"}`;
by("told").innerHTML = run.told.map(line => element("p", {}, escaped(line))).join("");
by("player").innerHTML = options(names);
by("object").innerHTML = options([...behind(0).at.keys(), "work", "clock", "table"]);
by("words").innerHTML = options(new Set([...run.answers.map(answer => answer.word), ...FAILURES]));
const sign = kind => element("svg", {width: 28, height: 8, "data-kind": kind}, element("path", {class: "arrow", d: "M0 4H28"}));
const kinds = new Set(run.arrows.map(arrow => arrow.kind));
by("kinds").innerHTML = [...kinds].map(kind => element("span", {}, sign(kind), escaped(kind))).join(" ");
if (count) select(0);
</script>
</body>
</html>
"##;
