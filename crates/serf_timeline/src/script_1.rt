//! Part 1 of the page's script. tools/page_parts.py makes this file from examples/timeline.

/// Part 1 of the script.
pub const SCRIPT_1: &[u8] =
    b"// The script of a timeline. The page has what `judge --format json` printed in the element `log-data`, and what `explain --format json`
// printed in `run-data`. Either may be missing. Names and payloads enter the page as text nodes and attributes alone, never as markup.
\"use strict\";

(() => {
  const SVG = \"http://www.w3.org/2000/svg\";
  const ROW = 26; // the height of a row, in pixels
  const GUTTERS = { log: 84, run: 58 }; // the width of the column of times, or of numbers
  const MARGIN = 300; // how far above and below the visible part rows are drawn, in pixels
  const CHARACTER = 7.3; // the width of a character of a label
  const FIRST_LINES = 4000; // how many lines are read before the page is shown
  const NAMED = 12; // how many findings of a kind the verdict lists

  // ---- texts --------------------------------------------------------------------------------------------------------------

  // Characters that would be invisible, or change the order of what is around them.
  const HIDDEN = /[\\u0000-\\u001f\\u007f-\\u009f\\u00ad\\u061c\\u200b-\\u200f\\u2028-\\u202e\\u2060-\\u2069\\ufeff]/g;

  const visible = (text) => text.replace(HIDDEN, (c) => \"\\\\u{\" + c.charCodeAt(0).toString(16) + \"}\");
  // The text that hex spells in UTF-8, or undefined.
  const decoded = (hex) => {
    try {
      return new TextDecoder(\"utf-8\", { fatal: true, ignoreBOM: true }).decode(Uint8Array.from(hex.match(/../g) || [], (pair) => parseInt(pair, 16)));
    } catch (error) {
      return undefined;
    }
  };

  // The bytes under a key: as text if they are text, and otherwise in hex.
  const bytes = (object, key) => {
    const [text, hex] = [object[key], object[key + \"_hex\"]];
    const known = text === undefined && hex ? decoded(hex) : text;
    return known === undefined ? (hex ? \"0x\" + hex : \"\") : visible(known);
  };

  const shorten = (text, length) => (text.length <= length ? text : text.slice(0, Math.max(1, length - 1)) + \"\xe2\x80\xa6\");
  const count = (number, word) => number + \" \" + word + (number === 1 ? \"\" : \"s\");
  const times = (number) => (number === 1 ? \"once\" : number === 2 ? \"twice\" : number + \" times\");
  const listed = (texts) => texts.slice(0, 4).join(\", \") + (texts.length > 4 ? \" and \" + (texts.length - 4) + \" more\" : \"\");

  // Integers that a number of JavaScript can't hold stay texts.
  const LARGE = /\"(?:[^\"\\\\]|\\\\.)*\"|\\b\\d{16,}\\b/g;

  const parse = (line) =>
    JSON.parse(/[:,[]\\d{16}/.test(line) ? line.replace(LARGE, (found) => (found[0] === '\"' ? found : '\"' + found + '\"')) : line);

  const duration = (seconds) => {
    if (seconds < 120) return \"+\" + (seconds < 10 ? Math.round(seconds * 1000) / 1000 : Math.round(seconds)) + \" s\";
    const minutes = Math.round(seconds / 60);
    return minutes < 120 ? \"+\" + minutes + \" min\" : \"+\" + Math.floor(minutes / 60) + \" h \" + (minutes % 60) + \" min\";
  };

  const moment = (nanoseconds) => (nanoseconds >= 1e6 ? Number(nanoseconds) / 1e6 + \" ms\" : nanoseconds + \" ns\");
  const named = (object) => [bytes(object, \"name\"), bytes(object, \"payload\")].filter(Boolean).join(\" \");

  // What an event or a query is called: its name, payload and time.
  const called = (object) => {
    const unnamed = object.kind === \"query\" || object.of === \"query\" ? \"query\" + (object.id === undefined ? \"\" : \" #\" + object.id) : \"(no name)\";
    return (shorten(named(object), 60) || unnamed) + \" @\" + object.time;
  };

  const lineId = (object, prefix) => object[prefix + \"log\"] + \":\" + object[prefix + \"line\"];

  // The same thing handed out, in a log and in a run.
  const keyOf = (kind, object) => [kind, object.time, object.id, object.name_hex, object.payload_hex].join(\"|\");

  // ---- elements -----------------------------------------------------------------------------------------------------------

  const make = (name, attributes, ...children) => {
    const element = document.createElement(name);
    for (const [key, value] of Object.entries(attributes || {})) element.setAttribute(key, value);
    element.append(...children.filter((child) => child !== null && child !== undefined));
    return element;
  };

  const draw = (name, attributes, text) => {
    const element = document.createElementNS(SVG, name);
    for (const key of Object.keys(attributes)) element.setAttribute(key, attributes[key]);
    if (text !== undefined) element.textContent = text;
    return element;
  };

  const listen = (element, name, heard) => {
    element.addEventListener(name, heard);
    return element;
  };
  const button = (text, pressed) => listen(make(\"button\", { type: \"button\" }, text), \"click\", pressed);

  const table = (rows) =>
    make(\"table\", {}, make(\"tbody\", {}, ...rows.map(([name, value, mark]) =>
      make(\"tr\", mark ? { class: mark } : {}, make(\"th\", { scope: \"row\" }, name), make(\"td\", {}, value)))));

  // ---- lines of data ------------------------------------------------------------------------------------------------------

  // The objects in a part of a text.
  const objectsIn = (text, from, to) => text.slice(from, to).split(\"\\n\").filter((line) => line.trim()).map(parse);

  // What a pane shows: lanes, items in order, and links between items.
  class Model {
    constructor(text, name, title, note) {
      Object.assign(this, { text, name, title, note, at: 0, lanes: [], items: [], links: [] });
    }

    // Reads up to `limit` lines. Returns whether there are more.
    read(limit) {
      for (let done = 0; done < limit && this.at < this.text.length; done += 1) {
        const end = this.text.indexOf(\"\\n\", this.at);
        const [start, stop] = [this.at, end < 0 ? this.text.length : end];
        this.at = stop + 1;
        const line = this.text.slice(start, stop).trim();
        if (line) this.accept(parse(line), start);
      }
      if (this.at < this.text.length) return true;
      this.finish();
      return false;
    }
  }

  // ---- a run: from the lines of `explain` ---------------------------------------------------------------------------------

  const KINDS = { userEvent: \"event\", event: \"event\", query: \"query\", queryResponse: \"answer\", pushPull: \"state\", state: \"state\" };
  const DISK = { restart: \"restart\", break: \"restart\", save: \"restart\", compact: \"restart\" };
  const CALLS = { fire: \"event\", query: \"query\", respond: \"answer\", close: \"query\", state: \"state\", merge: \"state\", ...DISK };

  class Run extends Model {
    constructor(text) {
      super(text, \"run\", \"What agents of this project do\", \"drawn from a schedule: not what happened, but what an agent of this project does with the same packets\");
      this.senders = []; // by the number of a packet: its item, kind and name
      this.handed = new Map(); // by node and key: the items that handed it out
      this.open = null;
    }

    accept(object, start) {
      if (object.kind === \"agent\") {
        this.lanes[object.agent] = { name: bytes(object, \"agent_name\"), hex: object.agent_name_hex, settings: object };
      } else if (object.kind === \"action\") {
        this.close(start);
        this.begin(object, start);
      } else if (this.open) {
        this.add(this.open, object);
      }
    }

    begin(action, start) {
      const { agent, call, answer, code, event_clock: clock } = action;
      const sender = this.senders[action.packet] || { item: null, kind: undefined, name: \"\" };
      this.open = {
        id: \"action \" + action.action, number: action.action, gutter: String(action.action), lane: agent < this.lanes.length ? agent : -1, agent, call, answer, code,
        clock, time: action.time, start, end: 0, gap: 0, from: sender.item, kind: sender.kind || CALLS[call] || \"other\", name: named(action) || sender.name, handed: [],
      };
    }

    // An item sent a packet. The first line of a packet's text is its kind.
    send(item, packet, message) {
      const kind = KINDS[message.split(\"\\n\", 1)[0]];
      if (item.call === \"inject\" && kind) {
        const field = (name) => (message.match(new RegExp(\"^\" + name + \" (\\\\S+)$\", \"m\")) || [])[1];
        const hex = (name) => (field(name) || \"-\").replace(\"-\", \"\");
        item.name = named({ name_hex: hex(\"Name\"), payload_hex: kind === \"answer\" ? \"\" : hex(\"Payload\") });
        item.kind = kind;
        item.time = field(\"LTime\");
      }
      this.senders[packet] = { item, kind, name: item.name };
    }

    add(item, object) {
      if (object.kind === \"sent\") {
        this.send(item, object.packet, object.message || \"\");
      } else if (object.kind === \"event\" || object.kind === \"query\") {
        const key = this.nodeOf(object.agent_name_hex) + \"|\" + keyOf(object.kind, { ...object, id: undefined });
        item.handed.push(called(object));
        if (this.handed.has(key)) [item.again] = this.handed.get(key);
        this.handed.set(key, [...(this.handed.get(key) || []), item]);
      } else if (object.kind === \"reason\" && object.time !== undefined && object.slot === undefined) {
        item.name = item.name || named(object);
        if (item.kind === \"other\") item.kind = object.id === undefined ? \"event\" : \"query\";
        item.time = object.time;
      }
    }

    // The node of an agent, in hex. A node that was started on a snapshot that lacks something may be a second agent, `NAME again`.
    nodeOf(hex) {
      const node = hex.replace(/20616761696e$/, \"\");
      return this.lanes.some((lane) => lane.hex === node) ? node : hex;
    }

    finish() {
      this.close(this.text.length);
    }

    // An action has all of its lines.
    close(end) {
      const item = this.open;
      if (!item) return;
      this.open = null;
      item.end = end;
      const sent = this.senders[this.senders.length - 1];
      if (sent && sent.item === item && !sent.name) sent.name = item.name;
      item.seen = item.answer === \"ignored\" && (item.code === \"Seen\" || item.code === \"AckTwice\" || item.code === \"ResponseTwice\");
      const isIgnored = item.answer === \"ignored\" || item.answer === \"foreign\";
      const isQuiet = item.answer === \"merged\" && item.handed.length === 0;
      item.tone = item.again ? \"again\" : item.answer === \"refused\" ? \"refused\" : isIgnored || isQuiet ? \"ignored\" : \"taken\";
      item.shape = item.answer === \"restarted\" ? \"break\" : item.kind === \"state\" ? \"square\" : item.handed.length > 0 ? \"full\" : \"dot\";
      item.label = this.labelOf(item);
      item.search = (item.label + \" \" + item.handed.join(\" \") + \" \" + item.name + \" \" + item.call).toLowerCase();
      if (item.from && item.lane >= 0) this.links.push({ from: item.from, to: item, kind: item.again ? \"taken\" : item.tone });
      if (item.again) this.links.push({ from: item.again, to: item, kind: \"again\" });
      this.items.push(item);
    }

    labelOf(item) {
      const { answer, call, code, handed, kind } = item;
      const sender = item.from && item.from.lane >= 0 ? \"of \" + this.lanes[item.from.lane].name : \"from outside\";
      const ended = answer === \"refused\" || answer === \"ignored\" ? answer + \": \" + code : \"\";
      if (kind === \"answer\" && call === \"deliver\") return \"answer \" + sender + \" \xc2\xb7 \" + (ended || answer + \" counted\");
      if (answer === \"merged\") return \"state \" + sender + \" \xc2\xb7 \" + (handed.length ? listed(handed) + \" handed out\" : \"nothing new\");
      if (answer === \"restarted\") return \"starts again \xc2\xb7 event clock \" + item.clock;
      if (handed.length && call === \"deliver\") return handed[0] + \" \xc2\xb7 handed out\";
      const subject = { query: \"query \", answer: \"answer \", state: \"state \" }[kind] || \"\";
      const what = shorten(item.name, 48) + (item.time === undefined ? \"\" : \" @\" + item.time);
      if (answer === \"injected\") return \"from outside: \" + ((subject + what).replace(\"  \", \" \") || \"bytes\");
      const first = call === \"deliver\" || call === \"merge\" ? subject + what : call + \" \" + what;
      return first.trim() + (ended ? \" \xc2\xb7 \" + ended : answer === \"query\" ? \" \xc2\xb7 held back\" : \"\");
    }

    // The snapshot's text after an item's action: each state has what follows an offset, and the earlier ones what is before it.
    snapshotAt(item) {
      const states = [];
      for (let place = this.items.indexOf(item); place >= 0; place -= 1) {
        const other = this.items[place];
        const state = other.agent === item.agent && objectsIn(this.text, other.start, other.end).find((object) => object.kind === \"state\");
        if (state) states.push(state);
        if (state && Number(state.snapshot_from) === 0) break;
      }
      const hex = states.reduceRight((before, state) => before.slice(0, 2 * Number(state.snapshot_from)) + state.snapshot_hex, \"\");
      const text = decoded(hex);
      return text === undefined ? hex : text.split(\"\\n\").map(visible).join(\"\\n\");
    }

    details(item) {
      const objects = objectsIn(this.text, item.start, item.end);
      const action = objects[0];
      const agent = item.lane >= 0 ? this.lanes[item.lane].name : \"outside\";
      const facts = [[\"agent\", agent], [\"call\", item.call + (action.join ? \" (a join)\" : \"\")], [\"answer\", [item.answer, item.code, action.error].filter(Boolean).join(\" \")]];
      if (item.from) facts.push([\"packet\", \"number \" + action.packet + \", sent by action \" + item.from.number]);
      if (action.now !== undefined) facts.push([\"moment\", moment(action.now)]);
      const found = [make(\"h3\", {}, \"Action \" + item.number + \": \" + item.label), table(facts)];
      const of = (kind) => objects.filter((object) => object.kind === kind);
      const list = (title, texts) => texts.length && found.push(make(\"h4\", {}, title), make(\"ul\", {}, ...texts.map((one) => make(\"li\", {}, one))));
      list(\"Why\", of(\"reason\").map((reason) => visible(reason.text)));
      list(\"Handed out\", [...of(\"event\"), ...of(\"query\")].map(called));
      const text = make(\"pre\", {});
      const snapshot = listen(make(\"details\", {}, make(\"summary\", {}, \"Its snapshot\"), text), \"toggle\", () => { text.textContent = this.snapshotAt(item) || \"(empty)\"; });
      for (const state of of(\"state\")) found.push(make(\"h4\", {}, \"State afterwards\"), this.stateTable(state), snapshot);
      for (const sent of of(\"sent\")) found.push(packet(\"Packet \" + sent.packet + \", sent\", sent));
      const given = item.from && objectsIn(this.text, item.from.start, item.from.end).find((object) => object.kind === \"sent\" && object.packet === action.packet);
      if (given) found.splice(2, 0, packet(\"Packet \" + action.packet + \", received\", given));
      return found;
    }

    stateTable(state) {
      const row = (name, key) => {
        const [before, after] = [state[key + \"_before\"], state[key]];
        return before === undefined || before === after ? [name, String(after)] : [name, before + \" \xe2\x86\x92 \" + after, \"changed\"];
      };
      return table([
        row(\"event clock\", \"event_clock\"), row(\"query clock\", \"query_clock\"), row(\"member clock\", \"clock\"), row(\"minimum for events\", \"event_minimum\"),
        row(\"minimum for queries\", \"query_minimum\"), [\"events in its window\", String(state.held_events)], [\"open queries\", (state.open_queries || []).join(\", \") || \"none\"],
        ...(state.stopped ? [[\"stopped\", \"yes: its disk failed\", \"changed\"]] : []),
      ]);
    }

    findings() {
      const repeated = [...this.handed.values()].filter((items) => items.length > 1).length;
      const text = [\"The schedule: \" + count(this.lanes.length, \"agent\"), count(this.items.length, \"action\"), count(this.handed.size, \"hand-out\")].join(\", \");
      const [tone, more] = repeated ? [\"warn\", repeated + \" of them again, by a second agent of the same node\"] : [\"good\", \"none of them twice\"];
      return [{ tone, text: text + \": \" + more, item: this.items.find((item) => item.again) }];
    }
  }

  // A packet: what it says, with texts in place of hex and without empty slots, and its bytes.
  const packet = (title, object) => {
    const lines = (object.message || \"no message\").split(\"\\n\").filter((line) => !/^slot \\d+ nil$/.test(line));
    const texts = { Name: 1, Payload: 1, From: 1, SourceNode: 1, status: 1, left: 1, event: 2 }; // how many words after the first are texts
    const worded = ([first, ...words]) => [first, ...words.map((word, place) => (place < texts[first] && word !== \"-\" ? bytes({ X_hex: word }, \"X\") : visible(word)))].join(\" \");
    const text = lines.map((line) => worded(line.split(\" \"))).join(\"\\n\");
    return make(\"details\", { open: \"\" }, make(\"summary\", {}, title), make(\"pre\", {}, text), make(\"pre\", { class: \"hex\" }, object.packet_hex || \"\"));
  };

  // ---- a log: from the lines of `judge` -----------------------------------------------------------------------------------

  class Log extends Model {
    constructor(text) {
      super(text, \"log\", \"What happened\", \"drawn from the logs of the nodes' handlers\");
      this.places = new Map(); // the lanes, by the names of the nodes in hex
      this.byLine = new Map(); // the items, by log and line
      this.all = new Map(); // by key: the items that handed it out, on any node
      this.files = new Set();
      this.found = []; // the other objects
      this.hasDates = true;
    }

    lane(object) {
      if (!this.places.has(object.node_hex)) {
        this.places.set(object.node_hex, this.lanes.length);
        this.lanes.push({ name: bytes(object, \"node\"), hex: object.node_hex });
      }
      return this.places.get(object.node_hex);
    }

    accept(object) {
      const { kind } = object;
      if (kind === \"node\") this.lane(object);
      else if (kind === \"event\" || kind === \"query\" || kind === \"fired\") this.add(object);
      else if (kind !== \"read\" && kind !== \"status\") this.found.push(object);
    }

    add(object) {
      const seconds = object.date === undefined ? NaN : Date.parse(visible(object.date)) / 1000;
      const item = {
        id: lineId(object, \"\"), number: object.line, log: object.log, lane: this.lane(object), kind: object.kind, object, seconds, gap: 0,
        gutter: \"\", key: keyOf(object.kind, object), tone: object.kind === \"fired\" ? \"ignored\" : \"taken\", shape: object.kind === \"fired\" ? \"dot\" : \"full\",
        label: (object.kind === \"fired\" ? \"fires \" : \"\") + called(object), seen: false, missed: false,
      };
      if (Number.isNaN(seconds)) this.hasDates = false;
      item.search = item.label.toLowerCase();
      this.items.push(item);
      this.byLine.set(item.id, item);
      this.files.add(object.log);
      if (object.kind === \"fired\") return;
      if (!this.all.has(item.key)) this.all.set(item.key, []);
      this.all.get(item.key).push(item);
    }

    // Joins repeats with what they repeat, adds what was missed, and puts everything in order.
    finish() {
      for (const repeat of this.found.filter((object) => object.kind === \"repeat\")) {
        const item = this.byLine.get(lineId(repeat, \"\"));
        const earlier = this.byLine.get(lineId(repeat, \"earlier_\"));
        if (!item || !earlier) continue;
        item.tone = \"again\";
        item.again = earlier;
        item.label = \"again: \" + item.label;
        if (earlier.tone !== \"again\") earlier.tone = \"before\";
        this.links.push({ from: earlier, to: item, kind: \"again\" });
      }
      for (const missed of this.found.filter((object) => object.kind === \"missed\" && this.all.has(keyOf(\"event\", object)))) {
        const key = keyOf(\"event\", missed);
        const [first] = this.all.get(key);
        const label = \"missed \" + called(missed);
        this.items.push({
          id: \"missed \" + missed.node_hex + \"|\" + key, number: first.number, log: first.log, lane: this.lane(missed), kind: \"event\", object: missed, seconds: first.seconds,
          gap: 0, gutter: \"\", key, tone: \"missed\", shape: \"ring\", label, search: label.toLowerCase(), seen: false, missed: true,
        });
      }
      const log = new Map([...this.files].map((name, place) => [name, place]));
      this.items.sort((a, b) => (this.hasDates && a.seconds - b.seconds) || log.get(a.log) - log.get(b.log) || a.number - b.number || Number(a.missed) - Number(b.missed));
      this.rows();
    }

    // What happened at one time to several nodes is in one row.
    rows() {
      let [row, last] = [0, null];
      const taken = new Set();
      for (const item of this.items) {
        const isSame = last && item.key === last.key && !taken.has(item.lane) && (!this.hasDates || item.seconds - last.seconds < 2);
        if (!isSame) {
          row += 1;
          taken.clear();
          const seconds = last && this.hasDates ? item.seconds - last.seconds : 0;
          item.gap = seconds > 1 ? Math.min(44, 4 + 8 * Math.log2(seconds)) : 0;
          if (seconds > 30) item.pause = duration(seconds);
          item.gutter = this.hasDates ? visible(item.object.date || \"\").replace(/^\\d{4}-\\d\\d-\\d\\dT/, \"\").replace(/Z$/, \"\") : item.missed ? \"\" : \"line \" + item.object.line;
        }
        item.row = row;
        taken.add(item.lane);
        last = item.missed && last ? last : item;
      }
    }

    // A line in words, with its date: with the name of its log if there are several.
    where(object, prefix) {
      const [log, date] = [object[prefix + \"log\"], object[prefix + \"date\"]];
      const names = [...this.files].map((file) => file.replace(/.*\\//, \"\"));
      const name = new Set(names).size === names.length ? log.replace(/.*\\//, \"\") : log;
      return (names.length > 1 ? visible(name) + \":\" : \"line \") + object[prefix + \"line\"] + (date ? \" (\" + visible(date) + \")\" : \"\");
    }

    // The verdict in sentences. Each has the item that it is about, if there is one.
    findings() {
      const of = (kind) => this.found.filter((object) => object.kind === kind);
      const found = [];
      const say = (tone, text, item) => found.push({ tone, text: visible(text), item });
      const repeats = of(\"repeat\");
      for (const ones of grouped(repeats, (one) => one.node_hex + one.of)) {
        const [first] = ones;
        const where = ones.length === 1 ? this.where(first, \"earlier_\") + \", and again \" + this.where(first, \"\") : \"from \" + this.where(first, \"\") + \" on\";
        say(\"bad\", bytes(first, \"node\") + \" ran \" + listed(ones.map(called)) + \" twice: \" + where, this.byLine.get(lineId(first, \"\")));
      }
      for (const kept of of(\"kept\")) {
        const who = { serf: \"stock Serf\", own: \"an agent of this project\", \"own-kept\": \"an agent of this project that keeps events\" }[kept.reader];
        const how = kept.rejoin === undefined ? \"\" : kept.rejoin ? \" with -rejoin\" : \" without -rejoin\";
        const start = bytes(kept, \"node\") + \"'s snapshot keeps \" + kept.of + \" clock \" + kept.clock + \": \" + who + \", started on it\" + how + \", \";
        if (kept.again) say(\"bad\", start + \"can run \" + this.where(kept, \"\") + \" again, which has time \" + kept.time, this.byLine.get(lineId(kept, \"\")));
        else say(\"good\", start + (kept.of === \"event\" ? \"runs no event of these logs again\" : \"runs no query of these logs again\"));
      }
      const lacking = grouped(grouped(of(\"missed\"), (one) => keyOf(\"event\", one)), (ones) => ones.map((one) => one.node_hex).join());
      for (const lacks of lacking.slice(0, NAMED)) {
        const item = this.items.find((other) => other.missed && other.object === lacks[0][0]);
        say(\"warn\", listed(lacks.map(([one]) => called(one))) + \" never came to \" + listed(lacks[0].map((one) => bytes(one, \"node\"))), item);
      }
      if (lacking.length > NAMED) say(\"warn\", \"and \" + (lacking.length - NAMED) + \" more groups of events that nodes missed\");
      for (const verdict of of(\"verdict\").filter((one) => one.verdict === \"broken\" && (one.promise === \"Fired\" || one.promise === \"Later\"))) {
        const text = verdict.promise === \"Fired\" ? \" was handed out, but no line fired it\" : \" was fired at a time that isn't later than what the node was handed before\";
        say(\"bad\", called(verdict) + text + \": \" + this.where(verdict, \"\"), this.byLine.get(lineId(verdict, \"\")));
      }
      const bad = of(\"bad\");
      if (bad.length) say(\"warn\", count(bad.length, \"line\") + \" can't be read, the first is \" + this.where(bad[0], \"\") + \": \" + bad[0].cause);
      if (!repeats.length) found.unshift({ tone: \"good\", text: \"No handler ran an event or a query twice.\" });
      return found;
    }

    details(item, run) {
      const { object } = item;
      const node = this.lanes[item.lane].name;
      const facts = [[\"node\", node], [item.kind === \"query\" ? \"query\" : \"event\", named(object) || \"#\" + object.id], [\"Lamport time\", String(object.time)]];
      if (!item.missed) facts.push([\"handed out in\", this.where(object, \"\")], [\"of the log\", visible(object.log)]);
      if (item.again) facts.push([\"and before in\", this.where(item.again.object, \"\"), \"changed\"]);
      const found = [make(\"h3\", {}, node + (item.missed ? \" \" : \": \") + item.label), table(facts)];
      const rows = this.lanes.map((lane, place) => {
        const items = (this.all.get(item.key) || []).filter((other) => other.lane === place);
        const lines = items.map((other) => this.where(other.object, \"\")).join(\", and again \");
        return [lane.name, lines || \"never\", items.length > 1 ? \"changed\" : items.length ? \"\" : \"missing\"];
      });
      found.push(make(\"h4\", {}, \"Handed out to\"), table(rows));
      if (run) found.push(make(\"h4\", {}, \"In the run of the schedule\"), table(this.lanes.map((lane) => {
        const actions = handedIn(run, lane.hex, item).map((other) => other.number).join(\", \");
        return [lane.name, actions ? \"action \" + actions : \"not handed out\", actions ? \"\" : \"missing\"];
      })));
      return found;
    }
  }

  // The objects in groups, each with those that have the same key.
  const grouped = (objects, key) => {
    const groups = new Map();
    for (const one of objects) groups.set(key(one), [...(groups.get(key(one)) || []), one]);
    return [...groups.values()];
  };

";
