//! Part 2 of the page's script. tools/page_parts.py makes this file from examples/timeline.

/// Part 2 of the script.
pub const SCRIPT_2: &[u8] =
    b"  // The actions in the run of a schedule that hand out to a node what an item of a log hands out.
  const handedIn = (run, hex, item) => {
    if (item.kind === \"query\") return [...run.handed].filter(([key]) => key.startsWith(hex + \"|query|\" + item.object.time + \"|\")).flatMap(([, items]) => items);
    return run.handed.get(hex + \"|\" + keyOf(\"event\", item.object)) || [];
  };

  // What the handlers ran more often than the run hands it out, in sentences. Nodes that the schedule lacks are left out.
  const differences = (log, run) => {
    const found = [];
    let missing = 0;
    for (const items of log.all.values()) {
      for (const lane of log.lanes.filter(({ hex }) => run.lanes.some((other) => other.hex === hex))) {
        const mine = items.filter((item) => log.lanes[item.lane] === lane);
        const theirs = mine.length ? handedIn(run, lane.hex, mine[0]).length : 0;
        if (mine.length > 1 && mine.length > theirs) {
          const instead = theirs ? \"is handed it \" + times(theirs) : \"isn't handed it\";
          found.push({ tone: \"note\", item: mine[mine.length - 1], text: \"Where \" + lane.name + \" ran \" + called(mine[0].object) + \" \" + times(mine.length) + \", an agent of this project \" + instead + \" in this schedule\" });
        } else if (mine.length > theirs) {
          missing += 1;
        }
      }
    }
    if (missing) found.push({ tone: \"warn\", text: count(missing, \"hand-out\") + \" of the logs \" + (missing === 1 ? \"isn't\" : \"aren't\") + \" in the run of the schedule\" });
    const more = found.length - NAMED;
    return more > 0 ? [...found.slice(0, NAMED), { tone: \"warn\", text: \"and \" + more + \" more differences\" }] : found;
  };

  // ---- a pane: the lanes and rows of a log or of a run --------------------------------------------------------------------

  class Pane {
    constructor(model, chosen) {
      Object.assign(this, { model, chosen, isRun: model.name === \"run\", gutter: GUTTERS[model.name], shown: [], height: 0, selected: null, related: new Set() });
      this.heads = make(\"div\", { class: \"heads\" });
      this.svg = draw(\"svg\", { class: \"rows\", \"aria-hidden\": \"true\" });
      this.space = make(\"div\", { class: \"space\" }, this.svg);
      this.scroll = make(\"div\", { class: \"scroll\", tabindex: \"0\", role: \"application\", \"aria-label\": model.title + \", use the arrow keys\" }, this.heads, this.space);
      this.element = make(\"section\", { class: \"pane \" + model.name }, make(\"h2\", {}, model.title), make(\"p\", { class: \"note\" }, model.note), this.scroll);
      this.scroll.addEventListener(\"scroll\", () => this.draw());
      this.svg.addEventListener(\"click\", (event) => {
        const group = event.target.closest(\"[data-place]\");
        if (group) this.select(this.shown[Number(group.dataset.place)], true);
      });
      this.scroll.addEventListener(\"keydown\", (event) => this.press(event));
    }

    // The middle of a lane. Left of all lanes of a run is what came from outside.
    x(lane) {
      return this.isRun ? this.gutter + this.width * (lane + (this.hasOutside ? 1.5 : 0.5)) : this.gutter + this.width * lane + 26;
    }

    // Lays out the items that the filter lets through: `y` is the middle of an item's row.
    layout(isShown) {
      for (const item of this.model.items) item.y = undefined;
      this.shown = this.model.items.filter(isShown);
      let [y, row] = [8, undefined];
      for (const item of this.shown) {
        if (item.row === undefined || item.row !== row) y += ROW + item.gap;
        row = item.row;
        item.y = y;
      }
      this.height = y + ROW;
      this.resize();
    }

    resize() {
      const { lanes } = this.model;
      this.hasOutside = this.isRun && this.model.items.some((item) => item.lane < 0);
      const room = Math.max(300, this.scroll.clientWidth - this.gutter);
      const least = Math.min(240, 44 + CHARACTER * this.model.items.slice(0, 1000).reduce((most, item) => Math.max(most, item.label.length), 8));
      this.width = this.isRun ? Math.max(64, Math.min(130, (room * 0.45) / (lanes.length + 1))) : Math.max(least, Math.min(330, room / (lanes.length || 1)));
      this.labels = this.isRun ? this.x(lanes.length - 1) + this.width / 2 : 0;
      const wide = this.isRun ? this.labels + 330 : this.gutter + this.width * lanes.length;
      this.wide = Math.max(wide, this.scroll.clientWidth);
      this.space.style.height = this.height + \"px\";
      this.space.style.width = this.heads.style.width = this.wide + \"px\";
      const names = lanes.map((lane, place) => ({ name: lane.name, left: this.x(place) }));
      if (this.hasOutside) names.unshift({ name: \"outside\", left: this.x(-1) });
      this.heads.replaceChildren(...names.map(({ name, left }) => {
        const head = make(\"span\", { title: name }, name);
        head.style.left = (this.isRun ? left - this.width / 2 : left - 8) + \"px\";
        head.style.width = this.width - 6 + \"px\";
        return head;
      }));
      this.draw();
    }

    // Draws the rows that are in view, and the links that begin or end there.
    draw() {
      const [from, to] = [Math.max(0, this.scroll.scrollTop - MARGIN), this.scroll.scrollTop + this.scroll.clientHeight + MARGIN];
      const isIn = (item) => item.y >= from && item.y <= to;
      const parts = [this.selected, ...this.related].filter((item) => item && isIn(item)).map((item) => this.box(item, item === this.selected ? \"on\" : \"related\"));
      for (let lane = 0; lane < this.model.lanes.length; lane += 1) parts.push(draw(\"path\", { class: \"lane\", d: `M${this.x(lane)} ${from}V${Math.min(to, this.height)}` }));
      for (const link of this.model.links) {
        const isAround = link.kind === \"again\" && link.from.y < from && link.to.y > to;
        if (link.to.y !== undefined && (isIn(link.to) || isIn(link.from) || isAround)) parts.push(this.link(link, link.from.y, link.to.y));
      }
      let [place, high] = [0, this.shown.length];
      while (place < high) {
        const middle = (place + high) >> 1;
        if (this.shown[middle].y < from) place = middle + 1;
        else high = middle;
      }
      for (; place < this.shown.length && this.shown[place].y <= to; place += 1) parts.push(this.row(this.shown[place], place));
      this.svg.setAttribute(\"width\", String(this.wide));
      this.svg.setAttribute(\"height\", String(this.height));
      this.svg.replaceChildren(...parts);
    }

    link(link, a, b) {
      const [x0, x1] = [this.x(link.from.lane), this.x(link.to.lane)];
      const mine = this.selected && (link.from === this.selected || link.to === this.selected) ? \" on\" : \"\";
      if (link.kind === \"again\") {
        const bow = Math.min(46, 14 + Math.abs(b - a) / 6);
        const top = a === undefined ? b - ROW : a;
        return draw(\"path\", { class: \"link again\" + mine, d: `M${x0} ${top}C${x0 - bow} ${top} ${x1 - bow} ${b} ${x1} ${b}` });
      }
      // Down the sender's lane, and across in the receiver's row: an arrow touches no other agent's mark.
      const back = x1 < x0 ? 1 : -1;
      const tip = x1 + 7 * back;
      const turn = a === undefined ? 0 : Math.min(12, Math.abs(b - a) / 2);
      const begin = x0 === x1 ? `M${x1 - this.width / 3} ${b}` : a === undefined ? `M${x0} ${b}` : `M${x0} ${a}V${b - turn}Q${x0} ${b} ${x0 - back * turn} ${b}`;
      return draw(\"path\", { class: \"link \" + link.kind + mine, d: `${begin}H${tip}l${6 * back} -4M${tip} ${b}l${6 * back} 4` });
    }

    // The box of an item's row, or of its part of the row.
    box(item, kind) {
      const left = this.isRun ? 0 : this.x(item.lane) - 14;
      return draw(\"rect\", { class: \"box \" + kind, x: left, y: item.y - ROW / 2, width: this.isRun ? this.wide : this.width - 4, height: ROW });
    }

    row(item, place) {
      const [x, y] = [this.x(item.lane), item.y];
      const group = draw(\"g\", { class: \"row \" + item.tone + (item === this.selected ? \" on\" : \"\"), \"data-place\": String(place), \"data-id\": item.id });
      group.append(draw(\"title\", {}, item.label), this.box(item, \"hit\"));
      if (item.gutter) group.append(draw(\"text\", { class: \"gutter\", x: this.gutter - 14, y: y + 4 }, item.gutter));
      if (item.pause && item.gap > 20) group.append(draw(\"text\", { class: \"pause\", x: this.gutter - 14, y: y - item.gap / 2 - 6 }, item.pause));
      if (this.isRun) group.append(draw(\"path\", { class: \"guide\", d: `M${x + 8} ${y}H${this.labels - 6}` }));
      group.append(this.mark(item, x, y));
      const room = this.isRun ? this.wide - this.labels : this.width - 34;
      group.append(draw(\"text\", { class: \"label\", x: this.isRun ? this.labels : x + 11, y: y + 4 }, shorten(item.label, Math.floor(room / CHARACTER))));
      return group;
    }

    mark({ shape }, x, y) {
      if (shape === \"square\") return draw(\"rect\", { class: \"mark\", x: x - 5, y: y - 5, width: 10, height: 10, rx: 2 });
      if (shape === \"break\") return draw(\"path\", { class: \"mark break\", d: `M${x - 8} ${y - 4}H${x + 8}M${x - 8} ${y + 4}H${x + 8}` });
      return draw(\"circle\", { class: \"mark \" + shape, cx: x, cy: y, r: shape === \"dot\" ? 4 : 5.5 });
    }

    select(item, isChosen) {
      if (!item) return;
      this.selected = item;
      this.related = new Set([item.again, item.from].filter(Boolean));
      this.show(item);
      if (isChosen) this.chosen(this, item);
    }

    // Marks and scrolls to items that belong to what is selected in the other pane.
    relate(items) {
      this.selected = null;
      this.related = new Set(items);
      this.show(items.find((item) => item.y !== undefined) || {});
    }

    show({ y }) {
      const { scrollTop, clientHeight } = this.scroll;
      if (y - ROW < scrollTop || y + ROW + this.heads.offsetHeight > scrollTop + clientHeight) this.scroll.scrollTop = y - clientHeight / 2;
      this.draw();
    }

    // Selects the item so many places further on.
    step(by) {
      const at = this.shown.indexOf(this.selected);
      const to = at >= 0 ? at + by : by > 0 ? by - 1 : this.shown.length + by;
      this.select(this.shown[Math.max(0, Math.min(this.shown.length - 1, to))], true);
    }

    // The next or the previous item of the same lane.
    along(by) {
      let at = this.shown.indexOf(this.selected) + by;
      while (this.selected && this.shown[at] && this.shown[at].lane !== this.selected.lane) at += by;
      this.select(this.shown[at], true);
    }

    press(event) {
      const page = Math.max(1, Math.floor(this.scroll.clientHeight / ROW) - 2);
      const all = this.shown.length;
      const steps = { ArrowDown: 1, j: 1, ArrowUp: -1, k: -1, PageDown: page, PageUp: -page, Home: -all, End: all };
      const lanes = { ArrowRight: 1, ArrowLeft: -1 };
      if (event.ctrlKey || event.metaKey || event.altKey || !(event.key in steps || event.key in lanes)) return;
      if (event.key in steps) this.step(steps[event.key]);
      else this.along(lanes[event.key]);
      event.preventDefault();
    }
  }

  // ---- the page -----------------------------------------------------------------------------------------------------------

  const KIND_WORDS = { event: \"events\", query: \"queries\", answer: \"acks and answers\", state: \"states\", restart: \"restarts and disks\", fired: \"firings\", other: \"others\" };

  class Page {
    constructor() {
      const [log, run] = [\"log-data\", \"run-data\"].map((id) => document.getElementById(id));
      this.log = log ? new Log(log.textContent) : null;
      this.run = run ? new Run(run.textContent) : null;
      this.models = [this.log, this.run].filter(Boolean);
      Object.assign(this, { off: { kinds: new Set(), lanes: new Set() }, find: \"\", hidesSeen: false });
      // A log is read whole, because its verdict needs all of it. Of a long run, the rest is read after the page is shown.
      while (this.log && this.log.read(FIRST_LINES));
      this.isReading = Boolean(this.run && this.run.read(FIRST_LINES));
    }

    start() {
      if (this.models.length === 0) return;
      this.panes = this.models.map((model) => new Pane(model, (pane, item) => this.choose(pane, item)));
      this.detail = make(\"aside\", { class: \"detail\", \"aria-live\": \"polite\", \"aria-label\": \"Details\" }, make(\"p\", { class: \"note\" }, \"Click a mark, or step with the arrow keys: \xe2\x86\x91 \xe2\x86\x93 one by one, \xe2\x86\x90 \xe2\x86\x92 along one lane. / searches.\"));
      this.verdict = document.getElementById(\"verdict\");
      const app = document.getElementById(\"app\");
      app.replaceChildren(this.toolbar(), make(\"div\", { class: \"panes\" + (this.panes.length > 1 ? \" two\" : \"\") }, ...this.panes.map((pane) => pane.element), this.detail));
      document.getElementById(\"still\").remove();
      document.body.className = \"ready\";
      app.hidden = false;
      this.filter();
      this.report();
      for (const pane of this.panes) new ResizeObserver(() => pane.resize()).observe(pane.scroll);
      document.addEventListener(\"keydown\", (event) => this.press(event));
      this.arrive();
      if (this.isReading) setTimeout(() => this.continue(), 0);
    }

    // Reads on in small parts, so that the page stays usable meanwhile.
    continue() {
      const end = performance.now() + 60;
      while (this.isReading && performance.now() < end) this.isReading = this.run.read(500);
      this.progress.textContent = this.isReading ? \"reading: \" + Math.floor((100 * this.run.at) / this.run.text.length) + \" %\" : \"\";
      if (this.isReading) setTimeout(() => this.continue(), 0);
      else for (const step of [\"chips\", \"filter\", \"report\", \"arrive\"]) this[step]();
    }

    // Selects what the address names after `#`, or else what ran twice.
    arrive() {
      const id = location.hash.slice(1);
      for (const pane of this.panes) {
        const item = pane.model.items.find((other) => (id ? encodeURIComponent(other.id) === id : other.tone === \"again\"));
        if (item && !this.current) pane.select(item, true);
      }
    }

    report() {
      const found = this.models.flatMap((model) => (model === this.run && this.isReading ? [] : model.findings().map((one) => ({ ...one, model }))));
      if (this.log && this.run && !this.isReading) found.push(...differences(this.log, this.run).map((one) => ({ ...one, model: this.log })));
      this.verdict.replaceChildren(...found.map(({ tone, text, item, model }) => {
        const pane = this.panes.find((other) => other.model === model);
        return make(\"li\", { class: tone }, item ? button(text, () => { this.clear(); pane.select(item, true); pane.scroll.focus(); }) : text);
      }));
      this.verdict.className = found.some((one) => one.tone === \"bad\") ? \"verdict bad\" : \"verdict good\";
    }

    toolbar() {
      this.search = make(\"input\", { type: \"search\", placeholder: \"Search by name ( / )\", \"aria-label\": \"Search by name\", spellcheck: \"false\" });
      this.search.addEventListener(\"input\", () => { this.find = this.search.value.trim().toLowerCase(); this.filter(); });
      this.search.addEventListener(\"keydown\", (event) => {
        if (event.key !== \"Enter\" && event.key !== \"ArrowDown\") return;
        const pane = this.panes.find((other) => other.shown.length) || this.panes[0];
        pane.scroll.focus();
        pane.select(pane.shown[0], true);
        event.preventDefault();
      });
      this.seenBox = listen(make(\"input\", { type: \"checkbox\", id: \"seen\" }), \"change\", () => { this.hidesSeen = this.seenBox.checked; this.filter(); });
      this.progress = make(\"span\", { class: \"note\", role: \"status\" });
      this.matches = make(\"span\", { class: \"note\", id: \"matches\" });
      this.agentChips = make(\"span\", { class: \"chips\", role: \"group\", \"aria-label\": \"Nodes\" });
      this.kindChips = make(\"span\", { class: \"chips\", role: \"group\", \"aria-label\": \"Kinds\" });
      this.chips();
      const seen = this.run ? make(\"label\", { for: \"seen\" }, this.seenBox, \" Hide what was ignored as seen\") : null;
      return make(\"div\", { class: \"toolbar\", role: \"toolbar\", \"aria-label\": \"Filters\" }, this.search, this.agentChips, this.kindChips, seen, this.matches, this.progress);
    }

    chips() {
      const chip = (off, value, text) => {
        const element = button(text, () => {
          if (!off.delete(value)) off.add(value);
          element.setAttribute(\"aria-pressed\", String(!off.has(value)));
          this.filter();
        });
        element.setAttribute(\"aria-pressed\", String(!off.has(value)));
        return element;
      };
      const lanes = new Map();
      for (const model of this.models) for (const lane of model.lanes) lanes.set(lane.hex, lane.name);
      const kinds = new Set(this.models.flatMap((model) => model.items.map((item) => item.kind)));
      this.agentChips.replaceChildren(...[...lanes].slice(0, 40).map(([hex, name]) => chip(this.off.lanes, hex, shorten(name, 24))));
      this.kindChips.replaceChildren(...Object.keys(KIND_WORDS).filter((kind) => kinds.has(kind)).map((kind) => chip(this.off.kinds, kind, KIND_WORDS[kind])));
    }

    clear() {
      this.find = this.search.value = \"\";
      this.hidesSeen = this.seenBox.checked = false;
      this.off.kinds.clear();
      this.off.lanes.clear();
      this.chips();
      this.filter();
    }

    filter() {
      for (const pane of this.panes) {
        const { lanes } = pane.model;
        pane.layout((item) =>
          !(this.hidesSeen && item.seen) && !this.off.kinds.has(item.kind) && !(item.lane >= 0 && this.off.lanes.has(lanes[item.lane].hex)) &&
          (!this.find || item.search.includes(this.find)));
      }
      const [shown, all] = [this.panes.flatMap((pane) => pane.shown).length, this.models.flatMap((model) => model.items).length];
      this.matches.textContent = shown === all ? count(all, \"row\") : shown + \" of \" + count(all, \"row\");
    }

    choose(pane, item) {
      this.current = item;
      const other = this.panes.find((one) => one !== pane);
      this.detail.replaceChildren(...(pane.model === this.log ? this.log.details(item, this.run) : this.run.details(item)));
      this.detail.scrollTop = 0;
      if (other) other.relate(this.counterparts(pane, item));
      history.replaceState(null, \"\", \"#\" + encodeURIComponent(item.id));
    }

    // What the other pane has of the same event or query.
    counterparts(pane, item) {
      if (pane.model === this.log) return handedIn(this.run, this.log.lanes[item.lane].hex, item);
      const hex = item.lane >= 0 ? this.run.nodeOf(this.run.lanes[item.lane].hex) : \"\";
      return item.handed.length ? this.log.items.filter((other) => !other.missed && this.log.lanes[other.lane].hex === hex && handedIn(this.run, hex, other).includes(item)) : [];
    }

    press(event) {
      const isTyping = event.target instanceof HTMLInputElement;
      if (event.key === \"/\" && !isTyping) {
        this.search.focus();
        event.preventDefault();
      } else if (event.key === \"Escape\") {
        this.clear();
        this.panes[0].scroll.focus();
      } else if (event.target === document.body) {
        const pane = this.panes.find((other) => other.selected) || this.panes[0];
        pane.press(event);
        if (event.defaultPrevented) pane.scroll.focus();
      }
    }
  }

  new Page().start();
})();
";
