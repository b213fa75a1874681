//! Writes the text of the verdicts on a log, including the places of the log's lines.

use super::starts::{Kept, Start, StartedProgram, starts_of};
use serf_judge::{
    BadLine, DatedLine, Delivered, Delivery, EventEntry, Key, Log, NodeTally, Offered, RunEntry,
    Tally, cut_off, first_again, first_event_twice, first_not_later, first_query_twice,
    first_unfired, log_nodes, missed_events, receivers, tally_repeats,
};
use serf_text::Part::{self, Masked, Number, Text, WholeQuoted};
use serf_text::write_template;
use std::alloc::{AllocError, Global};

/// The maximum number of bad lines that are reported, and the maximum number of nodes that are named for a missed
/// event.
const NAMED: usize = 16;

/// One of the logs that are judged together.
#[derive(Clone, Copy)]
pub(crate) struct LogFile<'a> {
    pub(crate) name: &'a str,
    /// The total number of lines in the logs before this log.
    pub(crate) before: u64,
}

/// The verdicts so far, with one line for each verdict.
#[derive(Drop)]
pub(crate) struct Verdicts<'a> {
    pub(crate) text: Vec<u8>,
    /// Whether a promise is broken, a line is bad, or something can be handed out again after a program is started on a
    /// snapshot.
    pub(crate) is_broken: bool,
    /// The logs that are judged, in order. A log has no name if it is the only one.
    pub(crate) logs: &'a [LogFile<'a>],
    /// The dates of the lines in all logs, in order.
    pub(crate) dates: &'a [DatedLine],
}

/// Returns the text that names a line: the two `words`, the line's number and, if the line has a date, the date in
/// brackets. The first word and the date may come from outside, so each byte in them that isn't printable ASCII is
/// replaced with a `?`.
fn line_text<'x>(
    alloc: Global,
    words: [&'x str; 2],
    line: u64,
    date: &'x [u8],
) -> Result<Vec<u8>, AllocError> {
    let mut out = Vec::new(alloc);
    let [one, other] = words;
    let (one, other) = (Masked(one.as_bytes()), Text(other.as_bytes()));
    let template: &[u8] = if date.is_empty() { b"~~~" } else { b"~~~ (~)" };
    write_template(
        &mut out,
        template,
        &[one, other, Number(line), Masked(date)],
    )?;
    Ok(out)
}

impl<'a> Verdicts<'a> {
    /// Returns the date of a line, or an empty text if the line has no date.
    fn date(&self, line: u64) -> &'a [u8] {
        let place = self.dates.partition_point(|dated| dated.line < line);
        match self.dates.get(place) {
            Some(found) if found.line == line => found.date.as_slice(),
            _ => b"",
        }
    }

    /// Returns the text that names a line, together with the line's date. The number `line` is counted from 1 over all
    /// logs. If there are several logs, the text contains the name of the line's log, and the line's number in that
    /// log.
    pub(crate) fn line(&self, alloc: Global, line: u64) -> Result<Vec<u8>, AllocError> {
        let mut place = (["line", " "], line);
        for log in self.logs {
            if self.logs.len() > 1 && log.before < line {
                place = ([log.name, ":"], line.saturating_sub(log.before));
            }
        }
        let (words, number) = place;
        line_text(alloc, words, number, self.date(line))
    }

    /// Returns the texts that name the first and the last line in a tally.
    fn span(&self, alloc: Global, tally: &Tally) -> Result<(Vec<u8>, Vec<u8>), AllocError> {
        let (first, last) = (tally.first_line, tally.last_line);
        if tally.count == 1 || self.logs.len() > 1 {
            return Ok((self.line(alloc, first)?, self.line(alloc, last)?));
        }
        let first = line_text(alloc, ["lines", " "], first, self.date(first))?;
        Ok((first, line_text(alloc, ["", ""], last, self.date(last))?))
    }

    /// Appends `text`, with `parts` in place of its placeholders.
    fn put(&mut self, text: &[u8], parts: &[Part]) -> Result<(), AllocError> {
        write_template(&mut self.text, text, parts)
    }

    /// Appends `text` with `parts`, as [`Verdicts::put`] does, and records that something is broken.
    fn write_broken(&mut self, text: &[u8], parts: &[Part]) -> Result<(), AllocError> {
        self.is_broken = true;
        self.put(text, parts)
    }

    /// Appends a line which states that a promise was not checked, because the log contains no lines of the kind that
    /// `lines` names.
    fn write_not_asked(&mut self, promise: &str, lines: &str) -> Result<(), AllocError> {
        let parts = [Text(promise.as_bytes()), Text(lines.as_bytes())];
        self.put(b"~: not asked: no ~ lines\n", &parts)
    }

    /// Appends an event's time, name and payload, and ends the line.
    fn write_event(&mut self, event: &Key) -> Result<(), AllocError> {
        let (name, payload) = (WholeQuoted(event.name), WholeQuoted(event.payload));
        self.put(b" ~ ~ ~\n", &[Number(event.time), name, payload])
    }

    /// Appends the first bad lines of a log, and the number of further bad lines. If there is a bad line, the function
    /// records that something is broken.
    fn write_bad(&mut self, alloc: Global, bad: &[BadLine]) -> Result<(), AllocError> {
        for told in bad.iter().take(NAMED) {
            let cause = told.cause;
            let cause = format!(in alloc; "{cause}")?;
            let line = self.line(alloc, told.line)?;
            let parts = [Text(&line), Text(cause.as_bytes())];
            self.write_broken(b"bad: ~ ~\n", &parts)?;
        }
        if bad.len() > NAMED {
            let more = bad.len().saturating_sub(NAMED) as u64;
            self.put(b"bad: and ~ more\n", &[Number(more)])?;
        }
        Ok(())
    }

    /// Appends how often a node was handed something again, with the times and the lines. The argument `told` contains
    /// the numbers, and `name` contains the words for what was handed out, such as `an event`.
    fn write_tally<'b>(
        &mut self,
        alloc: Global,
        name: &'b str,
        told: &NodeTally<'b>,
    ) -> Result<(), AllocError> {
        let tally = told.tally;
        let parts = [
            Masked(told.node),
            Text(name.as_bytes()),
            Number(tally.count),
        ];
        self.put(b"~ was handed ~ again on ~ ", &parts)?;
        let (first, last) = self.span(alloc, &tally)?;
        let (lowest, largest) = (tally.min_time, tally.largest_time);
        if tally.count == 1 {
            self.put(b"line: time ~, ~\n", &[Number(lowest), Text(&first)])
        } else {
            let parts = [Number(lowest), Number(largest), Text(&first), Text(&last)];
            self.put(b"lines: times ~ to ~, ~ to ~\n", &parts)
        }
    }

    /// For each node with repeats, appends how often the node was handed one of `entries` again. After that, appends
    /// the number of other nodes, to which each entry was handed once.
    fn write_tallies<E: Delivered>(
        &mut self,
        alloc: Global,
        words: [&str; 2],
        entries: &[E],
    ) -> Result<(), AllocError> {
        let [name, kind] = words;
        let tallies = tally_repeats(alloc, entries)?;
        let nodes = receivers(alloc, entries)?.len();
        for told in &tallies {
            self.write_tally(alloc, name, told)?;
        }
        let others = nodes.saturating_sub(tallies.len());
        let text: &[u8] = match others {
            0 => b"",
            1 => b"~ other node was handed each ~ once\n",
            _ => b"~ other nodes were handed each ~ once\n",
        };
        self.put(text, &[Number(others as u64), Text(kind.as_bytes())])
    }

    /// Appends a line which states that line `late` hands a node the same event or query as line `early`. The argument
    /// `words` contains the name of the promise and the kind of the entries.
    fn write_repeat(
        &mut self,
        alloc: Global,
        words: [&str; 2],
        early: Delivery,
        late: Delivery,
    ) -> Result<(), AllocError> {
        let [promise, kind] = words;
        let late_line = self.line(alloc, late.line)?;
        let early_line = self.line(alloc, early.line)?;
        let key = late.key;
        let lines = (Text(&late_line), Text(&early_line));
        let parts = [Text(promise.as_bytes()), lines.0, lines.1, Masked(key.node)];
        self.write_broken(b"~: ~ repeats ~: ~", &parts)?;
        match key.id {
            Some(id) => self.put(b" ~ ~\n", &[Number(key.time), Number(id)]),
            None if kind == "query" => self.put(b" ~ -\n", &[Number(key.time)]),
            None => self.write_event(&key),
        }
    }

    /// Judges whether a node was handed the same event or query twice. The argument `twice` contains the positions of
    /// the first two entries that hand a node the same event or query. The argument `words` contains the name of the
    /// promise, the words for one entry (such as `an event`), and the kind of the entries.
    fn judge_once<E: Delivered>(
        &mut self,
        alloc: Global,
        words: [&str; 3],
        entries: &[E],
        twice: Option<(usize, usize)>,
    ) -> Result<(), AllocError> {
        let [promise, name, kind] = words;
        if let Some((earlier, later)) = twice
            && let Some(first) = entries.get(earlier)
            && let Some(second) = entries.get(later)
        {
            self.write_repeat(alloc, [promise, kind], first.handed(), second.handed())?;
            return self.write_tallies(alloc, [name, kind], entries);
        }
        if entries.is_empty() {
            self.write_not_asked(promise, kind)
        } else {
            self.put(b"~: holds\n", &[Text(promise.as_bytes())])
        }
    }

    /// Judges whether each event was fired on an earlier line, or in another log.
    fn judge_fired(&mut self, alloc: Global, log: &Log) -> Result<(), AllocError> {
        let (fired, events) = (log.fired.as_slice(), log.events.as_slice());
        let later = self.logs.iter().skip(1);
        let starts = later.map(|log| log.before).collect::<Vec<u64>>(alloc)?;
        if let Some(place) = first_unfired(alloc, &starts, fired, events)?
            && let Some(event) = events.get(place)
        {
            let line = self.line(alloc, event.line)?;
            let parts = [Text(&line), Masked(event.node.as_slice())];
            self.write_broken(b"Fired: ~ hands out what no line above it fired: ~", &parts)?;
            self.write_event(&event.handed().key)
        } else {
            self.put(b"Fired: holds\n", &[])
        }
    }

    /// Judges whether each node fired only at later times than those of the events that it was handed on earlier lines.
    fn judge_later(&mut self, alloc: Global, log: &Log) -> Result<(), AllocError> {
        let (fired, events) = (log.fired.as_slice(), log.events.as_slice());
        // The entries of a log are in the order of their lines, so no error is possible except that memory runs out.
        let found = first_not_later(alloc, fired, events).map_err(|_| AllocError)?;
        if let Some((place, earlier)) = found
            && let Some(firing) = fired.get(place)
            && let Some(event) = events.get(earlier)
        {
            let place = self.line(alloc, firing.line)?;
            let earlier = self.line(alloc, event.line)?;
            let (time, handed) = (Number(firing.time), Number(event.time));
            let parts = [Text(&place), time, Text(&earlier), handed];
            self.write_broken(b"Later: ~ fires at ~, and ~ was handed out at ~: ", &parts)?;
            self.put(b"~", &[Masked(firing.node.as_slice())])?;
            self.write_event(&firing.handed().key)
        } else {
            self.put(b"Later: holds\n", &[])
        }
    }

    /// Appends at most the first [`NAMED`] names in `nodes`, separated by commas. If there are more nodes, the function
    /// also appends `and others`.
    fn write_nodes(&mut self, nodes: &[&[u8]]) -> Result<(), AllocError> {
        for (place, node) in nodes.iter().take(NAMED).enumerate() {
            let text: &[u8] = if place == 0 { b" ~" } else { b", ~" };
            self.put(text, &[Masked(node)])?;
        }
        if nodes.len() > NAMED {
            self.put(b" and others", &[])?;
        }
        self.put(b"\n", &[])
    }

    /// Appends each event that some nodes were never handed, together with these nodes. After that, appends a line with
    /// the number of missed events.
    fn write_missed(&mut self, alloc: Global, events: &[EventEntry]) -> Result<(), AllocError> {
        if events.is_empty() {
            return self.write_not_asked("Missed", "event");
        }
        let nodes = receivers(alloc, events)?.len() as u64;
        let report = missed_events(alloc, events, NAMED + 1)?;
        for event in report.missed.iter() {
            let (name, payload) = (WholeQuoted(event.name), WholeQuoted(event.payload));
            let parts = [Number(event.time), name, payload];
            self.put(b"Missed: ~ ~ ~ never came to", &parts)?;
            self.write_nodes(event.nodes.as_slice())?;
        }
        let count = Number(report.events as u64);
        let (text, few): (&[u8], u64) = match report.missed.len() as u64 {
            0 => (b"Missed: each of ~ nodes had each of ~ events\n", nodes),
            missed => (b"Missed: ~ of ~ events were missed by a node\n", missed),
        };
        self.put(text, &[Number(few), count])
    }

    /// Appends the handlers that began and never ended, in the order of the lines on which they began. Returns the
    /// number of these handlers.
    fn write_cut_off(&mut self, alloc: Global, runs: &[RunEntry]) -> Result<u64, AllocError> {
        let found = cut_off(alloc, runs)?;
        for run in &found {
            let line = self.line(alloc, run.line)?;
            let parts = [Text(&line), Masked(run.key.node)];
            self.put(b"Handlers: ~ began and never ended: ~", &parts)?;
            self.write_event(&run.key)?;
        }
        Ok(found.len() as u64)
    }

    /// Appends the handlers that ended with a status other than 0, in the order of the lines on which they ended.
    /// Returns the number of these handlers.
    fn write_failed(&mut self, alloc: Global, runs: &[RunEntry]) -> Result<u64, AllocError> {
        let mut count: u64 = 0;
        for run in runs {
            let Some(status) = &run.status else { continue };
            if status.as_slice() == b"0".as_slice() {
                continue;
            }
            count = count.saturating_add(1);
            let line = self.line(alloc, run.event.line)?;
            let node = Masked(run.event.node.as_slice());
            let parts = [Text(&line), Masked(status.as_slice()), node];
            self.put(b"Handlers: ~ ended with status ~: ~", &parts)?;
            self.write_event(&run.event.handed().key)?;
        }
        Ok(count)
    }

    /// Appends the handlers that failed or never ended, and the number of handlers that began. If the log contains no
    /// lines about handlers, the function appends nothing.
    fn write_runs(&mut self, alloc: Global, runs: &[RunEntry]) -> Result<(), AllocError> {
        if runs.is_empty() {
            return Ok(());
        }
        let unended = self.write_cut_off(alloc, runs)?;
        let failed = self.write_failed(alloc, runs)?;
        let began = runs.iter().filter(|run| run.status.is_none()).count() as u64;
        let parts = [Number(began), Number(unended), Number(failed)];
        self.put(b"Handlers: ~ began, ~ never ended, ~ failed\n", &parts)
    }

    /// Judges a log. The text begins with the number of entries that were read and with the bad lines, which are
    /// followed by the verdicts. If `tells_missed` is true, the verdicts are followed by the events that nodes missed.
    /// The text ends with the lines about handlers.
    pub(crate) fn judge(
        &mut self,
        alloc: Global,
        log: &Log,
        tells_missed: bool,
    ) -> Result<(), AllocError> {
        let (events, queries) = (log.events.as_slice(), log.queries.as_slice());
        let nodes = Number(log_nodes(alloc, log)?.len() as u64);
        let (handed, asked) = (Number(events.len() as u64), Number(queries.len() as u64));
        self.put(
            b"read: ~ events, ~ queries, ~ nodes\n",
            &[handed, asked, nodes],
        )?;
        self.write_bad(alloc, log.bad.as_slice())?;
        let twice = first_event_twice(alloc, events)?;
        self.judge_once(alloc, ["Once", "an event", "event"], events, twice)?;
        let twice = first_query_twice(alloc, queries)?;
        self.judge_once(alloc, ["QueryOnce", "a query", "query"], queries, twice)?;
        let has_fired = !log.fired.is_empty();
        if has_fired && !events.is_empty() {
            self.judge_fired(alloc, log)?;
            self.judge_later(alloc, log)?;
        } else {
            let lines = if has_fired { "event" } else { "fired" };
            self.write_not_asked("Fired", lines)?;
            self.write_not_asked("Later", lines)?;
        }
        if tells_missed {
            self.write_missed(alloc, events)?;
        }
        self.write_runs(alloc, log.runs.as_slice())
    }

    /// Judges whether one of `entries` can be handed to the node again. If there are no entries, the function appends
    /// nothing. The argument `words` contains the phrase for what the snapshot keeps, such as `its events up to `, and
    /// the name of the clock.
    fn judge_again<'b, E: Offered>(
        &mut self,
        alloc: Global,
        entries: &[E],
        kept: &Kept<'b>,
        words: [&'b str; 2],
        clock: u64,
    ) -> Result<(), AllocError> {
        if entries.is_empty() {
            return Ok(());
        }
        let again = first_again(alloc, kept.reader, kept.snapshot, entries, kept.node)?;
        let [what, name] = words;
        let parts = [
            Masked(kept.node),
            Text(kept.how.as_bytes()),
            Text(what.as_bytes()),
            Text(name.as_bytes()),
            Number(clock),
        ];
        self.put(b"~~ keeps ~~ ~", &parts)?;
        match again.and_then(|place| entries.get(place)) {
            Some(entry) => self.write_again(alloc, entry),
            None => self.put(kept.none(), &[]),
        }
    }

    /// Appends a line which states that the event or query in `entry` can be handed out again.
    fn write_again<E: Delivered>(&mut self, alloc: Global, entry: &E) -> Result<(), AllocError> {
        let Delivery { line, key } = entry.handed();
        let line = self.line(alloc, line)?;
        let parts = [Text(&line), Number(key.time)];
        let text = b", and ~ was handed out at ~: it can be handed out again\n";
        self.write_broken(text, &parts)
    }

    /// Judges whether a program that is started on a node's snapshot can hand anything out again.
    fn judge_reader(
        &mut self,
        alloc: Global,
        log: &Log,
        kept: &Kept<'_>,
    ) -> Result<(), AllocError> {
        let (events, queries) = (log.events.as_slice(), log.queries.as_slice());
        let clocks = kept.clocks();
        let [of_events, of_queries] = kept.what();
        let words = [of_events, "event-clock"];
        self.judge_again(alloc, events, kept, words, clocks.event_clock)?;
        let words = [of_queries, "query-clock"];
        self.judge_again(alloc, queries, kept, words, clocks.query_clock)
    }

    /// Judges what can be handed out again after a program is started on a node's snapshot. The argument `reads`
    /// selects the program.
    pub(crate) fn judge_kept(
        &mut self,
        alloc: Global,
        log: &Log,
        node: &[u8],
        snapshot: &[u8],
        reads: StartedProgram,
    ) -> Result<(), AllocError> {
        let (first, second) = starts_of(snapshot, reads);
        let kept = |start: Start| Kept {
            node,
            snapshot,
            reader: start.reader,
            how: start.how,
        };
        self.judge_reader(alloc, log, &kept(first))?;
        match second {
            Some(second) => self.judge_reader(alloc, log, &kept(second)),
            None => Ok(()),
        }
    }
}
