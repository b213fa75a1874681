//! Reports on compared agents, both on standard error for people and in a file for other programs.

use crate::command_error::{CommandError, CommandResult, Status};
use crate::io::Io;
use serf_conform::{
    Case, Counts, Disagreement, End, Reply, Sums, Verdict, dump_line, dump_reply, given_packet,
    no_counts, opening, wanted, write_call, write_disagreement, write_open, write_reply_line,
    write_sums,
};
use serf_explain::{Range, explain};
use serf_schedule::Unwatched;
use serf_text::Part::{Masked, Number, Text};
use serf_text::{decode_text, write_template};
use std::alloc::{AllocError, Global};

/// Appends the lines of `text`. The first of these lines follows `word`, and the others are indented with spaces.
fn write_lines(out: &mut Vec<u8>, word: &[u8], text: &[u8]) -> Result<(), AllocError> {
    let mut before = word;
    for line in text.split(|b| *b == b'\n') {
        if !line.is_empty() {
            write_template(out, b"~~\n", &[Text(before), Masked(line)])?;
            before = b"       ";
        }
    }
    Ok(())
}

/// Returns the text of a reply, line by line.
fn reply_text(alloc: Global, reply: &Reply) -> Result<Vec<u8>, AllocError> {
    let mut out = Vec::from_slice(alloc, reply.answer.as_slice())?;
    for line in &reply.lines {
        out.extend_from_slice(b"\n")?;
        write_reply_line(&mut out, line)?;
    }
    Ok(out)
}

/// Returns the number of the line in `text` that contains action number `number`. Both numbers are counted from 1.
/// Before the actions, `text` contains a line for each of the `agents` agents.
fn line_of_action(text: &[u8], agents: usize, number: u64) -> u64 {
    let mut left = (agents as u64).saturating_add(number);
    let mut place: u64 = 0;
    for line in text.split(|b| *b == b'\n') {
        place = place.saturating_add(1);
        let is_comment = line.first() == Some(&b'#');
        if is_comment || line.iter().all(|b| *b == b' ') {
            continue;
        }
        left = left.saturating_sub(1);
        if left == 0 {
            return place;
        }
    }
    place
}

/// A compared agent, together with the verdict on it.
#[derive(Clone, Copy)]
pub(super) struct HeldAgent<'a> {
    /// The seed of the schedule, or `None` if the schedule was read from a file.
    pub(super) seed: Option<u64>,
    /// The schedule's text.
    pub(super) text: &'a [u8],
    pub(super) case: &'a Case,
    pub(super) agent: u64,
    pub(super) verdict: &'a Verdict,
}

impl HeldAgent<'_> {
    /// Returns the number, counted from 1, of the line with the action at which the comparison ended. If the comparison
    /// ended at the opening or after the last action, the result is 0.
    pub(super) fn line(&self) -> u64 {
        let number = self.verdict.action;
        if number == 0 || number > self.case.actions.len() as u64 {
            return 0;
        }
        line_of_action(self.text, self.case.configs.len(), number)
    }
}

/// Appends the call at which the comparison ended, and returns the expected reply to this call. The call is a `look`,
/// an action with its packet, or the opening.
fn write_held_call(
    out: &mut Vec<u8>,
    alloc: Global,
    held: &HeldAgent,
) -> Result<Reply, AllocError> {
    let HeldAgent { case, verdict, .. } = *held;
    if let Some(dump) = &verdict.dump {
        out.extend_from_slice(dump_line())?;
        return dump_reply(alloc, dump);
    }
    let (lines, sent) = (case.trace.lines.as_slice(), case.trace.sent.as_slice());
    let place = (verdict.action as usize).wrapping_sub(1);
    let (Some(action), Some(line)) = (case.actions.get(place), lines.get(place)) else {
        if let Some(config) = case.configs.get(held.agent as usize) {
            write_open(out, config, &[])?;
        }
        return opening(alloc);
    };
    let counts = lines
        .iter()
        .take(place)
        .map(|line| line.sent.as_slice().len());
    let before = counts
        .fold(0, |sum: usize, count| sum.saturating_add(count))
        .min(sent.len());
    let own = line.sent.as_slice().len().min(sent.len() - before);
    let given = given_packet(action, &sent[..before]).unwrap_or(&[]);
    write_call(out, action, given)?;
    wanted(alloc, line, given, &sent[before..before + own])
}

/// Returns the text that `decode` prints for the packet in a line of a reply. If the line contains no packet with a
/// valid message, returns `None`.
fn message_of(alloc: Global, line: &str) -> Option<String> {
    let digits = line.strip_prefix("sent ")?;
    let packet = hex::decode(alloc, digits).ok()?;
    let text = decode_text(alloc, &packet).ok()?;
    String::from_utf8(text).ok()
}

/// If `one` and `other` begin with the same word, returns this word and the rest of each.
fn after_one_word<'a, 'b>(one: &'a str, other: &'b str) -> Option<(&'a str, &'a str, &'b str)> {
    let (name, is) = one.split_once(' ')?;
    let (second, was) = other.split_once(' ')?;
    (name == second).then_some((name, is, was))
}

/// Appends each pair of lines that differ. If both lines of a pair begin with the same word, the function writes this
/// word only once.
fn write_pairs(out: &mut Vec<u8>, wanted: &[&str], got: &[&str]) -> Result<(), AllocError> {
    for (one, other) in wanted.iter().zip(got.iter()) {
        let found = after_one_word(one, other);
        let text: &[u8] = match found {
            Some(_) => b"  ~: wanted ~, got ~\n",
            None => b"  ~wanted ~, got ~\n",
        };
        if *one != *other {
            let (name, is, was) = found.unwrap_or(("", one, other));
            let (is, was) = (Text(is.as_bytes()), Text(was.as_bytes()));
            write_template(out, text, &[Text(name.as_bytes()), is, was])?;
        }
    }
    Ok(())
}

/// Appends all of `lines`, with `word` before each line.
fn write_each(out: &mut Vec<u8>, word: &str, lines: &[&str]) -> Result<(), AllocError> {
    for line in lines {
        let parts = [Text(word.as_bytes()), Text(line.as_bytes())];
        write_template(out, b"  ~ ~\n", &parts)?;
    }
    Ok(())
}

/// Returns `lines` without the first `front` lines and the last `end` lines.
fn middle<'a, 'b>(lines: &'a [&'b str], front: usize, end: usize) -> &'a [&'b str] {
    let stop = lines.len().saturating_sub(end);
    &lines[front.min(stop)..stop]
}

/// Appends the lines in which two messages differ. The function leaves out the lines that both messages have in common
/// at the start and at the end.
fn write_messages(out: &mut Vec<u8>, wanted: &[&str], got: &[&str]) -> Result<(), AllocError> {
    if wanted.len() == got.len() {
        return write_pairs(out, wanted, got);
    }
    let pairs = wanted.iter().zip(got);
    let front = pairs.take_while(|(one, other)| **one == **other).count();
    let (wanted, got) = (middle(wanted, front, 0), middle(got, front, 0));
    let pairs = wanted.iter().rev().zip(got.iter().rev());
    let end = pairs.take_while(|(one, other)| **one == **other).count();
    write_each(out, "wanted", middle(wanted, 0, end))?;
    write_each(out, "got", middle(got, 0, end))
}

/// Appends the differences between the messages in two packets, which are contained in `wanted` and `got`, the lines of
/// two replies. If one of the two lines contains no packet with a valid message, the function appends nothing.
fn write_packets(
    out: &mut Vec<u8>,
    alloc: Global,
    wanted: &str,
    got: &str,
) -> Result<(), AllocError> {
    let (Some(wanted), Some(got)) = (message_of(alloc, wanted), message_of(alloc, got)) else {
        return Ok(());
    };
    let wanted = wanted.lines().collect::<Vec<&str>>(alloc)?;
    let got = got.lines().collect::<Vec<&str>>(alloc)?;
    write_messages(out, &wanted, &got)
}

/// Compares the packets in two replies line by line. For each pair of packets that differ, the function appends those
/// lines that differ in the output of `decode`.
fn write_changes(
    out: &mut Vec<u8>,
    alloc: Global,
    wanted: &[u8],
    got: &[u8],
) -> Result<(), AllocError> {
    let (Ok(wanted), Ok(got)) = (str::from_utf8(wanted), str::from_utf8(got)) else {
        return Ok(());
    };
    for (one, other) in wanted.lines().zip(got.lines()) {
        if one != other {
            write_packets(out, alloc, one, other)?;
        }
    }
    Ok(())
}

/// Appends the place of a call, and then the words of the call. The place consists of the agent, the number of the
/// action, and the action's line in the schedule; for an opening, it consists only of the agent. The place of a `look`
/// is after an action.
fn write_head(out: &mut Vec<u8>, held: &HeldAgent, words: &[u8]) -> Result<(), AllocError> {
    let (agent, words) = (Number(held.agent), Masked(words));
    match (held.verdict.action, held.line()) {
        (0, _) => write_template(out, b"agent ~: ~\n", &[agent, words]),
        (_, 0) => write_template(out, b"agent ~: after its last call: ~\n", &[agent, words]),
        (action, line) => {
            let place = held.verdict.dump.as_ref().map_or("", |_| "after ");
            let place = Text(place.as_bytes());
            let parts = [agent, place, Number(action), Number(line), words];
            write_template(out, b"agent ~: ~action ~, line ~: ~\n", &parts)
        }
    }
}

/// Returns the trace of the action at which the comparison ended, together with the reasons, in the form that `explain`
/// writes. If the comparison ended at the opening or after the last action, the result is empty.
fn explained(alloc: Global, held: &HeldAgent) -> Result<Vec<u8>, AllocError> {
    let (number, mut schedule, mut out) = (held.verdict.action, held.text, Vec::new(alloc));
    if held.line() == 0 {
        return Ok(out);
    }
    let range = Range {
        agent: Some(held.agent),
        from: number,
        to: number,
    };
    match explain(alloc, &mut schedule, &mut out, &range, &mut Unwatched) {
        Ok(_) => Ok(out),
        Err(_) => Err(AllocError),
    }
}

/// Appends the reasons for the reference's reply, in the words that `explain` uses.
fn write_reasons(out: &mut Vec<u8>, alloc: Global, held: &HeldAgent) -> Result<(), AllocError> {
    let trace = explained(alloc, held)?;
    for line in str::from_utf8(&trace).unwrap_or("").lines() {
        if let Some((_, reason)) = line.split_once(" because ") {
            write_template(out, b"  reason: ~\n", &[Text(reason.as_bytes())])?;
        }
    }
    Ok(())
}

/// Appends how many calls agree before the call that differs, the expected reply with its reasons, and the agent's
/// reply.
fn write_replies(
    out: &mut Vec<u8>,
    alloc: Global,
    held: &HeldAgent,
    wanted: &[u8],
    got: &[u8],
) -> Result<(), AllocError> {
    write_template(
        out,
        b"  before: ~ calls agree\n",
        &[Number(held.verdict.calls)],
    )?;
    write_lines(out, b"  wanted: ", wanted)?;
    write_reasons(out, alloc, held)?;
    write_lines(out, b"  got: ", got)
}

/// Returns the text that reports how an agent differs from the reference: the call, both replies, and their
/// differences. If a line of the agent's reply ends in a carriage return, the text mentions the carriage return,
/// because it is shown as another character.
fn difference(
    alloc: Global,
    held: &HeldAgent,
    words: &[u8],
    wanted: &[u8],
    got: &[u8],
) -> Result<Vec<u8>, AllocError> {
    let mut said = Vec::new(alloc);
    write_head(&mut said, held, words)?;
    write_replies(&mut said, alloc, held, wanted, got)?;
    let mut lines = got.split(|b| *b == b'\n');
    if lines.any(|line| line.last() == Some(&b'\r')) {
        said.extend_from_slice(b"  a carriage return: lines end with a newline alone\n")?;
    }
    write_changes(&mut said, alloc, wanted, got)?;
    Ok(said)
}

/// Appends the call at which the comparison ended, and returns the text of the expected reply to this call.
fn wanted_text(call: &mut Vec<u8>, alloc: Global, held: &HeldAgent) -> Result<Vec<u8>, AllocError> {
    let reply = write_held_call(call, alloc, held)?;
    reply_text(alloc, &reply)
}

/// Prints the call at which an agent differs from the reference, and how the agent differs. The function also adds the
/// disagreement to the report.
fn tell(io: Io, report: &mut Report, held: &HeldAgent, got: &[u8]) -> Result<(), AllocError> {
    let mut call = Vec::new(io.alloc());
    let wanted = wanted_text(&mut call, io.alloc(), held)?;
    let words = &call[..call.len().saturating_sub(1)];
    report.add(held, words, &wanted);
    io.say(&difference(io.alloc(), held, words, &wanted, got)?);
    Ok(())
}

/// Prints the number of calls that agree. If some calls weren't compared, the function also prints the reason, which is
/// `why`.
fn print_agreement(io: Io, held: &HeldAgent, why: &[u8]) {
    let (calls, action) = (Number(held.verdict.calls), Number(held.verdict.action));
    let text: &[u8] = match why {
        b"" => b"agent ~: ~ calls agree\n",
        _ => b"agent ~: ~ calls agree; action ~ ~\n",
    };
    io.report(text, &[Number(held.agent), calls, action, Text(why)]);
}

/// Prints a verdict, and returns the exit status for it. If the agent differs, the function adds the verdict to the
/// report.
pub(super) fn tell_verdict<'b>(io: Io, report: &mut Report, held: &HeldAgent) -> CommandResult<'b> {
    // The sums already include the verdict that is reported here.
    let is_first = report.counts.agents <= 1 && held.verdict.calls == 0;
    let (told, status): (&[u8], Status) = match &held.verdict.end {
        End::AllAgree => (b"", Status::Done),
        End::OwnRule => (b"rests on an own rule", Status::Done),
        End::Unsupported => (b"is unsupported", Status::Done),
        End::Differs(got) => (got.as_slice(), Status::Refused),
        End::Ended if is_first => (b"the agent ended before its first reply", Status::Device),
        End::Ended => (b"the agent ended", Status::Device),
    };
    match status {
        Status::Done => print_agreement(io, held, told),
        _ => tell(io, report, held, told)?,
    }
    Ok(status)
}

/// A report in JSON to which disagreements are added, and the file to which the complete report is written.
#[derive(Drop)]
pub(super) struct Report<'a> {
    /// The file of the report, or `None` if no report is requested.
    path: Option<&'a str>,
    text: Vec<u8>,
    /// The name of the current kind of schedules, or `None` unless schedules of several kinds are compared.
    pub(super) kind: Option<&'static str>,
    /// The number of schedules that were compared to their end.
    pub(super) schedules: u64,
    /// The sums over the agents that were compared.
    pub(super) counts: Counts,
    /// The number of calls with replies that differ, without the `look` calls.
    differing: u64,
    pub(super) disagreements: u64,
    /// Whether a hunt ended with an error.
    pub(super) has_error: bool,
    /// Whether memory ran out while a line was added.
    is_cut: bool,
}

impl<'a> Report<'a> {
    /// Creates an empty report.
    pub(super) fn new(alloc: Global, path: Option<&'a str>) -> Report<'a> {
        Report {
            path,
            text: Vec::new(alloc),
            kind: None,
            schedules: 0,
            counts: no_counts(),
            differing: 0,
            disagreements: 0,
            has_error: false,
            is_cut: false,
        }
    }

    /// Adds a disagreement to the report. The agent's reply is contained in the verdict in `held`.
    pub(super) fn add(&mut self, held: &HeldAgent, call: &[u8], wanted: &[u8]) {
        let verdict = held.verdict;
        let (got, has_ended): (&[u8], bool) = match &verdict.end {
            End::Differs(got) => (got.as_slice(), false),
            _ => (&[], true),
        };
        let told = Disagreement {
            seed: held.seed,
            kind: self.kind.map(|kind| kind.as_bytes()),
            agent: held.agent,
            agreed: verdict.calls,
            action: verdict.action,
            line: held.line(),
            call,
            wanted,
            got,
            has_ended,
        };
        let differs = !has_ended && verdict.dump.is_none();
        self.differing = self.differing.saturating_add(differs as u64);
        self.disagreements = self.disagreements.saturating_add(1);
        if write_disagreement(&mut self.text, &told).is_err() {
            self.is_cut = true;
        }
    }

    /// If a report is requested, adds the sums to it and writes the report to its file.
    fn save<'b>(&mut self, io: Io, status: Status) -> CommandResult<'b> {
        let Some(path) = self.path else {
            return Ok(status);
        };
        let sums = Sums {
            schedules: self.schedules,
            calls: self.counts.calls,
            disagreements: self.disagreements,
            status: status as u64,
        };
        if self.is_cut || write_sums(&mut self.text, &sums).is_err() {
            return Err(CommandError::NoMemory);
        }
        io.save(path, &self.text, status)
    }

    /// Prints which calls were compared and which weren't ([`report_sums`]) and, if a report is requested, writes it.
    /// The function normally returns `status`. If no call except `open` was compared, the function returns the status
    /// of a disagreement, and if a device failed, it returns the status of a failed device. If a hunt ended with an
    /// error before any disagreement, the function prints and writes nothing.
    pub(super) fn finish<'b>(&mut self, io: Io, status: Status) -> CommandResult<'b> {
        if self.has_error && self.disagreements == 0 {
            return Ok(status);
        }
        self.save(io, report_sums(io, self.counts, self.differing, status))
    }
}

/// Prints the number of agents whose comparison ended at an unsupported call, and the number of unsupported `look`
/// calls.
fn tell_unsupported(io: Io, counts: Counts) {
    let looks = counts.unsupported_dumps;
    if looks > 0 {
        let _ = eprintln!(io.rt; "{looks} looks are unsupported");
    }
    if counts.unsupported_agents > 0 {
        let parts = [Number(counts.agents), Number(counts.unsupported_agents)];
        io.report(b"of ~ agents ~ ended at an unsupported call\n", &parts);
    }
}

/// Prints which calls are unsupported, and then how many calls and agents were compared. The argument `differing` is
/// the number of calls with replies that differ. If only the openings were compared, agreement means nothing, so the
/// function returns the status of a disagreement.
fn report_sums(io: Io, counts: Counts, differing: u64, status: Status) -> Status {
    tell_unsupported(io, counts);
    let compared = Number(counts.calls.saturating_add(differing));
    let parts = [compared, Number(counts.agents)];
    io.report(b"compared: ~ calls of ~ agents\n", &parts);
    if status != Status::Done || counts.calls > counts.openings {
        return status;
    }
    io.say(b"no call but open was compared\n");
    Status::Refused
}
