//! Implements `conform --random`, which compares an agent with the reference on the random schedules of many seeds.

use super::missing::left_of;
use super::report::HeldAgent;
use super::session::Session;
use crate::command_error::{CommandError, CommandResult, Status};
use crate::commands::random::{kind_of, options_with};
use crate::io::Io;
use crate::options::{KINDS_OR_ALL, bad_word};
use crate::progress::{Progress, SEEDS, say_kind};
use clap::ArgMatches;
use serf_conform::{Counts, Found, HuntError, Hunted, RandomSchedules, case_of, hunt, sum_of};
use serf_random::{Kind, Made, RandomOptions, random_schedule};
use serf_schedule::{Unwatched, parse_schedule};
use serf_text::Part::Number;

/// The names of all kinds of random schedules, in the order in which the schedules are run.
const KINDS: &str =
    "mixed tiny merges restarts devices injections queries limits exhaustion per-time compactions gossip spellings kept rounds";

/// The seeds of the random schedules on which an agent is compared.
#[derive(Clone, Copy)]
pub(super) struct Seeds {
    first: u64,
    /// The last seed plus one.
    end: u64,
    /// The options of the schedules. For each schedule, its own seed replaces the seed in these options.
    ask: RandomOptions,
    /// Whether the agent is compared on schedules of all kinds, instead of only the kind in `ask`.
    are_of_all_kinds: bool,
}

/// Reads a word of the form `A-B` or `A`, and returns the first seed and the last seed plus one.
fn ends_of(word: &str) -> Option<(u64, u64)> {
    let (first, last) = word.split_once("-").unwrap_or((word, word));
    let first = first.parse::<u64>().ok()?;
    let end = last.parse::<u64>().ok()?.checked_add(1)?;
    (first < end).then_some((first, end))
}

/// Returns the seeds that `word` names, together with the options for their schedules that the command line selects.
pub(super) fn seeds_of<'a>(word: &str, matches: &ArgMatches) -> Result<Seeds, CommandError<'a>> {
    let words = "seeds as A-B, from the smaller to the larger";
    let (first, end) = ends_of(word).ok_or(bad_word("random", words))?;
    let are_of_all_kinds = matches.get_str("kind") == Some("all");
    let kind = if are_of_all_kinds {
        Kind::Mixed
    } else {
        kind_of(matches).ok_or(bad_word("kind", KINDS_OR_ALL))?
    };
    Ok(Seeds {
        first,
        end,
        ask: options_with(matches, first, kind)?,
        are_of_all_kinds,
    })
}

/// How far the comparison on the seeds of one kind has come.
#[derive(Clone, Copy)]
struct KindProgress {
    /// The options of the schedules. For each schedule, its own seed replaces the seed in these options.
    ask: RandomOptions,
    /// The first seed on which the agent hasn't been compared yet.
    next: u64,
    /// The number of seeds whose schedules were compared to the end without a disagreement.
    agreed: u64,
    /// The number of calls at which the agent agreed with the reference.
    calls: u64,
    /// The number of seeds for which an agent differed from the reference.
    found: u64,
}

impl KindProgress {
    /// Adds the result of a hunt, which either found an agent that differs, or found no such agent for the seeds before
    /// `end`.
    fn add_hunt(&mut self, end: u64, counts: Counts, found: &Option<Found>) {
        let seed = match found {
            Some(found) => found.seed,
            None => end,
        };
        let agreed = seed.saturating_sub(self.next);
        self.agreed = self.agreed.saturating_add(agreed);
        self.calls = self.calls.saturating_add(counts.calls);
        self.found = self.found.saturating_add(found.is_some() as u64);
        self.next = seed.saturating_add(1);
    }
}

impl Session<'_> {
    /// Reports the result for all seeds of a kind, and returns the status.
    fn tell_end(&self, kind: &KindProgress) -> Status {
        let (agreed, calls, found) = (Number(kind.agreed), Number(kind.calls), Number(kind.found));
        let text: &[u8] = match kind.found {
            0 => b"~ seeds and ~ calls agree\n",
            _ => b"~ seeds and ~ calls agree, and ~ seeds don't\n",
        };
        let _ = say_kind(self.io, self.report.kind);
        self.io.report(text, &[agreed, calls, found]);
        Status::refused_if(kind.found > 0)
    }

    /// Prints the seed for which an agent differs, how many seeds of the same kind agreed before that seed, and how the
    /// agent differs.
    fn tell_found<'b>(&mut self, kind: &KindProgress, found: &Found) -> CommandResult<'b> {
        let (alloc, seed, other) = (self.io.alloc(), found.seed, &found.other);
        let parts = [Number(seed), Number(kind.agreed), Number(kind.calls)];
        let _ = say_kind(self.io, self.report.kind);
        self.io
            .report(b"seed ~: ~ seeds and ~ calls agree before\n", &parts);
        let ask = RandomOptions { seed, ..kind.ask };
        let Made { text, .. } = random_schedule(alloc, &ask, &mut Unwatched)?;
        let text = left_of(alloc, text, self.asked.missing)?;
        let case = case_of(alloc, parse_schedule(alloc, &text)?)?;
        self.conclude(&HeldAgent {
            seed: Some(seed),
            text: &text,
            case: &case,
            agent: other.agent,
            verdict: &other.verdict,
        })
    }

    /// Compares an agent on the remaining seeds of a kind, up to the first seed for which the agent differs. The
    /// function adds the result to the sums.
    fn hunt_on<'b>(
        &mut self,
        end: u64,
        kind: &mut KindProgress,
        progress: &mut Progress,
    ) -> Result<Option<Found>, CommandError<'b>> {
        let maker = RandomSchedules {
            options: kind.ask,
            missing: self.asked.missing,
        };
        let (alloc, rules, first) = (self.io.alloc(), self.asked.rules, kind.next);
        match hunt(alloc, &maker, &mut self.pipe, rules, first, end, progress) {
            Ok(Hunted { counts, found }) => {
                self.report.counts = sum_of(self.report.counts, counts);
                kind.add_hunt(end, counts, &found);
                Ok(found)
            }
            Err(HuntError { seed, error }) => {
                self.report.has_error = true;
                let _ = say_kind(self.io, self.report.kind);
                Err(CommandError::NotHeld("seed", seed, error))
            }
        }
    }

    /// Compares an agent on all seeds of a kind. The comparison continues after a disagreement until the requested
    /// number of disagreements is reached. Returns the status with which the command continues.
    fn hold_kind<'b>(&mut self, seeds: &Seeds, kind: &mut KindProgress) -> CommandResult<'b> {
        let mut progress = Progress::of(self.io, SEEDS);
        for _ in self.report.disagreements..self.asked.go_on.unwrap_or(1) {
            progress.resume(self.report.kind, kind.next.saturating_sub(seeds.first));
            match self.hunt_on(seeds.end, kind, &mut progress)? {
                Some(found) => self.tell_found(kind, &found)?,
                None => return Ok(self.tell_end(kind)),
            };
        }
        Err(CommandError::Reported(Status::Refused))
    }

    /// Compares an agent on all seeds, kind by kind, up to the requested number of disagreements or, if no number is
    /// requested, up to the first one. Returns the largest of the statuses of all kinds. The function also adds to the
    /// report how many seeds agree.
    pub(super) fn hold_kinds<'b>(&mut self, seeds: &Seeds) -> CommandResult<'b> {
        let mut status = Status::Done;
        for word in KINDS.split(' ') {
            let kind = Kind::of_name(word.as_bytes()).unwrap_or(seeds.ask.kind);
            if !seeds.are_of_all_kinds && seeds.ask.kind != kind {
                continue;
            }
            self.report.kind = seeds.are_of_all_kinds.then_some(word);
            let mut held = KindProgress {
                ask: RandomOptions { kind, ..seeds.ask },
                next: seeds.first,
                agreed: 0,
                calls: 0,
                found: 0,
            };
            let came = self.hold_kind(seeds, &mut held);
            self.report.schedules = self.report.schedules.saturating_add(held.agreed);
            status = status.max(came?);
        }
        Ok(status)
    }
}
