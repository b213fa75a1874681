//! When several logs are judged together, finds the place of a line: the name of the log, the line's number in that
//! log, and the line's date.

ghost use Rattle.std.specs.Prelude.{◌≡◌, ◌==◌, ◌↔◌, IsTrue, find};
ghost use Rattle.std.specs.Option.{option_copied};
ghost use Rattle.serf_json.specs.Object.{member_text};
ghost use Rattle.serf_judge_json.specs.Places.{AreInOrder, date_member, date_of, line_in_log, log_name, log_of};

use serf_json::Member;
use serf_judge::DatedLine;

/// One of the logs that are judged together.
#[derive(Drop)]
pub struct LogName {
    pub name: Vec<u8>,
    /// The total number of lines in the logs before this log.
    pub before: u64,
}

/// The logs that are judged together, in order, and the dates of their lines. If a line has several dates, only the
/// first date is used.
#[derive(Clone, Copy)]
pub struct LogPlaces<'a> {
    pub logs: &'a [LogName],
    pub dates: &'a [DatedLine],
}

/// The place of a line.
#[derive(Clone, Copy)]
pub(crate) struct LinePlace<'a> {
    /// The name of the log that contains the line.
    pub(crate) log: &'a [u8],
    /// The number of the line in that log, counted from 1.
    pub(crate) line: u64,
    /// The line's date, which is empty if the line has none.
    date: &'a [u8],
}

impl<'a> LinePlace<'a> {
    /// Returns the member `name`, which contains the line's date. If the line has no date, the member is absent.
    pub(crate) fn date_member(&self, name: &'a [u8]) -> Member<'a>
        ensures { member_text result ≡ date_member name.entry.now self.now.date.now }
    {
        if self.date.is_empty() {
            Member::Absent
        } else {
            Member::Text(name, self.date)
        }
    }
}

/// Returns whether `dates` are in the order of their lines.
fn is_in_order(dates: &[DatedLine]) -> bool
    ensures { IsTrue result ↔ AreInOrder dates.now }
{
    dates.is_sorted_by(|one, next| one.line <= next.line)
}

/// Returns the first date in `dates` for line number `line`. The dates are in the order of their lines.
fn dated_in_order<'a>(dates: &'a [DatedLine], line: u64) -> Option<&'a DatedLine>
    requires { AreInOrder dates.now }
    ensures { option_copied result ≡ find (λ dated. dated.line == line) dates.entry.now }
{
    let place = dates.partition_point(|dated| dated.line < line);
    match dates.get(place) {
        Some(found) if found.line == line => Some(found),
        _ => None,
    }
}

/// Returns the first date in `dates` for line number `line`. The dates may be in any order.
fn dated_anywhere<'a>(dates: &'a [DatedLine], line: u64) -> Option<&'a DatedLine>
    ensures { option_copied result ≡ find (λ dated. dated.line == line) dates.entry.now }
{
    dates.iter().find(|dated| dated.line == line)
}

/// Finds the places of lines.
#[derive(Clone, Copy)]
pub(crate) struct LineFinder<'a> {
    places: LogPlaces<'a>,
    /// Whether the dates are in the order of their lines. If the dates are in this order, the date of a line is found
    /// without inspecting every date.
    is_ordered: bool,
    ghost ordered: { IsTrue is_ordered → AreInOrder places.dates.now },
}

impl<'a> LineFinder<'a> {
    pub(crate) fn new(places: &LogPlaces<'a>) -> LineFinder<'a>
        ensures { result.places ≡ places.now }
    {
        LineFinder {
            places: *places,
            is_ordered: is_in_order(places.dates),
        }
    }

    /// Returns the date of a line, which is empty if the line has none.
    fn date(&self, line: u64) -> &'a [u8]
        ensures { result.now ≡ date_of self.now.places line }
    {
        let found = if self.is_ordered {
            dated_in_order(self.places.dates, line)
        } else {
            dated_anywhere(self.places.dates, line)
        };
        match found {
            Some(dated) => dated.date.as_slice(),
            None => b"",
        }
    }

    /// Returns the last log that begins before line number `line`. Lines are counted from 1 across all logs.
    fn log(&self, line: u64) -> Option<&'a LogName>
        ensures { option_copied result ≡ log_of self.now.places line }
    {
        self.places.logs.iter().rev().find(|log| log.before < line)
    }

    /// Returns the place of line number `line`. Lines are counted from 1 across all logs.
    pub(crate) fn place(&self, line: u64) -> LinePlace<'a>
        ensures log { result.log.now ≡ log_name self.now.places line }
        ensures line { result.line ≡ line_in_log self.now.places line }
        ensures date { result.date.now ≡ date_of self.now.places line }
    {
        let date = self.date(line);
        match self.log(line) {
            Some(log) => LinePlace {
                log: log.name.as_slice(),
                line: line.saturating_sub(log.before),
                date,
            },
            None => LinePlace {
                log: b"-",
                line,
                date,
            },
        }
    }
}
