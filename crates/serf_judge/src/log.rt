//! Reads a whole log, line by line. Each line becomes an entry or a bad line, unless there is nothing on it to judge.

ghost use Rattle.std.specs.Prelude.{◌≡◌, ◌++◌, None, List, ℕ, IfErr, IfOk, OnOk, map};
ghost use Rattle.std.specs.Io.KnownBytes.{Consumes, IsAtEnd};
ghost use Rattle.serf_text.specs.Words.{words_of};
ghost use Rattle.serf_text.specs.Lines.{lines_of};
ghost use Rattle.serf_text.specs.Streams.{IsStopped};
ghost use Rattle.serf_judge.specs.Dated.{after_date, date_text};
ghost use Rattle.serf_judge.specs.Identity.{event_identity, event_seen};
ghost use Rattle.serf_judge.specs.Log.{begun, ended};
ghost use Rattle.serf_judge.specs.Said.{IsAt, Says, bare, log_record_view, is_comment, log_answer, log_of, log_view, with_date, with_log_record, with_line, with_said, without_mark, without_return, words_said};

use crate::dated::{cut_date, date_of};
use crate::entry::{BadLine, DatedLine, EventEntry, QueryEntry, RunEntry};
use crate::log_record::{LogRecord, log_record_in};
use serf_text::{Cause, LineJob, StreamError, StreamLineError, answer_lines, split_once};
use std::alloc::{AllocError, Global};
use std::io;
use std::io::Read;

/// Everything that a log contains. The items in each list are in the order of their lines.
#[derive(Drop)]
pub struct Log {
    /// The events that nodes fired.
    pub fired: Vec<EventEntry>,
    /// The events that were handed to nodes.
    pub events: Vec<EventEntry>,
    /// The queries that were handed to nodes.
    pub queries: Vec<QueryEntry>,
    /// The lines that report that a handler of an event began or ended.
    pub runs: Vec<RunEntry>,
    /// The lines that can't be read, of which only the dates are used.
    pub bad: Vec<BadLine>,
    /// The dates at the beginning of lines, including lines that can't be read.
    pub dates: Vec<DatedLine>,
    /// The number of lines in the log, counting an empty line after a final newline. The number saturates at 2^64 - 1.
    pub lines: u64,
}

/// Returns the words of `line`, which are the nonempty parts between its spaces.
fn words_in<'a>(alloc: Global, line: &'a [u8]) -> Result<Vec<&'a [u8]>, AllocError>
    ensures { IfOk result (λ words. map (λ w. w.now) words.items ≡ words_of line.entry.now) }
{
    let mut words = Vec::new(alloc);
    let mut rest = line;
    'words: loop {
        let (word, more) = split_once(rest, b' ');
        if !word.is_empty() {
            words.push(word)?;
        }
        match more {
            Some(next) => rest = next,
            None => return Ok(words),
        }
    }
}

/// Returns whether `line` is a comment, that is, whether it begins with `#`.
fn is_comment_line(line: &[u8]) -> bool
    ensures { result ≡ is_comment line.now }
{
    match line {
        [first, ..] => *first == b'#',
        [] => false,
    }
}

/// Returns `line`, but removes a carriage return at its end.
fn cut_return(line: &[u8]) -> &[u8]
    ensures { result.now ≡ without_return line.entry.now }
{
    line.strip_suffix(&[b'\r']).unwrap_or(line)
}

/// Returns `line`, but removes a UTF-8 byte order mark at its beginning.
fn cut_mark(line: &[u8]) -> &[u8]
    ensures { result.now ≡ without_mark line.entry.now }
{
    line.strip_prefix(&[0xef, 0xbb, 0xbf]).unwrap_or(line)
}

/// Returns `line` without a carriage return at its end. If `is_first` is true, `line` is the log's first line, and the
/// function also removes a byte order mark.
fn bare_line(line: &[u8], is_first: bool) -> &[u8]
    ensures { result.now ≡ bare is_first line.entry.now }
{
    if is_first {
        cut_return(cut_mark(line))
    } else {
        cut_return(line)
    }
}

/// Reads the words that follow the date on line number `number`. Returns `Bad` with the cause if the words can't be
/// read. `words` contains all words of the line.
fn log_record_on(
    alloc: Global,
    number: u64,
    words: &[&[u8]],
) -> Result<LogRecord, StreamLineError<Cause>>
    ensures said { Says log_record_view result
        (words_said (after_date (map (λ w. w.now) words.now))) }
    ensures line { IfOk result (IsAt number) }
{
    let words = cut_date(words);
    if words.is_empty() {
        return Ok(LogRecord::Nothing);
    }
    log_record_in(alloc, number, words)
}

/// Returns a copy of `event`.
fn copy_of(alloc: Global, event: &EventEntry) -> Result<EventEntry, AllocError>
    ensures { IfOk result (λ copy. event_seen copy ≡ event_seen event.now) }
{
    Ok(EventEntry {
        line: event.line,
        node: Vec::from_slice(alloc, event.node.as_slice())?,
        time: event.time,
        name: Vec::from_slice(alloc, event.name.as_slice())?,
        payload: Vec::from_slice(alloc, event.payload.as_slice())?,
    })
}

impl Log {
    /// Appends `event`, whose handler began, to both `events` and `runs`.
    fn add_begun(&mut self, alloc: Global, event: EventEntry) -> Result<(), AllocError>
        ensures { OnOk result (log_view self.new
            ≡ with_log_record (log_view self.old) event.line (begun (event_identity event))) }
    {
        let copy = copy_of(alloc, &event)?;
        self.events.push(copy)?;
        let status = None;
        self.runs.push(RunEntry { event, status })?;
        Ok(())
    }

    /// Appends to `runs` an entry which records that the handler of `event` ended with the status `status`.
    fn add_ended(&mut self, event: EventEntry, status: Vec<u8>) -> Result<(), AllocError>
        ensures { OnOk result (log_view self.new
            ≡ with_log_record (log_view self.old) event.line
            (ended (event_identity event) status.items)) }
    {
        let status = Some(status);
        self.runs.push(RunEntry { event, status })?;
        Ok(())
    }

    /// Appends `log_record`, the content of line number `number`, to the list for records of its kind. If there is
    /// nothing to judge in the record, appends nothing.
    fn add_log_record(
        &mut self,
        alloc: Global,
        number: u64,
        log_record: LogRecord,
    ) -> Result<(), AllocError>
        requires { IsAt number log_record }
        ensures { OnOk result (log_view self.new
            ≡ with_log_record (log_view self.old) number (log_record_view log_record)) }
    {
        let pushed = match log_record {
            LogRecord::Nothing => return Ok(()),
            LogRecord::Fired(event) => self.fired.push(event).is_ok(),
            LogRecord::Event(event) => self.events.push(event).is_ok(),
            LogRecord::Query(query) => self.queries.push(query).is_ok(),
            LogRecord::Begun(event) => return self.add_begun(alloc, event),
            LogRecord::Ended(event, status) => return self.add_ended(event, status),
        };
        if pushed { Ok(()) } else { Err(AllocError) }
    }

    /// If `words` begins with a date, appends the date to `dates`. `words` contains the words of line number `line`.
    fn add_date(&mut self, alloc: Global, line: u64, words: &[&[u8]]) -> Result<(), AllocError>
        ensures { OnOk result (log_view self.new
            ≡ with_date (log_view self.old) line (date_text (map (λ w. w.now) words.now))) }
    {
        let date = date_of(alloc, words)?;
        if date.as_slice().is_empty() {
            return Ok(());
        }
        self.dates.push(DatedLine { line, date })?;
        Ok(())
    }

    /// Reads `words`, the words of line number `line`, and appends the content that follows the date to the list of its
    /// kind. If the words can't be read, appends the line to `bad`, together with the cause.
    fn add_words(&mut self, alloc: Global, line: u64, words: &[&[u8]]) -> Result<(), AllocError>
        ensures { OnOk result (log_view self.new ≡ with_said (log_view self.old) line
            (words_said (after_date (map (λ w. w.now) words.now)))) }
    {
        match log_record_on(alloc, line, words) {
            Ok(log_record) => self.add_log_record(alloc, line, log_record),
            Err(StreamLineError::Bad(cause)) => {
                self.bad.push(BadLine { line, cause })?;
                Ok(())
            }
            Err(StreamLineError::OutOfMemory) => Err(AllocError),
        }
    }

    /// Appends the date and the content of `line`, whose number is `number`, to the lists. If the line is a comment,
    /// appends nothing.
    fn add_line(&mut self, alloc: Global, number: u64, line: &[u8]) -> Result<(), AllocError>
        ensures { OnOk result (log_view self.new
            ≡ with_line (log_view self.old) number line.now) }
    {
        if is_comment_line(line) {
            return Ok(());
        }
        let words = words_in(alloc, line)?;
        self.add_date(alloc, number, words.as_slice())?;
        self.add_words(alloc, number, words.as_slice())
    }
}

impl LineJob for Log {
    ghost use Rattle.std.specs.Prelude.{◌≡◌, List, ℕ};
    ghost use Rattle.serf_judge.specs.Said.{log_answer, log_of, log_view};

    type OwnError = Cause;

    ghost follows = { λ log lines. log_view log ≡ log_of lines };

    ghost answer = { log_answer };

    /// Adds the content of `line`, the log's next line without its newline. The function writes nothing to `_text`,
    /// because reading a log has no output.
    fn read_line(
        &mut self,
        alloc: Global,
        line: &[u8],
        _text: &mut Vec<u8>,
    ) -> Result<(), StreamLineError<Cause>> {
        let before = self.lines;
        let number = before.saturating_add(1);
        self.lines = number;
        match self.add_line(alloc, number, bare_line(line, before == 0)) {
            Ok(()) => Ok(()),
            Err(_) => Err(StreamLineError::OutOfMemory),
        }
    }
}

/// Reads a log to its end.
///
/// A line is `fired NODE TIME NAME PAYLOAD`, `event NODE TIME NAME PAYLOAD`, `query NODE TIME ID`, `restarted NODE`,
/// `begun NODE TIME NAME PAYLOAD` or `ended NODE TIME NAME PAYLOAD STATUS`, with spaces between the words, or a line
/// from a trace that `serf-replay` wrote. An event whose handler began was also handed out, so `events` contains it
/// too. Comments (`#`) and lines without words are ignored. If a line begins with a date, or with a date and a time of
/// day, the function keeps this beginning in `dates`. The function ignores a carriage return at the end of a line, and
/// a UTF-8 byte order mark at the beginning of the log. A line may be up to 16,777,216 bytes long. If a line can't be
/// read, the function keeps the line's number and the cause in `bad`, and keeps nothing else of the line except its
/// date.
///
/// The error is `ReadError` if a read fails, `LineTooLong` with the line's number if a line is too long, or
/// `OutOfMemory` if memory runs out.
pub fn read_log<R: Read>(alloc: Global, reader: &mut R) -> Result<Log, StreamError<Cause>>
    // The log contains the contents of all lines.
    ensures done { IfOk result (λ log. (bytes : List ℕ)
        × Consumes (R.remaining reader.old) (R.remaining reader.new) bytes
        × IsAtEnd (R.remaining reader.new) × (log_view log ≡ log_of (lines_of bytes))) }
    // All lines before the reported line were read.
    ensures stopped { IfErr result (λ error. (bytes : List ℕ)
        × Consumes (R.remaining reader.old) (R.remaining reader.new) bytes
        × IsStopped log_answer error (lines_of bytes) None None) }
{
    let mut log = Log {
        fired: Vec::new(alloc),
        events: Vec::new(alloc),
        queries: Vec::new(alloc),
        runs: Vec::new(alloc),
        bad: Vec::new(alloc),
        dates: Vec::new(alloc),
        lines: 0,
    };
    match answer_lines(alloc, reader, &mut io::sink(), &mut log) {
        Ok(()) => Ok(log),
        Err(error) => Err(error),
    }
}
