//! Processes all lines of a text, and returns the result after the last line.

ghost use Rattle.std.specs.Prelude.{[], IfErr, IfOk};
ghost use Rattle.serf_text.specs.Lines.{lines_of};
ghost use Rattle.serf_text.specs.Whole.{IsRefusedAt};

use crate::line_job::LineReporter;
use crate::stream_error::StreamLineError;
use crate::words::split_once;
use std::alloc::Global;

/// Lets `job` process the lines of `input`, one after another, and returns the text that the job reports for them. An
/// error contains the number of the first line that wasn't processed, counted from 1, and the reason.
pub fn report_text<J: LineReporter>(
    alloc: Global,
    input: &[u8],
    job: &mut J,
) -> Result<Vec<u8>, (u64, StreamLineError<J::OwnError>)>
    ensures done { J.told job.old [] []
        → IfOk result (λ text. J.told job.new (lines_of input.now) text.items) }
    ensures refused { J.told job.old [] []
        → IfErr result (λ at. IsRefusedAt J.refuses (lines_of input.now) at.0 at.1) }
{
    let mut all = Vec::new(alloc); // the texts for the lines so far
    let mut text = Vec::new(alloc); // a buffer for the text for one line
    let mut number: u64 = 1; // the number of the line
    let mut rest = input;
    'lines: loop {
        let (line, more) = split_once(rest, b'\n');
        text.clear();
        if let Err(error) = job.report_line(alloc, line, &mut text) {
            return Err((number, error));
        }
        if all.append(&mut text).is_err() {
            return Err((number, StreamLineError::OutOfMemory));
        }
        match more {
            Some(next) => {
                rest = next;
                number += 1;
            }
            None => return Ok(all),
        }
    }
}
