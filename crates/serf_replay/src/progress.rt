//! Counts the actions in a schedule, so that a watch can show the progress of the run.

use serf_schedule::Watch;
use serf_text::{is_word, split_once};

/// Returns whether `line`, a line of a schedule, contains an action. A line contains an action if it contains a word,
/// isn't a comment (`#`), and doesn't begin with the word `agent`.
fn has_action(line: &[u8]) -> bool {
    if line.starts_with(b"#") {
        return false;
    }
    match line.iter().position(|byte| *byte != b' ') {
        Some(word_at) => !is_word(split_once(&line[word_at..], b' ').0, b"agent"),
        None => false,
    }
}

/// Returns the number of lines in the schedule `text` that contain an action. The number is capped at 2^64 - 1.
fn count_actions(text: &[u8]) -> u64 {
    let mut count: u64 = 0;
    let mut rest = text;
    'lines: loop {
        let (line, more) = split_once(rest, b'\n');
        if has_action(line) {
            count = count.saturating_add(1);
        }
        match more {
            Some(next) => rest = next,
            None => return count,
        }
    }
}

/// Returns the number of actions in the schedule `text`. If `watch` isn't watching, the function returns 0 without
/// counting.
pub(crate) fn count_watched<T: Watch>(text: &[u8], watch: &T) -> u64 {
    if watch.is_watching() {
        count_actions(text)
    } else {
        0
    }
}
