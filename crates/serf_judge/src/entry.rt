//! The contents of single lines of a log: events, queries, dates, and lines that can't be read.

use serf_text::Cause;

/// A user event that `node` fired or was handed. The texts are copied from the words of the line.
#[derive(Drop)]
pub struct EventEntry {
    /// The number of the line, counted from 1. The number saturates at 2^64 - 1.
    pub line: u64,
    pub node: Vec<u8>,
    pub time: u64,
    pub name: Vec<u8>,
    pub payload: Vec<u8>,
}

/// A query that was handed to `node`. The node's name is copied from a word of the line.
#[derive(Drop)]
pub struct QueryEntry {
    /// The number of the line, counted from 1. The number saturates at 2^64 - 1.
    pub line: u64,
    pub node: Vec<u8>,
    pub time: u64,
    /// The query's ID, or `None` if the line contains `-` in its place.
    pub id: Option<u64>,
}

/// A line that reports that a node's handler of an event began or ended.
#[derive(Drop)]
pub struct RunEntry {
    pub event: EventEntry,
    /// The word on the line for how the handler ended, or `None` if the line reports that the handler began.
    pub status: Option<Vec<u8>>,
}

/// A line that can't be read.
#[derive(Clone, Copy, PartialEq, Eq)]
pub struct BadLine {
    /// The number of the line, counted from 1. The number saturates at 2^64 - 1.
    pub line: u64,
    /// The reason why the line can't be read.
    pub cause: Cause,
}

/// A line that begins with a date.
#[derive(Drop)]
pub struct DatedLine {
    /// The number of the line, counted from 1. The number saturates at 2^64 - 1.
    pub line: u64,
    /// The date at the beginning of the line: one word, or two words with a space between them.
    pub date: Vec<u8>,
}
