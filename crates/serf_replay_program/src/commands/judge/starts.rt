//! Defines how programs may be started on a node's snapshot, and which clocks these programs restore from the snapshot.

use serf_judge::{Reader, after_leave, is_own_snapshot, serf_clocks};
use serf_snapshot::{Clocks, read_clocks};

/// One way to start a program on a snapshot.
#[derive(Clone, Copy)]
pub(crate) struct Start {
    pub(crate) reader: Reader,
    /// The words that describe this start in a verdict, such as ` with -rejoin`. These words begin with a space. If
    /// there is only one way to start the program, the text is empty.
    pub(crate) how: &'static str,
}

/// Returns the ways in which the program that `reads` selects may be started on a snapshot. If the snapshot contains a
/// line `leave`, stock Serf may be started with or without `-rejoin`. In every other case, there is only one way to
/// start the program.
pub(crate) fn starts_of(snapshot: &[u8], reads: StartedProgram) -> (Start, Option<Start>) {
    let is_own = match reads {
        StartedProgram::Serf => false,
        StartedProgram::Own => true,
        StartedProgram::Writer => is_own_snapshot(snapshot),
    };
    let start = |reader, how| Start { reader, how };
    if is_own {
        let keeps = is_own_snapshot(snapshot);
        return (start(Reader::Agent { keeps }, ""), None);
    }
    let (rejoined, started) = (
        Reader::Serf { rejoins: true },
        Reader::Serf { rejoins: false },
    );
    if after_leave(snapshot).len() == snapshot.len() {
        return (start(rejoined, ""), None);
    }
    (
        start(rejoined, " with -rejoin"),
        Some(start(started, " without -rejoin")),
    )
}

/// The program that is started on the snapshots.
#[derive(Clone, Copy)]
pub(crate) enum StartedProgram {
    /// The program that wrote the snapshots. If the snapshots contain lines that only agents of this project write,
    /// this program is an agent of this project; if not, it is stock Serf.
    Writer,
    /// Stock Serf.
    Serf,
    /// An agent of this project. If the snapshot contains lines that only agents of this project write, the agent
    /// restores its events and queries.
    Own,
}

/// A node's snapshot, and the program that is started on it.
#[derive(Clone, Copy)]
pub(super) struct Kept<'b> {
    pub(super) node: &'b [u8],
    pub(super) snapshot: &'b [u8],
    pub(super) reader: Reader,
    /// The words that describe the start in a verdict, which either begin with a space or are empty.
    pub(super) how: &'b str,
}

impl<'b> Kept<'b> {
    /// Returns the clocks that the program restores.
    pub(super) fn clocks(&self) -> Clocks {
        match self.reader {
            Reader::Serf { rejoins } => serf_clocks(self.snapshot, rejoins),
            Reader::Agent { .. } => read_clocks(self.snapshot),
        }
    }

    /// Returns two phrases, one for events and one for queries, such as `its events up to `. In a verdict, the phrase
    /// precedes the name of the clock.
    pub(super) fn what(&self) -> [&'b str; 2] {
        match self.reader {
            Reader::Agent { keeps: true } => ["its events up to ", "its queries up to "],
            _ => ["", ""],
        }
    }

    /// Returns how the verdict ends when nothing can be handed out again.
    pub(super) fn none(&self) -> &'b [u8] {
        match self.reader {
            Reader::Agent { keeps: true } => b": nothing can be handed out again\n",
            _ => b": nothing was handed out above it\n",
        }
    }
}
