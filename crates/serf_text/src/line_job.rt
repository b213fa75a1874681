//! Jobs process the lines of a stream one by one. A [`LineJob`] has exactly one answer to each line, and a
//! [`LineReporter`] reports a text for each line.

use crate::stream_error::StreamLineError;
use std::alloc::Global;

/// Answers lines, one after another.
///
/// In contracts, `answer lines line` is the answer to `line` after `lines`, and `follows job lines` means that `job`
/// has answered exactly `lines`.
pub trait LineJob {
    ghost use Rattle.std.specs.Prelude.{◌≡◌, ◌++◌, ◌∷◌, [], List, ℕ, Result, Ok, Err, OnOk, IfErr};
    ghost use Rattle.serf_text.specs.Lines.{IsSaid};

    /// The error with which the job refuses a line.
    type OwnError: Drop;

    ghost follows: { Self → List (List ℕ) → Type 0 };

    ghost answer: { List (List ℕ) → List ℕ → Result (List ℕ) Self.OwnError };

    /// Answers `line`, which is the next line, and puts the answer into `text`. The caller passes an empty `text`.
    /// After an error, `text` may contain anything, and the job must not be used again.
    fn read_line(
        &mut self,
        alloc: Global,
        line: &[u8],
        text: &mut Vec<u8>,
    ) -> Result<(), StreamLineError<Self::OwnError>>
        ensures done { (lines : List (List ℕ)) → follows self.old lines → text.old.items ≡ []
            → OnOk result ((answer lines line.now ≡ Ok text.new.items)
            × follows self.new (lines ++ line.now ∷ [])) }
        ensures refused { (lines : List (List ℕ)) → follows self.old lines
            → IfErr result (IsSaid (answer lines line.now)) };
}

/// Processes lines, one after another, and reports a text for each.
///
/// In contracts, `told job lines text` means that `job` has processed exactly `lines` and reported `text` for them.
/// `refuses lines line error` means that the job refuses `line` with `error` after it has processed `lines`. The
/// answers of a [`LineJob`] depend only on the lines, but a job of this kind may choose among several texts.
pub trait LineReporter {
    ghost use Rattle.std.specs.Prelude.{◌≡◌, ◌++◌, ◌∷◌, [], List, ℕ, OnOk, IfErr};
    ghost use Rattle.serf_text.specs.Streams.{IsRefused};

    /// The error with which the job refuses a line.
    type OwnError: Drop;

    ghost told: { Self → List (List ℕ) → List ℕ → Type 0 };

    ghost refuses: { List (List ℕ) → List ℕ → Self.OwnError → Type 0 };

    /// Processes `line`, which is the next line, and puts the text for it into `text`. The caller passes an empty
    /// `text`. After an error, `text` may contain anything, and the job must not be used again.
    fn report_line(
        &mut self,
        alloc: Global,
        line: &[u8],
        text: &mut Vec<u8>,
    ) -> Result<(), StreamLineError<Self::OwnError>>
        ensures done { (lines : List (List ℕ)) (before : List ℕ) → told self.old lines before
            → text.old.items ≡ [] → OnOk result
            (told self.new (lines ++ line.now ∷ []) (before ++ text.new.items)) }
        ensures refused { (lines : List (List ℕ)) (before : List ℕ) → told self.old lines before
            → IfErr result (IsRefused refuses lines line.now) };
}

/// Every job that answers lines is also a reporter, which reports the answer to each line.
impl<J: LineJob> LineReporter for J {
    ghost use Rattle.serf_text.specs.Streams.{answers_error, answers_told};

    type OwnError = J::OwnError;

    ghost told = { answers_told J.follows J.answer };

    ghost refuses = { answers_error J.answer };

    fn report_line(
        &mut self,
        alloc: Global,
        line: &[u8],
        text: &mut Vec<u8>,
    ) -> Result<(), StreamLineError<J::OwnError>> {
        self.read_line(alloc, line, text)
    }
}
