//! Splits a line into its tokens, byte by byte.

ghost use Rattle.std.specs.Prelude.{◌≡◌, ◌==◌, ◌++◌, ◌∷◌, [], IfOk, OnOk};
ghost use Rattle.std.specs.List.{list_any};
ghost use Rattle.serf_write.specs.declared.token.Token.TheVariants.{Word};
ghost use Rattle.serf_write.specs.Gives.{Gives};
ghost use Rattle.serf_write.specs.Tokens.{after_byte, after_quote, after_space, after_word, at_end, at_start, before_return, closed, longer, tokens_of, with_text, with_word};

use crate::token::{Token, text};
use crate::word_error::{Expected, LineError, bad, or_bad};
use serf_wire::Bytes;
use std::alloc::{AllocError, Global};
use std::marker::Model;
use std::mem;

/// The state of the scanner, which is the kind of token that it is reading.
#[derive(Clone, Copy)]
pub(crate) enum ScanState {
    /// The scanner isn't reading a token, because the last byte was a space or completed a text, or because no byte has
    /// been read yet.
    Between,
    /// A word.
    Word,
    /// A text whose closing quote is still missing.
    Text,
    /// A text that is part of a word and still lacks its closing quote.
    TextInWord,
    /// A comment, which extends to the end of the line.
    Comment,
}

/// A scanner that splits a line into its tokens, byte by byte.
///
/// Contracts see the complete tokens, the bytes of the incomplete token, and the state.
#[derive(Drop)]
struct Scanner {
    tokens: Vec<Token>,
    /// The bytes of the incomplete token. If the token is a text, the bytes begin after the opening quote.
    part: Vec<u8>,
    state: ScanState,
}

impl Model for Scanner {
    ghost use Rattle.serf_write.specs.Tokens.{Scanned};

    ghost Value = { Scanned };

    ghost view = { λ s. record { tokens = s.tokens.items; part = s.part.items; state = s.state } };
}

/// If `line` ends with a carriage return, returns the line without it, and otherwise returns the whole line.
fn without_return(line: &[u8]) -> &[u8]
    ensures { result.now ≡ before_return line.now }
{
    let size = line.len();
    if size > 0 && line[size - 1] == b'\r' {
        &line[..size - 1]
    } else {
        line
    }
}

/// Returns whether `word` contains `=`.
fn has_equals_sign(word: &[u8]) -> bool
    ensures { result ≡ list_any (λ b. b == 61) word.now }
{
    word.iter().any(|byte| *byte == b'=')
}

impl Scanner {
    /// Creates a scanner that has read no byte yet.
    fn new(alloc: Global) -> Scanner
        ensures { result ≡ at_start }
    {
        Scanner {
            tokens: Vec::new(alloc),
            part: Vec::new(alloc),
            state: ScanState::Between,
        }
    }

    /// Appends `byte` to the incomplete token, and enters the state `state`.
    fn grow(&mut self, byte: u8, state: ScanState) -> Result<(), AllocError>
        ensures { OnOk result (self.new ≡ longer self.old byte state) }
    {
        self.part.push(byte)?;
        self.state = state;
        Ok(())
    }

    /// Completes the word that is being read, and enters the state `state`.
    fn end_word(&mut self, alloc: Global, state: ScanState) -> Result<(), AllocError>
        ensures { OnOk result (self.new ≡ with_word self.old state) }
    {
        let word = mem::replace(&mut self.part, Vec::new(alloc));
        self.tokens.push(Token::Word(Bytes::from_vec(word)))?;
        self.state = state;
        Ok(())
    }

    /// Appends `text` to the tokens as a complete text. The scanner is then between two tokens.
    fn add_text(&mut self, alloc: Global, text: Bytes) -> Result<(), AllocError>
        ensures { OnOk result (self.new ≡ with_text self.old text) }
    {
        self.tokens.push(Token::Text(text))?;
        self.part = Vec::new(alloc);
        self.state = ScanState::Between;
        Ok(())
    }

    /// Completes the text that is being read when the scanner reaches its closing quote.
    fn end_text(&mut self, alloc: Global) -> Result<(), LineError>
        ensures { Gives (λ _. self.new) result (closed self.old) }
    {
        let found = text(alloc, self.part.as_slice())?;
        let text = or_bad(found, self.tokens.len() + 1, Expected::Escape)?;
        Ok(self.add_text(alloc, text)?)
    }

    /// Reads a quote that directly follows an incomplete word. The quote begins a text, which is part of the word if
    /// the word contains `=`.
    fn quote_word(&mut self, alloc: Global) -> Result<(), AllocError>
        ensures { OnOk result (self.new ≡ after_quote self.old) }
    {
        if has_equals_sign(self.part.as_slice()) {
            self.grow(b'"', ScanState::TextInWord)
        } else {
            self.end_word(alloc, ScanState::Text)
        }
    }

    /// Reads `byte` between two tokens.
    fn begin(&mut self, byte: u8) -> Result<(), AllocError>
        ensures { OnOk result (self.new ≡ after_space self.old byte) }
    {
        match byte {
            b' ' => Ok(()),
            b'#' => {
                self.state = ScanState::Comment;
                Ok(())
            }
            b'"' => {
                self.state = ScanState::Text;
                Ok(())
            }
            _ => self.grow(byte, ScanState::Word),
        }
    }

    /// Reads `byte`, which directly follows an incomplete word.
    fn after_word(&mut self, alloc: Global, byte: u8) -> Result<(), AllocError>
        ensures { OnOk result (self.new ≡ after_word self.old byte) }
    {
        match byte {
            b' ' => self.end_word(alloc, ScanState::Between),
            b'"' => self.quote_word(alloc),
            _ => self.grow(byte, ScanState::Word),
        }
    }

    /// Reads the next byte of the line.
    #[tactic(auto, unfolding(crate::specs::Tokens::after_byte))]
    fn push(&mut self, alloc: Global, byte: u8) -> Result<(), LineError>
        ensures { Gives (λ _. self.new) result (after_byte self.old byte) }
    {
        let is_quote = byte == b'"';
        match self.state {
            ScanState::Between => Ok(self.begin(byte)?),
            ScanState::Word => Ok(self.after_word(alloc, byte)?),
            ScanState::Text if is_quote => self.end_text(alloc),
            ScanState::TextInWord if is_quote => Ok(self.grow(byte, ScanState::Word)?),
            ScanState::Text => Ok(self.grow(byte, ScanState::Text)?),
            ScanState::TextInWord => Ok(self.grow(byte, ScanState::TextInWord)?),
            ScanState::Comment => Ok(()),
        }
    }

    /// Returns the complete tokens.
    fn into_tokens(self) -> Vec<Token>
        ensures { result.items ≡ self.tokens }
    {
        let Scanner {
            tokens,
            part: _,
            state: _,
        } = self;
        tokens
    }

    /// Completes the last word of the line, and returns all tokens.
    fn with_last_word(self, alloc: Global) -> Result<Vec<Token>, AllocError>
        ensures { IfOk result (λ tokens. tokens.items ≡ self.tokens ++ Word self.part ∷ []) }
    {
        let mut scanner = self;
        scanner.end_word(alloc, ScanState::Between)?;
        Ok(scanner.into_tokens())
    }

    /// Returns the tokens of the line after the last byte of the line was read.
    fn finish(self, alloc: Global) -> Result<Vec<Token>, LineError>
        ensures { Gives (λ tokens. tokens.items) result (at_end self) }
    {
        match self.state {
            ScanState::Between | ScanState::Comment => Ok(self.into_tokens()),
            ScanState::Word => Ok(self.with_last_word(alloc)?),
            ScanState::Text | ScanState::TextInWord => {
                Err(bad(self.tokens.len() + 1, Expected::ClosingQuote))
            }
        }
    }
}

/// Splits a line into its tokens, which are words between spaces and texts in quotes. A word whose first byte is `#`
/// starts a comment.
///
/// A carriage return at the end of the line is ignored. In a text, `\x` followed by two hex digits represents one byte.
#[tactic(auto, unfolding(crate::specs::Tokens::tokens_of))]
pub(crate) fn tokens(alloc: Global, line: &[u8]) -> Result<Vec<Token>, LineError>
    ensures { Gives (λ tokens. tokens.items) result (tokens_of line.now) }
{
    let mut scanner = Scanner::new(alloc);
    let bytes = without_return(line);
    for byte in bytes {
        scanner.push(alloc, *byte)?;
    }
    scanner.finish(alloc)
}
