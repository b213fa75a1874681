//! Reads the filters of a query. The argument `place` is the place of the word that contains the option, and errors
//! name this place.

ghost use Rattle.std.specs.Prelude.{◌≡◌, ◌==◌, ◌<◌, ◌^◌, ◌++◌, ◌∷◌, [], ℕ, IfOk, List, OnOk, length, map, position};
ghost use Rattle.std.specs.List.{list_any};
ghost use Rattle.serf_wire.specs.Canonical.{is_long};
ghost use Rattle.serf_write.specs.Filters.{canonical_tag_filter, filter_by_kind, filter_said, in_quotes, names_from, node_filter_of, nodes_said, piece_said, pieces_from, pieces_of, tag_filter_of, tag_said};
ghost use Rattle.serf_write.specs.Gives.{Gives};

use crate::token::text;
use crate::values::halves;
use crate::word_error::{Expected, LineError, bad, or_bad};
use serf_pack::{write_map, write_raw};
use serf_text::{hex_bytes, is_word};
use serf_wire::{Bytes, node_filter};
use std::alloc::{AllocError, Global};
use std::mem;

/// The type byte of a tag filter.
const TAG_FILTER: u8 = 1;

/// Returns whether `text` has 2^32 bytes or more, and is therefore too long for a packet.
fn is_long(text: &[u8]) -> bool
    ensures { result ≡ is_long text.now }
{
    text.len() >= 4_294_967_296
}

/// Returns whether `piece` contains a quote.
fn has_quote(piece: &[u8]) -> bool
    ensures { result ≡ list_any (λ b. b == 34) piece.now }
{
    piece.iter().any(|byte| *byte == b'"')
}

/// Reads a text in quotes. `rest` is the part that follows the opening quote.
fn quoted_piece(alloc: Global, place: usize, rest: &[u8]) -> Result<Bytes, LineError>
    ensures { Gives (λ b. b) result
        (in_quotes place rest.now (position (λ b. b == 34) rest.now)) }
{
    match halves(rest, b'"') {
        Some((inside, after)) => {
            if after.is_empty() {
                or_bad(text(alloc, inside)?, place, Expected::Escape)
            } else {
                Err(bad(place, Expected::Filter))
            }
        }
        None => Err(bad(place, Expected::Filter)),
    }
}

/// Reads a name or an expression, which is a text in quotes or a word without quotes.
#[tactic(auto, unfolding(crate::specs::Filters::piece_said))]
fn piece(alloc: Global, place: usize, piece: &[u8]) -> Result<Bytes, LineError>
    ensures { Gives (λ b. b) result (piece_said place piece.now) }
{
    if piece.len() > 0 && piece[0] == b'"' {
        quoted_piece(alloc, place, &piece[1..])
    } else if piece.is_empty() || has_quote(piece) {
        Err(bad(place, Expected::Filter))
    } else {
        Ok(Bytes::copy_of(alloc, piece)?)
    }
}

/// Reads `byte`, the next byte in a list of pieces. A comma outside of quotes ends the current piece, and any other
/// byte is appended to the current piece. `is_quoted` states whether `byte` is within quotes. Returns whether the byte
/// that follows `byte` is within quotes.
fn add_byte(
    alloc: Global,
    pieces: &mut Vec<Bytes>,
    piece: &mut Vec<u8>,
    is_quoted: bool,
    byte: u8,
) -> Result<bool, AllocError>
    ensures { IfOk result (λ quoted. (rest : List ℕ)
        → pieces_from pieces.old.items is_quoted piece.old.items (byte ∷ rest)
        ≡ pieces_from pieces.new.items quoted piece.new.items rest) }
{
    if byte == b',' && !is_quoted {
        let whole = mem::replace(piece, Vec::new(alloc));
        pieces.push(Bytes::from_vec(whole))?;
        return Ok(false);
    }
    piece.push(byte)?;
    if byte == b'"' {
        Ok(!is_quoted)
    } else {
        Ok(is_quoted)
    }
}

/// Splits `word` at the commas outside of quotes, and returns the pieces.
fn pieces(alloc: Global, word: &[u8]) -> Result<Vec<Bytes>, AllocError>
    ensures { IfOk result (λ pieces. pieces.items ≡ pieces_of word.now) }
{
    let mut pieces = Vec::new(alloc);
    let mut piece = Vec::new(alloc);
    let mut is_quoted = false;
    for byte in word {
        is_quoted = add_byte(alloc, &mut pieces, &mut piece, is_quoted, *byte)?;
    }
    pieces.push(Bytes::from_vec(piece))?;
    Ok(pieces)
}

/// Appends `name` to `names`.
fn add_name(names: &mut Vec<Bytes>, name: Bytes) -> Result<(), AllocError>
    ensures { OnOk result (names.new.items ≡ names.old.items ++ name ∷ []) }
{
    names.push(name)?;
    Ok(())
}

/// Reads a name from each piece in `pieces`.
fn names(alloc: Global, place: usize, pieces: &[Bytes]) -> Result<Vec<Bytes>, LineError>
    ensures { Gives (λ names. names.items) result (names_from place [] pieces.now) }
{
    let mut names = Vec::new(alloc);
    for one in pieces {
        let name = piece(alloc, place, one.as_slice())?;
        add_name(&mut names, name)?;
    }
    Ok(names)
}

/// Borrows the bytes of each name in `names`, in the same order.
fn borrow_names<'a>(alloc: Global, names: &'a [Bytes]) -> Result<Vec<&'a [u8]>, AllocError>
    ensures { IfOk result (λ borrowed. map (λ t. t.now) borrowed.items ≡ names.now) }
{
    let mut borrowed = Vec::new(alloc);
    for name in names {
        borrowed.push(name.as_slice())?;
    }
    Ok(borrowed)
}

/// Returns whether one of the names in `names` is too long for a packet.
fn has_long_name(names: &[Bytes]) -> bool
    ensures { result ≡ list_any is_long names.now }
{
    names.iter().any(|name| is_long(name.as_slice()))
}

/// Returns the node filter for `names`. Returns an error if there are too many names for a packet, or if one name is
/// too long.
fn filter_of_names(alloc: Global, place: usize, names: &[Bytes]) -> Result<Bytes, LineError>
    ensures { Gives (λ f. f) result (node_filter_of place names.now) }
{
    if names.len() >= 4_294_967_296 || has_long_name(names) {
        return Err(bad(place, Expected::Filter));
    }
    let borrowed = borrow_names(alloc, names)?;
    match node_filter(alloc, borrowed.as_slice()) {
        Ok(filter) => Ok(Bytes::from_vec(filter)),
        // Neither the list nor any name is too long, so memory ran out.
        Err(_) => Err(LineError::OutOfMemory),
    }
}

/// Reads a node filter. `word` lists the names of nodes, separated by commas.
fn nodes(alloc: Global, place: usize, word: &[u8]) -> Result<Bytes, LineError>
    ensures { Gives (λ f. f) result (nodes_said place word.now) }
{
    let pieces = pieces(alloc, word)?;
    let names = names(alloc, place, pieces.as_slice())?;
    filter_of_names(alloc, place, names.as_slice())
}

/// Returns the tag filter for the tag `name` and the regular expression `expression`.
fn write_tag_filter(alloc: Global, name: &[u8], expression: &[u8]) -> Result<Bytes, AllocError>
    requires name { length name.now < 2 ^ 32 }
    requires expression { length expression.now < 2 ^ 32 }
    ensures { IfOk result (λ f. f ≡ canonical_tag_filter name.now expression.now) }
{
    let mut out = Vec::new(alloc);
    out.extend_from_slice(&[TAG_FILTER])?;
    write_map(&mut out, 2)?;
    write_raw(&mut out, b"Expr")?;
    write_raw(&mut out, expression)?;
    write_raw(&mut out, b"Tag")?;
    write_raw(&mut out, name)?;
    Ok(Bytes::from_vec(out))
}

/// Returns the tag filter for the tag `name` and the regular expression `expression`. Returns an error if either is too
/// long for a packet.
fn tag_filter(
    alloc: Global,
    place: usize,
    name: &[u8],
    expression: &[u8],
) -> Result<Bytes, LineError>
    ensures { Gives (λ f. f) result (tag_filter_of place name.now expression.now) }
{
    if is_long(name) || is_long(expression) {
        return Err(bad(place, Expected::Filter));
    }
    Ok(write_tag_filter(alloc, name, expression)?)
}

/// Reads a tag filter. `word` consists of the name of a tag, `=` and a regular expression.
fn tag(alloc: Global, place: usize, word: &[u8]) -> Result<Bytes, LineError>
    ensures { Gives (λ f. f) result
        (tag_said place word.now (position (λ b. b == 61) word.now)) }
{
    match halves(word, b'=') {
        Some((name, expression)) => {
            let name = piece(alloc, place, name)?;
            let expression = piece(alloc, place, expression)?;
            tag_filter(alloc, place, name.as_slice(), expression.as_slice())
        }
        None => Err(bad(place, Expected::Filter)),
    }
}

/// Reads a filter of the kind `kind`, which is `node` or `tag`. `word` is the part that follows the colon.
fn filter_of_kind(alloc: Global, place: usize, kind: &[u8], word: &[u8]) -> Result<Bytes, LineError>
    ensures { Gives (λ f. f) result (filter_by_kind place kind.now word.now) }
{
    if is_word(kind, b"node") {
        nodes(alloc, place, word)
    } else if is_word(kind, b"tag") {
        tag(alloc, place, word)
    } else {
        Err(bad(place, Expected::Filter))
    }
}

/// Reads the filter in `word`. After `node:`, the word lists the names of nodes, and after `tag:`, it contains a tag
/// and an expression. A word without a colon contains the filter's bytes in hex digits.
#[tactic(auto, unfolding(crate::specs::Filters::filter_said))]
pub(crate) fn filter(alloc: Global, place: usize, word: &[u8]) -> Result<Bytes, LineError>
    ensures { Gives (λ f. f) result (filter_said place word.now) }
{
    match halves(word, b':') {
        Some((kind, rest)) => filter_of_kind(alloc, place, kind, rest),
        None => or_bad(hex_bytes(alloc, word)?, place, Expected::Filter),
    }
}
