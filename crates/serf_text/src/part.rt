//! Defines what can fill a blank of a template. Other crates can add their own types.

/// A text or a number that fills a blank of a template.
#[derive(Clone, Copy)]
pub enum Part<'a> {
    /// These bytes, unchanged.
    Text(&'a [u8]),
    /// A number, in decimal.
    Number(u64),
    /// These bytes in lower-case hex, or a dash if there are none.
    Hex(&'a [u8]),
    /// These bytes between quotes. If there are too many, only the first bytes and the number of bytes are shown.
    Quoted(&'a [u8]),
    /// All of these bytes between quotes.
    WholeQuoted(&'a [u8]),
    /// These bytes, with a `?` for each byte that isn't printable ASCII.
    Masked(&'a [u8]),
}
