//! Filters decide which nodes should answer a query (Serf's `query.go`).

ghost use Rattle.std.specs.Prelude.{◌≡◌, ◌<◌, ◌^◌, ◌++◌, ◌∷◌, [], ◌↔◌, ◌||◌, ℕ, List, IsTrue, false, map, length, IfOk};
ghost use Rattle.std.specs.List.{list_any, flat_map, Contains};
ghost use Rattle.std.specs.Str.{bytes_eq};
ghost use Rattle.serf_pack.specs.View.{tree_of};
ghost use Rattle.serf_pack.specs.Canonical.{raw_bytes};
ghost use Rattle.serf_wire.specs.Canonical.{is_long, list_bytes};
ghost use Rattle.serf_wire.specs.Lookups.{text_in, list_in};
ghost use Rattle.serf_wire.specs.Passes.{Passes, passes_of, names_node, value_names_node, canonical_filter};
ghost use Rattle.serf_pack.specs.Reading.{whole_at};

use crate::encode::EncodeError;
use crate::errors::texts_error;
use crate::laws::laws_below;
use crate::lists::Texts;
use crate::long::{LONGEST, has_long_text};
use crate::put::write_texts;
use serf_pack::{Kind, View, check, write_array};
use std::alloc::{AllocError, Global};

/// The type byte of a node filter.
const NODE_FILTER: u8 = 0;

/// Returns whether `text` is one of the texts of `list`.
fn has_text(list: &View, text: &[u8]) -> bool
    ensures { result ≡ list_any (λ t. bytes_eq t text.now) (list_in text_in (tree_of list.now)) }
{
    for name in Texts::of(Some(*list)) {
        if name == text {
            return true;
        }
    }
    false
}

/// Returns whether `value` is a list of texts that contains `node`.
fn names(value: &View, node: &[u8]) -> bool
    ensures { result ≡ names_node node.now (tree_of value.now) }
{
    match value.kind() {
        Kind::Array => match texts_error(value) {
            None => has_text(value, node),
            Some(_) => false,
        },
        _ => false,
    }
}

/// Returns whether `bytes` are exactly one value, and this value is a list of texts that contains `node`.
fn value_names(bytes: &[u8], node: &[u8]) -> bool
    ensures { result ≡ value_names_node node.now (whole_at 8 bytes.now) }
{
    match check(bytes) {
        Ok(value) => names(&value, node),
        Err(_) => false,
    }
}

/// Returns whether `filter` is a node filter that names `node`.
#[tactic(auto, unfolding(crate::specs::Passes::passes_of))]
fn lets_pass(filter: &[u8], node: &[u8]) -> bool
    ensures { result ≡ passes_of filter.now node.now }
{
    let [kind, body @ ..] = filter else {
        return false;
    };
    *kind == NODE_FILTER && value_names(body, node)
}

/// Returns whether `filter` lets the node with the name `node` pass.
///
/// A node filter lets the node pass if the filter's bytes are one array of names, each raw or nil (the empty
/// name), and if the node's name is one of them. Every other filter excludes all nodes: a tag filter, a
/// filter of an unknown type, an empty filter (on which Serf panics), and a filter whose bytes aren't an
/// array of this kind. Allocates no memory.
pub fn passes(filter: &[u8], node: &[u8]) -> bool
    ensures passes { IsTrue result ↔ Passes filter.now node.now }
    ensures exact { result ≡ passes_of filter.now node.now }
{
    laws_below();
    lets_pass(filter, node)
}

/// Returns the node filter of `names` in a new vector: its type byte, followed by the list of names.
fn write_node_filter(alloc: Global, names: &[&[u8]]) -> Result<Vec<u8>, AllocError>
    requires list { length names.now < 2 ^ 32 }
    requires items { list_any (λ t. is_long t.now) names.now ≡ false }
    ensures { IfOk result (λ filter. filter.items
        ≡ 0 ∷ list_bytes (λ t. raw_bytes t.now) names.now) }
{
    let mut out = Vec::new(alloc);
    out.extend_from_slice(&[NODE_FILTER])?;
    write_array(&mut out, names.len() as u32)?;
    write_texts(&mut out, names)?;
    Ok(out)
}

/// Returns a filter that lets exactly the nodes with the given `names` pass. Returns `TooLong` if a name has
/// more than 4,294,967,295 bytes, or if there are more names than that. Otherwise, the call returns
/// `OutOfMemory` if there is no memory for the filter.
pub fn node_filter(alloc: Global, names: &[&[u8]]) -> Result<Vec<u8>, EncodeError>
    ensures canonical { IfOk result (λ filter. filter.items
        ≡ canonical_filter (map (λ t. t.now) names.now)) }
    ensures passes { IfOk result (λ filter. (node : List ℕ)
        → Passes filter.items node ↔ Contains (map (λ t. t.now) names.now) node) }
    ensures too_long { (result ≡ Err EncodeError.TooLong)
        ↔ IsTrue (is_long names.now || list_any (λ t. is_long t.now) names.now) }
{
    laws_below();
    if names.len() > LONGEST || has_long_text(names) {
        return Err(EncodeError::TooLong);
    }
    Ok(write_node_filter(alloc, names)?)
}
