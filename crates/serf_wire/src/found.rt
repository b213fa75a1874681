//! Collects the values that a walk over the pairs of a map has found. Each value is at its field's place in
//! the layout.

use serf_pack::View;

/// The maximum number of fields in a layout, which is the number of a query's fields.
pub const MAX_FIELDS: usize = 11;

/// The values that were found so far, each at its field's place.
#[derive(Clone, Copy)]
pub struct FoundFields<'a> {
    values: [Option<View<'a>>; MAX_FIELDS],
}

impl<'a> FoundFields<'a> {
    ghost use Rattle.std.specs.Prelude.{◌≡◌, ◌<◌, [], Some};
    ghost use Rattle.std.specs.Option.{option_map};
    ghost use Rattle.std.proofs.Math.ListN.{set};
    ghost use Rattle.serf_pack.specs.View.{tree_of};
    ghost use Rattle.serf_wire.specs.Found.{found_at, trees_found, Finds};
    ghost use Rattle.serf_wire.specs.declared.layout.Layout.{Layout};

    /// Returns a new list, in which no value has been found yet.
    pub fn new() -> FoundFields<'a>
        ensures { (layout : Layout) → Finds layout result [] }
    {
        FoundFields {
            values: [None; MAX_FIELDS],
        }
    }

    /// Returns the value that was found for the field at `place`, if there is one.
    pub fn at(&self, place: usize) -> Option<View<'a>>
        requires { place < MAX_FIELDS }
        ensures { option_map tree_of result ≡ found_at self.now place }
    {
        let found = &self.values[..];
        found[place]
    }

    /// Stores `value` for the field at `place`.
    pub fn put(&mut self, place: usize, value: View<'a>)
        requires { place < MAX_FIELDS }
        ensures { trees_found self.new
            ≡ set (trees_found self.old) place (Some (tree_of value.entry)) }
    {
        let values = &mut self.values[..];
        values[place] = Some(value);
    }
}
