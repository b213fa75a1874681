//! Lets a host read a query's filters, before the host decides whether its tags pass them.

ghost use Rattle.std.specs.Prelude.{◌≡◌, ◌≢◌, ◌++◌, ◌∷◌, [], length, map, IfOk, OnOk};
ghost use Rattle.std.specs.List.{flat_map};
ghost use Rattle.std.specs.Option.{option_map};
ghost use Rattle.serf_wire.specs.Decoded.{decoded};
ghost use Rattle.serf_wire.specs.Lists.{texts_left};
ghost use Rattle.serf_wire.specs.Message.{message_of};
ghost use Rattle.serf_agent_c.specs.Codes.{number_of};
ghost use Rattle.serf_agent_c.specs.Filters.{ReadsFilters, filter_bytes, filter_lens, filters_head, filters_in, filters_borrowed, filters_of};
ghost use Rattle.serf_agent_c.specs.Texts.{copied};

use crate::code::Code;
use crate::copies::copy_into;
use crate::state_members::write_texts;
use serf_wire::{Message, Texts, decode};
use std::alloc::{AllocError, Global};

/// The number of a query's filters, and their total length in bytes.
#[repr(C)]
#[derive(Clone, Copy)]
pub struct FiltersHead {
    pub filters: usize,
    pub filters_len: usize,
}

/// The filters of a query, borrowed from its packet.
#[derive(Clone, Copy)]
pub struct BorrowedFilters<'a> {
    filters: Texts<'a>,
}

/// The filters of `message`, if it is a query.
fn filters_of<'a>(message: &Message<'a>) -> Option<BorrowedFilters<'a>>
    ensures { option_map filters_borrowed result ≡ filters_of (message_of message.now) }
{
    match message {
        Message::Query(query) => Some(BorrowedFilters {
            filters: query.filters,
        }),
        _ => None,
    }
}

/// The filters of the query in `packet`, if there is one.
fn borrowed_filters(packet: &[u8]) -> Option<BorrowedFilters<'_>>
    ensures { option_map filters_borrowed result ≡ filters_in (decoded packet.now) }
{
    match decode(packet) {
        Ok(message) => filters_of(&message),
        Err(_) => None,
    }
}

/// Appends `len`, the length of a filter in bytes.
fn write_len(out: &mut Vec<usize>, len: usize) -> Result<(), AllocError>
    ensures { OnOk result (out.new.items ≡ out.old.items ++ len ∷ []) }
{
    out.push(len)?;
    Ok(())
}

/// Appends the lengths of `filters`, in bytes and in order.
fn write_lens(out: &mut Vec<usize>, filters: Texts) -> Result<(), AllocError>
    ensures { OnOk result (out.new.items ≡ out.old.items
        ++ map (λ filter. length filter) (texts_left filters.entry)) }
{
    for filter in filters {
        write_len(out, filter.len())?;
    }
    Ok(())
}

/// The length of each filter of `borrowed`, in bytes and in order.
fn lens_of(alloc: Global, borrowed: &BorrowedFilters) -> Result<Vec<usize>, AllocError>
    ensures { IfOk result (λ lens. lens.items ≡ filter_lens (filters_borrowed borrowed.now)) }
{
    let mut lens = Vec::new(alloc);
    write_lens(&mut lens, borrowed.filters)?;
    Ok(lens)
}

/// The bytes of the filters of `borrowed`, one filter after another.
fn bytes_of(alloc: Global, borrowed: &BorrowedFilters) -> Result<Vec<u8>, AllocError>
    ensures { IfOk result (λ bytes. bytes.items ≡ filter_bytes (filters_borrowed borrowed.now)) }
{
    let mut bytes = Vec::new(alloc);
    write_texts(&mut bytes, borrowed.filters)?;
    Ok(bytes)
}

/// If `packet` is a query, fills `all`, `lens` and `filters` with its filters (see `serf_agent_query_filters`).
fn read_filters(
    alloc: Global,
    packet: &[u8],
    all: &mut FiltersHead,
    lens: &mut [usize],
    filters: &mut [u8],
) -> Code
    ensures reads { ReadsFilters (filters_in (decoded packet.now))
        (λ f. (all.new ≡ filters_head f) × (lens.new ≡ copied (filter_lens f) lens.old)
        × (filters.new ≡ copied (filter_bytes f) filters.old)) result }
    ensures same { result ≢ Code.Done
        → (all.new ≡ all.old) × (lens.new ≡ lens.old) × (filters.new ≡ filters.old) }
{
    let Some(borrowed) = borrowed_filters(packet) else {
        return Code::Nothing;
    };
    // (the length of each filter, in order)
    let Ok(told) = lens_of(alloc, &borrowed) else {
        return Code::OutOfMemory;
    };
    let Ok(bytes) = bytes_of(alloc, &borrowed) else {
        return Code::OutOfMemory;
    };
    *all = FiltersHead {
        filters: told.len(),
        filters_len: bytes.len(),
    };
    copy_into(lens, told.as_slice());
    copy_into(filters, bytes.as_slice());
    Code::Done
}

/// Reads the filters of the query in `packet`. Fills `all` with the number of filters and their total length in bytes,
/// `lens` with the lengths of as many filters as fit, and `filters` with as much of their bytes as fits, one filter
/// after another. If the packet is not a query, the code is `NOTHING`.
#[unsafe(no_mangle)]
pub extern "C" fn serf_agent_query_filters(
    alloc: Global,
    packet: &[u8],
    all: &mut FiltersHead,
    lens: &mut [usize],
    filters: &mut [u8],
) -> u32
    ensures { (code : Code) × (result ≡ number_of code)
        × ReadsFilters (filters_in (decoded packet.now))
        (λ f. (all.new ≡ filters_head f) × (lens.new ≡ copied (filter_lens f) lens.old)
        × (filters.new ≡ copied (filter_bytes f) filters.old)) code
        × (code ≢ Code.Done
        → (all.new ≡ all.old) × (lens.new ≡ lens.old) × (filters.new ≡ filters.old)) }
{
    read_filters(alloc, packet, all, lens, filters).number()
}
