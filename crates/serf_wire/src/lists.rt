//! The lists of a packet. They are read in place and never copied.

ghost use Rattle.std.specs.Prelude.{◌≡◌};
ghost use Rattle.serf_pack.specs.View.{tree_of};
ghost use Rattle.serf_wire.specs.Lookups.{status_time_in};
ghost use Rattle.serf_wire.specs.Lists.{status_of};

use crate::fields::{find_value, natural_of, text_of, text_or_empty, time_or_zero};
use crate::steps::{next_event, next_slot};
use serf_lamport::Time;
use serf_pack::{Items, Kind, Pairs, View};

/// The texts of a list that haven't been read yet.
#[derive(Clone, Copy)]
pub struct Texts<'a> {
    items: Option<Items<'a>>,
}

/// A member's name, and the Lamport time of its status by the member clock.
#[derive(Clone, Copy)]
pub struct StatusTime<'a> {
    pub name: &'a [u8],
    pub time: u64,
}

/// The names and status times of members that haven't been read yet. A name may appear twice.
#[derive(Clone, Copy)]
pub struct StatusTimes<'a> {
    pairs: Option<Pairs<'a>>,
}

/// An event in a slot.
#[derive(Clone, Copy)]
pub struct EventView<'a> {
    pub name: &'a [u8],
    pub payload: &'a [u8],
}

/// The events of a slot that haven't been read yet.
#[derive(Clone, Copy)]
pub struct EventViews<'a> {
    items: Items<'a>,
}

/// A slot of an event buffer. It is empty, or it has a time and the events of this time.
#[derive(Clone, Copy)]
pub enum SlotView<'a> {
    Empty,
    /// A time and its only event. A slot with one event may also be `Held`.
    Single(Time, EventView<'a>),
    Held(Time, EventViews<'a>),
}

/// The slots of an event buffer that haven't been read yet.
#[derive(Clone, Copy)]
pub struct SlotViews<'a> {
    items: Items<'a>,
}

impl<'a> Texts<'a> {
    ghost use Rattle.std.specs.Prelude.{◌≡◌};
    ghost use Rattle.std.specs.Option.{option_map};
    ghost use Rattle.serf_pack.specs.View.{tree_of};
    ghost use Rattle.serf_wire.specs.Lookups.{text_in, list_in, tree_or_nil};
    ghost use Rattle.serf_wire.specs.Lists.{texts_left};

    /// Returns the texts of `list`, if each of its items is a text. If `list` is `None`, there are no texts.
    #[inline(always)]
    pub(crate) fn of(list: Option<View<'a>>) -> Texts<'a>
        ensures { texts_left result
            ≡ list_in text_in (tree_or_nil (option_map tree_of list.entry)) }
    {
        match list {
            None => Texts { items: None },
            Some(list) => Texts {
                items: Some(list.items()),
            },
        }
    }
}

impl<'a> StatusTimes<'a> {
    ghost use Rattle.std.specs.Prelude.{◌≡◌};
    ghost use Rattle.std.specs.Option.{option_map};
    ghost use Rattle.serf_pack.specs.View.{tree_of};
    ghost use Rattle.serf_wire.specs.Lookups.{status_in, tree_or_nil};
    ghost use Rattle.serf_wire.specs.Lists.{status_left};

    /// Returns the names and times of `map`, if each of its pairs is a name and a time. If `map` is `None`,
    /// there are none.
    #[inline(always)]
    pub(crate) fn of(map: Option<View<'a>>) -> StatusTimes<'a>
        ensures { status_left result ≡ status_in (tree_or_nil (option_map tree_of map.entry)) }
    {
        match map {
            None => StatusTimes { pairs: None },
            Some(map) => StatusTimes {
                pairs: Some(map.pairs()),
            },
        }
    }
}

impl<'a> EventViews<'a> {
    ghost use Rattle.std.specs.Prelude.{◌≡◌};
    ghost use Rattle.std.specs.Option.{option_map};
    ghost use Rattle.serf_pack.specs.View.{tree_of};
    ghost use Rattle.serf_wire.specs.Lookups.{list_in, tree_or_nil, event_body_in};
    ghost use Rattle.serf_wire.specs.Lists.{events_left};

    /// Returns the events of `list`, if each of its items is an event. If `list` is `None`, there are no
    /// events.
    #[inline(always)]
    pub(crate) fn of(list: Option<View<'a>>) -> EventViews<'a>
        ensures { events_left result
            ≡ list_in event_body_in (tree_or_nil (option_map tree_of list.entry)) }
    {
        match list {
            None => EventViews {
                items: Items::none(),
            },
            Some(list) => EventViews {
                items: list.items(),
            },
        }
    }
}

impl<'a> SlotViews<'a> {
    ghost use Rattle.std.specs.Prelude.{◌≡◌};
    ghost use Rattle.std.specs.Option.{option_map};
    ghost use Rattle.serf_pack.specs.View.{tree_of};
    ghost use Rattle.serf_wire.specs.Lookups.{list_in, tree_or_nil, slot_in};
    ghost use Rattle.serf_wire.specs.Lists.{slots_left};

    /// Returns the slots of `list`, if each of its items is a slot. If `list` is `None`, there are no slots.
    #[inline(always)]
    pub(crate) fn of(list: Option<View<'a>>) -> SlotViews<'a>
        ensures { slots_left result
            ≡ list_in slot_in (tree_or_nil (option_map tree_of list.entry)) }
    {
        match list {
            None => SlotViews {
                items: Items::none(),
            },
            Some(list) => SlotViews {
                items: list.items(),
            },
        }
    }
}

impl<'a> EventView<'a> {
    ghost use Rattle.std.specs.Prelude.{◌≡◌};
    ghost use Rattle.serf_pack.specs.View.{tree_of};
    ghost use Rattle.serf_wire.specs.Lookups.{event_body_in};
    ghost use Rattle.serf_wire.specs.Lists.{event_of_view};

    /// Returns the event in `value`, if `value` is an event.
    pub(crate) fn of(value: &View<'a>) -> EventView<'a>
        ensures { event_of_view result ≡ event_body_in (tree_of value.now) }
    {
        EventView {
            name: text_or_empty(find_value(value, b"Name")),
            payload: text_or_empty(find_value(value, b"Payload")),
        }
    }
}

impl<'a> SlotView<'a> {
    ghost use Rattle.std.specs.Prelude.{◌≡◌};
    ghost use Rattle.serf_pack.specs.View.{tree_of};
    ghost use Rattle.serf_wire.specs.Lookups.{slot_in};
    ghost use Rattle.serf_wire.specs.Lists.{slot_of_view};

    /// Returns the slot in `value`, if `value` is a slot. Nil is the empty slot.
    pub(crate) fn of(value: &View<'a>) -> SlotView<'a>
        ensures { slot_of_view result ≡ slot_in (tree_of value.now) }
    {
        match value.kind() {
            Kind::Map => SlotView::Held(
                time_or_zero(find_value(value, b"LTime")),
                EventViews::of(find_value(value, b"Events")),
            ),
            _ => SlotView::Empty,
        }
    }
}

/// Returns the member's name and status time in a pair of a map.
fn status_time_at<'a>(name: &View<'a>, time: &View<'a>) -> StatusTime<'a>
    ensures { status_of result ≡ status_time_in (tree_of name.now, tree_of time.now) }
{
    StatusTime {
        name: text_of(name),
        time: natural_of(time, u64::MAX),
    }
}

impl<'a> Iterator for Texts<'a> {
    ghost use Rattle.std.specs.Iterator.{YieldsFirstRef, item_count};
    ghost use Rattle.serf_wire.specs.Lists.{texts_left};

    type Item = &'a [u8];

    ghost next_gives = { YieldsFirstRef texts_left };

    ghost remaining = { item_count texts_left };

    fn next(&mut self) -> Option<&'a [u8]> {
        let mut items = self.items?;
        let item = items.next()?;
        *self = Texts { items: Some(items) };
        match item.raw() {
            Some(text) => Some(text),
            None => Some(b""),
        }
    }
}

impl<'a> Iterator for StatusTimes<'a> {
    ghost use Rattle.std.specs.Iterator.{YieldsFirstBy, item_count};
    ghost use Rattle.serf_wire.specs.Lists.{status_left, status_of};

    type Item = StatusTime<'a>;

    ghost next_gives = { YieldsFirstBy status_of status_left };

    ghost remaining = { item_count status_left };

    fn next(&mut self) -> Option<StatusTime<'a>> {
        let mut pairs = self.pairs?;
        let (name, time) = pairs.next()?;
        *self = StatusTimes { pairs: Some(pairs) };
        Some(status_time_at(&name, &time))
    }
}

impl<'a> Iterator for EventViews<'a> {
    ghost use Rattle.std.specs.Iterator.{YieldsFirstBy, item_count};
    ghost use Rattle.serf_wire.specs.Lists.{events_left, event_of_view};

    type Item = EventView<'a>;

    ghost next_gives = { YieldsFirstBy event_of_view events_left };

    ghost remaining = { item_count events_left };

    fn next(&mut self) -> Option<EventView<'a>> {
        let Some((event, following)) = next_event(&self.items) else {
            return None;
        };
        *self = EventViews { items: following };
        Some(event)
    }
}

impl<'a> Iterator for SlotViews<'a> {
    ghost use Rattle.std.specs.Iterator.{YieldsFirstBy, item_count};
    ghost use Rattle.serf_wire.specs.Lists.{slots_left, slot_of_view};

    type Item = SlotView<'a>;

    ghost next_gives = { YieldsFirstBy slot_of_view slots_left };

    ghost remaining = { item_count slots_left };

    fn next(&mut self) -> Option<SlotView<'a>> {
        let Some((slot, following)) = next_slot(&self.items) else {
            return None;
        };
        *self = SlotViews { items: following };
        Some(slot)
    }
}
