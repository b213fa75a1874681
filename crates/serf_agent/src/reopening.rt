//! Reads the snapshot's text when an agent is opened, before the sink is touched.

ghost use Rattle.std.specs.Prelude.{◌≡◌, ◌<◌, ◌+◌, All, false, true, map, length, IfOk, IsOk};
ghost use Rattle.serf_lamport.specs.Clock.{max_clock};
ghost use Rattle.serf_window.specs.Recall.{entries_offered};
ghost use Rattle.serf_window.specs.Queries.{same_id};
ghost use Rattle.serf_window.specs.Texts.{event_of, same_texts};
ghost use Rattle.serf_snapshot.specs.Clocks.{last_clock};
ghost use Rattle.serf_snapshot.specs.declared.kind.ClockKind.TheVariants as kinds;
ghost use Rattle.serf_agent.specs.Config.{is_sound};
ghost use Rattle.serf_agent.specs.Inside.{concrete_of, first_events, first_queries, first_track};
ghost use Rattle.serf_agent.specs.KeptTexts.{event_entry, query_entry, within_reach};

use crate::config::{Config, MAX_TEXT_BYTES};
use crate::laws::kept_text_laws;
use crate::track::{EventTrack, QueryTrack};
use serf_snapshot::{Clocks, EntryFilter, KeptEvent, KeptQuery, read_kept, read_times};
use serf_window::Offer;
use serf_wire::EventView;
use std::alloc::{AllocError, Global};

/// Selects the lines that a buffer of `slot_count` slots can restore from a text whose last clock is `last` and whose
/// minimum time is `lowest`.
fn within_reach(slot_count: u64, last: u64, lowest: u64) -> EntryFilter
    requires { last < max_clock }
    ensures { result ≡ within_reach slot_count last lowest }
{
    let below = last + 1;
    let clock = below.max(lowest);
    EntryFilter {
        from: lowest.max(clock.saturating_sub(slot_count)),
        below,
        longest: MAX_TEXT_BYTES as u64,
    }
}

/// Makes an offer to a window for each event that a text keeps.
fn event_offers<'a>(
    alloc: Global,
    events: &'a [KeptEvent],
) -> Result<Vec<Offer<EventView<'a>>>, AllocError>
    ensures { IfOk result (λ offers. entries_offered (λ e. event_of e.name.now e.payload.now)
        offers.items ≡ map event_entry events.now) }
{
    let mut offers = Vec::new(alloc);
    for event in events {
        let key = EventView {
            name: event.name(),
            payload: event.payload(),
        };
        let time = event.time();
        match offers.push(Offer { time, key }) {
            Ok(()) => {}
            Err(_) => return Err(AllocError),
        }
    }
    Ok(offers)
}

/// Makes an offer to a window for each query that a text keeps.
fn query_offers(alloc: Global, queries: &[KeptQuery]) -> Result<Vec<Offer<u32>>, AllocError>
    ensures { IfOk result (λ offers. entries_offered (λ id. id) offers.items
        ≡ map query_entry queries.now) }
{
    let mut offers = Vec::new(alloc);
    for query in queries {
        offers.push(Offer {
            time: query.time,
            key: query.id,
        })?;
    }
    Ok(offers)
}

/// Restores the event track from the events that a text keeps. The text's last event clock is `last`, and its minimum
/// time of events is `lowest`.
fn restored_events(
    alloc: Global,
    config: &Config,
    last: u64,
    lowest: u64,
    events: &[KeptEvent],
) -> Result<EventTrack, AllocError>
    requires sound { is_sound config.now ≡ true }
    requires small { last < max_clock }
    requires times { All (λ event. event.time < last + 1) events.now }
    ensures concrete { IfOk result (λ track. concrete_of track ≡ first_track true same_texts
        config.now.event_buffer config.now.per_time last lowest (map event_entry events.now)) }
    ensures size { IfOk result (λ track. length track.window.slots ≡ config.now.event_buffer) }
    ensures per_time { IfOk result (λ track. track.window.per_time ≡ config.now.per_time) }
{
    let offers = event_offers(alloc, events)?;
    EventTrack::recalled(
        alloc,
        config.event_buffer,
        config.per_time,
        last,
        lowest,
        offers.as_slice(),
    )
}

/// Restores the query track from the queries that a text keeps. The text's last query clock is `last`, and its minimum
/// time of queries is `lowest`.
fn restored_queries(
    alloc: Global,
    config: &Config,
    last: u64,
    lowest: u64,
    queries: &[KeptQuery],
) -> Result<QueryTrack, AllocError>
    requires sound { is_sound config.now ≡ true }
    requires small { last < max_clock }
    requires times { All (λ query. query.time < last + 1) queries.now }
    ensures concrete { IfOk result (λ track. concrete_of track ≡ first_track true same_id
        config.now.query_buffer config.now.per_time last lowest (map query_entry queries.now)) }
    ensures size { IfOk result (λ track. length track.window.slots ≡ config.now.query_buffer) }
    ensures per_time { IfOk result (λ track. track.window.per_time ≡ config.now.per_time) }
{
    let offers = query_offers(alloc, queries)?;
    QueryTrack::recalled(
        alloc,
        config.query_buffer,
        config.per_time,
        last,
        lowest,
        offers.as_slice(),
    )
}

/// The tracks with which a new agent begins, and the clocks of the text from which it is opened.
#[derive(Drop)]
pub(crate) struct OpeningTracks {
    pub(crate) clocks: Clocks,
    pub(crate) events: EventTrack,
    pub(crate) queries: QueryTrack,
}

/// Reads from a text the clocks and the tracks with which an agent begins. If the settings keep events, the tracks hold
/// the events and the queries that the text keeps. Otherwise the tracks hold nothing, and no memory is allocated.
pub(crate) fn read_opening_tracks(
    alloc: Global,
    config: &Config,
    text: &[u8],
) -> Result<OpeningTracks, AllocError>
    requires { is_sound config.now ≡ true }
    ensures member_clock { IfOk result (λ first. first.clocks.member_clock
        ≡ last_clock kinds.Member text.now) }
    ensures event_clock { IfOk result (λ first. first.clocks.event_clock
        ≡ last_clock kinds.Event text.now) }
    ensures query_clock { IfOk result (λ first. first.clocks.query_clock
        ≡ last_clock kinds.Query text.now) }
    ensures times { IfOk result (λ first. (first.clocks.member_clock < max_clock)
        × (first.clocks.event_clock < max_clock)
        × (first.clocks.query_clock < max_clock)) }
    ensures events { IfOk result (λ first. concrete_of first.events
        ≡ first_events config.now text.now (last_clock kinds.Event text.now)) }
    ensures event_size { IfOk result (λ first. length first.events.window.slots
        ≡ config.now.event_buffer) }
    ensures event_per_time { IfOk result (λ first. first.events.window.per_time
        ≡ config.now.per_time) }
    ensures queries { IfOk result (λ first. concrete_of first.queries
        ≡ first_queries config.now text.now (last_clock kinds.Query text.now)) }
    ensures query_size { IfOk result (λ first. length first.queries.window.slots
        ≡ config.now.query_buffer) }
    ensures query_per_time { IfOk result (λ first. first.queries.window.per_time
        ≡ config.now.per_time) }
    ensures free { config.now.keep_events ≡ false → IsOk result }
{
    // (for the proof: the entries that an opening reads from a text with kept events)
    kept_text_laws();
    let times = read_times(text);
    let (clocks, lowest) = (times.clocks, times.lowest);
    let per_time = config.per_time;
    if !config.keep_events {
        let events = EventTrack::after(alloc, config.event_buffer, per_time, clocks.event_clock);
        let queries = QueryTrack::after(alloc, config.query_buffer, per_time, clocks.query_clock);
        return Ok(OpeningTracks {
            clocks,
            events,
            queries,
        });
    }
    let event_reach = within_reach(config.event_buffer, clocks.event_clock, lowest.events);
    let query_reach = within_reach(config.query_buffer, clocks.query_clock, lowest.queries);
    let kept = read_kept(alloc, text, event_reach, query_reach)?;
    let (last, min_time) = (clocks.event_clock, lowest.events);
    let events = restored_events(alloc, config, last, min_time, kept.events.as_slice())?;
    let (last, min_time) = (clocks.query_clock, lowest.queries);
    let queries = restored_queries(alloc, config, last, min_time, kept.queries.as_slice())?;
    Ok(OpeningTracks {
        clocks,
        events,
        queries,
    })
}
