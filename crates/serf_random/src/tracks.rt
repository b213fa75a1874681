//! The tracks of an agent, one for events and one for queries, and times at the edges of these tracks.

use crate::rng::Rng;
use serf_world::World;

/// The numbers that determine the edges of an agent's track: its clock, the number of slots in its window, and the
/// minimum time that it accepts.
#[derive(Clone, Copy)]
pub(crate) struct Track {
    pub(crate) clock: u64,
    slots: u64,
    minimum: u64,
}

/// The two tracks of an agent.
#[derive(Clone, Copy)]
pub(crate) struct Tracks {
    pub(crate) events: Track,
    pub(crate) queries: Track,
}

/// The track of a new agent whose window has one slot.
const NEW_TRACK: Track = Track {
    clock: 1,
    slots: 1,
    minimum: 0,
};

/// The tracks that are used for an agent that doesn't exist.
pub(crate) const NO_TRACKS: Tracks = Tracks {
    events: NEW_TRACK,
    queries: NEW_TRACK,
};

/// Returns the tracks of agent number `agent_number` in `world`, or [`NO_TRACKS`] if no agent has this number.
pub(crate) fn tracks_of(world: &World, agent_number: u64) -> Tracks {
    let Some(agent) = world.agent(agent_number) else {
        return NO_TRACKS;
    };
    Tracks {
        events: Track {
            clock: agent.event_time(),
            slots: agent.config().event_buffer,
            minimum: agent.event_minimum(),
        },
        queries: Track {
            clock: agent.query_time(),
            slots: agent.config().query_buffer,
            minimum: agent.query_minimum(),
        },
    }
}

/// Returns a time at an edge of `track`, or a time just before or just after an edge. The edges of a track are its
/// clock, the oldest time in its window, and its minimum. From time to time, the result is some other time within the
/// window or beyond it, or a time below 8.
pub(crate) fn edge_of_track(rng: &mut Rng, track: &Track) -> u64 {
    let Track {
        clock,
        slots,
        minimum,
    } = *track;
    let oldest = clock.saturating_sub(slots);
    match rng.below(16) {
        0 => oldest,
        1 => oldest.saturating_sub(1),
        2 => oldest.saturating_add(1),
        3 => minimum,
        4 => minimum.saturating_sub(1),
        5 => minimum.saturating_add(1),
        6 | 7 => clock,
        8 => clock.saturating_add(1),
        9 | 10 | 11 => clock.saturating_sub(1),
        12 => clock.saturating_add(slots),
        13 => 0,
        14 => clock.saturating_sub(rng.below(slots.saturating_add(2))),
        _ => rng.below(8),
    }
}
