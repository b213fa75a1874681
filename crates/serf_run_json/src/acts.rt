//! Makes the JSON members that describe an action in its object.

ghost use Rattle.std.specs.Prelude.{◌≡◌};
ghost use Rattle.serf_model.specs.Trace.{actor_of};
ghost use Rattle.serf_schedule.specs.ScheduleText.{sink_call_word};
ghost use Rattle.serf_run_json.specs.CallWords.{call_word};
ghost use Rattle.serf_run_json.specs.Members.{act_text, actor_text, agent_text, arguments_text, pair_text, settings_of, triple_text};

use serf_json::Member::{self, Absent, Bytes, Flag, Number, Text};
use serf_model::{Act, Action, NewQuery, SinkCall};
use serf_schedule::verb_word;
use serf_world::World;

/// Returns the JSON members that identify an agent: its number and, if an agent with this number exists, its name.
#[tactic(auto, unfolding(serf_json::specs::Object::members_text, crate::specs::Members::agent_text, crate::specs::Members::number_member))]
pub(crate) fn agent_members(world: &World, number: u64) -> (Member<'_>, Member<'_>)
    ensures { pair_text result ≡ agent_text (settings_of world.now) number }
{
    match world.agent(number) {
        Some(agent) => {
            let name = agent.config().name.as_slice();
            (Number(b"agent", number), Bytes(b"agent_name", name))
        }
        None => (Number(b"agent", number), Absent),
    }
}

/// Returns the JSON members that identify the agent that acts. For an injection, both members are absent.
#[tactic(auto, unfolding(serf_json::specs::Object::members_text))]
pub(crate) fn actor_members<'a>(world: &'a World, action: &Action) -> (Member<'a>, Member<'a>)
    ensures { pair_text result ≡ actor_text (settings_of world.now) (actor_of action.now) }
{
    match action.actor() {
        Some(number) => agent_members(world, number),
        None => (Absent, Absent),
    }
}

/// Returns the word that schedules use for a call to the disk.
fn disk_word(call: SinkCall) -> &'static [u8]
    ensures { result.now ≡ sink_call_word call }
{
    match call {
        SinkCall::Append => b"append",
        SinkCall::Flush => b"flush",
        SinkCall::ReplaceOld => b"replace-old",
        SinkCall::ReplaceNew => b"replace-new",
    }
}

/// Returns the word that names an action in a schedule.
pub(crate) fn call_word(action: &Action) -> &'static [u8]
    ensures { result.now ≡ call_word action.now }
{
    match action {
        Action::Inject { .. } => b"inject",
        Action::Of { act, .. } => verb_word(act),
    }
}

/// Returns the JSON members that contain the arguments of an action.
#[tactic(auto, unfolding(serf_json::specs::Object::members_text))]
pub(crate) fn call_members(action: &Action) -> (Member<'_>, Member<'_>, Member<'_>)
    ensures { triple_text result ≡ arguments_text action.now }
{
    match action {
        Action::Of { act, .. } => act_members(act),
        Action::Inject { .. } => (Absent, Absent, Absent),
    }
}

/// Returns the JSON members that contain the arguments of an act that fires a query.
#[tactic(auto, unfolding(serf_json::specs::Object::members_text, crate::specs::Members::act_text, crate::specs::Members::number_member))]
fn query_members(query: &NewQuery) -> (Member<'_>, Member<'_>, Member<'_>)
    ensures { triple_text result ≡ act_text (Act.Query query.now) }
{
    (
        Bytes(b"name", query.name.as_slice()),
        Bytes(b"payload", query.payload.as_slice()),
        Number(b"now", query.moment),
    )
}

/// Returns the JSON members that contain the arguments of an act that fires an event.
#[tactic(auto, unfolding(serf_json::specs::Object::members_text, crate::specs::Members::act_text, crate::specs::Members::flag_member))]
fn fire_members<'a>(
    name: &'a [u8],
    payload: &'a [u8],
    coalesce: bool,
) -> (Member<'a>, Member<'a>, Member<'a>)
    ensures { triple_text result ≡ act_text (Act.Fire name.now payload.now coalesce) }
{
    (
        Bytes(b"name", name),
        Bytes(b"payload", payload),
        Flag(b"coalesce", coalesce),
    )
}

/// Returns the JSON members that contain the arguments of an act that responds to a query.
#[tactic(auto, unfolding(serf_json::specs::Object::members_text, crate::specs::Members::act_text, crate::specs::Members::number_member))]
fn respond_members(handed: u64, now: u64, payload: &[u8]) -> (Member<'_>, Member<'_>, Member<'_>)
    ensures { triple_text result ≡ act_text (Act.Respond handed now payload.now) }
{
    (
        Number(b"handed", handed),
        Number(b"now", now),
        Bytes(b"payload", payload),
    )
}

/// Returns the JSON members that contain the arguments of a restart.
#[tactic(auto, unfolding(serf_json::specs::Object::members_text, crate::specs::Members::act_text))]
fn restart_members(tail: &[u8]) -> (Member<'_>, Member<'_>, Member<'_>)
    ensures { triple_text result ≡ act_text (Act.Restart tail.now) }
{
    (Bytes(b"tail", tail), Absent, Absent)
}

/// Returns the JSON members that contain the arguments of an act that makes a call to the disk fail.
#[tactic(auto, unfolding(serf_json::specs::Object::members_text, crate::specs::Members::act_text, crate::specs::Members::number_member, crate::specs::Members::text_member))]
fn break_members<'a>(call: SinkCall, count: u64) -> (Member<'a>, Member<'a>, Member<'a>)
    ensures { triple_text result ≡ act_text (Act.Break call count) }
{
    (
        Text(b"disk", disk_word(call)),
        Number(b"count", count),
        Absent,
    )
}

/// Returns the JSON members that contain the arguments of an agent's act.
#[tactic(auto, unfolding(serf_json::specs::Object::members_text, crate::specs::Members::act_text, crate::specs::Members::flag_member, crate::specs::Members::number_member))]
fn act_members(act: &Act) -> (Member<'_>, Member<'_>, Member<'_>)
    ensures { triple_text result ≡ act_text act.now }
{
    match act {
        Act::Fire {
            name,
            payload,
            coalesce,
        } => fire_members(name.as_slice(), payload.as_slice(), *coalesce),
        Act::Deliver { packet, now } => {
            (Number(b"packet", *packet), Number(b"now", *now), Absent)
        }
        Act::Merge { packet, join } => (Number(b"packet", *packet), Flag(b"join", *join), Absent),
        Act::Query(query) => query_members(query.get()),
        Act::Respond {
            handed,
            now,
            payload,
        } => respond_members(*handed, *now, payload.as_slice()),
        Act::Restart { tail } => restart_members(tail.as_slice()),
        Act::Break { call, count } => break_members(*call, *count),
        Act::Close { now } => (Number(b"now", *now), Absent, Absent),
        Act::State | Act::Save | Act::Compact => (Absent, Absent, Absent),
    }
}
