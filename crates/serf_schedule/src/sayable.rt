//! Decides whether a line of a schedule can express an action. The functions `know_..` do nothing. A call of one of
//! them states for the prover a fact that follows from a type.

ghost use Rattle.std.specs.Prelude.{◌↔◌, ◌<◌, ◌^◌, All, IsTrue};
ghost use Rattle.hex.specs.Hex.{IsBytes};
ghost use Rattle.serf_schedule.specs.Sayable.{AreSayable, HasByteName, IsActSayable, IsQuerySayable, IsSayable};

use serf_agent::{Config, QueryParams};
use serf_model::{Act, Action, NewQuery};
use serf_wire::Bytes;

/// States for the prover that each number in `_bytes` is below 256. Does nothing.
fn know_bytes(_bytes: &[u8])
    ensures { IsBytes _bytes.now }
{}

/// States for the prover that `_number` is below 2^64. Does nothing.
fn know_number(_number: u64)
    ensures { _number < 2 ^ 64 }
{}

/// States for the prover that the ID `_id` is below 2^32. Does nothing.
fn know_id(_id: u32)
    ensures { _id < 2 ^ 32 }
{}

/// States for the prover that `lists` are lists of bytes. Does nothing.
fn know_all_bytes(lists: &[Bytes])
    ensures { All IsBytes lists.now }
{
    for list in lists {
        know_bytes(list.as_slice());
    }
}

/// States for the prover that the name in the settings `config` is a list of bytes. Does nothing.
pub fn has_byte_name(config: &Config)
    ensures { HasByteName config.now }
{
    know_bytes(config.name.as_slice());
}

/// Whether a line can express that a query is fired with `params`.
fn are_sayable(params: &QueryParams) -> bool
    ensures { IsTrue result ↔ AreSayable params.now }
{
    know_all_bytes(params.filters.as_slice());
    params.timeout >= 0
        && !params.tags_pass
        && params.addr.as_slice().is_empty()
        && params.port == 0
        && params.relay_factor == 0
}

/// Whether a line can express that an agent fires `query`.
fn is_query_sayable(query: &NewQuery) -> bool
    ensures { IsTrue result ↔ IsQuerySayable query.now }
{
    know_number(query.moment);
    know_id(query.id);
    know_bytes(query.name.as_slice());
    know_bytes(query.payload.as_slice());
    are_sayable(&query.params)
}

/// Whether a line can express that an agent does `act`.
fn is_act_sayable(act: &Act) -> bool
    ensures { IsTrue result ↔ IsActSayable act.now }
{
    match act {
        Act::Fire { name, payload, .. } => {
            know_bytes(name.as_slice());
            know_bytes(payload.as_slice());
            true
        }
        Act::Deliver { packet, now } => {
            know_number(*packet);
            know_number(*now);
            true
        }
        Act::Merge { packet, .. } => {
            know_number(*packet);
            true
        }
        Act::Query(query) => is_query_sayable(query.get()),
        Act::Respond {
            handed,
            now,
            payload,
        } => {
            know_number(*handed);
            know_number(*now);
            know_bytes(payload.as_slice());
            true
        }
        Act::Restart { tail } => {
            know_bytes(tail.as_slice());
            true
        }
        Act::Break { count, .. } => {
            know_number(*count);
            *count >= 1 // (0 plans no failure, and no line can have it)
        }
        Act::Close { now } => {
            know_number(*now);
            true
        }
        _ => true,
    }
}

/// Whether a line of a schedule can express `action`. No line can have 0 as the number of the sink call that fails, or
/// a negative timeout. No line can state that tag filters pass, or to which address the answers to a query are sent.
/// Allocates no memory.
pub fn is_sayable(action: &Action) -> bool
    ensures { IsTrue result ↔ IsSayable action.now }
{
    match action {
        Action::Inject { bytes } => {
            know_bytes(bytes.as_slice());
            true
        }
        Action::Of { agent, act } => {
            know_number(*agent);
            is_act_sayable(act)
        }
    }
}
