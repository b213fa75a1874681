//! The query that an agent is to fire.

ghost use Rattle.std.specs.Prelude.{◌≡◌, IfOk};

use serf_agent::{BytesList, QueryParams};
use serf_wire::Bytes;
use std::alloc::{AllocError, Global};

/// A query before it is fired. `params` determines which nodes the query is for, and how they are to answer.
#[derive(Drop)]
pub struct NewQuery {
    /// The moment at which the query is fired, in nanoseconds.
    pub moment: u64,
    pub id: u32,
    pub name: Bytes,
    pub payload: Bytes,
    pub params: QueryParams,
}

impl NewQuery {
    /// Copies the query. Returns `AllocError` if there is no memory for the copy.
    pub fn try_clone(&self, alloc: Global) -> Result<NewQuery, AllocError>
        ensures { IfOk result (λ copy. copy ≡ self.now) }
    {
        Ok(NewQuery {
            moment: self.moment,
            id: self.id,
            name: Bytes::copy_of(alloc, self.name.as_slice())?,
            payload: Bytes::copy_of(alloc, self.payload.as_slice())?,
            params: copy_params(alloc, &self.params)?,
        })
    }
}

/// Copies the byte lists `lists`. Returns `AllocError` if there is no memory for the copy.
fn copy_lists(alloc: Global, lists: &[Bytes]) -> Result<BytesList, AllocError>
    ensures { IfOk result (λ copies. copies ≡ lists.now) }
{
    let mut copies = Vec::new(alloc);
    for list in lists {
        copies.push(Bytes::copy_of(alloc, list.as_slice())?)?;
    }
    Ok(BytesList::from_vec(copies))
}

/// Copies `params`, the parameters of a query. Returns `AllocError` if there is no memory for the copy.
fn copy_params(alloc: Global, params: &QueryParams) -> Result<QueryParams, AllocError>
    ensures { IfOk result (λ copy. copy ≡ params.now) }
{
    Ok(QueryParams {
        filters: copy_lists(alloc, params.filters.as_slice())?,
        want_ack: params.want_ack,
        no_broadcast: params.no_broadcast,
        tags_pass: params.tags_pass,
        timeout: params.timeout,
        addr: Bytes::copy_of(alloc, params.addr.as_slice())?,
        port: params.port,
        relay_factor: params.relay_factor,
    })
}
