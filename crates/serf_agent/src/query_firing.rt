//! Firing a query.

ghost use Rattle.std.specs.Prelude.{◌≡◌, ◌≢◌, ◌<◌, ◌≤◌, false, true, [], ◌∷◌, ◌++◌, Some, All, length, Err, OnOk, OnErr, IfOk, IsErrOf};
ghost use Rattle.serf_wire.specs.Canonical.{canonical};
ghost use Rattle.serf_wire.specs.Message.{query, query_of};
ghost use Rattle.serf_window.specs.Window.{count_in, time_in};
ghost use Rattle.serf_snapshot.specs.declared.kind.ClockKind.TheVariants as kinds;
ghost use Rattle.serf_snapshot.specs.Device.{HasFailed};
ghost use Rattle.serf_snapshot.specs.AppendsLine.{Kept, Failed, written};
ghost use Rattle.serf_agent.specs.Calls.{AsksSink};
ghost use Rattle.serf_agent.specs.Config.{max_packet_limit, is_sound};
ghost use Rattle.serf_snapshot.specs.Ends.{FailsLine};
ghost use Rattle.serf_agent.specs.Ideal.{IdealAgent, with_fired_queries, with_snapshot};
ghost use Rattle.serf_agent.specs.Queries.{all_pass, fire_query, fired_query, has_flag, is_no_timeout, is_too_large_query, opened_query, query_opened, query_at, query_entered, written_query};
ghost use Rattle.serf_agent.specs.Sound.{IsSound};
ghost use Rattle.serf_agent.specs.Steps.{AppendsOwnLine, Steps, WritesLine};
ghost use Rattle.serf_agent.specs.Written.{MayAppendLine, bytes_with, device_appended, appended_with};
ghost use Rattle.serf_agent.specs.View.{concrete_with, view_of};

use crate::agent::Agent;
use crate::config::Config;
use crate::flags::{ACK, flags_of, has_flag};
use crate::laws::sound_snapshots;
use crate::lists::{BytesList, Responses};
use crate::open_queries::OpenQueries;
use crate::open_query::OpenQuery;
use crate::outcome::{FiredQuery, QueryError, QueryParams};
use crate::own_line::{OwnLine, append_lines};
use crate::own_lines::written_query;
use crate::pending_query::deadline_of;
use crate::queries::{Passed, filter_passes, pass};
use serf_lamport::Time;
use serf_snapshot::{AppendLineError, ClockKind, Sink, Snapshot};
use serf_wire::{Bytes, EncodeError, Query, encode_query, query_len};
use std::alloc::{AllocError, Global};

/// Whether every filter of a fired query lets the node `node` pass. `tags_pass` is the host's verdict on tag filters.
fn filters_pass(filters: &[Bytes], node: &[u8], tags_pass: bool) -> bool
    ensures { result ≡ all_pass tags_pass filters.now node.now }
{
    filters
        .iter()
        .all(|f| filter_passes(f.as_slice(), node, tags_pass))
}

/// Encodes the packet of a query. The caller has checked that the query is small enough to be fired.
fn packet_of(alloc: Global, parts: &Query<&[Bytes]>) -> Result<Bytes, AllocError>
    requires { length (canonical (query (query_of parts.now))) ≤ max_packet_limit }
    ensures { IfOk result (λ packet. packet ≡ canonical (query (query_of parts.now))) }
{
    match encode_query(alloc, parts) {
        Ok(packet) => Ok(Bytes::from_vec(packet)),
        // (the caller has checked that the packet isn't too long)
        Err(EncodeError::TooLong) => unreachable!(),
        Err(EncodeError::OutOfMemory) => Err(AllocError),
    }
}

/// Makes the result of firing a query: the packet to send. If the filters let this node pass, the result also has the
/// query to hand out here, and this node's own ack if the query requests acks. `tags_pass` is the host's verdict on tag
/// filters.
fn fired_query_of(
    alloc: Global,
    parts: &Query<&[Bytes]>,
    now: u64,
    config: &Config,
    tags_pass: bool,
) -> Result<FiredQuery, AllocError>
    requires sound { is_sound config.now ≡ true }
    requires short { length (canonical (query (query_of parts.now))) ≤ max_packet_limit }
    ensures { IfOk result (λ fired. fired
        ≡ fired_query tags_pass config.now now (query_of parts.now)) }
{
    let packet = packet_of(alloc, parts)?;
    let passed = filters_pass(parts.filters, config.name.as_slice(), tags_pass);
    let Passed { handed, ack } = pass(alloc, parts, now, config, passed)?;
    Ok(FiredQuery {
        time: parts.time,
        packet,
        handed,
        ack,
    })
}

/// Makes the open query, still without answers, for a query that is fired at the moment `now`.
fn opened(alloc: Global, query: &Query<&[Bytes]>, now: u64) -> OpenQuery
    ensures { result ≡ opened_query now (query_of query.now) }
{
    OpenQuery {
        id: query.id,
        deadline: deadline_of(now, query.timeout),
        wants_ack: has_flag(ACK, query.flags),
        acks: BytesList::new(alloc),
        responses: Responses::new(alloc),
    }
}

/// Adds an open query and appends its clock line, with the query's own line if there is one. If this fails, the open
/// queries are unchanged.
fn append_query_line<S: Sink>(
    fired_queries: &mut OpenQueries,
    snapshot: &mut Snapshot<S>,
    alloc: Global,
    time: Time,
    line: &OwnLine,
    query: OpenQuery,
) -> Result<(), AppendLineError>
    requires later { All (λ q. q.0 < time) fired_queries.old }
    requires runs { snapshot.old.snapshot.stopped ≡ false }
    ensures ok { OnOk result (fired_queries.new ≡ fired_queries.old ++ (time, query) ∷ []) }
    ensures fired_queries { OnErr result (fired_queries.new ≡ fired_queries.old) }
    ensures line { WritesLine kinds.Query time line.now snapshot.old snapshot.new result }
{
    fired_queries.push(time.get(), query)?;
    match append_lines(snapshot, alloc, ClockKind::Query, time, line) {
        Ok(()) => Ok(()),
        Err(error) => {
            fired_queries.pop();
            Err(error)
        }
    }
}

impl QueryParams {
    /// Whether the timeout leaves no time for answers.
    fn has_no_time(&self) -> bool
        ensures { result ≡ is_no_timeout self.now.timeout }
    {
        self.timeout <= 0
    }

    /// The query with these parameters that `node` fires at `time`.
    fn parts<'a>(
        &'a self,
        time: Time,
        node: &'a [u8],
        id: u32,
        name: &'a [u8],
        payload: &'a [u8],
    ) -> Query<'a, &'a [Bytes]>
        ensures { query_of result ≡ query_at time node.now id name.now payload.now self.now }
    {
        Query {
            time,
            id,
            addr: self.addr.as_slice(),
            port: self.port,
            source: node,
            filters: self.filters.as_slice(),
            flags: flags_of(self.want_ack, self.no_broadcast),
            relay_factor: self.relay_factor,
            timeout: self.timeout,
            name,
            payload,
        }
    }
}

impl<S: Sink> Agent<S> {
    /// Whether the packet of a query is too large to be fired.
    fn query_is_too_large(&self, id: u32, name: &[u8], payload: &[u8], params: &QueryParams) -> bool
        ensures { result ≡ is_too_large_query self.now.concrete.config
            self.now.concrete.queries.clock id name.now payload.now params.now }
    {
        let time = self.queries.measured();
        let query = params.parts(time, self.config.name.as_slice(), id, name, payload);
        query_len(&query) > self.config.query_limit as u128
    }

    /// Fires a query at the query clock's time (Serf's `serf.go`, `Query`). After a success its clock line is durable,
    /// the query is in the buffer, and it is open for answers. The result has the packet to send. If the filters let
    /// this node pass, the result also has the query itself, because this node hands it out too. The agent doesn't know
    /// the node's tags, so the caller reports in `params` whether they pass the tag filters.
    ///
    /// On success, the sink has appended and flushed this one clock line and done nothing else. It wasn't called at all
    /// if the last query clock line already has this time or a later one. If the settings keep events, the sink is
    /// always called: the query's own line is written too, in the same append as the clock line.
    ///
    /// If several errors apply, the first in the order of `QueryError` is returned. Every error except `SinkError`
    /// leaves the agent and its sink as they were. `SinkError` stops the agent: the sink failed when it appended or
    /// flushed this line, and may have kept a part of it.
    pub fn query(
        &mut self,
        alloc: Global,
        now: u64,
        id: u32,
        name: &[u8],
        payload: &[u8],
        params: &QueryParams,
    ) -> Result<FiredQuery, QueryError>
        ensures step { (i : IdealAgent) → IsSound i → self.old.concrete ≡ view_of i
            → result ≢ Err QueryError.OutOfMemory
            → Steps i (fire_query i now id name.now payload.now params.now)
            result self.old.device self.new }

        // The state of the sink after a success. This also holds for a sink that doesn't expose its bytes.
        ensures ok_device { IfOk result (λ f. self.new.device ≡ device_appended kinds.Query f.time
            (written_query self.old.concrete.config f.time id) self.old.concrete.snapshot
            self.old.device) }
        ensures error_device { IsErrOf result QueryError.SinkError
            → FailsLine self.old.device self.new.device
            (bytes_with kinds.Query self.old.concrete.queries.clock
            (written_query self.old.concrete.config self.old.concrete.queries.clock id)
            self.old.concrete.snapshot) }
        ensures refused { OnErr result (result ≢ Err QueryError.SinkError → self.new ≡ self.old) }

        // Memory is needed only if the query is fired, and an allocation failure changes nothing.
        ensures only_fired { (i : IdealAgent) → IsSound i → self.old.concrete ≡ view_of i
            → IsErrOf result QueryError.OutOfMemory
            → AsksSink (fire_query i now id name.now payload.now params.now) }
        ensures memory { IsErrOf result QueryError.OutOfMemory → self.new ≡ self.old }
        ensures cause { IsErrOf result QueryError.SinkError
            → HasFailed self.old.device.failures self.new.device.failures }
    {
        // (for the proof: the last lines that the snapshot records are those that its sink holds)
        sound_snapshots();
        if self.snapshot.is_stopped() {
            return Err(QueryError::Stopped);
        }
        if self.query_is_too_large(id, name, payload, params) {
            return Err(QueryError::TooLarge);
        }
        if params.has_no_time() {
            return Err(QueryError::ZeroTimeout);
        }
        let Some(time) = self.queries.next_time() else {
            return Err(QueryError::Exhausted);
        };
        Ok(self.ask(alloc, now, time, id, name, payload, params)?)
    }

    /// Writes the line of a query that this agent fires. After the line is durable, opens the query for answers, and
    /// returns the result of firing it.
    fn ask(
        &mut self,
        alloc: Global,
        now: u64,
        time: Time,
        id: u32,
        name: &[u8],
        payload: &[u8],
        params: &QueryParams,
    ) -> Result<FiredQuery, AppendLineError>
        requires runs { self.old.concrete.snapshot.stopped ≡ false }
        requires at { time ≡ self.old.concrete.queries.clock }
        requires not_later { time_in self.old.concrete.queries.slots time ≤ time }
        requires not_full { count_in self.old.concrete.queries.slots time
            < self.old.concrete.config.per_time }
        requires short { length (canonical (query (query_at time self.old.concrete.config.name id
            name.now payload.now params.now))) ≤ max_packet_limit }

        ensures fired { IfOk result (λ f. f ≡ fired_query params.now.tags_pass
            self.old.concrete.config now (query_at time self.old.concrete.config.name id
            name.now payload.now params.now)) }
        ensures entered { OnOk result ((i : IdealAgent) → self.old.concrete ≡ view_of i
            → self.new.concrete ≡ view_of (with_snapshot
            (appended_with kinds.Query time (written_query i.config time id) i.snapshot Kept)
            (query_opened now (query_at time self.old.concrete.config.name id name.now
            payload.now params.now) i))) }
        ensures line { AppendsOwnLine kinds.Query time
            (written_query self.old.concrete.config time id)
            self.old self.new result }
    {
        let config = &self.config;
        let query = params.parts(time, config.name.as_slice(), id, name, payload);
        let fired = fired_query_of(alloc, &query, now, config, params.tags_pass)?;
        let open = opened(alloc, &query, now);
        self.insert_fired_query(alloc, time, open)?;
        Ok(fired)
    }

    /// Writes the line of a query that this agent fires to the sink. After the line is durable, the query is inserted
    /// into the buffer and is open for answers.
    fn insert_fired_query(
        &mut self,
        alloc: Global,
        time: Time,
        query: OpenQuery,
    ) -> Result<(), AppendLineError>
        requires runs { self.old.concrete.snapshot.stopped ≡ false }
        requires at { time ≡ self.old.concrete.queries.clock }
        requires not_later { time_in self.old.concrete.queries.slots time ≤ time }
        requires not_full { count_in self.old.concrete.queries.slots time
            < self.old.concrete.config.per_time }

        ensures entered { OnOk result ((i : IdealAgent) → self.old.concrete ≡ view_of i
            → self.new.concrete ≡ view_of (with_snapshot
            (appended_with kinds.Query time (written_query i.config time query.id) i.snapshot Kept)
            (with_fired_queries (i.fired_queries
            ++ (time, query) ∷ []) (query_entered time query.id i)))) }
        ensures line { AppendsOwnLine kinds.Query time
            (written_query self.old.concrete.config time query.id) self.old self.new result }
    {
        let id = query.id;
        let line = written_query(alloc, &self.config, time, id)?;
        let entry = self.queries.prepare(alloc, time, &id)?;
        append_query_line(
            &mut self.fired_queries,
            &mut self.snapshot,
            alloc,
            time,
            &line,
            query,
        )?;
        self.queries.insert_new(time, entry);
        Ok(())
    }
}
