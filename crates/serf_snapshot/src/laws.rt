//! States the laws of snapshot texts, of snapshots, and of the lines of an agent that keeps its events. Each law is a
//! clause of a function with an empty body.

ghost use Rattle.std.specs.Prelude.{◌≡◌, ◌≢◌, ◌↔◌, ◌<◌, ◌≤◌, ◌++◌, ℕ, All, List, Option, IsSome, false, true, max, [], ◌+◌, ◌*◌, ◌^◌, ◌∷◌, None, Some, codes, decimal, length, take};
ghost use Rattle.serf_lamport.specs.Clock.{max_clock};
ghost use Rattle.serf_snapshot.specs.declared.kind.ClockKind.{ClockKind};
ghost use Rattle.serf_snapshot.specs.Clocks.{clock_line, compacted_text, is_whole, last_clock, lines_of, of_kind, prefix_of, sealed};
ghost use Rattle.serf_snapshot.specs.Device.{Device, FailurePlan};
ghost use Rattle.serf_snapshot.specs.AppendsLine.{Failed, IsObservable, IsSnapshotSound, KeepsEither, KeepsPart, Kept, MayReplace, MayWrite, SnapshotView, Writing, compacted, compaction_of, noted, opened, text_replaced, will_replace, will_write, with_sink, written};
ghost use Rattle.hex.specs.Hex.{IsBytes};
ghost use Rattle.serf_snapshot.specs.declared.kept.KeptQuery.{KeptQuery};
ghost use Rattle.serf_snapshot.specs.declared.kept.EntryFilter.{EntryFilter};
ghost use Rattle.serf_snapshot.specs.EventLines.{event_line, event_text, events_in, if_event_wanted, if_query_wanted, kept_clock_line, kept_clock_text, kept_query, min_in, min_line, min_text, queries_in, query_line, query_text};
ghost use Rattle.serf_snapshot.specs.KeptAppends.{SaysNoClock, kept_compaction_of, kept_appended};
ghost use Rattle.serf_snapshot.specs.Handlers.{handler_line};
ghost use Rattle.serf_snapshot.specs.HandlerLaws.{AreSilent, AreUntracked, BegunOnlyIfSaid, EventsAreHanded, LeavesUntracked, NeverWaitsAgain, ReportedOrDone, ReportsAll, StartsTracking, WaitsOrBegan, open_lines};
ghost use Rattle.serf_snapshot.specs.OtherLines.{AreOtherLines, DiffersInOtherLines, is_other_line};
ghost use Rattle.serf_snapshot.specs.declared.handlers.OpenEvent.{OpenEvent};
ghost use Rattle.serf_snapshot.specs.TimedEvent.{TimedEvent, timed_event};

/// States how the clocks of a text change. Appended bytes never lower a clock. A line raises the clock of its own
/// kind to its time, and changes no other clock. Neither a seal nor a compaction changes a clock.
pub fn text_laws()
    ensures grows { (k : ClockKind) (front tail : List ℕ)
        → last_clock k front ≤ last_clock k (front ++ tail) }
    ensures below { (k : ClockKind) (text : List ℕ) → last_clock k text < max_clock }
    ensures own_line { (k : ClockKind) (text : List ℕ) (t : ℕ) → is_whole text ≡ true
        → t < max_clock → last_clock k (text ++ clock_line k t) ≡ max (last_clock k text) t }
    ensures other_line { (k j : ClockKind) (text : List ℕ) (t : ℕ) → is_whole text ≡ true
        → t < max_clock → k ≢ j → last_clock k (text ++ clock_line j t) ≡ last_clock k text }
    ensures line_whole { (k : ClockKind) (text : List ℕ) (t : ℕ)
        → is_whole (text ++ clock_line k t) ≡ true }
    ensures sealed { (k : ClockKind) (text : List ℕ)
        → last_clock k (sealed text) ≡ last_clock k text }
    ensures sealed_whole { (text : List ℕ) → is_whole (sealed text) ≡ true }
    ensures compacted { (k : ClockKind) (m e q : ℕ) → m < max_clock → e < max_clock
        → q < max_clock → last_clock k (compacted_text m e q) ≡ of_kind k m e q }
    ensures compacted_whole { (m e q : ℕ) → is_whole (compacted_text m e q) ≡ true }
{}

/// The last lines of a snapshot agree with the text that its sink keeps. They agree when the snapshot is opened, and
/// they still agree after each appended line and each compaction, even after those that failed.
pub fn snapshot_laws()
    ensures opened { (text : List ℕ) (d : Device) → IsSnapshotSound (opened text d) }
    ensures noted { (k : ClockKind) (s : SnapshotView) (t : ℕ) → IsSnapshotSound s
        → s.stopped ≡ false → t < max_clock → IsSnapshotSound (noted k t s Kept) }
    ensures append_line_failed { (k : ClockKind) (s : SnapshotView) (t : ℕ) (line : List ℕ)
        (durable : Option (List ℕ)) → IsSnapshotSound s → KeepsPart s.durable line durable
        → IsSnapshotSound (written k t s (Failed durable)) }
    ensures compacted { (s : SnapshotView) → IsSnapshotSound s
        → IsSnapshotSound (compacted s Kept) }
    ensures planned { (s : SnapshotView) (change : FailurePlan → FailurePlan) → IsSnapshotSound s
        → IsSnapshotSound (with_sink s.durable change s) }
    ensures compaction_failed { (s : SnapshotView) (durable : Option (List ℕ)) → IsSnapshotSound s
        → KeepsEither s.durable (compaction_of s) durable
        → IsSnapshotSound (compacted s (Failed durable)) }
{}

/// If a sink has a plan, the plan leaves only one possible outcome for each call. Afterwards the sink still exposes
/// its bytes and still has a plan.
pub fn plan_laws()
    ensures write { (s : SnapshotView) (line : List ℕ) (w : Writing) → IsSome s.plan
        → MayWrite s line w ↔ (w ≡ will_write s) }
    ensures replace { (s : SnapshotView) (w : Writing) → IsSome s.plan
        → MayReplace s w ↔ (w ≡ will_replace s) }
    ensures opened_observable { (text : List ℕ) (d : Device) → IsSome d.observed_bytes
        → IsSome d.plan → IsObservable (opened text d) }
    ensures appended_observable { (k : ClockKind) (s : SnapshotView) (t : ℕ) (line : List ℕ)
        (w : Writing) → IsObservable s → MayWrite s line w → IsObservable (noted k t s w) }
    ensures planned_observable { (s : SnapshotView) (change : FailurePlan → FailurePlan)
        → IsObservable s → IsObservable (with_sink s.durable change s) }
    ensures compacted_observable { (s : SnapshotView) (w : Writing) → IsObservable s
        → MayReplace s w → IsObservable (compacted s w) }
{}

/// States what the lines of events mean. A written line reads back as the event that was written, and a proper prefix
/// of the line reads back as nothing. Bytes that follow a text never remove an event from it, and a seal changes no
/// event. A line that begins with `#` changes no clock, wherever it is in the text.
pub fn event_line_laws()
    ensures written { (w : EntryFilter) (text : List ℕ) (t : ℕ) (name payload : List ℕ)
        → is_whole text ≡ true → 0 < t → t < max_clock → IsBytes name → IsBytes payload
        → events_in w (text ++ event_line t name payload)
        ≡ events_in w text ++ if_event_wanted w (Some (timed_event t name payload)) }
    ensures torn { (w : EntryFilter) (text : List ℕ) (t : ℕ) (name payload : List ℕ) (n : ℕ)
        → is_whole text ≡ true → t < max_clock → n < length (event_line t name payload)
        → events_in w (text ++ take n (event_line t name payload)) ≡ events_in w text }
    ensures grow { (w : EntryFilter) (front tail : List ℕ)
        → (more : List TimedEvent) × (events_in w (front ++ tail) ≡ events_in w front ++ more) }
    ensures sealed { (w : EntryFilter) (text : List ℕ) → events_in w (sealed text)
        ≡ events_in w text }
    ensures length { (t : ℕ) (name payload : List ℕ) → t < max_clock
        → length (event_line t name payload) ≤ 2 * (length name + length payload) + 30 }
    ensures skipped { (k : ClockKind) (front line back : List ℕ) → is_whole front ≡ true
        → lines_of (line ++ 10 ∷ []) ≡ line ∷ []
        → last_clock k (front ++ (35 ∷ line ++ 10 ∷ back)) ≡ last_clock k (front ++ back) }
{}

/// States what the lines of queries mean, as `event_line_laws` does for events, and the maximum length of a line.
pub fn query_line_laws()
    ensures written { (w : EntryFilter) (text : List ℕ) (t id : ℕ) → is_whole text ≡ true → 0 < t
        → t < max_clock → id < 2 ^ 32 → queries_in w (text ++ query_line t id)
        ≡ queries_in w text ++ if_query_wanted w (Some (kept_query t id)) }
    ensures torn { (w : EntryFilter) (text : List ℕ) (t id n : ℕ) → is_whole text ≡ true
        → t < max_clock → id < 2 ^ 32 → n < length (query_line t id)
        → queries_in w (text ++ take n (query_line t id)) ≡ queries_in w text }
    ensures grow { (w : EntryFilter) (front tail : List ℕ)
        → (more : List KeptQuery) × (queries_in w (front ++ tail) ≡ queries_in w front ++ more) }
    ensures sealed { (w : EntryFilter) (text : List ℕ) → queries_in w (sealed text)
        ≡ queries_in w text }
    ensures length { (t id : ℕ) → t < max_clock → id < 2 ^ 32
        → length (query_line t id) ≤ 39 }
{}

/// States how the minimum times of a text change. Appended bytes never lower a minimum. If a second text follows one
/// that has no torn last line, each minimum is the larger of the minimums of the two texts. A `#least` line raises
/// the minimum of its own kind to its number. A clock line raises the minimum of its own kind to one above its time,
/// unless its number has a leading zero. Neither the lines of events and queries nor a seal changes a minimum. A
/// leading zero changes no clock.
pub fn min_time_laws()
    ensures grows { (k : ClockKind) (front tail : List ℕ)
        → min_in k front ≤ min_in k (front ++ tail) }
    ensures joined { (k : ClockKind) (front tail : List ℕ) → is_whole front ≡ true
        → min_in k (front ++ tail) ≡ max (min_in k front) (min_in k tail) }
    ensures sealed { (k : ClockKind) (text : List ℕ) → min_in k (sealed text) ≡ min_in k text }
    ensures own_line { (k : ClockKind) (text : List ℕ) (t : ℕ) → is_whole text ≡ true
        → t ≤ max_clock → min_in k (text ++ min_line k t) ≡ max (min_in k text) t }
    ensures other_line { (k j : ClockKind) (text : List ℕ) (t : ℕ) → is_whole text ≡ true
        → t ≤ max_clock → k ≢ j → min_in k (text ++ min_line j t) ≡ min_in k text }
    ensures event { (k : ClockKind) (text : List ℕ) (t : ℕ) (name payload : List ℕ)
        → is_whole text ≡ true → t < max_clock
        → min_in k (text ++ event_line t name payload) ≡ min_in k text }
    ensures query { (k : ClockKind) (text : List ℕ) (t id : ℕ) → is_whole text ≡ true
        → t < max_clock → id < 2 ^ 32
        → min_in k (text ++ query_line t id) ≡ min_in k text }
    ensures clock_line { (k : ClockKind) (text : List ℕ) (t : ℕ) → is_whole text ≡ true → 0 < t
        → t < max_clock → min_in k (text ++ clock_line k t) ≡ max (min_in k text) (t + 1) }
    ensures other_clock_line { (k j : ClockKind) (text : List ℕ) (t : ℕ) → is_whole text ≡ true
        → k ≢ j → min_in k (text ++ clock_line j t) ≡ min_in k text }
    ensures kept_clock_line { (k j : ClockKind) (text : List ℕ) (t : ℕ) → is_whole text ≡ true
        → t < max_clock → min_in k (text ++ kept_clock_line j t) ≡ min_in k text }
    ensures same_clock { (k : ClockKind) (text : List ℕ) (t : ℕ) → is_whole text ≡ true
        → t < max_clock
        → last_clock k (text ++ kept_clock_line k t) ≡ max (last_clock k text) t }
    ensures other_clock { (k j : ClockKind) (text : List ℕ) (t : ℕ) → is_whole text ≡ true
        → t < max_clock → k ≢ j
        → last_clock k (text ++ kept_clock_line j t) ≡ last_clock k text }
{}

/// Whatever is read from a text can be written again. Events and queries have times above 0, the name and the payload
/// of an event consist of bytes, and the ID of a query is below 2^32. The minimums are also times above 0, or
/// 2^64 - 1, which is above all times.
pub fn read_laws()
    ensures events { (w : EntryFilter) (text : List ℕ) → All (λ e. (0 < e.time)
        × (e.time < max_clock) × IsBytes e.name × IsBytes e.payload) (events_in w text) }
    ensures queries { (w : EntryFilter) (text : List ℕ) → All (λ q. (0 < q.time)
        × (q.time < max_clock) × (q.id < 2 ^ 32)) (queries_in w text) }
    ensures lowest { (k : ClockKind) (text : List ℕ) → (1 ≤ min_in k text)
        × (min_in k text ≤ max_clock) }
{}

/// States which events a text contains. If a second text follows one that has no torn last line, its events follow
/// those of the first text. The line of an event contains this event, if the filter selects it. The line of a query,
/// a `#least` line and a clock line contain no event, whatever their numbers are. So if an agent keeps no events, its
/// compaction contains none. If it keeps its events, its compaction contains the events of the lines that it keeps.
/// [`text_laws`] and [`kept_append_line_laws`] state that the lines themselves are whole.
pub fn said_laws()
    ensures joined { (w : EntryFilter) (front tail : List ℕ) → is_whole front ≡ true
        → events_in w (front ++ tail) ≡ events_in w front ++ events_in w tail }
    ensures event { (w : EntryFilter) (t : ℕ) (name payload : List ℕ) → 0 < t → t < max_clock
        → IsBytes name → IsBytes payload → events_in w (event_line t name payload)
        ≡ if_event_wanted w (Some (timed_event t name payload)) }
    ensures query { (w : EntryFilter) (t id : ℕ) → events_in w (query_line t id) ≡ [] }
    ensures lowest { (w : EntryFilter) (k : ClockKind) (t : ℕ) → events_in w (min_line k t) ≡ [] }
    ensures clock_line { (w : EntryFilter) (k : ClockKind) (t : ℕ) → events_in w (clock_line k t)
        ≡ [] }
    ensures kept_clock_line { (w : EntryFilter) (k : ClockKind) (t : ℕ)
        → events_in w (kept_clock_line k t) ≡ [] }
    ensures compacted { (w : EntryFilter) (m e q : ℕ) → events_in w (compacted_text m e q) ≡ [] }
    ensures kept_compacted { (w : EntryFilter) (lines : List ℕ) (s : SnapshotView)
        → is_whole lines ≡ true → events_in w (kept_compaction_of lines s) ≡ events_in w lines }
    ensures kept_compacted_whole { (lines : List ℕ) (s : SnapshotView) → is_whole lines ≡ true
        → is_whole (kept_compaction_of lines s) ≡ true }
{}

/// States which queries a text contains, as `said_laws` does for events. Only the lines of queries contain queries.
pub fn said_query_laws()
    ensures joined { (w : EntryFilter) (front tail : List ℕ) → is_whole front ≡ true
        → queries_in w (front ++ tail) ≡ queries_in w front ++ queries_in w tail }
    ensures event { (w : EntryFilter) (t : ℕ) (name payload : List ℕ)
        → queries_in w (event_line t name payload) ≡ [] }
    ensures query { (w : EntryFilter) (t id : ℕ) → 0 < t → t < max_clock → id < 2 ^ 32
        → queries_in w (query_line t id) ≡ if_query_wanted w (Some (kept_query t id)) }
    ensures lowest { (w : EntryFilter) (k : ClockKind) (t : ℕ) → queries_in w (min_line k t) ≡ [] }
    ensures clock_line { (w : EntryFilter) (k : ClockKind) (t : ℕ)
        → queries_in w (clock_line k t) ≡ [] }
    ensures kept_clock_line { (w : EntryFilter) (k : ClockKind) (t : ℕ)
        → queries_in w (kept_clock_line k t) ≡ [] }
    ensures compacted { (w : EntryFilter) (m e q : ℕ) → queries_in w (compacted_text m e q) ≡ [] }
    ensures kept_compacted { (w : EntryFilter) (lines : List ℕ) (s : SnapshotView)
        → is_whole lines ≡ true
        → queries_in w (kept_compaction_of lines s) ≡ queries_in w lines }
{}

/// If an agent keeps its events, the last lines of its snapshot also agree with the text that the sink keeps. They
/// still agree after each appended line and each compaction, even after those that failed. The agent's lines other
/// than clock lines must be whole and must contain no clock line. Each line of an event, of a query and of a minimum
/// meets this condition.
pub fn kept_append_line_laws()
    ensures noted { (k : ClockKind) (s : SnapshotView) (t : ℕ) (line : List ℕ) → IsSnapshotSound s
        → s.stopped ≡ false → t < max_clock → SaysNoClock line
        → IsSnapshotSound (kept_appended k t line s Kept) }
    ensures append_line_failed { (k : ClockKind) (s : SnapshotView) (t : ℕ) (line bytes : List ℕ)
        (durable : Option (List ℕ)) → IsSnapshotSound s → KeepsPart s.durable bytes durable
        → IsSnapshotSound (kept_appended k t line s (Failed durable)) }
    ensures compacted { (s : SnapshotView) (lines : List ℕ) → IsSnapshotSound s
        → SaysNoClock lines
        → IsSnapshotSound (text_replaced (kept_compaction_of lines s) s Kept) }
    ensures compaction_failed { (s : SnapshotView) (lines : List ℕ) (durable : Option (List ℕ))
        → IsSnapshotSound s → SaysNoClock lines
        → KeepsEither s.durable (kept_compaction_of lines s) durable
        → IsSnapshotSound (text_replaced (kept_compaction_of lines s) s (Failed durable)) }
    ensures event { (t : ℕ) (name payload : List ℕ) → SaysNoClock (event_line t name payload) }
    ensures query { (t id : ℕ) → SaysNoClock (query_line t id) }
    ensures lowest { (k : ClockKind) (t : ℕ) → SaysNoClock (min_line k t) }
    ensures both { (a b : List ℕ) → SaysNoClock a → SaysNoClock b → SaysNoClock (a ++ b) }
    ensures clock_line_whole { (k : ClockKind) (text : List ℕ) (t : ℕ)
        → is_whole (text ++ kept_clock_line k t) ≡ true }
    ensures whole { (text line : List ℕ) → is_whole text ≡ true → is_whole line ≡ true
        → is_whole (text ++ line) ≡ true }
{}

/// States what a text says about handlers, no matter which programs wrote its lines, and in which order. Its tracked
/// lines hand out an event by the event's own line or by an `#open` line. Each event that they hand out is open,
/// unless a line says that it is done. An open event has begun only if a line says so. So each of these events still
/// waits for its handler, unless a line says that it has begun or that it is done. After a line says that an event
/// has begun, this event doesn't wait again, unless a later line hands it out again.
pub fn handler_laws()
    ensures handed { EventsAreHanded }
    ensures reported { ReportedOrDone }
    ensures begun { BegunOnlyIfSaid }
    ensures waits { WaitsOrBegan }
    ensures once { NeverWaitsAgain }
{}

/// States what happens to the open events of a file. After the file's first line `#done TIME`, no event is open. From
/// then on, the file reports exactly the events that were handed out and aren't done, in order, and for each of them
/// whether its handler has begun. This holds after any sequence of operations, with kills, torn tails and
/// compactions. The lines of clocks, minimums, queries and members say nothing about handlers. So they may follow the
/// lines of a compaction, and may be appended at any time.
pub fn file_step_laws()
    ensures starts { StartsTracking }
    ensures reports { ReportsAll }
    ensures clock_line { (k : ClockKind) (t : ℕ) → AreSilent (clock_line k t) }
    ensures kept_clock_line { (k : ClockKind) (t : ℕ) → AreSilent (kept_clock_line k t) }
    ensures lowest { (k : ClockKind) (t : ℕ) → AreSilent (min_line k t) }
    ensures query { (t id : ℕ) → AreSilent (query_line t id) }
    ensures alive { (rest : List ℕ) → handler_line (codes "alive: " ++ rest) ≡ None }
    ensures not_alive { (rest : List ℕ) → handler_line (codes "not-alive: " ++ rest) ≡ None }
    ensures both { (a b : List ℕ) → AreSilent a → AreSilent b → AreSilent (a ++ b) }
{}

/// States what an agent writes by itself in lives that don't track handlers. None of these lines says that an event
/// has begun, is done, or is open. So the lines leave a text untracked, even if a kill tears the last of them and the
/// next opening seals it. A compaction leaves the text untracked too.
pub fn untracked_laws()
    ensures leaves { LeavesUntracked }
    ensures event { (t : ℕ) (name payload : List ℕ) → AreUntracked (event_line t name payload) }
    ensures query { (t id : ℕ) → AreUntracked (query_line t id) }
    ensures lowest { (k : ClockKind) (t : ℕ) → AreUntracked (min_line k t) }
    ensures clock_line { (k : ClockKind) (t : ℕ) → AreUntracked (clock_line k t) }
    ensures kept_clock_line { (k : ClockKind) (t : ℕ) → AreUntracked (kept_clock_line k t) }
    ensures both { (a b : List ℕ) → AreUntracked a → AreUntracked b → AreUntracked (a ++ b) }
    ensures compacted { (m e q : ℕ) → AreUntracked (compacted_text m e q) }
    ensures kept_compacted { (lines : List ℕ) (s : SnapshotView) → AreUntracked lines
        → AreUntracked (kept_compaction_of lines s) }
{}

/// Other lines are those that say nothing about clocks, minimums, events and queries. If two texts differ only in
/// other lines, both read the same. They still differ only in other lines after the same bytes are appended to both,
/// and after their torn lines are sealed. Whole other lines may be inserted at the beginning of any line. If a line
/// of any other kind is inserted there, the texts no longer differ only in other lines.
pub fn other_lines_laws()
    ensures clocks { (k : ClockKind) (a b : List ℕ) → DiffersInOtherLines a b
        → last_clock k a ≡ last_clock k b }
    ensures lowest { (k : ClockKind) (a b : List ℕ) → DiffersInOtherLines a b
        → min_in k a ≡ min_in k b }
    ensures events { (w : EntryFilter) (a b : List ℕ) → DiffersInOtherLines a b
        → events_in w a ≡ events_in w b }
    ensures queries { (w : EntryFilter) (a b : List ℕ) → DiffersInOtherLines a b
        → queries_in w a ≡ queries_in w b }
    ensures whole { (a b : List ℕ) → DiffersInOtherLines a b → is_whole a ≡ is_whole b }
    ensures appended { (a b tail : List ℕ) → DiffersInOtherLines a b
        → DiffersInOtherLines (a ++ tail) (b ++ tail) }
    ensures sealed { (a b : List ℕ) → DiffersInOtherLines a b
        → DiffersInOtherLines (sealed a) (sealed b) }
    ensures inserted { (front lines back : List ℕ) → is_whole front ≡ true → AreOtherLines lines
        → DiffersInOtherLines (front ++ back) (front ++ (lines ++ back)) }
    ensures refused { (front line back : List ℕ) → is_whole front ≡ true
        → lines_of (line ++ 10 ∷ []) ≡ line ∷ [] → is_other_line line ≡ false
        → DiffersInOtherLines (front ++ back) (front ++ (line ++ 10 ∷ back)) → ⊥ }
    ensures itself { (a : List ℕ) → DiffersInOtherLines a a }
    ensures swapped { (a b : List ℕ) → DiffersInOtherLines a b → DiffersInOtherLines b a }
    ensures joined { (a b c : List ℕ) → DiffersInOtherLines a b → DiffersInOtherLines b c
        → DiffersInOtherLines a c }
{}

/// States which lines are other lines. The lines of members (`alive:` and `not-alive:`) and those about handlers
/// (`#begun`, `#done` and `#open`) are, whatever follows these words. A clock line above 0, a line of a minimum above
/// 0, and the line of an event or of a query aren't. The lines that a compaction writes for open events are other
/// lines.
pub fn other_line_laws()
    ensures alive { (rest : List ℕ) → is_other_line (codes "alive: " ++ rest) ≡ true }
    ensures not_alive { (rest : List ℕ) → is_other_line (codes "not-alive: " ++ rest) ≡ true }
    ensures begun { (rest : List ℕ) → is_other_line (codes "#begun " ++ rest) ≡ true }
    ensures done { (rest : List ℕ) → is_other_line (codes "#done " ++ rest) ≡ true }
    ensures opened { (rest : List ℕ) → is_other_line (codes "#open " ++ rest) ≡ true }
    ensures clock_line { (k : ClockKind) (t : ℕ) → 0 < t → t < max_clock
        → is_other_line (prefix_of k ++ decimal t) ≡ false }
    ensures kept_clock_line { (k : ClockKind) (t : ℕ) → 0 < t → t < max_clock
        → is_other_line (kept_clock_text k t) ≡ false }
    ensures lowest { (k : ClockKind) (t : ℕ) → 0 < t → t ≤ max_clock
        → is_other_line (min_text k t) ≡ false }
    ensures event { (t : ℕ) (name payload : List ℕ) → 0 < t → t < max_clock → IsBytes name
        → IsBytes payload → is_other_line (event_text t name payload) ≡ false }
    ensures query { (t id : ℕ) → 0 < t → t < max_clock → id < 2 ^ 32
        → is_other_line (query_text t id) ≡ false }
    ensures written { (line : List ℕ) → lines_of (line ++ 10 ∷ []) ≡ line ∷ []
        → is_other_line line ≡ true → AreOtherLines (line ++ 10 ∷ []) }
    ensures both { (a b : List ℕ) → AreOtherLines a → AreOtherLines b → AreOtherLines (a ++ b) }
    ensures open_lines { (open_list : List OpenEvent) → AreOtherLines (open_lines open_list) }
{}
