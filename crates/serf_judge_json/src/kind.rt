//! The two kinds of entries that are judged: events and queries.

ghost use Rattle.std.specs.Prelude.{◌≡◌};
ghost use Rattle.serf_judge_json.specs.Kinds.{kind_word, once_promise};

/// The kind of an entry.
#[derive(Clone, Copy)]
pub(crate) enum Kind {
    Event,
    Query,
}

impl Kind {
    /// Returns the word that objects contain for this kind.
    pub(crate) fn word(self) -> &'static [u8]
        ensures { result.now ≡ kind_word self }
    {
        match self {
            Kind::Event => b"event",
            Kind::Query => b"query",
        }
    }

    /// Returns the name of the promise that no entry of this kind is handed out twice.
    pub(crate) fn promise(self) -> &'static [u8]
        ensures { result.now ≡ once_promise self }
    {
        match self {
            Kind::Event => b"Once",
            Kind::Query => b"QueryOnce",
        }
    }
}
