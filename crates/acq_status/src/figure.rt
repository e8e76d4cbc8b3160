//! Names of figures.

ghost use Rattle.std.specs.Prelude.{◌≡◌};
ghost use Rattle.acq_status.specs.Names.{help_of, key_of, kind_of};

/// What a figure is of.
#[derive(Clone, Copy)]
pub enum Figure {
    /// When the business day's date begins, in seconds since 1970-01-01 00:00:00 UTC.
    BusinessDay,
    Limit,
    Merchants,
    Terminals,
    Ranges,
    RequestsToday,
    Pending,
    Places,
    OpenPlaces,
    Connections,
    Events,
    Lines,
    RefusedFrames,
    UnansweredUnserved,
    UnansweredWaiting,
    UnansweredLate,
    LostLines,
    Gateways,
    RowsMissing,
    LastEventAge,
    OldestPendingAge,
    BookBytes,
    WalBytes,
    Replies,
    ReplySeconds,
}

impl Figure {
    /// Its key in a status. Behind `acqd_` it is its name as a metric: units are base units, and
    /// counters end in `_total` (Prometheus, metric and label naming).
    pub(crate) fn key(self) -> &'static str
        ensures { result.now ≡ key_of self }
    {
        match self {
            Figure::BusinessDay => "business_day_timestamp_seconds",
            Figure::Limit => "limit",
            Figure::Merchants => "merchants",
            Figure::Terminals => "terminals",
            Figure::Ranges => "ranges",
            Figure::RequestsToday => "requests_today",
            Figure::Pending => "pending",
            Figure::Places => "places",
            Figure::OpenPlaces => "open_places",
            Figure::Connections => "connections_total",
            Figure::Events => "events_total",
            Figure::Lines => "lines_total",
            Figure::RefusedFrames => "refused_frames_total",
            Figure::UnansweredUnserved => "unanswered_unserved_total",
            Figure::UnansweredWaiting => "unanswered_waiting_total",
            Figure::UnansweredLate => "unanswered_late_total",
            Figure::LostLines => "log_lines_lost_total",
            Figure::Gateways => "gateways",
            Figure::RowsMissing => "rows_missing_total",
            Figure::LastEventAge => "last_event_age_seconds",
            Figure::OldestPendingAge => "oldest_pending_age_seconds",
            Figure::BookBytes => "book_bytes",
            Figure::WalBytes => "wal_bytes",
            Figure::Replies => "replies_total",
            Figure::ReplySeconds => "reply_seconds",
        }
    }

    /// What it says, in words.
    pub(crate) fn help(self) -> &'static str
        ensures { result.now ≡ help_of self }
    {
        match self {
            Figure::BusinessDay => "When the date of the business day begins.",
            Figure::Limit => "Messages of a merchant that a business day admits.",
            Figure::Merchants => "Enrolled merchants.",
            Figure::Terminals => "Enrolled terminals.",
            Figure::Ranges => "Ranges of card numbers.",
            Figure::RequestsToday => "Messages of the business day that count against its limits.",
            Figure::Pending => "Requests of a business day that wait for their issuer.",
            Figure::Places => "Terminals that can be connected at once.",
            Figure::OpenPlaces => "Places for terminals that are free.",
            Figure::Connections => "Connections of terminals that were taken in.",
            Figure::Events => "Messages of terminals that were answered.",
            Figure::Lines => "Lines of control connections that were answered.",
            Figure::RefusedFrames => "Connections that ended for a frame that was refused.",
            Figure::UnansweredUnserved => "Messages of a type that isn't served.",
            Figure::UnansweredWaiting => "Repeats of requests that wait for their issuer.",
            Figure::UnansweredLate => "Messages reversed before their issuer answered.",
            Figure::LostLines => "Lines of the log that were lost.",
            Figure::Gateways => "Gateways to issuers that are connected.",
            Figure::RowsMissing => "Times that a gateway asked behind more rows than there are.",
            Figure::LastEventAge => "Time since a terminal's message was last taken.",
            Figure::OldestPendingAge => "Time since the first that waits was first seen.",
            Figure::BookBytes => "Bytes of the book's file.",
            Figure::WalBytes => "Bytes of its WAL file.",
            Figure::Replies => "Replies to terminals, by response code.",
            Figure::ReplySeconds => "Time from a message's last byte to its reply's first.",
        }
    }

    /// Prometheus's word for what its value does.
    pub(crate) fn kind(self) -> &'static str
        ensures { result.now ≡ kind_of self }
    {
        match self {
            Figure::Connections
            | Figure::Events
            | Figure::Lines
            | Figure::RefusedFrames
            | Figure::UnansweredUnserved
            | Figure::UnansweredWaiting
            | Figure::UnansweredLate
            | Figure::LostLines
            | Figure::RowsMissing
            | Figure::Replies => "counter",
            Figure::ReplySeconds => "histogram",
            _ => "gauge",
        }
    }
}
