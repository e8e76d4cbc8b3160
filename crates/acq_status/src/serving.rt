//! Figures of what a host serves.

use crate::reply_counts::ReplyCounts;
use crate::reply_durations::ReplyDurations;
use crate::unanswered_counts::UnansweredCounts;

/// Figures of what a host serves, since it began.
#[derive(Clone, Copy)]
pub struct Serving {
    /// How many terminals can be connected at once.
    pub places: u64,
    /// How many of these places are free.
    pub open_places: u64,
    /// How many connections of terminals it took in.
    pub connections: u64,
    /// How many messages of terminals it answered.
    pub events: u64,
    /// How many lines of control connections it answered.
    pub lines: u64,
    /// How many connections ended for a frame that was refused.
    pub refused_frames: u64,
    /// How many messages got no reply.
    pub unanswered: UnansweredCounts,
    /// How many replies terminals got, by response code.
    pub replies: ReplyCounts,
    /// How long these took, where the clock told it.
    pub durations: ReplyDurations,
    /// How many lines of its log were lost.
    pub lost_lines: u64,
    /// How many gateways to issuers are connected, where one can come.
    pub gateways: Option<u64>,
    /// How many times a gateway asked for the rows behind more than the book has.
    pub rows_missing: Option<u64>,
    /// How many seconds ago it last took a message of a terminal.
    pub last_event_age: Option<u64>,
    /// How many seconds ago it first saw the request that waits the longest for its issuer.
    pub oldest_pending_age: Option<u64>,
    /// How many bytes the book's file has, and its WAL file, where the system tells it.
    pub book_bytes: Option<u64>,
    pub wal_bytes: Option<u64>,
}
