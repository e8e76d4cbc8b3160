//! What a repeat of a recorded request gets.

use iso_codec::Message;

/// What a repeat of a recorded request gets. An issuer's answer asks for the same: an admitted
/// request has a reply exactly when it was answered.
#[derive(Drop)]
pub enum ReplyState {
    /// The reply that was kept.
    Kept(Message),
    /// Nothing yet: its issuer hasn't answered. So much of its reply stands fixed.
    Awaited(Message),
    /// Nothing any more: it was reversed before its issuer answered.
    Late,
}
