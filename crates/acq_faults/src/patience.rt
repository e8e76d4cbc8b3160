//! How long connections may take.

/// For how many seconds a connection may be as it is; 0 is for ever, but where no gateway is
/// connected. Behind that it is closed, or where its issuer doesn't answer, goes on without an
/// answer.
#[derive(Clone, Copy, Debug, Drop)]
pub struct Patience {
    /// For how many seconds it may send nothing, or take nothing of a reply.
    pub idle: u64,
    /// How many seconds may pass from a frame's first byte to its last.
    pub frame_within: u64,
    /// For how many seconds it may be there once the host was asked to end.
    pub stop_within: u64,
    /// For how many seconds it may wait for its issuer's answer.
    pub answer_within: u64,
    /// For how many seconds it may wait for a gateway where none is connected; 0 is not at all.
    pub gateway_within: u64,
}
