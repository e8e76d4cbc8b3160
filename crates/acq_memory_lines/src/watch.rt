//! What a gate watches of a connection.

/// The most waits of a gate until a connection that waits is woken.
const MOST_WAITS: u32 = 8;

/// What a gate watches of a connection, as far as it saw: how often its stream said that it would
/// wait, and for how many of these it was woken. As at a system's poll, a stream that didn't say so
/// isn't woken.
#[derive(Clone, Copy, Drop)]
pub(crate) struct Watch {
    waits: u64,
    woken: u64,
    /// How many waits of the gate it was left alone meanwhile.
    left: u32,
    /// Whether there was a reason that the last group took no turn of it, or took one.
    was_busy: bool,
    /// Whether its issuer's answer was there, and was to be taken by the last group.
    was_heard: bool,
}

impl Watch {
    /// It didn't wait yet.
    pub(crate) fn new() -> Watch {
        Watch {
            waits: 0,
            woken: 0,
            left: 0,
            was_busy: true,
            was_heard: false,
        }
    }

    /// Sees how often its stream said that it would wait, whether a turn is ready, whether
    /// something is to be written, and whether the turn is its issuer's answer, before a round
    /// reads; and returns whether the last group left it out. Since nothing is read between that
    /// group and now, a message that is ready now was so then, unless it waited for a reply to be
    /// written. An answer may have come in between.
    pub(crate) fn see(
        &mut self,
        waits: u64,
        is_ready: bool,
        is_writing: bool,
        is_heard: bool,
    ) -> bool {
        let was_left_out = if is_heard {
            self.was_heard
        } else {
            is_ready && !self.was_busy
        };
        self.waits = waits;
        self.was_busy = is_writing;
        self.was_heard = is_heard;
        was_left_out
    }

    /// A turn of it was taken. Returns whether that was its issuer's answer.
    pub(crate) fn serve(&mut self) -> bool {
        let is_answer = self.was_heard;
        self.was_busy = true;
        self.was_heard = false;
        is_answer
    }

    /// Whether its stream waits.
    pub(crate) fn is_waiting(&self) -> bool {
        self.waits != self.woken
    }

    /// Whether it is woken now: where it is drawn, or where it waited long.
    pub(crate) fn is_woken(&mut self, is_drawn: bool) -> bool {
        if is_drawn || self.left >= MOST_WAITS {
            self.woken = self.waits;
            self.left = 0;
            return true;
        }
        self.left += 1;
        false
    }
}
