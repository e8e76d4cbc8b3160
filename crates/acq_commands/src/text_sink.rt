//! Text into a sink.

use acq_link::{Sink, write_out};
use std::fmt;

/// Writes text to a sink as it is formatted, and takes no memory.
#[derive(Drop)]
pub struct TextSink<'a, K> {
    sink: &'a mut K,
}

impl<'a, K> TextSink<'a, K> {
    /// What is written to it goes to this sink.
    pub fn new(sink: &'a mut K) -> TextSink<'a, K> {
        TextSink { sink }
    }
}

impl<K: Sink> fmt::Write for TextSink<'_, K> {
    ghost use Rattle.std.specs.Prelude.{◌≡◌, ◌++◌};

    ghost write_str_gives = { λ old text new.
        K.sent new.sink.now ≡ K.sent old.sink.now ++ text };

    fn write_str(&mut self, text: &str) -> fmt::Result {
        write_out(self.sink, text.as_bytes()).map_err(|_| fmt::Error)
    }
}
