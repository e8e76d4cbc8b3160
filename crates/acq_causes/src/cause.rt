//! What a fault is about.

use std::alloc::Global;

/// What a fault is about, in words: a path, an address or an option, if it is about one, and what
/// is wrong with it.
#[derive(Drop)]
pub struct Cause {
    pub about: Option<String>,
    pub words: &'static str,
}

impl Cause {
    /// A cause that is about nothing that has a name.
    pub(crate) fn plain(words: &'static str) -> Cause {
        Cause { about: None, words }
    }

    /// A cause that is about this. Where memory runs out the words alone stand.
    pub(crate) fn about(alloc: Global, about: &str, words: &'static str) -> Cause {
        Cause {
            about: String::from_str(alloc, about).ok(),
            words,
        }
    }

    /// A cause that is about the value of an option, if it was given.
    pub(crate) fn of_value(alloc: Global, value: Option<&str>, words: &'static str) -> Cause {
        match value {
            Some(value) => Cause::about(alloc, value, words),
            None => Cause::plain(words),
        }
    }
}
