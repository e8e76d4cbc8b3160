//! What the program was asked for.

/// The words of a command line, the program's own name first.
#[derive(Clone, Copy)]
pub struct Asked<'a> {
    words: &'a [String],
}

impl<'a> Asked<'a> {
    /// By these words.
    pub fn new(words: &'a [String]) -> Asked<'a> {
        Asked { words }
    }

    /// The command.
    pub fn command(self) -> &'a str {
        match self.words.get(1) {
            Some(word) => word.as_str(),
            None => "",
        }
    }

    /// The path of the control socket that `tell` or `ranges` takes.
    pub(crate) fn control_path(self) -> Option<&'a str> {
        match self.command() {
            "ranges" => self.value("--control"),
            _ => self.path(),
        }
    }

    /// The path that `tell` takes, which is no option's value.
    pub(crate) fn path(self) -> Option<&'a str> {
        let mut is_value = false;
        for word in self.words.iter().skip(2) {
            if !is_value && !word.as_str().starts_with("--") {
                return Some(word.as_str());
            }
            is_value = !is_value && !word.as_str().contains('=');
        }
        None
    }

    /// The value of an option, which stands behind it or behind its `=`.
    pub fn value(self, option: &str) -> Option<&'a str> {
        let mut is_value = false;
        for word in self.words.iter() {
            if is_value {
                return Some(word.as_str());
            }
            if let Some(rest) = word.as_str().strip_prefix(option) {
                if rest.starts_with('=') {
                    return rest.strip_prefix('=');
                }
                is_value = rest.is_empty();
            }
        }
        None
    }
}
