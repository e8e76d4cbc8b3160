//! How messages that are to be made are said.

/// How messages that are to be made are said.
#[derive(Clone, Copy)]
pub enum SaidForm {
    /// By lines, as a person is shown them.
    Lines,
    /// By an object of JSON on its line each.
    Json,
}
