//! How messages are shown.

use acq_json::CardForm;

/// How messages are shown.
#[derive(Clone, Copy)]
pub enum ShownForm {
    /// As text for a person, behind each an empty line.
    Text,
    /// As JSON for a program, an object on its line each, with cards in this form.
    Json(CardForm),
}
