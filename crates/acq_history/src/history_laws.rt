//! What every history keeps.

ghost use Rattle.std.specs.Prelude.{◌≡◌, ◌↔◌, true};
ghost use Rattle.acq_message.specs.declared.request_key.RequestKey.{RequestKey};
ghost use Rattle.acq_message.specs.Elements.{same_key};
ghost use Rattle.acq_history.specs.HistoryLaws.{ReferencesCountUp, RequestsPostToday};
ghost use Rattle.acq_history.specs.LookUps.{LookUpsSuffice};

/// Two keys are the same exactly where they are one, so a history finds no other request under a
/// key.
pub fn same_keys_are_one()
    ensures { (a b : RequestKey) → (same_key a b ≡ true) ↔ (a ≡ b) }
{}

/// The references of a merchant count up from its first: one more after each admitted request.
pub fn references_count_up()
    ensures { ReferencesCountUp }
{}

/// What a request posts is of the day on which it came; only an approval posts to an earlier day.
pub fn requests_post_today()
    ensures { RequestsPostToday }
{}

/// What is looked up for an event suffices: to look up all that it names changes neither what is
/// decided, nor what comes of it, nor what it changes.
pub fn look_ups_suffice()
    ensures { LookUpsSuffice }
{}
