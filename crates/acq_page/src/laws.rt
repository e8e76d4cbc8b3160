//! What no text can do to a page.

ghost use Rattle.std.specs.Prelude.{◌≡◌, ℕ, List, true};
ghost use Rattle.std.specs.List.{list_all};
ghost use Rattle.acq_page.specs.Pages.{escaped, opens_nothing};

/// Whatever a text says, as it stands in a page it opens and ends no tag, and no value of one.
pub fn texts_open_nothing()
    ensures { (text : List ℕ) → list_all opens_nothing (escaped text) ≡ true }
{}
