//! Laws of what is held of what came.

ghost use Rattle.std.specs.Prelude.{◌≡◌, ◌↔◌, ℕ, List, [], true};
ghost use Rattle.acq_control.specs.Lines.{IsInLine};
ghost use Rattle.acq_control.specs.Held.{Held, Holds, is_nothing, nothing};

/// What is held of a line that is too long says as much of what came as that would say itself.
pub fn held_tells()
    // At first nothing came.
    ensures first { Holds nothing [] }
    // Nothing is held exactly where no byte came that belongs to no line yet.
    ensures none { (held : Held) (bytes : List ℕ) → Holds held bytes
        → (is_nothing held ≡ true) ↔ (bytes ≡ []) }
    // No line ends in what is kept exactly where none ends in what came.
    ensures within { (held : Held) (bytes : List ℕ) → Holds held bytes
        → IsInLine held.kept ↔ IsInLine bytes }
    // Whatever is held, some bytes may have come.
    ensures some { (held : Held) → (bytes : List ℕ) × Holds held bytes }
{}
