//! Laws of frames.

ghost use Rattle.std.specs.Prelude.{◌≡◌, ◌⊎◌, ℕ, List, [], ◌∷◌, ◌++◌, true, false, replicate};
ghost use Rattle.acq_link.specs.Frames.{Frames, FramesThen, frame, fits_frame, framed, has_frame};
ghost use Rattle.acq_link.specs.Frames.{has_bad_length, is_partial};

/// Bytes are the frames of one list of messages at most.
pub fn frames_are_of_one_list()
    ensures { (bytes : List ℕ) (messages others : List (List ℕ))
        → Frames bytes messages → Frames bytes others → messages ≡ others }
{}

/// So far as whole frames stand in front, bytes are of one list of messages, and one rest, at most.
pub fn frames_and_rest_are_one()
    ensures { (bytes : List ℕ) (messages others : List (List ℕ)) (rest after : List ℕ)
        → FramesThen bytes messages rest → FramesThen bytes others after
        → has_frame rest ≡ false → has_frame after ≡ false
        → (messages ≡ others) × (rest ≡ after) }
{}

/// Behind the last whole frame stands nothing, a frame that is begun, or a bad length, and one of
/// these alone.
pub fn rest_is_one_of_three()
    ensures some { (rest : List ℕ) → has_frame rest ≡ false
        → (rest ≡ []) ⊎ ((is_partial rest ≡ true) ⊎ (has_bad_length rest ≡ true)) }
    ensures part { (rest : List ℕ) → is_partial rest ≡ true
        → (has_frame rest ≡ false) × (has_bad_length rest ≡ false) }
    ensures bad { (rest : List ℕ) → has_bad_length rest ≡ true → has_frame rest ≡ false }
{}

/// The length bytes of some messages, and how bytes that are no frame begin.
pub fn worked_frames()
    ensures short { frame (7 ∷ []) ≡ 0 ∷ 1 ∷ 7 ∷ [] }
    ensures page { frame (replicate 122 48) ≡ 0 ∷ 0x7A ∷ replicate 122 48 }
    ensures longest { frame (replicate 4096 48) ≡ 16 ∷ 0 ∷ replicate 4096 48 }
    ensures greatest { fits_frame (replicate 4096 48) ≡ true }
    ensures too_long { fits_frame (replicate 4097 48) ≡ false }
    ensures empty { fits_frame [] ≡ false }
    ensures two { framed ((5 ∷ []) ∷ (6 ∷ 7 ∷ []) ∷ []) ≡ 0 ∷ 1 ∷ 5 ∷ 0 ∷ 2 ∷ 6 ∷ 7 ∷ [] }
    ensures length_0 { has_bad_length (0 ∷ 0 ∷ []) ≡ true }
    ensures length_4097 { has_bad_length (16 ∷ 1 ∷ []) ≡ true }
    ensures length_4096 { has_bad_length (16 ∷ 0 ∷ []) ≡ false }
    ensures one_byte { is_partial (255 ∷ []) ≡ true }
    ensures cut { is_partial (0 ∷ 2 ∷ 5 ∷ []) ≡ true }
    ensures whole { is_partial (0 ∷ 1 ∷ 5 ∷ []) ≡ false }
{}
