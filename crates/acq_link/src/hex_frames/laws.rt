//! Worked rows of the definitions.

ghost use Rattle.std.specs.Prelude.{◌≡◌, [], ◌∷◌, Ok, Err, codes};
ghost use Rattle.acq_link.specs.HexLines.{messages_of_text};

/// Texts of hexadecimal lines, computed.
pub fn worked_hex_lines()
    ensures none { messages_of_text [] ≡ Ok [] }
    ensures one { messages_of_text (codes "3038\n") ≡ Ok (codes "08" ∷ []) }
    ensures two { messages_of_text (codes "3038\r\n\n3a\n") ≡ Ok (codes "08" ∷ codes ":" ∷ []) }
    ensures no_line_feed { messages_of_text (codes "4a\n4B") ≡ Ok (codes "J" ∷ codes "K" ∷ []) }
    ensures empty_lines { messages_of_text (codes "\n\r\n") ≡ Ok [] }
    ensures second { messages_of_text (codes "30\n3\n") ≡ Err 2 }
    ensures behind_empty { messages_of_text (codes "\n\n3g\nzz") ≡ Err 3 }
    ensures first { messages_of_text (codes "zz") ≡ Err 1 }
    ensures two_returns { messages_of_text (codes "30\r\r\n") ≡ Err 1 }
{}
