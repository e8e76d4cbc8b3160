//! Laws of what texts say, and worked rows of the definitions.

ghost use Rattle.std.specs.Prelude.{◌≡◌, ◌++◌, ◌∷◌, [], ℕ, List, Ok, Err, None, Some, true, codes};
ghost use Rattle.std.specs.List.{All, list_all};
ghost use Rattle.iso_codec.specs.declared.set_fault.SetFault.TheVariants.{BadContent, BadLength};
ghost use Rattle.iso_codec.specs.declared.set_fault.SetFault.TheVariants.{UnknownElement};
ghost use Rattle.iso_codec.specs.Message.{IsMessage, IsoMessage};
ghost use Rattle.iso_codec.specs.Reading.{spelling};
ghost use Rattle.acq_link.specs.Frames.{fits_frame};
ghost use Rattle.acq_show.specs.Shown.{shown};
ghost use Rattle.acq_make.specs.declared.make_fault.MakeFault.TheVariants.{BadLine, BadMessage};
ghost use Rattle.acq_make.specs.Contents.{content_said};
ghost use Rattle.acq_make.specs.Lines.{said_text};
ghost use Rattle.acq_make.specs.Said.{IsSent, messages_said};
ghost use Rattle.acq_make.specs.WrittenOut.{is_open, is_writable, written_out};

/// What is shown of a message, with what is hidden there written whole, says that message: of each
/// whose contents can be printed and that a frame can have. So does what is shown of one that has
/// nothing to hide.
pub fn what_is_shown_says_the_message()
    ensures whole { (m : IsoMessage) → IsMessage m → list_all is_writable m.elements ≡ true
        → fits_frame (spelling m) ≡ true → messages_said (written_out m) ≡ Ok (m ∷ []) }
    ensures shown { (m : IsoMessage) → IsMessage m → list_all is_open m.elements ≡ true
        → fits_frame (spelling m) ≡ true → messages_said (shown (spelling m)) ≡ Ok (m ∷ []) }
{}

/// What a text says are messages, each of which a frame can have.
pub fn texts_say_messages()
    ensures { (text : List ℕ) (messages : List IsoMessage) → messages_said text ≡ Ok messages
        → All IsSent messages }
{}

/// What texts say.
pub fn worked_texts()
    ensures echo { messages_said (codes "0800\n7 0101120000\n11 000001\n70 301\n")
        ≡ Ok (record {
          kind = codes "0800";
          elements =
              (7, codes "0101120000") ∷ (11, codes "000001") ∷ (70, codes "301") ∷ [];
        } ∷ []) }
    ensures two { messages_said (codes "# none\n0600\r\n\n 0810 echo\n  39 00: approved\n11  000001")
        ≡ Ok (record { kind = codes "0600"; elements = [] }
        ∷ record {
          kind = codes "0810";
          elements = (11, codes "000001") ∷ (39, codes "00") ∷ [];
        } ∷ []) }
    ensures none { messages_said (codes "\n# none\n") ≡ Ok [] }
    ensures words { messages_said (codes "0800\ntrace 000001\n") ≡ Err (BadLine 2) }
    ensures of_none { messages_said (codes "11 000001\n0800\n") ≡ Err (BadLine 1) }
    ensures behind { messages_said (codes "0800\n\n11 000001\n") ≡ Err (BadLine 3) }
    ensures twice { messages_said (codes "0800\n11 000001\n11 000001\n") ≡ Err (BadLine 3) }
    ensures no_type { messages_said (codes "080A\n") ≡ Err (BadLine 1) }
    ensures beyond { messages_said (codes "0800\n129 1\n") ≡ Err (BadLine 2) }
    ensures unknown { messages_said (codes "0800\n65 1\n") ≡ Err (BadMessage 2 (UnknownElement 65)) }
    ensures length { messages_said (codes "0800\n11 1\n") ≡ Err (BadMessage 2 (BadLength 11)) }
    ensures mask { messages_said (codes "0200\n2 411111******1111\n")
        ≡ Err (BadMessage 2 (BadContent 2)) }
{}

/// What contents are said.
pub fn worked_contents()
    ensures code { content_said 39 (codes "51: not sufficient funds") ≡ Some (codes "51") }
    ensures other { content_said 38 (codes "51: not") ≡ Some (codes "51: not") }
    ensures original { content_said 90
        (codes "type 0200, trace number 000001, transmitted 0501093000, "
        ++ codes "acquirer 00000012345, forwarder 00000000000")
        ≡ Some (codes "0200" ++ codes "000001" ++ codes "0501093000" ++ codes "00000012345"
        ++ codes "00000000000") }
    ensures hidden { content_said 45 (codes "(length 5, not shown)") ≡ None }
    ensures column { said_text 41 (codes "   41  terminal                            TERM0001")
        ≡ codes "  TERM0001" }
    ensures number { said_text 41 (codes "41 terminal  TERM0001 ") ≡ codes "terminal  TERM0001 " }
{}
