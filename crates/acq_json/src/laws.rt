//! Laws of messages as JSON, and worked rows of the definitions.

ghost use Rattle.std.specs.Prelude.{◌≡◌, ◌∷◌, ◌++◌, [], ℕ, List, Ok, Err, codes, true};
ghost use Rattle.std.specs.List.{list_all};
ghost use Rattle.iso_codec.specs.declared.decode_fault.DecodeFault.{DecodeFault};
ghost use Rattle.iso_codec.specs.declared.set_fault.SetFault.TheVariants.{BadContent, BadLength};
ghost use Rattle.iso_codec.specs.declared.set_fault.SetFault.TheVariants.{UnknownElement};
ghost use Rattle.iso_codec.specs.FaultPlaces.{fault_place};
ghost use Rattle.iso_codec.specs.Message.{IsoMessage};
ghost use Rattle.iso_codec.specs.Reading.{reading_of, spelling};
ghost use Rattle.acq_show.specs.Hidden.{DifferHidden, EachDiffersHidden};
ghost use Rattle.acq_make.specs.declared.make_fault.MakeFault.TheVariants.{BadLine, BadMessage};
ghost use Rattle.acq_make.specs.Said.{IsSent};
ghost use Rattle.acq_json.specs.declared.card_form.CardForm.{CardForm};
ghost use Rattle.acq_json.specs.declared.card_form.CardForm.TheVariants.{Masked, Whole};
ghost use Rattle.acq_json.specs.Lines.{json_lines};
ghost use Rattle.acq_json.specs.Said.{is_open, messages_said};
ghost use Rattle.acq_json.specs.Written.{content_in, json_line};

/// The line of a message that a frame can have, written whole and read back, says that message,
/// unless a content of 45 or 55 begins as what is shown in place of one.
pub fn whole_lines_say_the_message()
    ensures { (m : IsoMessage) → IsSent m → list_all is_open m.elements ≡ true
        → messages_said (json_line Whole (spelling m)) ≡ Ok (m ∷ []) }
{}

/// A masked line depends on no more of a card number than its length, its first six and its last
/// four digits; of track 2 on no more than that and the length behind; and of track 1, a PIN block
/// and chip data on the length alone. A fault's line depends on the fault and its place alone.
pub fn no_card_is_written()
    ensures content { (n : ℕ) (content other : List ℕ) → DifferHidden n content other
        → content_in Masked n content ≡ content_in Masked n other }
    ensures message { (text other : List ℕ) (m n : IsoMessage) → reading_of text ≡ Ok m
        → reading_of other ≡ Ok n → m.kind ≡ n.kind → EachDiffersHidden m.elements n.elements
        → json_line Masked text ≡ json_line Masked other }
    ensures fault { (form : CardForm) (text other : List ℕ) (f : DecodeFault)
        → reading_of text ≡ Err f → reading_of other ≡ Err f
        → fault_place text f ≡ fault_place other f
        → json_line form text ≡ json_line form other }
{}

/// The line of a sale, masked and whole, and those of other texts.
pub fn worked_lines()
    ensures masked { json_line Masked
        (codes "0200" ++ codes "7000000000001000" ++ codes "164111111111111111"
        ++ codes "000000" ++ codes "000000001250" ++ codes "0123456789ABCDEF")
        ≡ codes "{\"type\":\"0200\",\"elements\":{\"2\":\"411111******1111\","
        ++ codes "\"3\":\"000000\",\"4\":\"000000001250\",\"52\":\"(length 16, not shown)\"}}\n" }
    ensures whole { json_line Whole
        (codes "0200" ++ codes "7000000000001000" ++ codes "164111111111111111"
        ++ codes "000000" ++ codes "000000001250" ++ codes "0123456789ABCDEF")
        ≡ codes "{\"type\":\"0200\",\"elements\":{\"2\":\"4111111111111111\","
        ++ codes "\"3\":\"000000\",\"4\":\"000000001250\",\"52\":\"0123456789ABCDEF\"}}\n" }
    ensures bytes { json_line Masked
        (codes "0800" ++ codes "0000000000010000" ++ codes "003" ++ 34 ∷ 10 ∷ 233 ∷ [])
        ≡ codes "{\"type\":\"0800\",\"elements\":{\"48\":\"\\\"\\n" ++ 195 ∷ 169 ∷ []
        ++ codes "\"}}\n" }
    ensures short { json_line Masked (codes "08")
        ≡ codes "{\"fault\":5,\"element\":0,\"at\":2,"
        ++ codes "\"text\":\"the text ends in element 0\"}\n" }
    ensures lines { json_lines Masked (codes "done\nframe,1714546800,3038,,,\nframe,now,0g\r\n")
        ≡ json_line Masked (codes "08")
        ++ codes "{\"fault\":0,\"element\":0,\"at\":0,\"text\":\"no hexadecimal digits\"}\n" }
    ensures reply { json_lines Whole (codes "reply 08\r\n\ndone\n") ≡ json_line Whole (codes "08") }
{}

/// What lines say.
pub fn worked_messages()
    ensures echo { messages_said (codes "\n { \"elements\" : {\"70\":\"301\", \"11\":\"000001\"}, "
        ++ codes "\"type\":\"0800\" }\r\n")
        ≡ Ok (record {
          kind = codes "0800";
          elements = (11, codes "000001") ∷ (70, codes "301") ∷ [];
        } ∷ []) }
    ensures bytes { messages_said
        (codes "{\"type\":\"0800\",\"elements\":{\"48\":\"\\u0000\\u00e9\"}}")
        ≡ Ok (record { kind = codes "0800"; elements = (48, 0 ∷ 233 ∷ []) ∷ [] } ∷ []) }
    ensures none { messages_said (codes "  \n\r\n") ≡ Ok [] }
    ensures no_json { messages_said (codes "\n0800\n") ≡ Err (BadLine 2) }
    ensures no_type { messages_said (codes "{\"elements\":{}}") ≡ Err (BadLine 1) }
    ensures bad_type { messages_said (codes "{\"type\":\"080A\",\"elements\":{}}")
        ≡ Err (BadLine 1) }
    ensures more { messages_said (codes "{\"type\":\"0800\",\"elements\":{},\"at\":0}")
        ≡ Err (BadLine 1) }
    ensures twice { messages_said
        (codes "{\"type\":\"0800\",\"elements\":{\"11\":\"000001\",\"11\":\"000001\"}}")
        ≡ Err (BadLine 1) }
    ensures zero { messages_said (codes "{\"type\":\"0800\",\"elements\":{\"011\":\"000001\"}}")
        ≡ Err (BadLine 1) }
    ensures beyond { messages_said (codes "{\"type\":\"0800\",\"elements\":{\"129\":\"1\"}}")
        ≡ Err (BadLine 1) }
    ensures number { messages_said (codes "{\"type\":\"0800\",\"elements\":{\"11\":1}}")
        ≡ Err (BadLine 1) }
    ensures wide { messages_said (codes "{\"type\":\"0800\",\"elements\":{\"48\":\"\\u0100\"}}")
        ≡ Err (BadLine 1) }
    ensures hidden { messages_said
        (codes "{\"type\":\"0200\",\"elements\":{\"45\":\"(length 5, not shown)\"}}")
        ≡ Err (BadLine 1) }
    ensures mask { messages_said
        (codes "{\"type\":\"0200\",\"elements\":{\"2\":\"411111******1111\"}}")
        ≡ Err (BadMessage 1 (BadContent 2)) }
    ensures unknown { messages_said (codes "{\"type\":\"0800\",\"elements\":{\"65\":\"1\"}}")
        ≡ Err (BadMessage 1 (UnknownElement 65)) }
    ensures length { messages_said (codes "{\"type\":\"0800\",\"elements\":{\"11\":\"1\"}}")
        ≡ Err (BadMessage 1 (BadLength 11)) }
{}
