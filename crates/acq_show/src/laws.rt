//! Laws of what is shown, and worked rows of the definitions.

ghost use Rattle.std.specs.Prelude.{◌≡◌, ◌++◌, ◌∷◌, [], ℕ, List, Ok, Err, None, Some, true, false};
ghost use Rattle.std.specs.Prelude.{codes};
ghost use Rattle.iso_codec.specs.declared.decode_fault.DecodeFault.{DecodeFault};
ghost use Rattle.iso_codec.specs.Message.{IsoMessage};
ghost use Rattle.iso_codec.specs.Reading.{reading_of};
ghost use Rattle.iso_codec.specs.FaultPlaces.{fault_place};
ghost use Rattle.iso_codec.specs.Examples.{echo_request_text};
ghost use Rattle.acq_message.specs.FirstCheck.{is_malformed};
ghost use Rattle.acq_message.specs.declared.service.Service.{Service};
ghost use Rattle.acq_message.specs.declared.service.Service.TheVariants.{NetworkManagement};
ghost use Rattle.acq_show.specs.Contents.{content_shown};
ghost use Rattle.acq_show.specs.Hidden.{DifferHidden, EachDiffersHidden};
ghost use Rattle.acq_show.specs.Lines.{lines_shown};
ghost use Rattle.acq_show.specs.Remarks.{first_remark, remark_on};
ghost use Rattle.acq_show.specs.Shown.{shown};

/// What is shown depends on no more of a card number than its length, its first six and its last
/// four digits; of track 2 on no more than that and the length behind; and of track 1, a PIN block
/// and chip data on the length alone. Of a text that spells no message it depends on the fault and
/// its place alone.
pub fn no_card_is_shown()
    ensures content { (n : ℕ) (content other : List ℕ) → DifferHidden n content other
        → content_shown n content ≡ content_shown n other }
    ensures message { (text other : List ℕ) (m n : IsoMessage) → reading_of text ≡ Ok m
        → reading_of other ≡ Ok n → m.kind ≡ n.kind → EachDiffersHidden m.elements n.elements
        → shown text ≡ shown other }
    ensures fault { (text other : List ℕ) (f : DecodeFault) → reading_of text ≡ Err f
        → reading_of other ≡ Err f → fault_place text f ≡ fault_place other f
        → shown text ≡ shown other }
{}

/// Where the host's first check passes a request, nothing is remarked on it.
pub fn remarks_are_refusals()
    ensures { (service : Service) (m : IsoMessage) → is_malformed service m ≡ false
        → remark_on service m ≡ [] }
{}

/// What is remarked on requests.
pub fn worked_remarks()
    ensures missing { remark_on NetworkManagement
        (record {
          kind = codes "0800";
          elements = (7, codes "0101120000") ∷ (70, codes "301") ∷ [];
        })
        ≡ codes "the host replies 30: element 11, trace number, is missing\n" }
    ensures card { first_remark None false (Some 52)
        ≡ codes "the host replies 30: neither element 2 nor 35 is there\n" }
    ensures block { first_remark None true (Some 52)
        ≡ codes "the host replies 30: element 52, PIN block, is there, and can't be checked\n" }
{}

/// What is shown of contents.
pub fn worked_contents()
    ensures card { content_shown 2 (codes "4111111111111111") ≡ codes "411111******1111" }
    ensures least { content_shown 2 (codes "4222222222222") ≡ codes "422222***2222" }
    ensures short { content_shown 2 (codes "79927398713") ≡ codes "***********" }
    ensures track { content_shown 35 (codes "4111111111111111=2912")
        ≡ codes "411111******1111=****" }
    ensures no_number { content_shown 35 (codes "4111<2912") ≡ codes "*********" }
    ensures block { content_shown 52 (codes "0123456789ABCDEF")
        ≡ codes "(length 16, not shown)" }
    ensures bytes { content_shown 48 (codes "a\nb~") ≡ codes "a.b~" }
    ensures amounts { content_shown 95
        (codes "000000003000" ++ codes "000000000000" ++ codes "C00000000" ++ codes "C00000000")
        ≡ codes "amount 000000003000, settlement amount 000000000000, "
        ++ codes "fee C00000000, settlement fee C00000000" }
    ensures original { content_shown 90
        (codes "0200" ++ codes "000001" ++ codes "0501093000" ++ codes "00000012345"
        ++ codes "00000000000")
        ≡ codes "type 0200, trace number 000001, transmitted 0501093000, "
        ++ codes "acquirer 00000012345, forwarder 00000000000" }
    ensures transaction { content_shown 3 (codes "200030") ≡ codes "200030: return" }
    ensures response { content_shown 39 (codes "51") ≡ codes "51: not sufficient funds" }
    ensures unknown { content_shown 39 (codes "Z9") ≡ codes "Z9" }
    ensures settlement { content_shown 66 (codes "2") ≡ codes "2: out of balance" }
    ensures network { content_shown 70 (codes "001") ≡ codes "001: sign-on" }
{}

/// What is shown of an echo test, and of texts that are no messages.
pub fn worked_texts()
    ensures echo { shown echo_request_text ≡ codes "0800 network management request\n"
        ++ codes "    7  transmission date and time        0101120000\n"
        ++ codes "   11  trace number                      000001\n"
        ++ codes "   70  network management code           301: echo test\n" }
    ensures bit_65 { shown (codes "0800" ++ codes "8220000000000000"
        ++ codes "8400000000000000" ++ codes "0101120000" ++ codes "000001" ++ codes "301")
        ≡ codes "not a message: element 65 is not in the profile (fault 4 65), at byte 20\n" }
    ensures short { shown (codes "08")
        ≡ codes "not a message: the text ends in element 0 (fault 5 0), at byte 2\n" }
{}

/// What is shown of lines.
pub fn worked_lines()
    ensures reply { lines_shown (codes "reply " ++ echo_request_text ++ codes "\r\n")
        ≡ codes "reply\n" ++ shown echo_request_text ++ codes "\n" }
    ensures frame { lines_shown (codes "frame,1714546800,3038,,,\n")
        ≡ codes "frame,1714546800\n"
        ++ codes "not a message: the text ends in element 0 (fault 5 0), at byte 2\n\n" }
    ensures no_digits { lines_shown (codes "frame,now,0g") ≡ codes "frame,now\n"
        ++ codes "not a message: no hexadecimal digits\n\n" }
    ensures others { lines_shown (codes "done\nrefused 30 4 65\ncutover,1714608000,,,,\n")
        ≡ codes "done\nrefused 30 4 65\ncutover,1714608000,,,,\n" }
    ensures unknown { lines_shown (codes "\n\"frame\",4111111111111111\n")
        ≡ codes "\n(length 24, not shown)\n" }
    ensures returns { lines_shown (codes "done\rframe,1,34\n") ≡ codes "(length 15, not shown)\n" }
{}
