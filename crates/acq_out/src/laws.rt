//! Worked rows of the definitions.

ghost use Rattle.std.specs.Prelude.{◌≡◌, [], ◌∷◌, None, Ok, Err, codes};
ghost use Rattle.acq_core.specs.declared.event.Event.TheVariants as event;
ghost use Rattle.acq_core.specs.declared.output.Output.TheVariants as output;
ghost use Rattle.acq_message.specs.declared.verdict.Verdict.TheVariants as verdict;
ghost use Rattle.iso_codec.specs.declared.decode_fault.DecodeFault.TheVariants as fault;
ghost use Rattle.acq_out.specs.EventLines.{events_of_text};
ghost use Rattle.acq_out.specs.OutputLines.{line_of};
ghost use Rattle.acq_out.specs.Worked.{worked_query, worked_range};

/// Event lines, computed.
pub fn worked_event_lines()
    ensures none { events_of_text [] ≡ Ok [] }
    ensures frame { events_of_text (codes "frame,1714555800,30380a4F,,,\n")
        ≡ Ok (event.Frame 1714555800 (48 ∷ 56 ∷ 10 ∷ 79 ∷ []) ∷ []) }
    ensures empty_frame { events_of_text (codes "frame,0946684800,,,,\n")
        ≡ Ok (event.Frame 946684800 [] ∷ []) }
    ensures approved { events_of_text (codes "answer,1714555801,SHOP,1,approved,A1B2C3\n")
        ≡ Ok (event.Answer 1714555801 (codes "SHOP           ") 1
        (verdict.Approved (codes "A1B2C3")) ∷ []) }
    ensures declined { events_of_text (codes "answer,1714555801,SHOP,000,declined,51")
        ≡ Ok (event.Answer 1714555801 (codes "SHOP           ") 0
        (verdict.Declined (codes "51")) ∷ []) }
    ensures no_answer { events_of_text
        (codes "answer,1714555801,MERCHANT0000001,000000000001,none,")
        ≡ Ok (event.Answer 1714555801 (codes "MERCHANT0000001") 1 verdict.NoAnswer ∷ []) }
    ensures cutover { events_of_text (codes "cutover,4102444799,,,,\n")
        ≡ Ok (event.Cutover 4102444799 ∷ []) }
    ensures ranges { events_of_text
        (codes "addrange,00499900,49999999,012345,07,\ndroprange,00499900,49999999,,,\n")
        ≡ Ok (event.AddRange worked_range ∷ event.DropRange 499900 49999999 ∷ []) }
    ensures names { events_of_text
        (codes "enrol,SHOP,978,900000000000,,\r\nterminal,SHOP,T 1,,,\r\n")
        ≡ Ok (event.Enrol (codes "SHOP           ") (codes "978") 900000000000
        ∷ event.AddTerminal (codes "SHOP           ") (codes "T 1     ") ∷ []) }
    ensures mark { events_of_text (0xEF ∷ 0xBB ∷ 0xBF ∷ codes "cutover,946684800,,,,\n")
        ≡ Ok (event.Cutover 946684800 ∷ []) }
{}

/// Lines out of their form, computed.
pub fn worked_bad_lines()
    ensures second { events_of_text (codes "cutover,946684800,,,,\ncutover,946684800,,,\n")
        ≡ Err 2 }
    ensures first { events_of_text (codes "Cutover,946684800,,,,\ncutover,946684800,,,\n")
        ≡ Err 1 }
    ensures unused { events_of_text (codes "cutover,946684800,,,, \n") ≡ Err 1 }
    ensures early { events_of_text (codes "cutover,946684799,,,,\n") ≡ Err 1 }
    ensures odd { events_of_text (codes "frame,946684800,303,,,\n") ≡ Err 1 }
    ensures no_name { events_of_text (codes "terminal,,T,,,\n") ≡ Err 1 }
    ensures long_name { events_of_text (codes "terminal,SHOP,123456789,,,\n") ≡ Err 1 }
    ensures zero { events_of_text (codes "enrol,SHOP,978,0,,\n") ≡ Err 1 }
    ensures code_00 { events_of_text (codes "answer,946684800,SHOP,1,declined,00\n") ≡ Err 1 }
    ensures six_digits { events_of_text (codes "droprange,400000,499999,,,\n") ≡ Err 1 }
{}

/// Output lines, computed.
pub fn worked_output_lines()
    ensures reply { line_of (output.Reply None (codes "0810")) ≡ codes "reply 0810\n" }
    ensures ask { line_of (output.Ask worked_query)
        ≡ codes "ask MERCHANT0000001 000000000001 411111******1111 1000 12345\n" }
    ensures done { line_of output.Done ≡ codes "done\n" }
    ensures overlap { line_of (output.Overlap worked_range)
        ≡ codes "refused 21 00499900 49999999\n" }
    ensures undecodable { line_of (output.Undecodable (fault.UnknownElement 65))
        ≡ codes "refused 30 4 65\n" }
    ensures empty_frame { line_of (output.Undecodable (fault.Truncated 0))
        ≡ codes "refused 30 5 0\n" }
    ensures unserved { line_of (output.UnservedType (codes "0420")) ≡ codes "refused 31 0420\n" }
    ensures late { line_of output.Late ≡ codes "refused 33\n" }
{}
