//! Laws of the changes of ranges, over the definitions alone, and worked rows computed on them.

ghost use Rattle.std.specs.Prelude.{◌≡◌, ◌++◌, true, List, [], ◌∷◌, codes, flat_map};
ghost use Rattle.std.specs.List.{All};
ghost use Rattle.card_no.specs.declared.range.Range.{Range};
ghost use Rattle.card_no.specs.Ranges.{are_ranges};
ghost use Rattle.card_no.specs.Worked.{second_range};
ghost use Rattle.acq_core.specs.declared.event.Event.TheVariants.{AddRange, DropRange};
ghost use Rattle.acq_core.specs.declared.output.Output.TheVariants.{Done};
ghost use Rattle.acq_core.specs.Tables.{Tables, outputs, tables_after};
ghost use Rattle.acq_range_changes.specs.Changes.{changes_between, changes_to};
ghost use Rattle.acq_range_changes.specs.Lines.{change_line};
ghost use Rattle.acq_range_changes.specs.Worked.{held_longer, new_range, three_tables, worked_list};
ghost use Rattle.acq_range_changes.specs.Worked.{lower_half, split_list, third_range, upper_half};

/// Taken in their order by a book with these ranges, none of the changes is refused, and behind
/// them the list is the book's ranges; nothing else of the tables changes.
pub fn the_list_becomes_the_ranges()
    ensures ranges { (t : Tables) (list : List Range)
        → are_ranges t.ranges ≡ true → are_ranges list ≡ true
        → tables_after t (changes_to list t) ≡ record t { ranges = list } }
    ensures taken { (t : Tables) (list : List Range)
        → are_ranges t.ranges ≡ true → are_ranges list ≡ true
        → All (λ output. output ≡ Done) (outputs t (changes_to list t)) }
{}

/// To a list that is the book's ranges already there is nothing to change.
pub fn nothing_to_change()
    ensures { (t : Tables) → are_ranges t.ranges ≡ true → changes_to t.ranges t ≡ [] }
{}

/// Changes of a book's three ranges to those of a list, computed.
pub fn worked_changes()
    ensures events { changes_to worked_list three_tables
        ≡ AddRange new_range ∷ DropRange 50000000 59999999 ∷ AddRange held_longer
        ∷ DropRange 60000000 69999999 ∷ [] }
    ensures lines { flat_map change_line (changes_to worked_list three_tables)
        ≡ codes "addrange,00001000,00001999,012345,2,\ndroprange,50000000,59999999,,,\n"
        ++ codes "addrange,50000000,59999999,67890,10,\ndroprange,60000000,69999999,,,\n" }
    ensures taken { outputs three_tables (changes_to worked_list three_tables)
        ≡ Done ∷ Done ∷ Done ∷ Done ∷ [] }
    ensures ranges { tables_after three_tables (changes_to worked_list three_tables)
        ≡ record three_tables { ranges = worked_list } }
{}

/// Changes to halves of a range and back, to an empty list and of a book with no range, computed.
pub fn worked_splits()
    ensures split { changes_to split_list three_tables
        ≡ DropRange 40000000 49999999 ∷ DropRange 50000000 59999999 ∷ AddRange lower_half
        ∷ AddRange upper_half ∷ DropRange 60000000 69999999 ∷ [] }
    ensures joined { changes_between split_list (second_range ∷ third_range ∷ [])
        ≡ DropRange 50000000 54999999 ∷ DropRange 55000000 59999999 ∷ AddRange second_range
        ∷ AddRange third_range ∷ [] }
    ensures none_listed { changes_to [] three_tables
        ≡ DropRange 40000000 49999999 ∷ DropRange 50000000 59999999
        ∷ DropRange 60000000 69999999 ∷ [] }
    ensures none_before { changes_to split_list (record three_tables { ranges = [] })
        ≡ AddRange lower_half ∷ AddRange upper_half ∷ [] }
{}
