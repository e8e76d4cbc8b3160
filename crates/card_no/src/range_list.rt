//! The issuers' ranges, each prefix in one at most.

ghost use Rattle.std.specs.Prelude.{◌≡◌, ◌<◌, ◌≤◌, ◌⊎◌, ◌↔◌, true, false, [], length, insert, position};
ghost use Rattle.std.specs.Prelude.{find, Some, None, Err, IsOk, IfErr, OnOk, OnErr};
ghost use Rattle.std.specs.List.{AllWithin};
ghost use Rattle.std.specs.Option.{option_copied};
ghost use Rattle.card_no.specs.Ranges.{are_ranges, is_valid_range, holds_prefix, has_ends};
ghost use Rattle.card_no.specs.Ranges.{range_of_prefix, IsRangeOf, between, overlapped_by};
ghost use Rattle.card_no.specs.Ranges.{with_range, has_range, without_range};
ghost use Rattle.card_no.specs.RangeChanges.{add_fault, remove_fault};
ghost use Rattle.card_no.specs.declared.range.Range as declared_range;
ghost use Rattle.card_no.specs.declared.range_fault.RangeFault.TheVariants.{Memory, BadRange};
ghost use Rattle.card_no.specs.declared.range_fault.RangeFault.TheVariants.{Overlap};

use crate::prefix::Prefix;
use crate::range::Range;
use crate::range_fault::RangeFault;
use std::alloc::Global;
use std::marker::Model;

/// Ranges in order of `low`, no two of which overlap.
#[derive(Drop)]
pub struct RangeList {
    ranges: Vec<Range>,
}

impl Model for RangeList {
    ghost use Rattle.std.specs.Prelude.{◌≡◌, List, true};
    ghost use Rattle.card_no.specs.declared.range.Range.{Range};
    ghost use Rattle.card_no.specs.Ranges.{are_ranges};

    ghost Value = { List Range };

    ghost view = { λ l. l.ranges.items };

    ghost invariant = { λ l. are_ranges l.ranges.items ≡ true };
}

impl RangeList {
    /// A list with no range. It takes no memory.
    pub fn new(alloc: Global) -> RangeList
        ensures { result ≡ [] }
    {
        RangeList {
            ranges: Vec::new(alloc),
        }
    }

    /// The ranges, in order of `low`.
    pub fn as_slice(&self) -> &[Range]
        ensures value { result.now ≡ self.now }
        ensures apart { are_ranges result.now ≡ true }
    {
        &self.ranges
    }

    /// The one range that holds a prefix, if there is one. It takes no memory.
    pub fn find(&self, prefix: Prefix) -> Option<&Range>
        ensures value { option_copied result ≡ range_of_prefix self.now prefix }
        ensures only { IsRangeOf self.now prefix (option_copied result) }
    {
        holding(self.ranges.as_slice(), prefix)
    }

    /// Of the ranges that overlap one with these ends, that of least `low`, if there is one. It
    /// takes no memory.
    pub fn overlapping(&self, low: u32, high: u32) -> Option<&Range>
        ensures { option_copied result ≡ overlapped_by (between low high) self.now }
    {
        overlapping_in(self.ranges.as_slice(), low, high)
    }

    /// Adds a range at its place. A bad value is reported before an overlap. An `Err` changes
    /// nothing.
    pub fn add(&mut self, range: Range) -> Result<(), RangeFault>
        ensures ok { OnOk result (self.new ≡ with_range self.old range) }
        ensures fits { OnOk result (add_fault self.old range ≡ None) }
        ensures err { OnErr result (self.new ≡ self.old) }
        ensures fault { IfErr result (λ fault.
            (fault ≡ Memory) ⊎ (add_fault self.old range ≡ Some fault)) }
        // A bad range is reported as such, and never as want of memory.
        ensures bad { is_valid_range range ≡ false → result ≡ Err BadRange }
        // Where it overlaps, it is reported so unless memory ran out.
        ensures overlap { (other : declared_range.Range)
            → add_fault self.old range ≡ Some (Overlap other)
            → (result ≡ Err Memory) ⊎ (result ≡ Err (Overlap other)) }
    {
        if !range.is_valid() {
            return Err(RangeFault::BadRange);
        }
        if let Some(other) = self.overlapping(range.low, range.high) {
            let other = other.copied(*self.ranges.allocator())?;
            return Err(RangeFault::Overlap(other));
        }
        let place = place(self.ranges.as_slice(), &range);
        self.ranges.insert(place, range)?;
        Ok(())
    }

    /// Removes the range with just these ends. An `Err` changes nothing. It takes no memory.
    pub fn remove(&mut self, low: u32, high: u32) -> Result<(), RangeFault>
        ensures ok { OnOk result (self.new ≡ without_range self.old low high) }
        ensures there { IsOk result ↔ (remove_fault self.old low high ≡ None) }
        ensures err { OnErr result (self.new ≡ self.old) }
        ensures fault { IfErr result (λ fault. remove_fault self.old low high ≡ Some fault) }
    {
        let Some(place) = place_with_ends(self.ranges.as_slice(), low, high) else {
            return Err(RangeFault::NoSuchRange);
        };
        self.ranges.remove(place);
        Ok(())
    }
}

/// The range that holds a prefix: the last that doesn't begin above it, or none.
fn holding(ranges: &[Range], prefix: Prefix) -> Option<&Range>
    requires { are_ranges ranges.now ≡ true }
    ensures { option_copied result ≡ range_of_prefix ranges.now prefix }
{
    let nearest = ranges.get(begun_at(ranges, prefix).checked_sub(1)?)?;
    if nearest.holds(prefix) {
        Some(nearest)
    } else {
        None
    }
}

/// How many ranges begin at a prefix or below it.
fn begun_at(ranges: &[Range], prefix: Prefix) -> usize
    requires { are_ranges ranges.now ≡ true }
    ensures within { result ≤ length ranges.now }
    ensures begun { AllWithin (λ range. range.low ≤ prefix) ranges.now 0 result }
    ensures above { AllWithin (λ range. prefix < range.low) ranges.now result (length ranges.now) }
{
    let number = prefix.number();
    ranges.partition_point(|range| range.low <= number)
}

/// The range of least `low` that overlaps one with these ends: the first that doesn't end below
/// it, or none.
fn overlapping_in(ranges: &[Range], low: u32, high: u32) -> Option<&Range>
    requires { are_ranges ranges.now ≡ true }
    ensures { option_copied result ≡ overlapped_by (between low high) ranges.now }
{
    let nearest = ranges.get(ended_below(ranges, low))?;
    if nearest.overlaps(low, high) {
        Some(nearest)
    } else {
        None
    }
}

/// Where a range goes, in order of `low`.
fn place(ranges: &[Range], range: &Range) -> usize
    requires { are_ranges ranges.now ≡ true }
    ensures within { result ≤ length ranges.now }
    ensures put { insert ranges.now result range.now ≡ with_range ranges.now range.now }
{
    begun_below(ranges, range.low)
}

/// The place of the range with just these ends: that of the first that doesn't begin below, or
/// none.
fn place_with_ends(ranges: &[Range], low: u32, high: u32) -> Option<usize>
    requires { are_ranges ranges.now ≡ true }
    ensures { result ≡ position (has_ends low high) ranges.now }
{
    let place = begun_below(ranges, low);
    if ranges.get(place)?.has_ends(low, high) {
        Some(place)
    } else {
        None
    }
}

/// How many ranges end below a number.
fn ended_below(ranges: &[Range], number: u32) -> usize
    requires { are_ranges ranges.now ≡ true }
    ensures within { result ≤ length ranges.now }
    ensures ended { AllWithin (λ range. range.high < number) ranges.now 0 result }
    ensures later { AllWithin (λ range. number ≤ range.high) ranges.now result (length ranges.now) }
{
    ranges.partition_point(|range| range.high < number)
}

/// How many ranges begin below a number.
fn begun_below(ranges: &[Range], number: u32) -> usize
    requires { are_ranges ranges.now ≡ true }
    ensures within { result ≤ length ranges.now }
    ensures begun { AllWithin (λ range. range.low < number) ranges.now 0 result }
    ensures later { AllWithin (λ range. number ≤ range.low) ranges.now result (length ranges.now) }
{
    ranges.partition_point(|range| range.low < number)
}
