//! The bitmaps of a message, and the elements that they name, one after the other.

ghost use Rattle.std.specs.Prelude.{◌≡◌, ◌<◌, ◌≤◌, ◌==◌, ◌&&◌, ℕ, [], ◌∷◌, false, not, filter};
ghost use Rattle.std.specs.Prelude.{MatchOption};
ghost use Rattle.iso_codec.specs.Message.{bit as bit_of, named};
ghost use Rattle.iso_codec.specs.Faults.{is_known};
ghost use Rattle.iso_codec.specs.Setting.{IsFirstBit};

/// The primary bitmap, and the secondary one, or zero where there is none.
#[derive(Clone, Copy)]
pub struct Bitmaps {
    pub primary: u64,
    pub secondary: u64,
}

/// The bits of the elements that the table has, and bit 1, which names the secondary bitmap.
const KNOWN_PRIMARY: u64 = 0xF23E67C1AEE9DFFF;

const KNOWN_SECONDARY: u64 = 0x447807C280000001;

impl Bitmaps {
    /// The bitmaps without bit 1 of the primary, which names no element.
    pub fn of_elements(&self) -> Bitmaps
        ensures same { named result ≡ named self.now }
        ensures unset { bit_of result.primary 1 ≡ false }
    {
        Bitmaps {
            primary: without_bit(self.primary, 1),
            secondary: self.secondary,
        }
    }

    /// The elements that the table doesn't have.
    pub fn of_unknown(&self) -> Bitmaps
        ensures same { named result ≡ filter (λ n. not (is_known n)) (named self.now) }
        ensures unset { bit_of result.primary 1 ≡ false }
    {
        Bitmaps {
            primary: self.primary & !KNOWN_PRIMARY,
            secondary: self.secondary & !KNOWN_SECONDARY,
        }
    }

    /// How many bits are set.
    pub fn count(&self) -> usize {
        (self.primary.count_ones() + self.secondary.count_ones()) as usize
    }

    /// Takes the first element off the bitmaps.
    pub fn take_first(&mut self) -> Option<u8>
        requires { bit_of self.old.primary 1 ≡ false }
        ensures first { MatchOption result (named self.old ≡ [])
            (λ n. named self.old ≡ n ∷ named self.new) }
        ensures unset { bit_of self.new.primary 1 ≡ false }
    {
        let primary = self.primary;
        if primary != 0 {
            let number = first_bit(primary);
            self.primary = without_bit(primary, number);
            return Some(number);
        }
        let secondary = self.secondary;
        if secondary != 0 {
            let number = first_bit(secondary);
            self.secondary = without_bit(secondary, number);
            return Some(64 + number);
        }
        None
    }
}

/// The number of the first bit that is set, the leftmost of which is number 1.
fn first_bit(bits: u64) -> u8
    requires { 0 < bits }
    ensures { IsFirstBit bits result }
{
    bits.leading_zeros() as u8 + 1
}

/// The bits without one.
fn without_bit(bits: u64, number: u8) -> u64
    requires low { 1 ≤ number }
    requires high { number ≤ 64 }
    ensures { (k : ℕ) → 1 ≤ k → k ≤ 64 → bit_of result k ≡ (bit_of bits k && not (k == number)) }
{
    bits & !(1 << (64 - number))
}

/// Bit `number` of a bitmap, the leftmost of which is number 1.
pub fn bit(bits: u64, number: u8) -> bool
    requires low { 1 ≤ number }
    requires high { number ≤ 64 }
    ensures { result ≡ bit_of bits number }
{
    (bits >> (64 - number)) & 1 == 1
}
