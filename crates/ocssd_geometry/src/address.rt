//! Addresses as numbers.

ghost use Rattle.std.specs.Prelude.{◌≡◌, ◌+◌, ◌*◌, ◌/◌, ◌%◌, ◌^◌, ◌<◌, ◌≤◌, ◌↔◌, IsNone, IfSome, Some};
ghost use Rattle.pblk_model.specs.declared.shape.Address.{Address};
ghost use Rattle.pblk_model.specs.Geometry.{packed, IsAddress, Packs};
ghost use Rattle.ocssd_geometry.specs.Numbers.{numbers_of, IsGeometry};

use crate::geometry::Geometry;
use pblk_model::Address;

impl Geometry {
    /// The number of a block's address: its group, parallel unit, chunk and block from the most
    /// significant end, each in its length in bits (Open-Channel SSD Specification 2.0, Logical
    /// block address).
    ///
    /// Each field of the address is below its count. The number is below 2 to the sum of the
    /// lengths, and no other address in range has it.
    pub fn pack(&self, a: Address) -> u64
        requires accepted { IsGeometry self.now }
        requires address { IsAddress (numbers_of self.now) a }
        ensures packed { result ≡ packed (numbers_of self.now) a }
        ensures below { let g = numbers_of self.now
            in result < 2 ^ (g.group_bits + g.pu_bits + g.chunk_bits + g.block_bits) }
        ensures only { (b : Address) → Packs (numbers_of self.now) b result → b ≡ a }
    {
        let [_, pu, chunk, block] = self.lengths;
        let unit = joined(u64::from(a.group), pu, u32::from(a.pu));
        let chunks = joined(unit, chunk, a.chunk);
        joined(chunks, block, a.block)
    }

    /// The address whose number this is (Open-Channel SSD Specification 2.0, Logical block
    /// address). `None` exactly where no address in range has it: where a group, parallel unit,
    /// chunk or block isn't below its count, or a bit is set above the lengths.
    pub fn unpack(&self, lba: u64) -> Option<Address>
        requires { IsGeometry self.now }
        ensures found { IfSome result (λ a. Packs (numbers_of self.now) a lba) }
        ensures only { (a : Address) → Packs (numbers_of self.now) a lba → result ≡ Some a }
        ensures none { IsNone result ↔ ((a : Address) → ¬ Packs (numbers_of self.now) a lba) }
    {
        let [_, pu, chunk, block] = self.lengths;
        let (rest, block) = parted(lba, block);
        let (rest, chunk) = parted(rest, chunk);
        let (group, pu) = parted(rest, pu);
        if group < u64::from(self.groups)
            && pu < u32::from(self.pus)
            && chunk < self.chunks
            && block < self.clba
        {
            Some(Address {
                group: group as u16,
                pu: pu as u16,
                chunk,
                block,
            })
        } else {
            None
        }
    }
}

// A number with a field of some bits put at its low end.
fn joined(high: u64, bits: u8, low: u32) -> u64
    requires bits { bits ≤ 32 }
    requires fits { high * 2 ^ bits + low < 2 ^ 64 }
    ensures { result ≡ high * 2 ^ bits + low }
{
    (high << bits) + u64::from(low)
}

// A number without its low bits, and these.
fn parted(number: u64, bits: u8) -> (u64, u32)
    requires { bits ≤ 32 }
    ensures high { result.0 ≡ number / 2 ^ bits }
    ensures low { result.1 ≡ number % 2 ^ bits }
{
    (number >> bits, (number % (1u64 << bits)) as u32)
}
