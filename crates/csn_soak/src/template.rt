ghost use Rattle.std.specs.Prelude.{◌≡◌, ◌<◌, ◌≤◌, ◌+◌, ◌-◌, ◌*◌, ◌++◌, IfOk, length, take, drop};
ghost use Rattle.std.specs.Int.{to_be_bytes, w64};
ghost use Rattle.csn_bits.specs.Octets.{bits_of_octets};

use csn_bits::{Bits, BitsFault};
use csn_catalogue::Sample;
use std::alloc::Global;
use std::marker::Model;

/// What the blocks of a sample are made from, each with another number in its field. A contract sees the sample, and the
/// bits of the block that was made last.
#[derive(Drop)]
pub(crate) struct Template {
    sample: Sample,
    /// The octets of the block that was made last.
    octets: Vec<u8>,
    /// How many of them there are up to the end of the field.
    many: usize,
    /// The number that the bits before the field write.
    before: u64,
    /// The number that the bits behind it write, up to the end of its last octet, and how many these are.
    behind: u64,
    left: u32,
}

impl Model for Template {
    ghost use Rattle.csn_soak.specs.Template.{Made, made_of, IsTemplate};

    ghost Value = { Made };

    ghost view = { made_of };

    ghost invariant = { IsTemplate };
}

impl Template {
    /// The template of a sample.
    pub fn new(alloc: Global, sample: Sample) -> Result<Template, BitsFault>
        requires some { 0 < sample.width }
        requires narrow { sample.width ≤ 32 }
        requires near { sample.at + sample.width ≤ 64 }
        requires within { sample.at + sample.width ≤ 8 * length sample.octets.now }
        ensures { IfOk result (λ template. template.sample ≡ sample) }
    {
        let many = (sample.at + sample.width).div_ceil(8);
        let left = 8 * many - sample.at - sample.width;
        let first = Bits::from_octets(alloc, sample.octets, 8 * many)?.number();
        Ok(Template {
            sample,
            octets: Vec::from_slice(alloc, sample.octets)?,
            many: many as usize,
            before: first >> (sample.width + left),
            behind: first % (1 << left),
            left,
        })
    }

    /// Makes the block in whose field the first bits of a number stand.
    pub fn put(&mut self, number: u64)
        ensures bits { self.new.bits ≡ take self.old.sample.at (bits_of_octets self.old.sample.octets.now)
            ++ take self.old.sample.width (bits_of_octets (to_be_bytes w64 number))
            ++ drop (self.old.sample.at + self.old.sample.width) (bits_of_octets self.old.sample.octets.now) }
        ensures sample { self.new.sample ≡ self.old.sample }
    {
        let width = self.sample.width;
        let field = number >> (64 - width);
        let first = (self.before << width | field) << self.left | self.behind;
        put_first(&mut self.octets, self.many, first);
    }

    /// The octets of the block that was made last.
    pub fn octets(&self) -> &[u8]
        ensures bits { bits_of_octets result.now ≡ self.now.bits }
        ensures count { length result.now ≡ length self.now.sample.octets.now }
    {
        &self.octets
    }
}

/// Writes the last octets of a number over the first ones of others.
fn put_first(octets: &mut [u8], many: usize, number: u64)
    requires few { many ≤ 8 }
    requires within { many ≤ length octets.old }
    ensures { octets.new ≡ drop (8 - many) (to_be_bytes w64 number) ++ drop many octets.old }
{
    octets[..many].copy_from_slice(&number.to_be_bytes()[8 - many..]);
}
