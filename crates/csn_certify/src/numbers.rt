ghost use Rattle.std.specs.Prelude.{◌≡◌, ◌+◌, ◌*◌, ◌<◌, ◌≤◌, reverse, Some};
ghost use Rattle.csn_desc.specs.Nodes.{DescV};
ghost use Rattle.csn_desc.specs.Values.{Values, count_of};
ghost use Rattle.csn_certify.specs.KeptNumbers.{value_in, numbers_of, KeepsCount};

use csn_desc::Count;

/// The most labelled fields that counts stand on and that one node sees.
pub const MOST_NUMBERS: usize = 64;

/// The number that a labelled field writes on which counts stand.
#[derive(Clone, Copy, Debug, Default, PartialEq, Eq)]
pub struct Number {
    /// The node of the label.
    pub field: u16,
    pub value: u32,
}

/// How many a count is, by the numbers that are kept of the labelled fields that a node sees.
#[inline(always)]
pub fn count_of(count: &Count, numbers: &[Number]) -> u32
    requires { (d : DescV) × (v : Values) × KeepsCount d v numbers.now count.now }
    ensures count { (d : DescV) (v seen : Values) → KeepsCount d v numbers.now count.now
        → numbers.now ≡ numbers_of d seen → count_of seen count.now ≡ Some result }
    ensures small { result < 16777216 }
{
    match count {
        Count::Fixed(n) => *n,
        Count::Counted { m, field, c } => match last_value(numbers, *field) {
            Some(number) => times_and_more(*m, number, *c),
            None => unreachable!(),
        },
    }
}

/// The number of a field, the last one that it has.
fn last_value(numbers: &[Number], field: u16) -> Option<u32>
    ensures { result ≡ value_in field (reverse numbers.now) }
{
    let mut value = None;
    for at in 0..numbers.len() {
        if numbers[at].field == field {
            value = Some(numbers[at].value);
        }
    }
    value
}

/// So many times a number of up to 16 bits, and `c` more.
fn times_and_more(m: u8, number: u32, c: u32) -> u32
    requires number { number < 65536 }
    requires more { c ≤ 65535 }
    ensures sum { result ≡ m * number + c }
    ensures small { result < 16777216 }
{
    u32::from(m) * number + c
}
