//! What the numbers that C gives stand for.

ghost use Rattle.std.specs.Prelude.{◌≡◌, ◌↔◌, IsTrue};
ghost use Rattle.csn_c.specs.Numbers.{IsBlock, form_in, reading_in};

use csn_rule::{MOST_BITS, Reading, TreeForm};

/// The reading with this number.
pub(crate) fn reading_of(number: u32) -> Option<Reading>
    ensures { result ≡ reading_in number }
{
    if number == 0 {
        return Some(Reading::Received);
    }
    if number == 1 {
        return Some(Reading::Sent);
    }
    None
}

/// The form with this number.
pub(crate) fn form_of(number: u32) -> Option<TreeForm>
    ensures { result ≡ form_in number }
{
    if number == 0 {
        return Some(TreeForm::Text);
    }
    if number == 1 {
        return Some(TreeForm::Json);
    }
    None
}

/// Whether so many bits of the octets are a block.
pub(crate) fn is_block(octets: &[u8], bits: u32) -> bool
    ensures { IsTrue result ↔ IsBlock octets.now bits }
{
    if bits > MOST_BITS {
        return false;
    }
    if octets.len() >= 65_536 {
        return true;
    }
    bits <= 8 * octets.len() as u32
}
