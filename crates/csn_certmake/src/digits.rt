//! Sets as the digits of a certificate, the first one most significant.

ghost use Rattle.std.specs.Prelude.{◌≡◌, ◌<◌, ◌≤◌, length};
ghost use Rattle.csn_desc.specs.Nodes.{DescV};
ghost use Rattle.csn_look.specs.Sums.{Has};
ghost use Rattle.csn_look.specs.NodeSets.{IsLookOf};
ghost use Rattle.csn_look.specs.FollowV.{IsFollowOf};
ghost use Rattle.csn_look.specs.Starts.{InStart};
ghost use Rattle.csn_certmake.specs.Digits.{with_digit, DigitsAre, SaysFollow};
ghost use Rattle.csn_look.specs.Reached.{InFollow};

use csn_look::{Look, OctetSet, Reach, Sign};

/// The digits and behind them one more, which is 1 where the test holds.
fn with_digit(digits: u32, holds: bool) -> u32
    requires { digits < 8388608 }
    ensures { result ≡ with_digit digits holds }
{
    if holds { 2 * digits + 1 } else { 2 * digits }
}

/// A digit for each octet position: whether it is in the set.
pub(crate) fn digits_of(octets: &OctetSet) -> u8
    ensures { DigitsAre 8 result (Has octets.now) }
{
    let mut digits = 0;
    for octet in 0..8 {
        digits = with_digit(digits, octets.has(octet));
    }
    digits as u8
}

/// A digit for the bit 0 and one for the bit 1: whether a node may start with it at an octet position.
pub(crate) fn start_digits(look: &Look, node: u16, octet: u8) -> u8
    requires node { node < length look.now.sets }
    requires octet { octet ≤ 7 }
    ensures small { result ≤ 3 }
    ensures start { (d : DescV) → IsLookOf d look.now.sets → DigitsAre 2 result (InStart d node octet) }
{
    let zero = with_digit(0, look.starts(node, octet, Sign::Zero));
    with_digit(zero, look.starts(node, octet, Sign::One)) as u8
}

/// Three digits for each octet position: whether 0, 1 and the end may follow a node that ends there.
pub(crate) fn follow_digits(reach: &Reach, node: u16) -> u32
    requires { node < length reach.now.follow }
    ensures small { result < 16777216 }
    ensures follow { (d : DescV) → IsFollowOf d reach.now.follow → SaysFollow result (InFollow d node) }
{
    let mut digits = 0;
    for octet in 0..8 {
        let zero = with_digit(digits, reach.may_follow(node, octet, Sign::Zero));
        let one = with_digit(zero, reach.may_follow(node, octet, Sign::One));
        digits = with_digit(one, reach.may_follow(node, octet, Sign::End));
    }
    digits
}
