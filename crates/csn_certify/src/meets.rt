//! Whether two sets of keys have keys of which one begins with the other.

ghost use Rattle.std.specs.Prelude.{◌≡◌, ◌<◌, ◌≤◌, ◌↔◌, ◌++◌, [], ◌∷◌, length, IsTrue};
ghost use Rattle.csn_look.specs.KeyMarks.{IsWord};
ghost use Rattle.csn_certify.specs.Overlaps.{MeetUnder, Meets};

use csn_look::{Begins, KeyTable, Word};

/// Whether a key of the table begins the word, or the word begins one.
pub(crate) fn touches(table: &KeyTable, word: &Word) -> bool
    ensures { IsTrue result ↔ Meets table.now word.now }
{
    match table.begins(word) {
        Begins::Key => true,
        Begins::Proper => true,
        Begins::Neither => false,
    }
}

/// Whether two tables have keys of which one begins with the other, among those that the word begins and
/// those that begin it. Only words are looked at that both tables have keys behind.
pub(crate) fn tables_meet(left: &KeyTable, right: &KeyTable, word: &Word) -> bool
    requires { IsWord word.now }
    ensures { IsTrue result ↔ MeetUnder left.now right.now word.now }
{
    match left.begins(word) {
        Begins::Neither => false,
        Begins::Key => touches(right, word),
        Begins::Proper => match right.begins(word) {
            Begins::Neither => false,
            Begins::Key => true,
            Begins::Proper => {
                if tables_meet(left, right, &longer(word, 0)) {
                    return true;
                }
                tables_meet(left, right, &longer(word, 1))
            }
        },
    }
}

/// The word and a bit behind it.
fn longer(word: &Word, bit: u8) -> Word
    requires bit { bit ≤ 1 }
    requires room { length word.now < 12 }
    ensures value { result ≡ word.now ++ bit ∷ [] }
    ensures word { IsWord result }
{
    word.with(bit)
}
