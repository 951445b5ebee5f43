//! Text on its way to the sink.

ghost use Rattle.std.specs.Prelude.{◌≡◌, ◌≢◌};
ghost use Rattle.csn_io.specs.Faults.{Keeps, Rose};
ghost use Rattle.csn_replay.specs.Told.{Wrote};
ghost use Rattle.csn_replay.specs.declared.told.Told.TheVariants.{WriteFault};

use crate::told::Told;
use csn_io::{Put, Sink};

/// Hands a text to the sink. After a fault the sink has taken a prefix of it.
pub fn put_all<K: Sink>(text: &[u8], out: &mut K) -> Told
    requires unfailed { K.faults out.old ≡ 0 }
    ensures wrote { Wrote result (K.taken out.old) (K.taken out.new) text.now }
    ensures write_fault { result ≡ WriteFault → Rose (K.faults out.old) (K.faults out.new) }
    ensures outside { Keeps (K.steady out.old) (K.steady out.new) (K.faults out.old) (K.faults out.new) (result ≡ WriteFault) }
    ensures steady_no_fault { K.steady out.old → result ≢ WriteFault }
{
    let mut passed = 0;
    while passed < text.len() {
        match out.put(&text[passed..]) {
            Put::Took(n) => passed += n,
            Put::Failed => return Told::WriteFault,
            Put::NoMemory => return Told::NoMemory,
        }
    }
    Told::Ok
}
