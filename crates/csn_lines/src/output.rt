//! Text on its way to the sink.

ghost use Rattle.std.specs.Prelude.{◌≡◌, ◌≢◌, ◌≤◌, ◌⊎◌, ◌++◌, List, ℕ, [], OnOk, IfErr};
ghost use Rattle.csn_io.specs.Faults.{Keeps, Rose};
ghost use Rattle.csn_io.specs.Put.{Appended, FlushedAll, LeftByFlush};

use crate::fault::Fault;
use csn_io::{Put, Sink};
use csn_replay::{Told, put_all};

/// Hands all that is pending to the sink, and forgets it.
pub fn pass_on<K: Sink>(pending: &mut Vec<u8>, out: &mut K) -> Result<(), Fault>
    requires unfailed { K.faults out.old ≡ 0 }
    ensures took { (front rest : List ℕ) × (pending.old.items ≡ front ++ rest) × Appended (K.taken out.old) (K.taken out.new) front × OnOk result (rest ≡ []) }
    ensures emptied { pending.new.items ≡ [] }
    ensures causes { IfErr result (λ fault. (fault ≡ Fault.Write) ⊎ (fault ≡ Fault.Memory)) }
    ensures write { result ≡ Err Fault.Write → Rose (K.faults out.old) (K.faults out.new) }
    ensures out { Keeps (K.steady out.old) (K.steady out.new) (K.faults out.old) (K.faults out.new) (result ≡ Err Fault.Write) }
{
    let told = put_all(pending, out);
    pending.clear();
    match told {
        Told::Ok => Ok(()),
        Told::WriteFault => Err(Fault::Write),
        Told::NoMemory => Err(Fault::Memory),
    }
}

/// Asks the sink to flush all that it took.
pub fn flush<K: Sink>(out: &mut K) -> Result<(), Fault>
    requires unfailed { K.faults out.old ≡ 0 }
    ensures flushed { OnOk result (FlushedAll (K.taken out.new) (K.flushed out.new)) }
    ensures flushes { LeftByFlush K.flush_gives K.taken K.flushed out.new }
    ensures taken_stays { K.taken out.new ≡ K.taken out.old }
    ensures causes { IfErr result (λ fault. (fault ≡ Fault.Write) ⊎ (fault ≡ Fault.Memory)) }
    ensures write { result ≡ Err Fault.Write → Rose (K.faults out.old) (K.faults out.new) }
    ensures out { Keeps (K.steady out.old) (K.steady out.new) (K.faults out.old) (K.faults out.new) (result ≡ Err Fault.Write) }
{
    match out.flush() {
        Put::Took(_) => Ok(()),
        Put::Failed => Err(Fault::Write),
        Put::NoMemory => Err(Fault::Memory),
    }
}
