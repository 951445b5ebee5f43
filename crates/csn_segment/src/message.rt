ghost use Rattle.std.specs.Prelude.{◌≡◌, ◌+◌, ◌≤◌, ◌++◌, length};
ghost use Rattle.arrayvec.specs.ArrayVec.{array_vec_len};

use arrayvec::ArrayVec;

/// The octets, in room for `N`.
pub(crate) fn copied<const N: usize>(octets: &[u8]) -> ArrayVec<u8, N>
    requires { length octets.now ≤ N }
    ensures { result.items ≡ octets.now }
{
    let mut copy = ArrayVec::new();
    append(&mut copy, octets);
    copy
}

/// Adds octets for which there is room.
pub(crate) fn append<const N: usize>(message: &mut ArrayVec<u8, N>, octets: &[u8])
    requires { array_vec_len message.old + length octets.now ≤ N }
    ensures { message.new.items ≡ message.old.items ++ octets.now }
{
    let added = message.try_extend_from_slice(octets);
    prove!(added.is_ok());
}
