//! The text of a line, put together.
ghost use Rattle.std.specs.Prelude.{◌≡◌, ◌+◌, ◌≤◌, ◌++◌, length};
ghost use Rattle.arrayvec.specs.ArrayVec.{array_vec_len};

use arrayvec::ArrayVec;

/// Appends bytes for which there is room.
pub(crate) fn append<const CAP: usize>(text: &mut ArrayVec<u8, CAP>, bytes: &[u8])
    requires { array_vec_len text.old + length bytes.now ≤ CAP }
    ensures items { text.new.items ≡ text.old.items ++ bytes.now }
    ensures len { array_vec_len text.new ≡ array_vec_len text.old + length bytes.now }
{
    let _ = text.try_extend_from_slice(bytes);
}
