//! Bytes that are gathered in a fixed place, so that they take no memory.
ghost use Rattle.std.specs.Prelude.{◌≡◌, ◌+◌, ◌≤◌, ◌++◌, length};
ghost use Rattle.arrayvec.specs.ArrayVec.{array_vec_len};

use arrayvec::ArrayVec;

/// How many bytes of answers wait at most.
pub(crate) const OUTPUT_BUFFER_SIZE: usize = 4096;

/// Answers that wait, so that they go out together.
pub(crate) type OutputBuffer = ArrayVec<u8, OUTPUT_BUFFER_SIZE>;

/// Adds a piece behind the others.
pub(crate) fn add<const N: usize>(page: &mut ArrayVec<u8, N>, piece: &[u8])
    requires { array_vec_len page.old + length piece.now ≤ N }
    ensures items { page.new.items ≡ page.old.items ++ piece.now }
    ensures len { array_vec_len page.new ≡ array_vec_len page.old + length piece.now }
{
    match page.try_extend_from_slice(piece) {
        Ok(()) => {}
        Err(_) => unreachable!(),
    }
}
