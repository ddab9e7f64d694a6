// Texts that are put together without memory.
ghost use Rattle.std.specs.Prelude.{◌≡◌, ◌<◌, ◌≤◌, ◌+◌, [], ◌∷◌, ◌++◌, length};
ghost use Rattle.arrayvec.specs.ArrayVec.{array_vec_len};

use arrayvec::ArrayVec;

// Puts a piece behind those that are there.
pub(crate) fn put<const N: usize>(text: &mut ArrayVec<u8, N>, piece: &[u8])
    requires { array_vec_len text.old + length piece.now ≤ N }
    ensures items { text.new.items ≡ text.old.items ++ piece.now }
    ensures count { array_vec_len text.new ≡ array_vec_len text.old + length piece.now }
{
    if text.try_extend_from_slice(piece).is_err() {
        unreachable!();
    }
}

// Puts one byte behind those that are there.
pub(crate) fn push<const N: usize>(text: &mut ArrayVec<u8, N>, byte: u8)
    requires { array_vec_len text.old < N }
    ensures items { text.new.items ≡ text.old.items ++ byte ∷ [] }
    ensures count { array_vec_len text.new ≡ array_vec_len text.old + 1 }
{
    if text.try_push(byte).is_err() {
        unreachable!();
    }
}
