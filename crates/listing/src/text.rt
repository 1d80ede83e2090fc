// Words put at the end of a line, each with the byte that ends it.
ghost use Rattle.std.specs.Prelude.{◌≡◌, [], ◌∷◌, ◌++◌, ◌+◌, ◌≤◌, length};
ghost use Rattle.arrayvec.specs.ArrayVec.{array_vec_len};
ghost use Rattle.listing.specs.Text.{hex8};

use crate::{Line, ROOM};
use itoa::{Buffer, Integer};

pub(crate) fn put_word(line: &mut Line, word: &[u8], end: u8)
    requires { array_vec_len line.old + length word.now + 1 ≤ ROOM }
    ensures items { line.new.items ≡ line.old.items ++ (word.now ++ end ∷ []) }
    ensures len { array_vec_len line.new ≡ array_vec_len line.old + length word.now + 1 }
{
    line.try_extend_from_slice(word).unwrap();
    line.push(end);
}

// In decimal, with a minus below zero.
pub(crate) fn put_number<I: Integer>(line: &mut Line, number: I, end: u8)
    requires { array_vec_len line.old + I.MAX_STR_LEN + 1 ≤ ROOM }
    ensures items { line.new.items ≡ line.old.items ++ (I.text number ++ end ∷ []) }
    ensures len { array_vec_len line.new ≤ array_vec_len line.old + I.MAX_STR_LEN + 1 }
{
    put_word(line, Buffer::new().format(number).as_bytes(), end)
}

#[tactic(auto, using(crate::proofs::Digits::hex8_is))]
pub(crate) fn put_hex8(line: &mut Line, number: u32, end: u8)
    requires { array_vec_len line.old + 9 ≤ ROOM }
    ensures items { line.new.items ≡ line.old.items ++ (hex8 number ++ end ∷ []) }
    ensures len { array_vec_len line.new ≡ array_vec_len line.old + 9 }
{
    let mut digits = [0u8; 8];
    hex::encode_to_slice(number.to_be_bytes(), &mut digits).unwrap();
    put_word(line, &digits, end)
}
