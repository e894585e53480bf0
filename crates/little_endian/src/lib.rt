// Words read from bytes, four bytes a word, the lowest first.
//
// Example: the bytes 1, 0, 0, 0, 0, 2, 0, 0 are the words 1 and 512.
#![tactic(auto)]

ghost use Rattle.std.specs.Prelude.{◌*◌, ◌≤◌, length};
ghost use Rattle.words.specs.Written.{Wrote};
ghost use Rattle.little_endian.specs.Bytes.{words_of_bytes};

// Puts the words of the bytes into `out`, from its front on; how many they are. Up to three bytes left over are no word.
pub fn read(bytes: &[u8], out: &mut [u32]) -> usize
    requires { length bytes.now ≤ 4 * length out.old }
    ensures { Wrote out.old out.new 0 result (words_of_bytes bytes.now) }
{
    let (words, _) = bytes.as_chunks::<4>();
    let mut count = 0;
    for word in words {
        count = words::put(out, count, u32::from_le_bytes(*word));
    }
    count
}
