// Words put into a lent slice, one or those of another: how everything that writes is written. The slice and the place are two parameters, here
// and wherever words are put. A struct that held both would have to be promised, by each function that takes it, to hold the same slice still.
//
// Example: with the place 1, `put` stores 5 into 7, 7, 7 as 7, 5, 7, and answers 2, where the next one goes.
#![tactic(auto)]

ghost use Rattle.std.specs.Prelude.{[], ◌∷◌, ◌+◌, ◌<◌, ◌≤◌, length};
ghost use Rattle.words.specs.Written.{Wrote};

// Puts one word at the place; the next place.
pub fn put<T: Copy>(out: &mut [T], place: usize, word: T) -> usize
    requires { place < length out.old }
    ensures { Wrote out.old out.new place result (word ∷ []) }
{
    out[place] = word;
    place + 1
}

// Puts the words of a slice from the place on; the next place.
pub fn copied<T: Copy>(words: &[T], out: &mut [T], place: usize) -> usize
    requires { place + length words.now ≤ length out.old }
    ensures { Wrote out.old out.new place result words.now }
{
    // Word by word, since most are copied by twos and threes, and a call to copy them takes longer than that.
    let mut next = place;
    for &word in words {
        next = put(out, next, word);
    }
    next
}
