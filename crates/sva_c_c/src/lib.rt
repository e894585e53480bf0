// The four functions of `sva_c` for programs in C, under their own names: `include/sva.h` declares them. Each calls the library's function, and says
// what that says.
//
// Example: for the words of `a ##1 b` `sva_lower` returns 0 and stores 1 register, 8 words, a deepest stack of 2, and place 0.
#![tactic(auto)]

ghost use Rattle.sva_c.specs.Boundary.{LowersForC, TicksForC, StretchesForC, MatchesForC};

// Lowers a tree: 0 and the three counts, or a refusal's number and its place.
#[unsafe(no_mangle)]
pub extern "C" fn sva_lower(
    tree: &[u32],
    work: &mut [u32],
    out: &mut [u32],
    registers: &mut usize,
    words: &mut usize,
    deepest: &mut usize,
    place: &mut usize,
) -> u32
    ensures { LowersForC tree.now work.old out.old result work.new out.new registers.new words.new deepest.new place.new }
{
    sva_c::sva_lower(tree, work, out, registers, words, deepest, place)
}

// Steps the registers once: 0 and the match bit, or a refusal's number and its place.
#[unsafe(no_mangle)]
pub extern "C" fn sva_tick(
    listing: &[u32],
    cur: &[u8],
    atoms: &[u8],
    next: &mut [u8],
    stack: &mut [u8],
    matched: &mut u8,
    place: &mut usize,
) -> u32
    ensures { TicksForC listing.now cur.now atoms.now next.old stack.old matched.old result next.new stack.new matched.new place.new }
{
    sva_c::sva_tick(listing, cur, atoms, next, stack, matched, place)
}

// Finds the words that drive a register: how many they are, and the place of the first.
#[unsafe(no_mangle)]
pub extern "C" fn sva_stretch(listing: &[u32], register: u32, start: &mut usize) -> usize
    ensures { StretchesForC listing.now register result start.new }
{
    sva_c::sva_stretch(listing, register, start)
}

// Matches a tree over recorded ticks: 0 and the ticks, or a refusal's number and its place.
#[unsafe(no_mangle)]
pub extern "C" fn sva_matches(
    tree: &[u32],
    rows: &[u8],
    width: usize,
    answers: &mut [u8],
    work: &mut [u8],
    ticks: &mut usize,
    place: &mut usize,
) -> u32
    ensures { MatchesForC tree.now rows.now width answers.old work.old result answers.new work.new ticks.new place.new }
{
    sva_c::sva_matches(tree, rows, width, answers, work, ticks, place)
}
