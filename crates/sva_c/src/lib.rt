// Lowering, ticking, looking a register up and matching recorded ticks, as programs in C see them: `include/sva.h` declares the four
// functions, `sva_c_c` exports them, and `examples/use_sva.c` calls them. No function asks anything of its caller but that its pointers are
// good and that what it writes is lent once.
//
// An answer that is an enum becomes a number, 0 where nothing was refused, and its values go to where the caller points.
// Example: for the words of `a ##1 b` `sva_lower` returns 0 and stores 1 register, 8 words, a deepest stack of 2, and place 0.
#![tactic(auto)]

ghost use Rattle.sva_c.specs.Boundary.{LowersForC, TicksForC, StretchesForC, MatchesForC};

// Lowers a tree: 0 and the three counts, or a refusal's number and its place.
pub fn sva_lower(
    tree: &[u32],
    work: &mut [u32],
    out: &mut [u32],
    registers: &mut usize,
    words: &mut usize,
    deepest: &mut usize,
    place: &mut usize,
) -> u32
    ensures { LowersForC tree.now work.old out.old result work.new out.new registers.new words.new deepest.new place.new }
{
    match lower::lower(tree, work, out) {
        Ok(listing) => {
            *registers = listing.registers;
            *words = listing.words;
            *deepest = listing.deepest;
            *place = 0;
            0
        }
        Err(refusal) => {
            *registers = 0;
            *words = 0;
            *deepest = 0;
            *place = refusal.place() as usize;
            refusal.number()
        }
    }
}

// Steps the registers once: 0 and the match bit, or a refusal's number and its place.
pub fn sva_tick(
    listing: &[u32],
    cur: &[u8],
    atoms: &[u8],
    next: &mut [u8],
    stack: &mut [u8],
    matched: &mut u8,
    place: &mut usize,
) -> u32
    ensures { TicksForC listing.now cur.now atoms.now next.old stack.old matched.old result next.new stack.new matched.new place.new }
{
    match tick::tick(listing, cur, atoms, next, stack) {
        Ok(bit) => {
            *matched = bit;
            *place = 0;
            0
        }
        Err(refusal) => {
            *place = refusal.place();
            refusal.number()
        }
    }
}

// Finds the words that drive a register: how many they are, and the place of the first.
pub fn sva_stretch(listing: &[u32], register: u32, start: &mut usize) -> usize
    ensures { StretchesForC listing.now register result start.new }
{
    *start = stretch::start(listing, register);
    stretch::stretch(listing, register).len()
}

// Matches a tree over recorded ticks: 0 and the ticks, or a refusal's number and its place.
pub fn sva_matches(
    tree: &[u32],
    rows: &[u8],
    width: usize,
    answers: &mut [u8],
    work: &mut [u8],
    ticks: &mut usize,
    place: &mut usize,
) -> u32
    ensures { MatchesForC tree.now rows.now width answers.old work.old result answers.new work.new ticks.new place.new }
{
    match matches::matches(tree, rows, width, answers, work) {
        Ok(judged) => {
            *ticks = judged;
            *place = 0;
            0
        }
        Err(refusal) => {
            *ticks = 0;
            *place = refusal.place() as usize;
            refusal.number()
        }
    }
}
