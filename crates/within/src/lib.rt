// A root within (`synth_within` of the source): every alternative of seq2, and beside it every alternative of seq1 that fits.
// Alternatives are numbered and never stored together: a walk keeps one of seq2 in front of work, a row, and behind it one of seq1 after the
// other. So no expression is stored, and nothing is written into the output before its size is known. Four passes take that walk, one for the
// registers, one for the words, one for the assignments and one for the match.
// Only the windows of seq1's alternatives are stored, measured once in each call: where few of up to 256 pairs fit, the others are skipped before
// they are kept.
//
// Example: `a within (b ##1 c)` has one pair. The passes count 2 registers and 16 words, write `a1 any seq0`, then
// `a0 any seq1`, then `r0 a2 any and a0 any r1 or and`, and end the match.
#![tactic(auto)]

ghost use Rattle.std.specs.Prelude.{◌≡◌, ◌+◌, ◌≤◌, ◌<◌, leb, length, get_or};
ghost use Rattle.words.specs.Written.{Wrote};
ghost use Rattle.sizes.specs.Sizes.{Countable};
ghost use Rattle.expand.specs.ByNumber.{alternatives_of};
ghost use Rattle.alternative.specs.Alternatives.{registers_in};
ghost use Rattle.alternative.specs.Keeping.{chosen, Keepable};
ghost use Rattle.within.specs.AllPairs.{all_registers, within_match, within_words};
ghost use Rattle.within.specs.AllSizes.{match_size, longest_match};
ghost use Rattle.within.specs.Rows.{Paired, Numberable, Windows, Ready, Rowed, Beside, ones, twos};
ghost use Rattle.within.specs.Walk.{Steps, RowGiven, RowDone, PairGiven, PairDone, over_rows, TakesRows};
ghost use Rattle.within.specs.Passes.{register_steps, size_steps, store_steps, text_steps};

use meaning::word;
use term::Alternative;

// Both operands of a within: the tree, the outline of its nodes, and the windows of seq1's alternatives.
#[derive(Clone, Copy)]
struct Operands<'a> {
    tree: &'a [u32],
    outline: &'a [u32],
    windows: &'a [u64],
    one: u32,
    two: u32,
}

// One alternative of seq2, kept in front of work, with its window.
#[derive(Clone, Copy)]
struct Row {
    two: term::Kept,
    window: u64,
}

// What a pass does where the walk comes to a row, and to each pair beside it.
trait Pass: Copy {
    ghost steps: { Steps Self };

    // The register with which those of the next alternative begin.
    fn register(self) -> u32
        ensures { result ≡ steps.register self };

    // At a row, before its pairs.
    fn row(self, two: Alternative<'_>, out: &mut [u32]) -> Self
        requires { RowGiven steps two.work.now two.kept (self, out.old) }
        ensures { RowDone steps two.entry.work.now two.entry.kept (self, out.old) (result, out.new) };

    // At a pair.
    fn pair(self, work: &[u32], pair: pair::Pair, out: &mut [u32]) -> Self
        requires { PairGiven steps work.now pair (self, out.old) }
        ensures { PairDone steps work.now pair (self, out.old) (result, out.new) };
}

impl<'a> Operands<'a> {
    // The operands `one` and `two`, with the window of each alternative of seq1, which it puts by its number.
    fn measured(
        tree: &'a [u32],
        outline: &'a [u32],
        one: u32,
        two: u32,
        work: &mut [u32],
        windows: &'a mut [u64],
    ) -> Operands<'a>
        requires { Paired tree.now outline.now one two (length work.old) × (256 ≤ length windows.old) }
        ensures ready { Ready result (length work.new) }
        ensures ones { ones result ≡ alternatives_of tree.entry.now one }
        ensures twos { twos result ≡ alternatives_of tree.entry.now two }
    {
        for j in 0..outline::count_of(outline, one) {
            let kept = alternative::keep(tree, outline, one, j, 0, work, 0);
            windows[j as usize] = pair::window_len(Alternative { work, kept });
        }
        Operands {
            tree,
            outline,
            windows,
            one,
            two,
        }
    }

    // Keeps the i-th alternative of seq2, with registers from r on.
    fn row_of(self, i: u32, r: u32, work: &mut [u32]) -> Row
        requires { Ready self (length work.old) × (i < length (twos self)) }
        ensures rowed { Rowed self.entry (chosen self.entry.tree.now self.entry.two i) r work.new result }
        ensures countable { registers_in (chosen self.entry.tree.now self.entry.two i) ≤ 65536 → Countable work.new result.two }
        ensures long { length work.new ≡ length work.old }
    {
        let two = alternative::keep(self.tree, self.outline, self.two, i, r, work, 0);
        Row {
            two,
            window: pair::window_len(Alternative { work, kept: two }),
        }
    }

    // Keeps the j-th alternative of seq1, which fits, behind the row's, with registers from r on.
    fn beside(self, row: Row, j: u32, r: u32, work: &mut [u32]) -> pair::Pair
        requires room { Keepable self.tree.now self.outline.now self.one row.two.end (length work.old) }
        requires fits { Windows self.tree.now self.windows.now self.one × (j < length (ones self)) × (get_or self.windows.now j 0 ≤ row.window) }
        ensures { Beside (chosen self.entry.tree.now self.entry.one j) row r work.old work.new result }
    {
        pair::Pair {
            one: alternative::keep(self.tree, self.outline, self.one, j, r, work, row.two.end),
            two: row.two,
            delays: row.window - self.windows[j as usize],
        }
    }

    // Whether the j-th alternative of seq1 fits into the row's window.
    fn fits(self, row: Row, j: u32) -> bool
        requires { j < length self.windows.now }
        ensures { result ≡ leb (get_or self.entry.windows.now j 0) row.window }
    {
        self.windows[j as usize] <= row.window
    }

    // Takes a pass over all rows, and over the pairs of each.
    fn walk<P: Pass>(self, start: P, work: &mut [u32], out: &mut [u32]) -> P
        requires { Ready self (length work.old) × TakesRows P.steps (ones self) (twos self) (start, out.old) }
        ensures goes { (result, out.new) ≡ over_rows P.steps (ones self.entry) (twos self.entry) (start, out.old) }
        ensures ends { P.steps.Ends (result, out.new) }
    {
        let mut pass = start;
        let count = outline::count_of(self.outline, self.one);
        for i in 0..outline::count_of(self.outline, self.two) {
            let row = self.row_of(i, pass.register(), work);
            let two = Alternative {
                work,
                kept: row.two,
            };
            pass = pass.row(two, out);
            for j in 0..count {
                if self.fits(row, j) {
                    let pair = self.beside(row, j, pass.register(), work);
                    pass = pass.pair(work, pair, out);
                }
            }
        }
        pass
    }

    // Puts the match: the texts of all pairs ORed, or 0 where none fits.
    fn put_match(self, from: pair::Mark, work: &mut [u32], out: &mut [u32]) -> usize
        requires numbered { Ready self (length work.old) × (from.register + all_registers (ones self) (twos self) ≤ 65536) }
        requires room { from.place + length (within_match (ones self) (twos self) from.register) ≤ length out.old }
        ensures { Wrote out.old out.new from.place result (within_match (ones self.entry) (twos self.entry) from.register) }
    {
        let pass = TextsPut {
            start: from.place,
            begin: from.register,
            mark: from,
        };
        let end = self.walk(pass, work, out).mark.place;
        if end == from.place {
            return words::put(out, end, word::ZERO);
        }
        end
    }
}

// Counts the registers.
#[derive(Clone, Copy)]
struct RegisterSum {
    total: u64,
}

impl Pass for RegisterSum {
    ghost steps = { register_steps };

    fn register(self) -> u32 {
        0
    }

    fn row(self, two: Alternative<'_>, _out: &mut [u32]) -> Self {
        RegisterSum {
            total: self.total + alternative::registers(two),
        }
    }

    fn pair(self, work: &[u32], pair: pair::Pair, _out: &mut [u32]) -> Self {
        RegisterSum {
            total: self.total + pair::registers(work, pair),
        }
    }
}

// Counts the words; a text of seq2 is counted once, for all pairs of its row.
#[derive(Clone, Copy)]
struct SizeSum {
    total: sizes::Size,
    text: u64,
}

impl Pass for SizeSum {
    ghost steps = { size_steps };

    fn register(self) -> u32 {
        0
    }

    fn row(self, two: Alternative<'_>, _out: &mut [u32]) -> Self {
        let own = alternative::size(two);
        SizeSum {
            total: sizes::Size {
                stores: self.total.stores + own.stores,
                ..self.total
            },
            text: own.text,
        }
    }

    fn pair(self, work: &[u32], pair: pair::Pair, _out: &mut [u32]) -> Self {
        let one = Alternative {
            work,
            kept: pair.one,
        };
        let more = pair::size(alternative::size(one), self.text, pair.delays);
        SizeSum {
            total: self.total + more,
            ..self
        }
    }
}

// Puts the assignments.
#[derive(Clone, Copy)]
struct StoresPut {
    mark: pair::Mark,
}

impl Pass for StoresPut {
    ghost steps = { store_steps };

    fn register(self) -> u32 {
        self.mark.register
    }

    fn row(self, two: Alternative<'_>, out: &mut [u32]) -> Self {
        StoresPut {
            mark: pair::Mark {
                place: pipeline::stores(two, out, self.mark.place),
                register: alternative::next_register(two),
            },
        }
    }

    fn pair(self, work: &[u32], pair: pair::Pair, out: &mut [u32]) -> Self {
        StoresPut {
            mark: pair::stores(work, pair, out, self.mark.place),
        }
    }
}

// Puts the texts of a match that begins at `start`. The registers of a row's pairs begin with `begin`, where those of the row end.
#[derive(Clone, Copy)]
struct TextsPut {
    start: usize,
    begin: u32,
    mark: pair::Mark,
}

impl Pass for TextsPut {
    ghost steps = { text_steps };

    fn register(self) -> u32 {
        self.mark.register
    }

    fn row(self, two: Alternative<'_>, _out: &mut [u32]) -> Self {
        let next = alternative::next_register(two);
        TextsPut {
            begin: next,
            mark: pair::Mark {
                register: next,
                ..self.mark
            },
            ..self
        }
    }

    fn pair(self, work: &[u32], pair: pair::Pair, out: &mut [u32]) -> Self {
        let place = self.mark.place;
        TextsPut {
            mark: pair::text(work, pair, self.begin, place - self.start, out, place),
            ..self
        }
    }
}

// All registers of a within: those of seq2's alternatives, of seq1's in every pair that fits, and of the delays.
pub fn registers(t: &[u32], outline: &[u32], one: u32, two: u32, work: &mut [u32]) -> u64
    requires { Paired t.now outline.now one two (length work.old) }
    ensures { result ≡ all_registers (alternatives_of t.now one) (alternatives_of t.now two) }
{
    let mut windows = [0u64; 256];
    let operands = Operands::measured(t, outline, one, two, work, &mut windows);
    operands.walk(RegisterSum { total: 0 }, work, &mut []).total
}

// The words of the match, from those of its pairs with all their ORs.
fn match_size(texts: u64) -> u64
    requires { texts ≤ longest_match }
    ensures value { result ≡ match_size texts }
    ensures small { result ≤ longest_match }
{
    if texts == 0 {
        return 1;
    }
    texts - 1
}

// All words of a within's listing, the match's own included.
pub fn word_count(t: &[u32], outline: &[u32], one: u32, two: u32, work: &mut [u32]) -> u64
    requires { Numberable t.now outline.now one two 0 (length work.old) }
    ensures { result ≡ length (within_words (alternatives_of t.now one) (alternatives_of t.now two) 0) }
{
    let mut windows = [0u64; 256];
    let operands = Operands::measured(t, outline, one, two, work, &mut windows);
    let pass = SizeSum {
        total: sizes::Size { text: 0, stores: 0 },
        text: 0,
    };
    let total = operands.walk(pass, work, &mut []).total;
    total.stores + (match_size(total.text) + 1)
}

// The whole listing, from the front of the output on; how many words it has.
pub fn write(
    t: &[u32],
    outline: &[u32],
    one: u32,
    two: u32,
    first: u32,
    work: &mut [u32],
    out: &mut [u32],
) -> usize
    requires { Numberable t.now outline.now one two first (length work.old) × (length (within_words (alternatives_of t.now one) (alternatives_of t.now two) first) ≤ length out.old) }
    ensures { Wrote out.old out.new 0 result (within_words (alternatives_of t.now one) (alternatives_of t.now two) first) }
{
    let mut windows = [0u64; 256];
    let operands = Operands::measured(t, outline, one, two, work, &mut windows);
    let stores = StoresPut {
        mark: pair::Mark {
            place: 0,
            register: first,
        },
    };
    let from = pair::Mark {
        place: operands.walk(stores, work, out).mark.place,
        register: first,
    };
    let end = operands.put_match(from, work, out);
    words::put(out, end, word::MATCH)
}
