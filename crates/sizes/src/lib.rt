// The words of one alternative's expression and stores, counted in 64 bits and never written out.
//
// Example: the steps Bool(0), Bool(1) after Fixed(2) take 4 words of expression and 5 words of stores.
#![tactic(auto)]

ghost use Rattle.std.specs.Prelude.{◌≡◌, ◌+◌, ◌-◌, ◌≤◌, ◌<◌, ◌^◌};
ghost use Rattle.step_text.specs.Text.{hop_registers, step_registers};
ghost use Rattle.sizes.specs.Sizes.{hop_text_size, term_text_size, lead_text_size, delays_size, hop_stores_size, goto_size, run_size, term_stores_size, step_size, first_size, size_up_to_step, most_guard_words, most_text_words, most_activation_words, most_store_words, Countable};

use std::ops::Add;
use term::Alternative;

// The words of the expression, and of the stores before it.
#[derive(Clone, Copy)]
pub struct Size {
    pub text: u64,
    pub stores: u64,
}

// Two sizes together, text and stores apart.
impl Add for Size {
    type Output = Size;

    ghost can_add = { λ a b. (a.text + b.text < 2 ^ 64) × (a.stores + b.stores < 2 ^ 64) };

    ghost add_gives = { λ a b r. r ≡ record { text = a.text + b.text; stores = a.stores + b.stores } };

    fn add(self, rhs: Size) -> Size {
        Size {
            text: self.text + rhs.text,
            stores: self.stores + rhs.stores,
        }
    }
}

// The text after a hop; g are the words of the guard, e those of the text before.
#[tactic(auto, unfolding(crate::specs::Sizes::hop_text_size, words::specs::Choice::pick))]
fn hop_text(h: meaning::SeqHop, g: u64, e: u64) -> u64
    requires { (g ≤ most_guard_words) × (e ≤ most_text_words) }
    ensures { result ≡ hop_text_size g h e }
{
    match h {
        meaning::SeqHop::Fixed(0) => e,
        meaning::SeqHop::Fixed(_) => 1 + g,
        meaning::SeqHop::AtLeast(0) => 2 + e,
        meaning::SeqHop::AtLeast(_) => 1,
    }
}

// The text after a term; a are the words of its activation. Its bound stays a `requires`: a struct around one number would be taken apart at
// each of its uses.
#[tactic(auto, unfolding(crate::specs::Sizes::term_text_size, words::specs::Choice::pick))]
fn term_text(x: meaning::SeqTerm, a: u64) -> u64
    requires { a ≤ most_activation_words }
    ensures { result ≡ term_text_size x a }
{
    match x {
        meaning::SeqTerm::Bool(_) => a + 3,
        meaning::SeqTerm::Goto(_, 0 | 1) | meaning::SeqTerm::ConsecAtLeast(_, 0 | 1) => a + 5,
        meaning::SeqTerm::Goto(_, _) => 4,
        meaning::SeqTerm::Nonconsec(_, 0 | 1) => a + 11,
        meaning::SeqTerm::Nonconsec(_, _) => 10,
        meaning::SeqTerm::ConsecAtLeast(_, _) => 6,
        meaning::SeqTerm::Empty => a,
    }
}

// The text after the first term.
#[tactic(auto, unfolding(crate::specs::Sizes::lead_text_size, crate::specs::Sizes::term_text_size))]
fn lead_text(x: meaning::SeqTerm) -> u64
    ensures { result ≡ lead_text_size x }
{
    match x {
        meaning::SeqTerm::Bool(_) => 2,
        _ => term_text(x, 1),
    }
}

// The stores of d delays.
#[tactic(auto, unfolding(crate::specs::Sizes::delays_size, words::specs::Choice::pick))]
pub fn delays(g: u64, d: u64, e: u64) -> u64
    requires { (g ≤ most_guard_words) × (d ≤ 65536) × (e ≤ most_text_words) }
    ensures { result ≡ delays_size g d e }
{
    if d == 0 {
        return 0;
    }
    e + 1 + (d - 1) * (2 + g)
}

// The stores of a hop.
#[tactic(auto, unfolding(crate::specs::Sizes::hop_stores_size, step_text::specs::Text::hop_registers))]
fn hop_stores(h: meaning::SeqHop, g: u64, e: u64) -> u64
    requires { (g ≤ most_guard_words) × (hop_registers h ≤ 65536) × (e ≤ most_text_words) }
    ensures { result ≡ hop_stores_size g h e }
{
    match h {
        meaning::SeqHop::Fixed(d) => delays(g, u64::from(d), e),
        meaning::SeqHop::AtLeast(m) => e + 3 + u64::from(m.saturating_sub(1)) * 2,
    }
}

// The stores of a goto.
#[tactic(auto, unfolding(crate::specs::Sizes::goto_size, words::specs::Choice::pick))]
fn goto_size(count: u32, a: u64) -> u64
    requires { a ≤ most_activation_words }
    ensures { result ≡ goto_size count a }
{
    if count < 2 {
        return a + 7;
    }
    a + 7 + (a + 12) + u64::from(count - 2) * 11
}

// The stores of an "at least" repetition.
fn run_size(count: u32, a: u64) -> u64
    requires { a ≤ most_activation_words }
    ensures { result ≡ run_size count a }
{
    a + 6 + u64::from(count.saturating_sub(1)) * 5
}

// The stores of a nonconsecutive repetition x of that count: the goto's, and its extension.
#[tactic(auto, using(crate::proofs::Laws::goto_small, crate::proofs::Laws::term_text_small))]
fn nonconsec_size(x: meaning::SeqTerm, count: u32, a: u64) -> u64
    requires { a ≤ most_activation_words }
    ensures { result ≡ goto_size count a + term_text_size x a + 1 }
{
    goto_size(count, a) + term_text(x, a) + 1
}

// The stores of a term.
#[tactic(auto, unfolding(crate::specs::Sizes::term_stores_size))]
fn term_stores(x: meaning::SeqTerm, a: u64) -> u64
    requires { a ≤ most_activation_words }
    ensures { result ≡ term_stores_size x a }
{
    match x {
        meaning::SeqTerm::Bool(_) | meaning::SeqTerm::Empty => 0,
        meaning::SeqTerm::Goto(_, count) => goto_size(count, a),
        meaning::SeqTerm::Nonconsec(_, count) => nonconsec_size(x, count, a),
        meaning::SeqTerm::ConsecAtLeast(_, count) => run_size(count, a),
    }
}

// The sizes after a later step s, from those before it.
#[tactic(auto, using(crate::proofs::Laws::step_sums), unfolding(crate::specs::Sizes::step_size))]
fn step_size(s: meaning::SeqStep, g: u64, z: Size) -> Size
    requires { (g ≤ most_guard_words) × (step_registers s ≤ 65536) × (z.text ≤ most_text_words) × (z.stores ≤ most_store_words) }
    ensures { result ≡ step_size g s z }
{
    let h = step_text::reach(s);
    let a = hop_text(h, g, z.text);
    let own = hop_stores(h, g, z.text) + term_stores(s.term, a);
    Size {
        text: term_text(s.term, a),
        stores: z.stores + own,
    }
}

// The sizes after the first term and its guard.
#[tactic(auto, using(crate::proofs::Laws::lead_text_small), unfolding(crate::specs::Sizes::first_size))]
fn first_size(x: meaning::SeqTerm, g: u64) -> Size
    requires { g ≤ most_guard_words }
    ensures { result ≡ first_size g x }
{
    Size {
        text: lead_text(x) + g,
        stores: term_stores(x, 1),
    }
}

// The sizes of a kept alternative.
pub fn sizes(y: Alternative<'_>) -> Size
    requires { Countable y.work.now y.kept }
    ensures { result ≡ size_up_to_step y.entry.work.now y.entry.kept (y.entry.kept.steps - 1) }
{
    let g = (y.kept.end - y.kept.guard) as u64;
    let mut z = first_size(y.step(0).term, g);
    for k in 1..y.kept.steps {
        z = step_size(y.step(k), g, z);
    }
    z
}
