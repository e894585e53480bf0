// The cases of a text, one after the other: a line with a case's name, which is printed, and below it the line that has the case. Empty lines
// and lines that begin with # are skipped.
//
// Example: of the lines "one", "# first", "1 2", "", "two" and "3" it prints "one", replays "1 2", prints "two" and replays "3".
#![tactic(auto)]

ghost use Rattle.std.specs.Prelude.{◌≡◌};
ghost use Rattle.std.specs.Fn.{CalledAt};
ghost use Rattle.std.specs.List.{FoldsTo};
ghost use Rattle.replay.specs.Lines.{skipped, case_lines};

// Whether a line says nothing.
#[tactic(auto, unfolding(crate::specs::Lines::skipped))]
fn skipped(line: &[u8]) -> bool
    ensures { result ≡ skipped line.now }
{
    line.is_empty() || line[0] == b'#'
}

// Prints a case's name.
fn say(name: &[u8]) {
    io::write_all(1, name);
    io::write_all(1, b"\n");
}

// Takes the step for each case, in turn.
pub fn each_case<F: FnMut(&[u8])>(text: &[u8], mut step: F)
    requires { F.IsAlwaysCallable step }
    ensures { (last : F) × FoldsTo (λ p x q. CalledAt F.FnMut p x tt q) step (case_lines text.now) last }
{
    let mut named = false;
    let mut from = 0;
    while from < text.len() {
        let end = cases::until(text, from, b'\n');
        let line = &text[from..end];
        from = end + 1;
        if skipped(line) {
            continue;
        }
        if named {
            step(line);
        } else {
            say(line);
        }
        named = !named;
    }
}
