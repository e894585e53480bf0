// The matcher: at which recorded ticks a match of a sequence ends, decided by SPECIFICATION, "What a match is", and without the lowering.
//
// Every node has a table of its runs, (ticks + 1) squared bytes of work, filled from those of its operands by recursion on the node number.
// So all seven kinds may stand anywhere, and the cost grows with the nodes and with the ticks alone.
//
// Example: `a ##1 b` over the rows 1 0, 0 1 of width 2 is answered Ok(2), two ticks, with the bytes 0 1.
#![tactic(auto)]

ghost use Rattle.std.specs.Prelude.{◌≡◌, ◌+◌, ◌-◌, ◌*◌, ◌≤◌, ◌<◌, length};
ghost use Rattle.meaning.specs.Tree.{tree_at, nodes};
ghost use Rattle.meaning.specs.Match.{Match};
ghost use Rattle.runs.specs.Ends.{Gains, Stands};
ghost use Rattle.runs.specs.Tables.{RunsOf};
ghost use Rattle.recorded_runs.specs.Recorded.{trace_of};
ghost use Rattle.matches.specs.Tables.{table_of, TableOf, Fillable, Ready, NoEnds, RowFilled, TableFilled, Filled};
ghost use Rattle.matches.specs.Answers.{Says, Answered, Matches};
ghost use Rattle.matches.specs.Answering.{EndsAt, EndsPut, Uncleared};

use meaning::{Refusal, kind};
use recorded_runs::Rows;
use runs::Table;

// Where the table of a node begins.
fn table_of(side: usize, n: u32) -> usize
    requires { (side ≤ 257) × (n < 64) }
    ensures { result ≡ table_of side n }
{
    n as usize * (side * side)
}

// The table of a node, among the others.
fn table(tables: &[u8], side: usize, n: u32) -> Table<'_>
    requires { Stands tables.now (table_of side n) side × (side ≤ 257) × (n < 64) }
    ensures { TableOf result tables.entry side n }
{
    let place = table_of(side, n);
    Table {
        bytes: tables,
        place,
        side,
    }
}

// Adds the ends of the runs of node n from i on, which its operands' tables and the rows tell.
fn add_ends_of(tree: &[u32], rows: Rows, tables: &[u8], n: u32, i: usize, row: &mut [u8])
    requires { Ready tree.now rows.bytes.now rows.width (length row.old) tables.now n × (i < length row.old) }
    ensures { Gains row.old row.new (Match (trace_of rows.entry) (tree_at tree.now n) i) }
{
    let side = row.len();
    let v = tree::read(tree, n);
    match v.kind {
        kind::ATOM => recorded_runs::occurs(rows, v.p, i, row),
        kind::DELAY => {
            let left = table(tables, side, v.p);
            let right = table(tables, side, v.q);
            joined_runs::delayed(left, right, v.min, v.max, i, row);
        }
        kind::CONSECUTIVE => {
            let under = table(tables, side, v.p);
            repeated_runs::repeated(under, v.min, v.max, i, row);
        }
        kind::THROUGHOUT => {
            let under = table(tables, side, v.q);
            recorded_runs::throughout(under, rows, v.p, i, row);
        }
        kind::WITHIN => {
            let one = table(tables, side, v.p);
            let two = table(tables, side, v.q);
            joined_runs::inside(one, two, i, row);
        }
        _ => {
            let atom = tree::read(tree, v.p).p;
            let goes_on = v.kind == kind::NONCONSECUTIVE;
            recorded_runs::counted(rows, atom, v.min, goes_on, i, row);
        }
    }
}

// Finds the ends of the runs of node n from i on in a row without ends, and puts them into its table.
fn put_ends(tree: &[u32], rows: Rows, n: u32, i: usize, tables: &mut [u8], row: &mut [u8])
    requires { Ready tree.now rows.bytes.now rows.width (length row.old) tables.old n × (i < length row.old) × NoEnds row.old }
    ensures { RowFilled tree.now rows.entry.bytes.now rows.entry.width (length row.old) tables.old tables.new n i }
{
    let side = row.len();
    add_ends_of(tree, rows, tables, n, i, row);
    words::copied(row, tables, table_of(side, n) + i * side);
}

// Fills row i of the table of node n.
fn fill_row(tree: &[u32], rows: Rows, side: usize, n: u32, i: usize, tables: &mut [u8])
    requires { Ready tree.now rows.bytes.now rows.width side tables.old n × (i < side) }
    ensures { RowFilled tree.now rows.entry.bytes.now rows.entry.width side tables.old tables.new n i }
{
    let mut row = [0; runs::SIDE];
    put_ends(tree, rows, n, i, tables, &mut row[..side]);
}

// Fills the table of node n, whose operands' tables are filled.
fn fill_table(tree: &[u32], rows: Rows, side: usize, n: u32, tables: &mut [u8])
    requires { Ready tree.now rows.bytes.now rows.width side tables.old n }
    ensures { TableFilled tree.now rows.entry.bytes.now rows.entry.width side tables.old tables.new n }
{
    for i in 0..side {
        fill_row(tree, rows, side, n, i, tables);
    }
}

// Fills the tables of node n and of all below it, the operands' first. Goto and nonconsecutive repetition read their atom off the rows,
// which are lent, so that a level of the tree keeps no copy of them on the stack.
fn fill(tree: &[u32], rows: &Rows, side: usize, n: u32, tables: &mut [u8])
    requires { Fillable tree.now rows.now.bytes.now rows.now.width side (length tables.old) × (n < nodes tree.now) }
    ensures { Filled tree.now rows.now.bytes.now rows.now.width side tables.old tables.new n }
{
    let v = tree::read(tree, n);
    match v.kind {
        kind::CONSECUTIVE => fill(tree, rows, side, v.p, tables),
        kind::THROUGHOUT => fill(tree, rows, side, v.q, tables),
        kind::DELAY | kind::WITHIN => {
            fill(tree, rows, side, v.p, tables);
            fill(tree, rows, side, v.q, tables);
        }
        _ => {}
    }
    fill_table(tree, *rows, side, n, tables);
}

// Whether a run of the table has its last tick here: one that is not empty.
fn ends_at(table: Table, tick: usize) -> u8
    requires { tick + 1 < table.side }
    ensures { Says result (EndsAt (RunsOf table.entry) tick) }
{
    let end = tick + 1;
    for i in 0..end {
        if table.row(i)[end] == 1 {
            return 1;
        }
    }
    0
}

// Puts the answers of a filled table, a byte a tick.
fn put_answers(table: Table, answers: &mut [u8])
    requires { (0 < table.side) × (table.side ≤ length answers.old + 1) }
    ensures { EndsPut (RunsOf table.entry) (table.entry.side - 1) answers.old answers.new }
{
    for (tick, answer) in answers[..table.side - 1].iter_mut().enumerate() {
        *answer = ends_at(table, tick);
    }
}

// The answers of a tree and rows that were judged good.
fn answer_ticks(tree: &[u32], rows: Rows, ticks: usize, answers: &mut [u8], work: &mut [u8])
    requires { Fillable tree.now rows.bytes.now rows.width (ticks + 1) (length work.old) × (ticks ≤ length answers.old) }
    ensures { Answered tree.now rows.entry.bytes.now rows.entry.width ticks answers.old answers.new × (length work.new ≡ length work.old) }
{
    let root = (tree.len() / 5 - 1) as u32;
    let side = ticks + 1;
    fill(tree, &rows, side, root, work);
    put_answers(table(work, side, root), answers);
}

// Everything but the clearing: what is lent as work keeps the tables.
fn matched(
    tree: &[u32],
    rows: &[u8],
    width: usize,
    answers: &mut [u8],
    work: &mut [u8],
) -> Result<usize, Refusal>
    ensures { Uncleared tree.now rows.now width answers.old answers.new work.old work.new result }
{
    let ticks = recording::judged(tree, rows, width, answers.len(), work.len())?;
    let rows = Rows { bytes: rows, width };
    answer_ticks(tree, rows, ticks, answers, work);
    Ok(ticks)
}

// The public entry point: a byte of answers for each tick, 1 exactly where a match of the tree ends, or a refusal.
pub fn matches(
    tree: &[u32],
    rows: &[u8],
    width: usize,
    answers: &mut [u8],
    work: &mut [u8],
) -> Result<usize, Refusal>
    ensures { Matches tree.now rows.now width answers.old answers.new work.old work.new result }
{
    let answer = matched(tree, rows, width, answers, work);
    work.fill(0);
    answer
}
