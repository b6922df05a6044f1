// A successor is offered to the search that the lent table holds: dropped, refused for a full table, or settled and kept.
#![tactic(auto)]

ghost use Rattle.std.specs.Prelude.{◌≡◌, false, ◌++◌, ◌+◌, ◌*◌, ◌≤◌, ◌<◌, length, get_or, take, drop, IfSome, nat_le};
ghost use Rattle.layer.specs.Board.{base_on, row_on, states_on, settled_on};
ghost use Rattle.layer.specs.Held.{board_in};
ghost use Rattle.mets.specs.Known.{Known};
ghost use Rattle.rows.specs.Begun.{read_from, begun_words};
ghost use Rattle.rows.specs.Reach.{Reaches, ReachesIn};
ghost use Rattle.rows.specs.Row.{node_with};
ghost use Rattle.keys.specs.Scan.{goal_cost_by};
ghost use Rattle.rows.specs.Sign.{class_of, sign_of};
ghost use Rattle.offers.specs.Held.{Room, kept_run, Kept, Offered, is_beaten};

use blocks::SCAN_WORDS;
use dominance::{Candidate, list_reached};
use keys::goal_cost;
use mets::slot_for;
use nodes::{dominator, link, slot_of};
use rows::{class_of, sign_of, write_row};
use sweeps::settle_edges;
use task::Centre;
use words::copy_words;

mod held;

pub use held::{OfferTables, Opened, Origin, SearchTables};

// The search beside its table: nodes kept, expansions begun, best's node, best's goal cost (the mark for none).
#[derive(Clone, Copy, PartialEq, Eq)]
pub struct Run {
    pub count: usize,
    pub begun: usize,
    pub best: Option<usize>,
    pub best_cost: u64,
}

// The table was full, with the search as it was then.
#[derive(Clone, Copy, PartialEq, Eq)]
pub struct Full(pub Run);

// A successor by its parts: its centre state and cost, the node and the action that it comes from, its key, and the signature of its prices.
#[derive(Clone, Copy)]
pub struct Successor {
    pub spot: Centre,
    pub paid: u64,
    pub parent: usize,
    pub action: usize,
    pub key: u64,
    pub sign: u64,
}

// The signature of a layer whose begin has the signature `sign`: the same where no leaf was swept.
fn sign_behind(swept: bool, sign: u64, prices: &[u64]) -> u64
    requires { swept ≡ false → sign ≡ sign_of prices.now }
    ensures { result ≡ sign_of prices.now }
{
    if swept {
        return sign_of(prices);
    }
    sign
}

// The counts with one node more, whose goal cost is given: it is best where that is less than best's.
fn counted(run: Run, cost: u64) -> Run
    requires { run.count < 4096 }
    ensures { result ≡ kept_run run cost }
{
    if cost < run.best_cost {
        return Run {
            count: run.count + 1,
            begun: run.begun,
            best: Some(run.count),
            best_cost: cost,
        };
    }
    Run {
        count: run.count + 1,
        ..run
    }
}

// A node under the next number: its row, its scan words (key, links), and the new best. `class` is its centre state's class, and its prices begin `prices`, whose
// signature it has.
fn keep_signed(
    tables: &OfferTables<'_>,
    made: Successor,
    class: usize,
    prices: &[u64],
    table: &mut [u64],
    scan: &mut [u64; SCAN_WORDS],
    run: Run,
) -> Run
    requires prices { row_on (board_in tables.now.board) ≤ length prices.now }
    requires room { (run.count < 4096) × ((run.count + 1) * (40 + row_on (board_in tables.now.board)) ≤ length table.old) }
    requires sign { made.sign ≡ sign_of (take (row_on (board_in tables.now.board)) prices.now) }
    requires class { class ≡ class_of made.spot }
    ensures { Kept (row_on (board_in tables.now.board)) table.old scan.old run
        (node_with made.spot made.paid (take (row_on (board_in tables.now.board)) prices.now) made.parent made.action) made.key
        (goal_cost_by tables.now.board.leaves tables.now.board.bases.now tables.now.goals.now tables.now.board.factors tables.now.goal made.spot made.paid prices.now)
        table.new scan.new result }
{
    let board = &tables.board;
    let states = board.states();
    let count = run.count;
    let wide = 40 + states;
    let at = count * wide;
    let end = at + wide;
    write_row(
        &mut table[at..end],
        states,
        made.spot,
        made.paid,
        made.parent,
        made.action,
        made.sign,
        prices,
    );
    link(scan, count, made.key, made.sign, class);
    let cost = goal_cost(
        board,
        tables.goals,
        tables.goal,
        made.spot,
        made.paid,
        prices,
    );
    counted(run, cost)
}

// The same of a node with the signature of its layer's begin, where no leaf was swept since; where one was, its signature is found. The scan words behind the keys are left to
// the program: they chain the nodes (`Kept`). So are the words of the table that hold no node.
pub fn keep(
    tables: &OfferTables<'_>,
    made: Successor,
    class: usize,
    swept: bool,
    prices: &[u64],
    table: &mut [u64],
    scan: &mut [u64; SCAN_WORDS],
    run: Run,
) -> Run
    requires prices { row_on (board_in tables.now.board) ≤ length prices.now }
    requires room { (run.count < 4096) × ((run.count + 1) * (40 + row_on (board_in tables.now.board)) ≤ length table.old) }
    requires sign { swept ≡ false → made.sign ≡ sign_of (take (row_on (board_in tables.now.board)) prices.now) }
    requires class { class ≡ class_of made.spot }
    ensures { Kept (row_on (board_in tables.now.board)) table.old scan.old run
        (node_with made.spot made.paid (take (row_on (board_in tables.now.board)) prices.now) made.parent made.action) made.key
        (goal_cost_by tables.now.board.leaves tables.now.board.bases.now tables.now.goals.now tables.now.board.factors tables.now.goal made.spot made.paid prices.now)
        table.new scan.new result }
{
    let states = tables.board.states();
    let sign = sign_behind(swept, made.sign, &prices[..states]);
    let signed = Successor { sign, ..made };
    keep_signed(tables, signed, class, prices, table, scan, run)
}

// A layer's begin settles; `spot` is its centre state, of this class. Whether a leaf was swept: else all is as it was.
fn settle_begin(
    tables: &OfferTables<'_>,
    spot: Centre,
    class: usize,
    begin: &mut [u64],
    known: &mut [u8],
) -> bool
    requires known { Known (board_in tables.now.board) known.old }
    requires begin { (class < 4096) × (row_on (board_in tables.now.board) ≤ length begin.old) }
    ensures { (begin.new ≡ settled_on (board_in tables.now.board) spot begin.old ++ drop (row_on (board_in tables.now.board)) begin.old)
        × Known (board_in tables.now.board) known.new
        × (result ≡ false → begin.new ≡ begin.old) }
{
    let board = &tables.board;
    let slot = slot_for(
        board.actions,
        tables.firsts,
        board.factors,
        board.conditions,
        spot,
        class,
        known,
    );
    let end = slot + 256;
    settle_edges(board, &known[slot..end], &tables.edges, spot, begin)
}

// Where the prices of a layer's begin, or a list of the states that they reach, are read: in the layer before, where the action is still, else where they were made.
fn read_from<'a, T>(old: &'a [T], made: &'a [T], still: u8) -> &'a [T]
    ensures moves { still ≡ 0 → result.now ≡ made.now }
    ensures stays { (still ≡ 0 → ⊥) → result.now ≡ old.now }
{
    if still == 0 {
        return made;
    }
    old
}

// Where the action is not still, lists the states that a layer's begin reaches, if there are many; how many are listed.
fn list_begin(states: usize, begin: &[u64], room: &mut [u16], still: u8) -> usize
    requires { (1024 ≤ length room.old) × (states ≤ 1024) × (states ≤ length begin.now) }
    ensures { (result ≤ 1024) × (still ≡ 0 → 128 ≤ states → ReachesIn states begin.now room.new result) }
{
    if still != 0 {
        return 0;
    }
    list_reached(states, begin, room)
}

// The next recent number: one more than the number of the node that was found, or else of the one behind the first `count` nodes, which is kept next if it is
// kept. Any number is right.
fn recent_next(found: Option<usize>, count: usize) -> u16
    requires found { IfSome found (λ u. u < count) }
    requires count { count ≤ 4096 }
{
    (found.unwrap_or(count) + 1) as u16
}

// The prices of a layer's begin, at the front of `begin`.
fn fill_begin(old: &[u64], begin: &mut [u64], still: u8, states: usize)
    requires { (states ≤ length old.now) × (states ≤ length begin.old) }
    ensures { begin.new ≡ begun_words still states old.now begin.old }
{
    if still == 0 {
        return;
    }
    copy_words(old, begin, states);
}

// Where the recent number of a class and a signature stands in the room.
fn recent_place(class: usize, sign: u64) -> usize
    requires { class < 4096 }
    ensures { result < 5120 }
{
    1024 + slot_of(class, sign)
}

// Whether a node that is kept dominates a successor with its layer's begin. The node that was found, or else the next, is noted as recent. The words of the
// room are left to the program, its length stays.
fn is_dominated(
    tables: &OfferTables<'_>,
    from: &Origin<'_>,
    next: Successor,
    begin: &[u64],
    room: &mut [u16],
    table: &[u64],
    scan: &[u64; SCAN_WORDS],
    run: Run,
) -> bool
    requires old { (row_on (board_in tables.now.board) ≤ length from.now.prices.now)
        × (128 ≤ row_on (board_in tables.now.board) → Reaches (row_on (board_in tables.now.board)) from.now.prices.now from.now.list.now) }
    requires long { (row_on (board_in tables.now.board) ≤ length begin.now) × (5120 ≤ length room.old) }
    requires sign { next.sign ≡ sign_of (take (row_on (board_in tables.now.board)) (begun_words from.now.still (row_on (board_in tables.now.board)) from.now.prices.now begin.now)) }
    requires room { Room (row_on (board_in tables.now.board)) tables.now.nodes table.now scan.now run }
    ensures { result ≡ is_beaten (row_on (board_in tables.now.board)) table.now run next.spot next.paid
        (begun_words from.now.still (row_on (board_in tables.now.board)) from.now.prices.now begin.now) }
{
    let states = tables.board.states();
    let class = class_of(next.spot);
    let many = list_begin(states, begin, room, from.still);
    let place = recent_place(class, next.sign);
    let recent = room[place] as usize;
    let candidate = Candidate {
        states,
        spot: next.spot,
        paid: next.paid,
        prices: read_from(from.prices, begin, from.still),
        sign: next.sign,
        list: read_from(from.list, &room[..many], from.still),
    };
    let found = dominator(table, run.count, scan, class, &candidate, recent);
    room[place] = recent_next(found, run.count);
    found.is_some()
}

// Whether a search that may keep so many nodes has kept them.
fn is_full(run: Run, nodes: usize) -> bool
    ensures { result ≡ nat_le nodes run.count }
{
    run.count >= nodes
}

// A successor from its layer's begin, whose prices are those of `from` where its action is still there, else those at the front of `begin`: dropped, refused for a
// full table, or settled and kept under the next number. `room` is for a list of states, and has the recent numbers behind its first 1,024 words. The words of
// `begin` and `room` afterwards are left to the program, their lengths stay; those of `known` too, of which `Known` holds.
pub fn offer(
    tables: &OfferTables<'_>,
    from: &Origin<'_>,
    next: Successor,
    known: &mut [u8],
    begin: &mut [u64],
    room: &mut [u16],
    table: &mut [u64],
    scan: &mut [u64; SCAN_WORDS],
    run: Run,
) -> Result<Run, Full>
    requires known { Known (board_in tables.now.board) known.old }
    requires old { (row_on (board_in tables.now.board) ≤ length from.now.prices.now)
        × (128 ≤ row_on (board_in tables.now.board) → Reaches (row_on (board_in tables.now.board)) from.now.prices.now from.now.list.now) }
    requires long { (row_on (board_in tables.now.board) ≤ length begin.old) × (5120 ≤ length room.old) }
    requires sign { next.sign ≡ sign_of (take (row_on (board_in tables.now.board)) (begun_words from.now.still (row_on (board_in tables.now.board)) from.now.prices.now begin.old)) }
    requires room { Room (row_on (board_in tables.now.board)) tables.now.nodes table.old scan.old run }
    ensures offered { Offered (board_in tables.now.board) tables.now.goals.now tables.now.goal tables.now.nodes table.old scan.old run next.spot next.paid
        (begun_words from.now.still (row_on (board_in tables.now.board)) from.now.prices.now begin.old) next.parent next.action next.key
        table.new scan.new result }
    ensures known { Known (board_in tables.now.board) known.new }
    ensures lengths { (length begin.new ≡ length begin.old) × (length room.new ≡ length room.old) }
{
    if next.key >= run.best_cost {
        return Ok(run);
    }
    if is_dominated(tables, from, next, begin, room, table, scan, run) {
        return Ok(run);
    }
    if is_full(run, tables.nodes) {
        return Err(Full(run));
    }
    let states = tables.board.states();
    let class = class_of(next.spot);
    fill_begin(from.prices, begin, from.still, states);
    let swept = settle_begin(tables, next.spot, class, begin, known);
    Ok(keep(tables, next, class, swept, begin, table, scan, run))
}
