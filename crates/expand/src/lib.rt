// One node's expansion over the lent table: the actions that need a turn, and their turns.
#![tactic(auto)]

ghost use Rattle.std.specs.Prelude.{◌≡◌, true, ◌+◌, ◌*◌, ◌≤◌, ◌<◌, length, get_or, take};
ghost use Rattle.layer.specs.Board.{base_on, row_on, states_on, met_on};
ghost use Rattle.layer.specs.Held.{board_in};
ghost use Rattle.mets.specs.Known.{Known};
ghost use Rattle.rows.specs.Row.{node_in};
ghost use Rattle.offers.specs.Held.{Room, Has};
ghost use Rattle.expand.specs.Held.{Useful, Moved, Grown, Done};

use begins::{begin_of, is_stuck};
use blocks::SCAN_WORDS;
use detours::{drop_detours, hop_behind};
use dominance::{Candidate, list_reached};
use layer::{Board, pairs_of};
use leaf::add_price;
use mets::list_mets;
use offers::{Full, Opened, Origin, Run, SearchTables, Successor, offer};
use rows::{class_of, read_spot};
use words::copy_words;

// What an expansion works in: what is known of centre states, its actions that need a turn, its node's prices, and those of a layer's begin and of its layer.
#[derive(Drop)]
pub struct Desk {
    pub known: [u8; 36864],
    pub mets: [u8; 256],
    pub prices: [u64; 1024],
    pub next: [u64; 1024],
}

// Action a, whose centre conditions hold, at the node: a centre action has its layer's begin offered. No leaf's least price falls over it, so nothing is made where
// the key and the action's cost are not below best, nor where it does not apply.
fn turn(
    tables: &SearchTables<'_>,
    opened: &Opened<'_>,
    a: usize,
    known: &mut [u8],
    begin: &mut [u64],
    room: &mut [u16],
    table: &mut [u64],
    scan: &mut [u64; SCAN_WORDS],
    run: Run,
) -> Result<Run, Full>
    requires known { Known (board_in tables.now.offers.board) known.old }
    requires states { opened.now.node.states ≡ row_on (board_in tables.now.offers.board) }
    requires met { met_on (board_in tables.now.offers.board) opened.now.node.spot a ≡ true }
    requires inside { (opened.now.number < run.count) × (a < tables.now.offers.board.actions) }
    requires long { (row_on (board_in tables.now.offers.board) ≤ length begin.old) × (5120 ≤ length room.old) }
    requires room { Room (row_on (board_in tables.now.offers.board)) tables.now.offers.nodes table.old scan.old run }
    ensures moved { Moved (board_in tables.now.offers.board) tables.now.effects.now tables.now.offers.goals.now tables.now.offers.goal tables.now.offers.nodes
        opened.now.node.spot opened.now.node.paid opened.now.node.prices.now opened.now.key opened.now.number a table.old scan.old run table.new scan.new result }
    ensures known { Known (board_in tables.now.offers.board) known.new }
{
    let offers = &tables.offers;
    let board = &offers.board;
    let node = &opened.node;
    if board.kinds[a] != 0 {
        return Ok(run);
    }
    let cost = cost_of(board, a) as u64;
    let low = add_price(opened.key, cost);
    if low >= run.best_cost {
        return Ok(run);
    }
    if is_stuck(board, tables.still, tables.stills, node.prices, a) {
        return Ok(run);
    }
    let spot = node.spot.after(board.factors, pairs_of(tables.effects, a));
    let paid = add_price(node.paid, cost);
    let begun = begin_of(
        board,
        tables.still,
        tables.stills,
        a,
        node.prices,
        low,
        node.sign,
        begin,
    );
    let next = Successor {
        spot,
        paid,
        parent: opened.number,
        action: a,
        key: begun.key,
        sign: begun.sign,
    };
    let from = Origin {
        prices: node.prices,
        list: node.list,
        still: tables.still[a],
    };
    offer(offers, &from, next, known, begin, room, table, scan, run)
}

// All actions of the node that need a turn, which `mets` lists by rising number.
fn turns(
    tables: &SearchTables<'_>,
    opened: &Opened<'_>,
    mets: &[u8],
    known: &mut [u8],
    begin: &mut [u64],
    room: &mut [u16],
    table: &mut [u64],
    scan: &mut [u64; SCAN_WORDS],
    run: Run,
) -> Result<Run, Full>
    requires known { Known (board_in tables.now.offers.board) known.old }
    requires states { opened.now.node.states ≡ row_on (board_in tables.now.offers.board) }
    requires useful { Useful (board_in tables.now.offers.board) tables.now.effects.now opened.now.node.spot table.old opened.now.number opened.now.node.prices.now
        (length mets.now) (λ j. get_or mets.now j 0) }
    requires has { Has (node_in (row_on (board_in tables.now.offers.board)) table.old opened.now.number) opened.now.node.spot opened.now.node.paid
        (take (row_on (board_in tables.now.offers.board)) opened.now.node.prices.now) }
    requires inside { opened.now.number < run.count }
    requires long { (row_on (board_in tables.now.offers.board) ≤ length begin.old) × (5120 ≤ length room.old) }
    requires room { Room (row_on (board_in tables.now.offers.board)) tables.now.offers.nodes table.old scan.old run }
    ensures grown { Grown (board_in tables.now.offers.board) tables.now.offers.nodes run table.new scan.new result }
    ensures expanded { Done (board_in tables.now.offers.board) tables.now.effects.now tables.now.offers.goals.now tables.now.offers.goal tables.now.offers.nodes
        opened.now.number opened.now.key table.old scan.old run table.new scan.new result }
    ensures known { Known (board_in tables.now.offers.board) known.new }
{
    let mut going = run;
    for a in mets {
        going = turn(
            tables,
            opened,
            *a as usize,
            known,
            begin,
            room,
            table,
            scan,
            going,
        )?;
    }
    Ok(going)
}

// What an action costs.
fn cost_of(board: &Board<'_>, a: usize) -> u16
    requires { a < 256 }
    ensures { result ≡ get_or board.now.costs.now a 0 }
{
    board.costs[a]
}

// The actions of the node that need a turn, by rising number, at the front of `mets`: those whose centre conditions hold, but for detours behind the hop that
// made the node, if it has its parent's prices. How many.
fn list_turns(
    tables: &SearchTables<'_>,
    opened: &Opened<'_>,
    table: &[u64],
    known: &mut [u8],
    mets: &mut [u8],
) -> usize
    requires known { Known (board_in tables.now.offers.board) known.old }
    requires states { opened.now.node.states ≡ row_on (board_in tables.now.offers.board) }
    requires mets_len { (length mets.old ≡ 256) × (opened.now.number < 4096)
        × (opened.now.number * (40 + row_on (board_in tables.now.offers.board)) + (40 + row_on (board_in tables.now.offers.board)) ≤ length table.now) }
    ensures { Known (board_in tables.now.offers.board) known.new × (result ≤ 256)
        × Useful (board_in tables.now.offers.board) tables.now.effects.now opened.now.node.spot table.now opened.now.number opened.now.node.prices.now
        result (λ j. get_or mets.new j 0) }
{
    let board = &tables.offers.board;
    let many = list_mets(
        board,
        tables.offers.firsts,
        opened.node.spot,
        class_of(opened.node.spot),
        known,
        mets,
    );
    let word = hop_behind(
        table,
        opened.node.states,
        board.actions,
        tables.hops,
        opened.number,
        opened.node.prices,
    );
    if word == 0 {
        return many;
    }
    let made_by = table[opened.number * (40 + opened.node.states) + 34] as usize;
    let cost = cost_of(board, made_by);
    drop_detours(
        tables.hops,
        tables.ways,
        board.costs,
        word,
        cost,
        mets,
        many,
    )
}

// All actions of node u, whose key is given, by rising number; `list` is for the states that the node's prices reach, and `room` has recent numbers behind 1,024
// words to work in (`offers::offer`). The words of these two afterwards are left to the program, their lengths stay; those of the desk too, but for `Known`.
pub fn expand(
    tables: &SearchTables<'_>,
    u: usize,
    key: u64,
    desk: &mut Desk,
    list: &mut [u16],
    room: &mut [u16],
    table: &mut [u64],
    scan: &mut [u64; SCAN_WORDS],
    run: Run,
) -> Result<Run, Full>
    requires known { Known (board_in tables.now.offers.board) desk.old.known }
    requires inside { u < run.count }
    requires long { (1024 ≤ length list.old) × (5120 ≤ length room.old) }
    requires room { Room (row_on (board_in tables.now.offers.board)) tables.now.offers.nodes table.old scan.old run }
    ensures grown { Grown (board_in tables.now.offers.board) tables.now.offers.nodes run table.new scan.new result }
    ensures expanded { Done (board_in tables.now.offers.board) tables.now.effects.now tables.now.offers.goals.now tables.now.offers.goal tables.now.offers.nodes
        u key table.old scan.old run table.new scan.new result }
    ensures known { Known (board_in tables.now.offers.board) desk.new.known }
    ensures lengths { (length list.new ≡ length list.old) × (length room.new ≡ length room.old) }
{
    let states = tables.offers.board.states();
    let wide = 40 + states;
    let at = u * wide;
    let end = at + wide;
    copy_words(&table[at + 40..end], &mut desk.prices, states);
    let reached = list_reached(states, &desk.prices, list);
    let node = Candidate {
        states,
        spot: read_spot(&table[at..end]),
        paid: table[at + 32],
        prices: &desk.prices,
        sign: table[at + 39],
        list: &list[..reached],
    };
    let opened = Opened {
        number: u,
        key,
        node,
    };
    let many = list_turns(tables, &opened, table, &mut desk.known, &mut desk.mets);
    turns(
        tables,
        &opened,
        &desk.mets[..many],
        &mut desk.known,
        &mut desk.next,
        room,
        table,
        scan,
        run,
    )
}
