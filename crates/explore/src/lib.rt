// The exploration over the lent table.
#![tactic(auto)]

ghost use Rattle.std.specs.Prelude.{◌≡◌, ℕ, ◌+◌, ◌*◌, ◌≤◌, ◌<◌, length, get_or, nat_eq};
ghost use Rattle.task.specs.declared.Task.{Task};
ghost use Rattle.task.specs.Factors.{all_states};
ghost use Rattle.task.specs.Valid.{Valid};
ghost use Rattle.layer.specs.Board.{base_on, row_on, states_on};
ghost use Rattle.layer.specs.Held.{board_in};
ghost use Rattle.mets.specs.Known.{Known};
ghost use Rattle.edges.specs.Edges.{Edges};
ghost use Rattle.tables.specs.Tables.{Goals};
ghost use Rattle.search.specs.Explore.{start, explored};
ghost use Rattle.nodes.specs.Chain.{Chained};
ghost use Rattle.offers.specs.Held.{search_of, Cached, Room};
ghost use Rattle.expand.specs.Held.{Suits};
ghost use Rattle.explore.specs.declared.Why.TheVariants.{TableFull};
ghost use Rattle.explore.specs.Held.{stopped_of};
ghost use Rattle.explore.specs.Held.Rounds.{Ahead, Rounded};

use blocks::{SCAN_WORDS, choose, fresh, retire};
use edges::EdgeTable;
use expand::{Desk, expand};
use hops::{list_hops, list_ways};
use keys::key_of;
use layer::{first_conditions, first_layer};
use leaf::MARK;
use offers::{Full, OfferTables, Run, SearchTables, Successor, keep};
use rows::class_of;
use stills::{still_actions, still_leaves};
use tables::TaskTables;
use task::Centre;

// Why a search stops.
#[derive(Clone, Copy, PartialEq, Eq)]
pub enum Why {
    Finished,
    TableFull,
    BudgetSpent,
}

// A search that has stopped: why, and what it has come to.
#[derive(Clone, Copy, PartialEq, Eq)]
pub struct Stop {
    pub why: Why,
    pub run: Run,
}

impl From<Full> for Stop {
    ghost from_gives = { λ full stop. stop ≡ record { why = TableFull; run = full.0 } };

    fn from(full: Full) -> Stop {
        Stop {
            why: Why::TableFull,
            run: full.0,
        }
    }
}

// The block words are set to the mark, and node 0 is made and kept: the search at its start.
fn start(
    tables: &TaskTables<'_>,
    search: &SearchTables<'_>,
    table: &mut [u64],
    scan: &mut [u64; SCAN_WORDS],
) -> Run
    requires suits { Suits tables.now.task.now (board_in search.now.offers.board) search.now.effects.now search.now.offers.goals.now search.now.offers.goal }
    requires table { 40 + all_states tables.now.task.now ≤ length table.old }
    requires heads { (h : ℕ) → h < 1025 → get_or scan.old (6144 + h) 0 ≡ 0 }
    ensures { (search_of (all_states tables.now.task.now) table.new scan.new result ≡ start tables.now.task.now)
        × Cached tables.now.task.now (all_states tables.now.task.now) table.new scan.new result
        × Chained (all_states tables.now.task.now) table.new scan.new result.count }
{
    fresh(scan);
    let board = &search.offers.board;
    let spot = Centre::default().after(board.factors, tables.task.initial);
    let mut prices = [MARK; 1024];
    first_layer(board, spot, tables.starts, &mut prices);
    let first = Successor {
        spot,
        paid: 0,
        parent: 0,
        action: 0,
        key: key_of(board, 0, &prices),
        sign: 0,
    };
    let none = Run {
        count: 0,
        begun: 0,
        best: None,
        best_cost: MARK,
    };
    keep(
        &search.offers,
        first,
        class_of(spot),
        true,
        &prices,
        table,
        scan,
        none,
    )
}

// Whether so many expansions have begun as the budget allows.
fn is_spent(run: Run, budget: u32) -> bool
    ensures { result ≡ nat_eq run.begun budget }
{
    run.begun == budget as usize
}

// One round: the least key is chosen, and where the budget is not used up its node is expanded, with the desk and `list` to work in and `room`, whose recent
// numbers stay from round to round.
fn next_round(
    search: &SearchTables<'_>,
    budget: u32,
    desk: &mut Desk,
    list: &mut [u16],
    room: &mut [u16],
    table: &mut [u64],
    scan: &mut [u64; SCAN_WORDS],
    run: Run,
) -> Result<Run, Stop>
    requires known { Known (board_in search.now.offers.board) desk.old.known }
    requires begun { run.begun ≤ 4096 }
    requires long { (1024 ≤ length list.old) × (5120 ≤ length room.old) }
    requires room { Room (row_on (board_in search.now.offers.board)) search.now.offers.nodes table.old scan.old run }
    ensures rounded { (t : Task) → Suits t (board_in search.now.offers.board) search.now.effects.now search.now.offers.goals.now search.now.offers.goal
        → Ahead t search.now.offers.nodes budget (all_states t) table.old scan.old run
        → Rounded t search.now.offers.nodes budget run.begun (all_states t) table.new scan.new result }
    ensures known { Known (board_in search.now.offers.board) desk.new.known }
{
    let Some(u) = choose(scan, run.count, run.best_cost) else {
        return Err(Stop {
            why: Why::Finished,
            run,
        });
    };
    if is_spent(run, budget) {
        return Err(Stop {
            why: Why::BudgetSpent,
            run,
        });
    }
    let key = scan[u];
    retire(scan, u, run.count);
    let more = run.begun + 1;
    let begun = Run { begun: more, ..run };
    Ok(expand(search, u, key, desk, list, room, table, scan, begun)?)
}

// Rounds from the start to the search's end.
fn rounds(
    tables: &TaskTables<'_>,
    search: &SearchTables<'_>,
    budget: u32,
    table: &mut [u64],
    scan: &mut [u64; SCAN_WORDS],
) -> Stop
    requires suits { Suits tables.now.task.now (board_in search.now.offers.board) search.now.effects.now search.now.offers.goals.now search.now.offers.goal }
    requires nodes { (1 ≤ search.now.offers.nodes) × (search.now.offers.nodes ≤ 4096) × ((search.now.offers.nodes + 1) * (40 + all_states tables.now.task.now) ≤ length table.old) }
    requires heads { (h : ℕ) → h < 1025 → get_or scan.old (6144 + h) 0 ≡ 0 }
    ensures { (stopped_of (all_states tables.now.task.now) table.new scan.new result ≡ explored tables.now.task.now search.now.offers.nodes budget)
        × Cached tables.now.task.now (all_states tables.now.task.now) table.new scan.new result.run }
{
    let mut run = start(tables, search, table, scan);
    let mut desk = Desk {
        known: [0; 36864],
        mets: [0; 256],
        prices: [MARK; 1024],
        next: [MARK; 1024],
    };
    let mut list = [0u16; 1024];
    let mut room = [0u16; 5120];
    loop {
        match next_round(
            search, budget, &mut desk, &mut list, &mut room, table, scan, run,
        ) {
            Ok(after) => run = after,
            Err(stop) => return stop,
        }
    }
}

// The exploration with the tables that an offer reads, which are the task's: the search's other tables are made, and its rounds run.
fn explore_with(
    tables: &TaskTables<'_>,
    offers: &OfferTables<'_>,
    budget: u32,
    table: &mut [u64],
    scan: &mut [u64; SCAN_WORDS],
) -> Stop
    requires suits { Suits tables.now.task.now (board_in offers.now.board) tables.now.task.now.effects offers.now.goals.now offers.now.goal }
    requires nodes { (1 ≤ offers.now.nodes) × (offers.now.nodes ≤ 4096) × ((offers.now.nodes + 1) * (40 + all_states tables.now.task.now) ≤ length table.old) }
    requires heads { (h : ℕ) → h < 1025 → get_or scan.old (6144 + h) 0 ≡ 0 }
    ensures { (stopped_of (all_states tables.now.task.now) table.new scan.new result ≡ explored tables.now.task.now offers.now.nodes budget)
        × Cached tables.now.task.now (all_states tables.now.task.now) table.new scan.new result.run }
{
    let board = offers.board;
    let stills = still_leaves(&board);
    let still = still_actions(&board, &stills);
    let hops = list_hops(&board, &tables.task.effects, offers.firsts, &still);
    let ways = list_ways(board.actions, &hops);
    let search = SearchTables {
        offers: *offers,
        still: &still,
        stills: &stills,
        hops: &hops,
        ways: &ways,
        effects: &tables.task.effects,
    };
    rounds(tables, &search, budget, table, scan)
}

// The whole exploration of a task that the reader accepted. The table and the scan words hold the search it ends with; what else stands in them is left to the
// program.
pub fn explore(
    tables: &TaskTables<'_>,
    goals: &[u16],
    nodes: usize,
    budget: u32,
    edges: &EdgeTable<'_>,
    table: &mut [u64],
    scan: &mut [u64; SCAN_WORDS],
) -> Stop
    requires valid { Valid tables.now.task.now }
    requires goals { Goals tables.now.task.now goals.now }
    requires edges { Edges (board_in tables.now.board) edges.now.list.now edges.now.ends.now }
    requires nodes { (1 ≤ nodes) × (nodes ≤ 4096) × ((nodes + 1) * (40 + all_states tables.now.task.now) ≤ length table.old) }
    requires heads { (h : ℕ) → h < 1025 → get_or scan.old (6144 + h) 0 ≡ 0 }
    ensures searched { (stopped_of (all_states tables.now.task.now) table.new scan.new result ≡ explored tables.now.task.now nodes budget)
        × Cached tables.now.task.now (all_states tables.now.task.now) table.new scan.new result.run }
    ensures lengths { length table.new ≡ length table.old }
{
    let firsts = first_conditions(&tables.board);
    let offers = OfferTables {
        board: tables.board,
        edges: *edges,
        firsts: &firsts,
        goals,
        goal: tables.task.goal,
        nodes,
    };
    explore_with(tables, &offers, budget, table, scan)
}
