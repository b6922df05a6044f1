// The plan of a node of the lent table, walked back node by node and written into the lent buffer.
#![tactic(auto)]

ghost use Rattle.std.specs.Prelude.{◌≡◌, true, ℕ, ◌+◌, ◌*◌, ◌≤◌, ◌<◌, eqb, length, get_or, replicate};
ghost use Rattle.task.specs.Factors.{all_states};
ghost use Rattle.task.specs.Valid.{Valid};
ghost use Rattle.leaf.specs.Price.{mark};
ghost use Rattle.layer.specs.Board.{row_on, states_on};
ghost use Rattle.layer.specs.Held.{board_in};
ghost use Rattle.edges.specs.Edges.{Edges};
ghost use Rattle.digits.specs.Digits.{Filled};
ghost use Rattle.tables.specs.Tables.{Goals};
ghost use Rattle.search.specs.Node.{least_of, is_goal};
ghost use Rattle.search.specs.Explore.{node_at};
ghost use Rattle.search.specs.Plan.{lowest, plan_of};
ghost use Rattle.search.specs.Plan.Backwards.{plan_back};
ghost use Rattle.search.specs.Plan.Laid.{laid};
ghost use Rattle.search.specs.Plan.Real.{Real};
ghost use Rattle.search.specs.Plan.Stages.{Priced};
ghost use Rattle.rows.specs.Row.{row_in, node_in};
ghost use Rattle.keys.specs.Scan.{goals_by};
ghost use Rattle.wayback.specs.Held.{KeptIn, WalkedIn};
ghost use Rattle.plans.specs.Walk.{held_in, node_on, prices_on, begins_on, back_from, back_on, WalkableFrom, WalkableOn, over_on, goal_on, RowIn, Roomy, Made, Standing, LayerWalkedIn, NodeWalkedIn, written};

use edges::EdgeTable;
use keys::least_goal;
use layer::{Board, enabled};
use leaf::{MARK, pass};
use rows::read_spot;
use settle::ListedActions;
use tables::TaskTables;
use wayback::{PlanBuffer, first_depth, leaf_back, lowest_over};

// ---- goal states

// The lowest goal state of least price; a state that is no goal state counts as one with the mark.
fn lowest_goal(prices: &[u64], goals: &[u16]) -> usize
    requires { length goals.now ≡ length prices.now }
    ensures { result ≡ lowest (length prices.now) (λ x.
        eqb (get_or (goals_by goals.now prices.now) x mark) (least_of (goals_by goals.now prices.now))) }
{
    let least = least_goal(prices, goals);
    goals
        .iter()
        .zip(prices)
        .position(|(&goal, &price)| (if goal == 0 { MARK } else { price }) == least)
        .unwrap_or(prices.len())
}

// Each leaf's lowest goal state of least price.
fn goal_ends(board: &Board<'_>, goals: &[u16], prices: &[u64]) -> [usize; 8]
    requires { (row_on (board_in board.now) ≤ length prices.now) × (row_on (board_in board.now) ≤ length goals.now) }
    ensures { Filled board.now.leaves (goal_on board.now.bases.now goals.now prices.now) result }
{
    let mut ends = [0usize; 8];
    for i in 0..board.leaves {
        ends[i] = lowest_goal(&prices[board.leaf(i)], &goals[board.leaf(i)]);
    }
    ends
}

// ---- rows

// The words of a node's row before its prices, and among them the number of the node that it was made from, and the centre action that made it.
const PRICES: usize = 40;

const PARENT: usize = 33;

const ACTION: usize = 34;

// A node's row.
fn row_of(table: &[u64], states: usize, node: usize) -> &[u64]
    requires { RowIn states table.now node }
    ensures row { result.now ≡ row_in states table.now node }
    ensures long { length result.now ≡ 40 + states }
{
    let from = node * (PRICES + states);
    &table[from..from + PRICES + states]
}

// The number of the node that a node was made from.
fn parent_of(table: &[u64], states: usize, node: usize) -> usize
    requires { RowIn states table.now node }
    ensures { result ≡ (node_in states table.now node).parent }
{
    row_of(table, states, node)[PARENT] as usize
}

// The centre action that made it.
fn action_of(table: &[u64], states: usize, node: usize) -> usize
    requires { RowIn states table.now node }
    ensures { result ≡ (node_in states table.now node).action }
{
    row_of(table, states, node)[ACTION] as usize
}

// A node's prices of the leaf behind i leaves.
fn prices_of<'a>(board: &Board<'_>, table: &'a [u64], node: usize, i: usize) -> &'a [u64]
    requires { (i < board.now.leaves) × RowIn (row_on (board_in board.now)) table.now node }
    ensures prices { result.now ≡ prices_on (board_in board.now) table.now i node }
    ensures long { length result.now ≡ states_on (board_in board.now) i }
{
    let row = row_of(table, board.states(), node);
    let leaf = board.leaf(i);
    &row[PRICES + leaf.start..PRICES + leaf.end]
}

// The prices that a node's layer began with, in the leaf behind i leaves; `out` has the mark everywhere.
fn layer_begin(
    board: &Board<'_>,
    starts: &[usize],
    table: &[u64],
    node: usize,
    i: usize,
    out: &mut [u64],
)
    requires { Standing (board_in board.now) starts.now table.now node
        × (i < board.now.leaves) × (out.old ≡ replicate (states_on (board_in board.now) i) mark) }
    ensures { out.new ≡ begins_on (board_in board.now) starts.now table.now i node }
{
    if node == 0 {
        out[starts[i]] = 0;
        return;
    }
    let states = board.states();
    let parent = parent_of(table, states, node);
    let at = action_of(table, states, node) * states + board.leaf(i).start;
    pass(prices_of(board, table, parent, i), board.moves, at, out);
}

// ---- one leaf inside one layer

// The leaf behind i leaves walks back from a state of a node's layer, which began with the prices `begins`; from one that has kept its price there
// is nothing to walk. The state where that ends.
fn leaf_walk(
    board: &Board<'_>,
    table: &[u64],
    node: usize,
    i: usize,
    begins: &[u64],
    state: usize,
    edges: &EdgeTable<'_>,
    tight: &mut [u8],
    out: &mut PlanBuffer<'_>,
) -> usize
    requires leaf { (i < board.now.leaves) × RowIn (row_on (board_in board.now)) table.now node }
    requires walkable { WalkableFrom (board_in board.now) table.now i node begins.now state }
    requires room { (board.now.actions * states_on (board_in board.now) i ≤ length tight.old) × (out.old.place + 256 ≤ mark) }
    requires edges { Edges (board_in board.now) edges.now.list.now edges.now.ends.now }
    ensures kept { KeptIn out.old out.new }
    ensures walked { WalkedIn (back_from (board_in board.now) table.now i node begins.now state) out.old result out.new }
{
    let prices = prices_of(board, table, node, i);
    if first_depth(begins, prices, state) == 0 {
        return state;
    }
    let states = board.states();
    let spot = read_spot(row_of(table, states, node));
    let mut acts = [0u8; 256];
    let count = enabled(board, spot, i, &mut acts);
    let actions = ListedActions {
        moves: board.moves,
        row: states,
        at: board.leaf(i).start,
        costs: board.costs,
        acts: &acts[..count],
    };
    leaf_back(&actions, edges, begins, prices, state, tight, out)
}

// The leaf behind i leaves walks back inside a node's layer. The state where that ends.
fn leaf_step(
    board: &Board<'_>,
    starts: &[usize],
    table: &[u64],
    node: usize,
    i: usize,
    state: usize,
    edges: &EdgeTable<'_>,
    tight: &mut [u8],
    out: &mut PlanBuffer<'_>,
) -> usize
    requires standing { Standing (board_in board.now) starts.now table.now node × (i < board.now.leaves) }
    requires walkable { WalkableOn (board_in board.now) starts.now table.now i node state }
    requires room { (board.now.actions * states_on (board_in board.now) i ≤ length tight.old) × (out.old.place + 256 ≤ mark) }
    requires edges { Edges (board_in board.now) edges.now.list.now edges.now.ends.now }
    ensures kept { KeptIn out.old out.new }
    ensures walked { WalkedIn (back_on (board_in board.now) starts.now table.now i node state) out.old result out.new }
{
    let many = board.leaf(i).len();
    let mut begins = [MARK; 256];
    layer_begin(board, starts, table, node, i, &mut begins[..many]);
    leaf_walk(
        board,
        table,
        node,
        i,
        &begins[..many],
        state,
        edges,
        tight,
        out,
    )
}

// ---- all leaves of one node

// Each leaf walks back inside a node's layer, the last leaf first, from its state in `ends`, which then has the state where it comes to.
fn layer_back(
    board: &Board<'_>,
    starts: &[usize],
    table: &[u64],
    node: usize,
    ends: &mut [usize],
    edges: &EdgeTable<'_>,
    tight: &mut [u8],
    out: &mut PlanBuffer<'_>,
)
    requires standing { Standing (board_in board.now) starts.now table.now node × (board.now.leaves ≤ length ends.old) }
    requires walkable { (i : ℕ) → i < board.now.leaves → WalkableOn (board_in board.now) starts.now table.now i node (get_or ends.old i 0) }
    requires room { Roomy board.now.leaves board.now.actions board.now.bases.now (length tight.old) × (out.old.place + 2048 ≤ mark) }
    requires edges { Edges (board_in board.now) edges.now.list.now edges.now.ends.now }
    ensures kept { KeptIn out.old out.new }
    ensures walked { LayerWalkedIn board.now.leaves (λ i. back_on (board_in board.now) starts.now table.now i node (get_or ends.old i 0)) out.old ends.new out.new }
{
    for i in (0..board.leaves).rev() {
        ends[i] = leaf_step(board, starts, table, node, i, ends[i], edges, tight, out);
    }
}

// The leaf behind i leaves goes back over a node's action, from a state to the lowest state of the parent's layer with the same price.
fn leaf_over(board: &Board<'_>, table: &[u64], node: usize, i: usize, state: usize) -> usize
    requires { (i < board.now.leaves) × (state < states_on (board_in board.now) i) × Made (board_in board.now) table.now node }
    ensures { result ≡ over_on (board_in board.now) table.now i node state }
{
    let states = board.states();
    let parent = parent_of(table, states, node);
    let at = action_of(table, states, node) * states + board.leaf(i).start;
    let price = prices_of(board, table, node, i)[state];
    lowest_over(
        board.moves,
        at,
        prices_of(board, table, parent, i),
        state,
        price,
    )
}

// Each leaf goes back over a node's action, from its state in `ends`, which then has the state of the parent's layer.
fn go_over(board: &Board<'_>, table: &[u64], node: usize, ends: &mut [usize])
    requires made { Made (board_in board.now) table.now node }
    requires ends { (board.now.leaves ≤ length ends.old) × ((i : ℕ) → i < board.now.leaves → get_or ends.old i 0 < states_on (board_in board.now) i) }
    ensures { Filled board.now.leaves (λ i. over_on (board_in board.now) table.now i node (get_or ends.old i 0)) ends.new }
{
    for i in 0..board.leaves {
        ends[i] = leaf_over(board, table, node, i, ends[i]);
    }
}

// Each leaf walks back inside a node's layer and over the node's action, which is written before theirs.
fn node_back(
    board: &Board<'_>,
    starts: &[usize],
    table: &[u64],
    node: usize,
    ends: &mut [usize],
    edges: &EdgeTable<'_>,
    tight: &mut [u8],
    out: &mut PlanBuffer<'_>,
)
    requires standing { Standing (board_in board.now) starts.now table.now node × (0 < node) × (board.now.leaves ≤ length ends.old) }
    requires walkable { (i : ℕ) → i < board.now.leaves → WalkableOn (board_in board.now) starts.now table.now i node (get_or ends.old i 0) }
    requires inside { (i : ℕ) → i < board.now.leaves → (back_on (board_in board.now) starts.now table.now i node (get_or ends.old i 0)).from
        < states_on (board_in board.now) i }
    requires room { Roomy board.now.leaves board.now.actions board.now.bases.now (length tight.old) × (out.old.place + 2049 ≤ mark) }
    requires edges { Edges (board_in board.now) edges.now.list.now edges.now.ends.now }
    ensures kept { KeptIn out.old out.new }
    ensures walked { NodeWalkedIn board.now.leaves (λ i. back_on (board_in board.now) starts.now table.now i node (get_or ends.old i 0))
        (node_on (board_in board.now) table.now node).action (λ i z. over_on (board_in board.now) table.now i node z) out.old ends.new out.new }
{
    layer_back(board, starts, table, node, ends, edges, tight, out);
    out.put(action_of(table, board.states(), node) as u8);
    go_over(board, table, node, ends);
}

// ---- all nodes

// The walk back from a node, whose leaves are in the states `ends`, to node 0: how many actions it meets. They are written as they are met, the plan's
// last action first, as far as `total` places go. `tight` is lent to work in: its words afterwards are left to the program, its length stays.
pub fn walk_back(
    tables: &TaskTables<'_>,
    table: &[u64],
    count: usize,
    node: usize,
    ends: [usize; 8],
    edges: &EdgeTable<'_>,
    tight: &mut [u8],
    plan: &mut [u8],
    total: usize,
) -> usize
    requires valid { Valid tables.now.task.now }
    requires real { Real tables.now.task.now (held_in (all_states tables.now.task.now) table.now count)
        × Priced tables.now.task.now (held_in (all_states tables.now.task.now) table.now count) node (λ i. get_or ends i 0) }
    requires node { (node < count) × (count ≤ 4096) × (count * (40 + all_states tables.now.task.now) ≤ length table.now) }
    requires room { Roomy tables.now.board.leaves tables.now.board.actions tables.now.board.bases.now (length tight.old) × (total ≤ length plan.old) }
    requires edges { Edges (board_in tables.now.board) edges.now.list.now edges.now.ends.now }
    ensures walked { (result ≡ length (plan_back tables.now.task.now (held_in (all_states tables.now.task.now) table.now count) node node (λ i. get_or ends i 0)))
        × (plan.new ≡ laid total 0 (plan_back tables.now.task.now (held_in (all_states tables.now.task.now) table.now count) node node (λ i. get_or ends i 0)) plan.old)
        × (result ≤ (node + 1) * (all_states tables.now.task.now + 1)) }
    ensures lengths { length tight.new ≡ length tight.old }
{
    let board = &tables.board;
    let starts = tables.starts;
    let mut states = ends;
    let mut out = PlanBuffer::new(plan, total);
    let mut u = node;
    while u > 0 {
        node_back(board, starts, table, u, &mut states, edges, tight, &mut out);
        u = parent_of(table, board.states(), u);
    }
    layer_back(board, starts, table, u, &mut states, edges, tight, &mut out);
    out.place
}

// The plan of a goal node at the front of the lent buffer, where it has room: how many actions it has. `tight` is only lent to work in. A buffer that
// holds the longest plan is written on the way back; else the plan is walked once to count its actions, so that a buffer too short stays as it is.
fn write_with(
    tables: &TaskTables<'_>,
    goals: &[u16],
    table: &[u64],
    count: usize,
    node: usize,
    edges: &EdgeTable<'_>,
    tight: &mut [u8],
    plan: &mut [u8],
) -> usize
    requires valid { Valid tables.now.task.now × Goals tables.now.task.now goals.now }
    requires real { Real tables.now.task.now (held_in (all_states tables.now.task.now) table.now count)
        × (is_goal tables.now.task.now (node_at tables.now.task.now (held_in (all_states tables.now.task.now) table.now count) node) ≡ true) }
    requires node { (node < count) × (count ≤ 4096) × (count * (40 + all_states tables.now.task.now) ≤ length table.now) }
    requires room { Roomy tables.now.board.leaves tables.now.board.actions tables.now.board.bases.now (length tight.old) }
    requires edges { Edges (board_in tables.now.board) edges.now.list.now edges.now.ends.now }
    ensures { (result ≡ length (plan_of tables.now.task.now (held_in (all_states tables.now.task.now) table.now count) node))
        × (plan.new ≡ written (plan_of tables.now.task.now (held_in (all_states tables.now.task.now) table.now count) node) plan.old) }
{
    let board = &tables.board;
    let states = board.states();
    let ends = goal_ends(board, goals, &row_of(table, states, node)[PRICES..]);
    let fits = (node + 1) * (states + 1) <= plan.len();
    let total = if fits { plan.len() } else { 0 };
    let length = walk_back(tables, table, count, node, ends, edges, tight, plan, total);
    if length > plan.len() {
        return length;
    }
    if !fits {
        walk_back(tables, table, count, node, ends, edges, tight, plan, length);
    }
    plan[..length].reverse();
    length
}

// The plan of a goal node at the front of the lent buffer, where it has room: how many actions it has. What it works in is
// small for a small task, since it takes time to make.
pub fn write_plan(
    tables: &TaskTables<'_>,
    goals: &[u16],
    table: &[u64],
    count: usize,
    node: usize,
    plan: &mut [u8],
    edges: &EdgeTable<'_>,
) -> usize
    requires valid { Valid tables.now.task.now × Goals tables.now.task.now goals.now }
    requires real { Real tables.now.task.now (held_in (all_states tables.now.task.now) table.now count) × (is_goal tables.now.task.now (node_at tables.now.task.now (held_in (all_states tables.now.task.now) table.now count) node) ≡ true) }
    requires node_lt_count { (node < count) × (count ≤ 4096) × (count * (40 + all_states tables.now.task.now) ≤ length table.now)
        × Edges (board_in tables.now.board) edges.now.list.now edges.now.ends.now }
    ensures { (result ≡ length (plan_of tables.now.task.now (held_in (all_states tables.now.task.now) table.now count) node))
        × (plan.new ≡ written (plan_of tables.now.task.now (held_in (all_states tables.now.task.now) table.now count) node) plan.old) }
{
    if tables.board.actions * tables.board.states() <= 4096 {
        let mut tight = [0u8; 4096];
        return write_with(tables, goals, table, count, node, edges, &mut tight, plan);
    }
    let mut tight = [0u8; 65280];
    write_with(tables, goals, table, count, node, edges, &mut tight, plan)
}
