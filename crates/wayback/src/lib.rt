// The walk back of one leaf inside one layer: from a state to one that has kept the price that the layer began with, by actions at the right
// price, each written into the plan as it is met.
#![tactic(auto)]

ghost use Rattle.std.specs.Prelude.{◌≡◌, ◌⊎◌, ◌↔◌, IsTrue, cond, ◌&&◌, ℕ, suc, ◌+◌, ◌*◌, ◌<◌, ◌≤◌, ltb, eqb, length, get_or, drop, replicate};
ghost use Rattle.leaf.specs.Price.{mark};
ghost use Rattle.edges.specs.Edges.{edges_at};
ghost use Rattle.sweeps.specs.Sweeps.{Ways, Meant, Aims};
ghost use Rattle.search.specs.Plan.{lowest};
ghost use Rattle.search.specs.Plan.Laid.{put};
ghost use Rattle.search.specs.Plan.Depths.{depth0};
ghost use Rattle.wayback.specs.Steps.{tight_at, depths_by, way_by, back_by, table_back, Walkable};
ghost use Rattle.wayback.specs.Woven.{Indexed, Picked, Listed, Spread, Covers};
ghost use Rattle.wayback.specs.Least.{EdgeMet, Guided};
ghost use Rattle.wayback.specs.Held.{LegibleIn, edge_in, SpreadIn, ListedIn, LeadingIn, StateMetIn, AllMetIn, BackedIn, KeptIn, WalkedIn};

use edges::EdgeTable;
use leaf::MARK;
use settle::ListedActions;
use sweeps::{LeafWays, settle_along};

mod held;

pub use held::PlanBuffer;

impl<'a> PlanBuffer<'a> {
    // A buffer of which the first `total` places may be written, from its front on.
    pub fn new(plan: &'a mut [u8], total: usize) -> Self
        requires { total ≤ length plan.old }
        ensures same { result.plan.ghost_name ≡ plan.entry.ghost_name }
        ensures plan { result.plan.now ≡ plan.old }
        ensures total { result.total ≡ total }
        ensures place { result.place ≡ 0 }
    {
        PlanBuffer {
            plan,
            total,
            place: 0,
        }
    }

    // An action at the next place, if that may be written.
    pub fn put(&mut self, action: u8)
        requires { self.old.place < mark }
        ensures kept { KeptIn self.old self.new }
        ensures place { self.new.place ≡ self.old.place + 1 }
        ensures plan { self.new.plan.now ≡ put self.old.total self.old.place action self.old.plan.now }
    {
        put(self.plan, self.total, self.place, action);
        self.place += 1;
    }
}

// An action at a place of the plan, of which only the first `total` places may be written.
pub fn put(plan: &mut [u8], total: usize, place: usize, action: u8)
    requires { total ≤ length plan.old }
    ensures { plan.new ≡ put total place action plan.old }
{
    if place < total {
        plan[place] = action;
    }
}

// Whether a move from state x, to the state before `to`, is at the right price: `cost` more than that of x.
fn is_tight(prices: &[u64], x: usize, cost: u64, to: u16) -> bool
    requires { (x < length prices.now) × (to ≤ length prices.now) }
    ensures { IsTrue result ↔ (0 < tight_at prices.now x cost to) }
{
    if to == 0 {
        return false;
    }
    let there = prices[to as usize - 1];
    if there < cost {
        return false;
    }
    there - cost == prices[x]
}

// Where each action of a list stands there first, counted from 1; 0 for any other action.
fn index_of(acts: &[u8]) -> [u8; 256]
    requires { length acts.now ≤ 255 }
    ensures { (length result ≡ 256) × Indexed acts.now (length acts.now) result }
{
    let mut index = [0u8; 256];
    for j in (0..acts.len()).rev() {
        index[acts[j] as usize] = j as u8 + 1;
    }
    index
}

// Whether an action has an edge from state x: it is in the list, and its move is at the right price there.
fn has_edge(prices: &[u64], ways: &LeafWays<'_>, action: usize, x: usize) -> bool
    requires { (x < length prices.now) × (action < length ways.now.mets.now) × LegibleIn ways.now (length prices.now) }
    ensures { IsTrue result ↔ (0 < edge_in ways.now prices.now action x) }
{
    if ways.mets[action] == 0 {
        return false;
    }
    is_tight(
        prices,
        x,
        ways.costs[action] as u64,
        ways.moves[action * ways.row + (ways.at + x)],
    )
}

// The tight edges of state x, of these actions, go behind the first `from` entries of `tight`. How many entries there are then.
fn tight_state(
    prices: &[u64],
    ways: &LeafWays<'_>,
    acts: &[u8],
    x: usize,
    tight: &mut [u8],
    from: usize,
) -> usize
    requires { (x < length prices.now) × (length ways.now.mets.now ≡ 256) × (from + length acts.now ≤ length tight.old)
        × LegibleIn ways.now (length prices.now) }
    ensures { Picked (λ a. edge_in ways.now prices.now a x) acts.now (length acts.now) from tight.old result tight.new }
{
    let mut end = from;
    for &a in acts {
        if has_edge(prices, ways, a as usize, x) {
            tight[end] = a;
            end += 1;
        }
    }
    end
}

// The tight edges of all states: those of state x stand from `stops[x]` to `stops[x + 1]`.
fn tight_edges(prices: &[u64], ways: &LeafWays<'_>, tight: &mut [u8], stops: &mut [usize])
    requires { (length ways.now.mets.now ≡ 256) × (length prices.now < length stops.old) × (get_or stops.old 0 0 ≡ 0)
        × LegibleIn ways.now (length prices.now) × SpreadIn ways.now (length prices.now) (length tight.old) }
    ensures { (get_or stops.new (length prices.now) 0 ≤ length tight.old) × ListedIn ways.now prices.now (length prices.now) tight.new stops.new }
{
    for x in 0..prices.len() {
        let edges = ways.edges.of(ways.at + x);
        stops[x + 1] = tight_state(prices, ways, edges, x, tight, stops[x]);
    }
}

// The depth of state x where depths begin: 0 where it has kept its price, else the mark.
pub fn first_depth(begins: &[u64], prices: &[u64], x: usize) -> u64
    requires { (x < length prices.now) × (length begins.now ≡ length prices.now) }
    ensures { result ≡ cond (ltb (get_or prices.now x mark) mark
        && eqb (get_or begins.now x mark) (get_or prices.now x mark)) 0 mark }
{
    let p = prices[x];
    if p < MARK && begins[x] == p { 0 } else { MARK }
}

// The depths of all states where depths begin.
fn first_depths(begins: &[u64], prices: &[u64], depths: &mut [u64])
    requires { (length begins.now ≡ length prices.now) × (length depths.old ≡ length prices.now) }
    ensures { depths.new ≡ depth0 begins.now prices.now }
{
    for x in 0..prices.len() {
        depths[x] = first_depth(begins, prices, x);
    }
}

// The depths of all states, along the tight edges, which are those of `ways`.
fn depths_of(begins: &[u64], prices: &[u64], ways: &LeafWays<'_>, depths: &mut [u64])
    requires begins_len { (length begins.now ≡ length prices.now) × (length depths.old ≡ length prices.now) × (length prices.now ≤ 256)
        × (ways.now.at ≤ length ways.now.moves.now) }
    requires ways { Ways (drop ways.now.at ways.now.moves.now) ways.now.row 0 (replicate 256 1) ways.now.mets.now ways.now.edges.list.now ways.now.edges.ends.now (length prices.now)
        × Aims (drop ways.now.at ways.now.moves.now) ways.now.row 0 (replicate 256 1) ways.now.mets.now ways.now.edges.list.now ways.now.edges.ends.now (length prices.now) }
    ensures { (m : ℕ) (to : ℕ → ℕ → ℕ)
        → Meant (drop ways.now.at ways.now.moves.now) ways.now.row 0 (replicate 256 1) ways.now.mets.now ways.now.edges.list.now ways.now.edges.ends.now
        (length prices.now) m (λ j. 1) to → depths.new ≡ depths_by to m begins.now prices.now }
{
    first_depths(begins, prices, depths);
    let ones = [1u16; 256];
    let steps = LeafWays {
        moves: &ways.moves[ways.at..],
        row: ways.row,
        at: 0,
        costs: &ones,
        mets: ways.mets,
        edges: ways.edges,
    };
    settle_along(depths, &steps);
}

// What a state of depth q keeps of its sources: the lower of `kept` and `place`, where that is met from a state of depth p, one less.
fn keep_lower(kept: u16, p: u64, q: u64, place: u16) -> u16
    ensures { (suc p ≡ q → (result ≤ kept) × (result ≤ place) × ((result ≡ kept) ⊎ (result ≡ place))) × ((suc p ≡ q → ⊥) → result ≡ kept) }
{
    if q == 0 {
        return kept;
    }
    if q - 1 != p {
        return kept;
    }
    kept.min(place)
}

// An edge to the state before `to`, from a state of depth p, is met: that state keeps it where it is its lowest from depth one less.
fn meet(to: u16, p: u64, place: u16, depths: &[u64], sources: &mut [u16])
    requires { (to ≤ length depths.now) × (length depths.now ≤ length sources.old) }
    ensures { EdgeMet to p place depths.now sources.old sources.new }
{
    if to == 0 {
        return;
    }
    let y = to as usize - 1;
    sources[y] = keep_lower(sources[y], p, depths[y], place);
}

// The edges of state x, of these actions, are met.
fn sources_state(ways: &LeafWays<'_>, acts: &[u8], x: usize, depths: &[u64], sources: &mut [u16])
    requires { (x < length depths.now) × (length depths.now ≤ 256) × (length depths.now ≤ length sources.old)
        × LeadingIn ways.now acts.now x (length depths.now) }
    ensures { StateMetIn ways.now acts.now depths.now x sources.old sources.new }
{
    for &a in acts {
        let action = a as usize;
        let place = (ways.mets[action] as usize - 1) * 256 + x;
        let to = ways.moves[action * ways.row + (ways.at + x)];
        meet(to, depths[x], place as u16, depths, sources);
    }
}

// The lowest source of each state: 256 times the place of its action in the list, and the state that it leads from; 65,535 where there is none.
fn sources_of(ways: &LeafWays<'_>, depths: &[u64]) -> [u16; 256]
    requires { (length depths.now ≤ 256) × (length depths.now < length ways.now.edges.ends.now)
        × ((x : ℕ) → x < length depths.now → (get_or ways.now.edges.ends.now x 0 ≤ get_or ways.now.edges.ends.now (x + 1) 0)
        × (get_or ways.now.edges.ends.now (x + 1) 0 ≤ length ways.now.edges.list.now)
        × LeadingIn ways.now (edges_at ways.now.edges.list.now ways.now.edges.ends.now x) x (length depths.now)) }
    ensures { (length result ≡ 256) × AllMetIn ways.now depths.now result }
{
    let mut sources = [65535u16; 256];
    for x in 0..depths.len() {
        sources_state(ways, ways.edges.of(x), x, depths, &mut sources);
    }
    sources
}

// From a state back to one of depth 0: at each step the first action with a source, its lowest source, and the action into the plan. The state where that
// ends.
fn walk(
    sources: &[u16],
    acts: &[u8],
    depths: &[u64],
    state: usize,
    out: &mut PlanBuffer<'_>,
) -> usize
    requires { (state < length depths.now) × Guided acts.now depths.now sources.now × (length depths.now ≤ length sources.now)
        × (get_or depths.now state mark ≤ 256) × (out.old.place + 256 ≤ mark) }
    ensures kept { KeptIn out.old out.new }
    ensures walked { (g : Guided acts.now depths.now sources.now)
        → WalkedIn (back_by g.edges acts.now g.count (length depths.now) depths.now (get_or depths.now state mark) state) out.old result out.new }
{
    let mut y = state;
    for _left in (0..depths[state]).rev() {
        let e = sources[y] as usize;
        y = e % 256;
        out.put(acts[e / 256]);
    }
    y
}

// From a state back to one of depth 0, along the tight edges, which are those of `ways`; the depths are written over what is lent for them.
fn tight_back(
    ways: &LeafWays<'_>,
    acts: &[u8],
    begins: &[u64],
    prices: &[u64],
    state: usize,
    depths: &mut [u64],
    out: &mut PlanBuffer<'_>,
) -> usize
    requires { BackedIn ways.now acts.now begins.now prices.now state
        × (length depths.old ≡ length prices.now) × (ways.now.at ≤ length ways.now.moves.now) × (out.old.place + 256 ≤ mark) }
    ensures kept { KeptIn out.old out.new }
    ensures walked { (w : BackedIn ways.now acts.now begins.now prices.now state)
        → WalkedIn (way_by w.woven.edges acts.now w.woven.count begins.now prices.now state) out.old result out.new }
{
    depths_of(begins, prices, ways, depths);
    let sources = sources_of(ways, depths);
    walk(&sources, acts, depths, state, out)
}

// These ways of a leaf, held together.
fn ways_of<'a>(
    moves: &'a [u16],
    row: usize,
    at: usize,
    costs: &'a [u16],
    mets: &'a [u8],
    list: &'a [u8],
    ends: &'a [usize],
) -> LeafWays<'a>
    ensures moves { (result.moves.now ≡ moves.now) × (result.row ≡ row) × (result.at ≡ at) × (result.costs.now ≡ costs.now) }
    ensures mets { result.mets.now ≡ mets.now }
    ensures edges { (result.edges.list.now ≡ list.now) × (result.edges.ends.now ≡ ends.now) }
{
    let edges = EdgeTable { list, ends };
    LeafWays {
        moves,
        row,
        at,
        costs,
        mets,
        edges,
    }
}

// From a state of the settled prices of a leaf back to one that has kept the price that the layer began with, by the actions of a list. The state where
// that ends. `tight` is lent to work in: its words afterwards are left to the program, its length stays.
pub fn leaf_back(
    actions: &ListedActions<'_>,
    edges: &EdgeTable<'_>,
    begins: &[u64],
    prices: &[u64],
    state: usize,
    tight: &mut [u8],
    out: &mut PlanBuffer<'_>,
) -> usize
    requires walkable { Walkable actions.now.moves.now actions.now.row actions.now.at actions.now.costs.now actions.now.acts.now (length actions.now.acts.now)
        begins.now prices.now state }
    requires place { out.old.place + 256 ≤ mark }
    requires covers { Covers edges.now.list.now edges.now.ends.now actions.now.moves.now actions.now.row actions.now.at actions.now.acts.now
        (length actions.now.acts.now) (length prices.now) }
    requires spread { Spread edges.now.list.now edges.now.ends.now actions.now.at (length prices.now) (length tight.old) }
    ensures kept { KeptIn out.old out.new }
    ensures walked { WalkedIn (table_back actions.now.moves.now actions.now.row actions.now.at actions.now.costs.now actions.now.acts.now
        (length actions.now.acts.now) begins.now prices.now state) out.old result out.new }
    ensures lengths { length tight.new ≡ length tight.old }
{
    let ListedActions {
        moves,
        row,
        at,
        costs,
        acts,
    } = *actions;
    if acts.is_empty() {
        return state;
    }
    let index = index_of(acts);
    let ways = ways_of(moves, row, at, costs, &index, edges.list, edges.ends);
    let mut stops = [0usize; 257];
    tight_edges(prices, &ways, tight, &mut stops);
    let listed = ways_of(moves, row, at, costs, &index, tight, &stops);
    let mut depths = [0u64; 256];
    tight_back(
        &listed,
        acts,
        begins,
        prices,
        state,
        &mut depths[..prices.len()],
        out,
    )
}

// The lowest state with this price that a centre action, whose moves begin at `at`, leads to `state`; the states' count where there is none.
pub fn lowest_over(moves: &[u16], at: usize, old: &[u64], state: usize, price: u64) -> usize
    requires { (at + length old.now ≤ length moves.now) × (state < length old.now) }
    ensures { result ≡ lowest (length old.now)
        (λ x. eqb (get_or moves.now (at + x) 0) (suc state) && eqb (get_or old.now x mark) price) }
{
    moves[at..at + old.len()]
        .iter()
        .zip(old)
        .position(|(&to, &p)| to as usize == state + 1 && p == price)
        .unwrap_or(old.len())
}
