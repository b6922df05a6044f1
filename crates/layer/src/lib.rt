// Layers: the prices of all leaves. A layer begins with what comes through a centre action, and settles by the leaf actions that its centre enables.
#![tactic(auto)]

ghost use Rattle.std.specs.Prelude.{◌≡◌, not, ◌&&◌, ◌||◌, [], ◌++◌, ℕ, ◌+◌, ◌*◌, ◌-◌, ◌<◌, ◌≤◌, eqb, length, get_or, drop, replicate};
ghost use Rattle.loops.specs.Count.{list};
ghost use Rattle.task.specs.Meaning.{met};
ghost use Rattle.leaf.specs.Price.{mark};
ghost use Rattle.layer.specs.Board.{base_on, row_on, states_on, met_on, enabled_on, settle_on, first_on, begin_on, settled_on, next_on, applies_on};
ghost use Rattle.layer.specs.Lent.{Front, Unreached, tests_of, first_leaf_on};
ghost use Rattle.layer.specs.Held.{board_in};
ghost use Rattle.layer.specs.First.{First, Firsts};

use leaf::{pass, passes};
use settle::{ListedActions, settle};
use std::ops::Range;
use task::{Centre, FREE};

mod held;

pub use held::Board;

impl Board<'_> {
    // How many states all leaves have together.
    pub fn states(&self) -> usize
        ensures is { result ≡ row_on (board_in self.now) }
        ensures few { result ≤ 1024 }
    {
        self.bases[self.leaves]
    }

    // The states of the leaf behind i leaves, among those of all leaves.
    pub fn leaf(&self, i: usize) -> Range<usize>
        requires { i < self.now.leaves }
        ensures begins { result.start ≡ base_on (board_in self.now) i }
        ensures stops { result.end ≡ base_on (board_in self.now) (i + 1) }
        ensures inside { (result.start ≤ result.end) × (result.end ≤ row_on (board_in self.now)) × (result.end ≤ 1024) }
    {
        self.bases[i]..self.bases[i + 1]
    }
}

// The conditions of an action.
pub fn pairs_of(conditions: &[u8], action: usize) -> [u8; 32]
    requires { action * 32 + 32 ≤ length conditions.now }
    ensures { result ≡ list 32 (λ v. get_or conditions.now (action * 32 + v) 0) }
{
    let at = action * 32;
    let mut pairs = [0u8; 32];
    pairs.copy_from_slice(&conditions[at..at + 32]);
    pairs
}

// Whether the pairs so far hold, and one more; on a leaf's variable, or where there is no pair, nothing is asked.
fn pair_too(holds: bool, factor: u8, pair: u8, value: u8) -> bool
    ensures { result ≡ (holds && (not (eqb factor 0) || met pair value)) }
{
    if factor != 0 {
        return holds;
    }
    if pair == FREE {
        return holds;
    }
    if pair != value {
        return false;
    }
    holds
}

// Whether the centre conditions of an action hold. All 32 are looked at, so that no turn waits for a test.
pub fn is_met(factors: [u8; 32], conditions: &[u8], centre: Centre, action: usize) -> bool
    requires { action * 32 + 32 ≤ length conditions.now }
    ensures { result ≡ met_on (tests_of [] factors conditions.now) centre action }
{
    let mut holds = true;
    for v in 0..32 {
        holds = pair_too(
            holds,
            factors[v],
            conditions[action * 32 + v],
            centre.values[v],
        );
    }
    holds
}

// The first centre variable that the conditions of an action name, 32 where there is none.
fn first_condition(factors: [u8; 32], conditions: &[u8], action: usize) -> u8
    requires { action * 32 + 32 ≤ length conditions.now }
    ensures { First factors conditions.now action result }
{
    for (v, factor) in factors.iter().enumerate() {
        if *factor == 0 && conditions[action * 32 + v] != FREE {
            return v as u8;
        }
    }
    32
}

// For each action the first centre variable that its conditions name, 32 where there is none.
pub fn first_conditions(board: &Board<'_>) -> [u8; 256]
    ensures { Firsts (board_in board.now) result }
{
    let mut firsts = [32u8; 256];
    for (a, first) in firsts[..board.actions].iter_mut().enumerate() {
        *first = first_condition(board.factors, board.conditions, a);
    }
    firsts
}

// Whether the centre conditions of an action hold, where one of them is tested first: most actions fail there. `values` are the centre's, lent so
// that no copy is made for each action.
pub fn met_by(
    firsts: &[u8],
    values: &[u8],
    factors: [u8; 32],
    conditions: &[u8],
    centre: Centre,
    action: usize,
) -> bool
    requires action { (action < length firsts.now) × (action * 32 + 32 ≤ length conditions.now) }
    requires first { First factors conditions.now action (get_or firsts.now action 0) }
    requires values { (values.now ≡ centre.values) × (length values.now ≡ 32) }
    ensures { result ≡ met_on (tests_of [] factors conditions.now) centre action }
{
    let v = firsts[action] as usize;
    if v < 32 {
        if conditions[action * 32 + v] != values[v] {
            return false;
        }
    }
    is_met(factors, conditions, centre, action)
}

// Whether an action is a leaf action of the leaf behind i leaves, and its centre conditions hold.
fn is_enabled(board: &Board<'_>, centre: Centre, i: usize, action: usize) -> bool
    requires { (i < 8) × (action < board.now.actions) }
    ensures { result ≡ (eqb (get_or board.now.kinds.now action 0) (i + 1) && met_on (board_in board.now) centre action) }
{
    if board.kinds[action] as usize != i + 1 {
        return false;
    }
    is_met(board.factors, board.conditions, centre, action)
}

// The enabled leaf actions of the leaf behind i leaves, at the front of `acts`. How many there are.
pub fn enabled(board: &Board<'_>, centre: Centre, i: usize, acts: &mut [u8]) -> usize
    requires { (i < 8) × (board.now.actions ≤ length acts.old) }
    ensures { Front (enabled_on (board_in board.now) i centre board.now.actions) acts.old result acts.new }
{
    let mut count = 0;
    for a in 0..board.actions {
        if is_enabled(board, centre, i, a) {
            acts[count] = a as u8;
            count += 1;
        }
    }
    count
}

// The enabled leaf actions of the leaf behind i leaves settle its prices.
fn settle_leaf(board: &Board<'_>, centre: Centre, i: usize, prices: &mut [u64])
    requires { (i < board.now.leaves) × (length prices.old ≡ states_on (board_in board.now) i) }
    ensures { prices.new ≡ settle_on (board_in board.now) i centre prices.old }
{
    let mut acts = [0u8; 256];
    let count = enabled(board, centre, i, &mut acts);
    let actions = ListedActions {
        moves: board.moves,
        row: board.states(),
        at: board.bases[i],
        costs: board.costs,
        acts: &acts[..count],
    };
    settle(prices, &actions);
}

// The first prices of the leaf behind i leaves: every state starts as unreachable, its initial state has price 0, and settling reaches the others.
fn first_leaf(board: &Board<'_>, centre: Centre, i: usize, start: usize, prices: &mut [u64])
    requires { (i < board.now.leaves) × (start < length prices.old) × (prices.old ≡ replicate (states_on (board_in board.now) i) mark) }
    ensures { prices.new ≡ first_leaf_on (board_in board.now) i centre start }
{
    prices[start] = 0;
    settle_leaf(board, centre, i, prices);
}

// The first layer: the prices of all leaves, one behind the other, at the front of `new`, where every state starts as unreachable. Leaf i + 1 begins
// in state `starts[i]`.
pub fn first_layer(board: &Board<'_>, centre: Centre, starts: &[usize], new: &mut [u64])
    requires { (row_on (board_in board.now) ≤ length new.old) × (board.now.leaves ≤ length starts.now)
        × ((i : ℕ) → i < board.now.leaves → get_or starts.now i 0 < states_on (board_in board.now) i)
        × Unreached (row_on (board_in board.now)) new.old }
    ensures { new.new ≡ first_on (board_in board.now) starts.now centre ++ drop (row_on (board_in board.now)) new.old }
{
    for i in 0..board.leaves {
        let states = board.leaf(i);
        first_leaf(board, centre, i, starts[i], &mut new[states]);
    }
}

// The begin of the layer behind a centre action, at the front of `new`, where every state starts as unreachable: what comes through of the prices of
// `old`, before it settles.
pub fn begin_layer(board: &Board<'_>, action: usize, old: &[u64], new: &mut [u64])
    requires { (action < board.now.actions) × (row_on (board_in board.now) ≤ length old.now) × (row_on (board_in board.now) ≤ length new.old)
        × Unreached (row_on (board_in board.now)) new.old }
    ensures { new.new ≡ begin_on (board_in board.now) action old.now ++ drop (row_on (board_in board.now)) new.old }
{
    let row = board.states();
    for i in 0..board.leaves {
        let states = board.leaf(i);
        let at = action * row + states.start;
        pass(
            &old[states.start..states.end],
            board.moves,
            at,
            &mut new[states],
        );
    }
}

// The prices at the front of `new` settle, leaf by leaf; `centre` is the layer's centre state.
fn settle_layer(board: &Board<'_>, centre: Centre, new: &mut [u64])
    requires { (row_on (board_in board.now) ≤ length new.old) }
    ensures { new.new ≡ settled_on (board_in board.now) centre new.old ++ drop (row_on (board_in board.now)) new.old }
{
    for i in 0..board.leaves {
        let states = board.leaf(i);
        settle_leaf(board, centre, i, &mut new[states]);
    }
}

// The layer behind a centre action, at the front of `new`, where every state starts as unreachable; `old` has the prices before it, and `centre` is the
// centre state behind it.
pub fn next_layer(board: &Board<'_>, centre: Centre, action: usize, old: &[u64], new: &mut [u64])
    requires { (action < board.now.actions) × (row_on (board_in board.now) ≤ length old.now) × (row_on (board_in board.now) ≤ length new.old)
        × Unreached (row_on (board_in board.now)) new.old }
    ensures { new.new ≡ next_on (board_in board.now) centre action old.now ++ drop (row_on (board_in board.now)) new.old }
{
    begin_layer(board, action, old, new);
    settle_layer(board, centre, new);
}

// Whether a centre action applies to a node: its centre conditions hold, and in each leaf a state that is reached passes.
pub fn applies(board: &Board<'_>, centre: Centre, old: &[u64], action: usize) -> bool
    requires { (action < board.now.actions) × (row_on (board_in board.now) ≤ length old.now) }
    ensures { result ≡ applies_on (board_in board.now) centre old.now action }
{
    if !is_met(board.factors, board.conditions, centre, action) {
        return false;
    }
    let row = board.states();
    for i in 0..board.leaves {
        let states = board.leaf(i);
        let at = action * row + states.start;
        if !passes(&old[states], board.moves, at) {
            return false;
        }
    }
    true
}
