// What an action makes of each state of a leaf, a digit more for each of the leaf's variables; from this the rows of the table of moves.
#![tactic(auto)]

ghost use Rattle.std.specs.Prelude.{◌≡◌, ℕ, suc, ◌*◌, ◌+◌, ◌<◌, ◌≤◌, length, get_or, drop};
ghost use Rattle.task.specs.Meaning.{met};
ghost use Rattle.task.specs.Factors.{states_to};
ghost use Rattle.task.specs.Valid.{PairIn};
ghost use Rattle.digits.specs.Moves.{Small, to_with, value_after, digit_move};
ghost use Rattle.digits.specs.Digits.{entries, entries_from, Filled, Placed, Same, Spread, Row, Rows};
ghost use Rattle.digits.specs.Paired.{counted, begins, small, partly, moved, rows_of};

use task::FREE;

mod pairs;

pub use pairs::Pairs;

impl<'a> Pairs<'a> {
    // The same variables with the pairs that begin `at` further on.
    pub fn behind(&self, at: usize) -> Pairs<'a>
        requires conditions { at + self.now.variables ≤ length self.now.conditions.now }
        requires effects { at + self.now.variables ≤ length self.now.effects.now }
        ensures variables { result.variables ≡ self.now.variables }
        ensures factors { result.factors.now ≡ self.now.factors.now }
        ensures sizes { result.sizes.now ≡ self.now.sizes.now }
        ensures conditions { result.conditions.now ≡ drop at self.now.conditions.now }
        ensures effects { result.effects.now ≡ drop at self.now.effects.now }
    {
        Pairs {
            sizes: self.sizes,
            factors: self.factors,
            conditions: &self.conditions[at..],
            effects: &self.effects[at..],
            variables: self.variables,
        }
    }
}

// Whether a condition, if there is one, holds of a value.
fn holds(condition: u8, value: usize) -> bool
    ensures { result ≡ met condition value }
{
    condition == FREE || condition as usize == value
}

// The value behind an effect, if there is one.
fn value_after(effect: u8, value: usize) -> usize
    ensures { result ≡ value_after effect value }
{
    if effect == FREE {
        value
    } else {
        effect as usize
    }
}

// What an action makes of a state with one digit more, where it makes k of the state without: 0 where that is 0 or the digit's condition fails.
fn digit_move(k: u16, size: usize, condition: u8, effect: u8, digit: usize) -> u16
    requires { (k * size ≤ 256) × (digit < size) × PairIn size effect }
    ensures { result ≡ digit_move k size condition effect digit }
{
    if k == 0 || !holds(condition, digit) {
        return 0;
    }
    let before = (k - 1) as usize;
    (before * size + value_after(effect, digit) + 1) as u16
}

// What the action makes of a state with each value of one digit more, in the entries from `from` on. It makes k of the state without.
fn spread(k: u16, size: usize, condition: u8, effect: u8, from: usize, moves: &mut [u16])
    requires { (k * size ≤ 256) × PairIn size effect × (from + size ≤ length moves.old) }
    ensures placed { Placed from size (digit_move k size condition effect) moves.new }
    ensures same { Same from (from + size) moves.old moves.new }
{
    for (digit, entry) in moves[from..from + size].iter_mut().enumerate() {
        *entry = digit_move(k, size, condition, effect, digit);
    }
}

// What the action makes of so many states, in the entries from `from` on, becomes what it makes of them with one digit more. They go by falling number,
// so that none is overwritten before its turn.
fn grow(states: usize, size: usize, condition: u8, effect: u8, from: usize, moves: &mut [u16])
    requires size_bound { (states * size ≤ 256) × (1 ≤ size) × PairIn size effect × (from + states * size ≤ length moves.old) }
    requires by_index { (k : ℕ) → k < states → get_or moves.old (from + k) 0 ≤ states }
    ensures spread { Spread from 0 states size condition effect moves.old moves.new }
    ensures same { Same from (from + states * size) moves.old moves.new }
{
    for x in (0..states).rev() {
        let k = moves[from + x];
        spread(k, size, condition, effect, from + x * size, moves);
    }
}

// What the action makes of each state that the leaf has by its first v variables becomes what it makes of those by one variable more. How many there are.
fn fill_variable(
    pairs: &Pairs<'_>,
    leaf: usize,
    v: usize,
    states: usize,
    from: usize,
    moves: &mut [u16],
) -> usize
    requires v_in_bounds { v < pairs.now.variables }
    requires room { from + counted pairs.now leaf ≤ length moves.old }
    requires small { small pairs.now leaf }
    requires partly { partly pairs.now leaf from v states moves.old }
    ensures partly { partly pairs.now leaf from (v + 1) result moves.new }
    ensures same { Same from (from + counted pairs.now leaf) moves.old moves.new }
{
    if !whole::is_factor(pairs.factors[v], leaf) {
        return states;
    }
    let size = pairs.sizes[v] as usize;
    grow(
        states,
        size,
        pairs.conditions[v],
        pairs.effects[v],
        from,
        moves,
    );
    states * size
}

// What the action makes of each state of one leaf, in the entries from `from` on: without variables there is one state, and it stays.
fn fill_leaf(pairs: &Pairs<'_>, leaf: usize, from: usize, moves: &mut [u16])
    requires room { from + counted pairs.now leaf ≤ length moves.old }
    requires small { small pairs.now leaf }
    ensures placed { Placed from (counted pairs.now leaf) (moved pairs.now leaf) moves.new }
    ensures same { Same from (from + counted pairs.now leaf) moves.old moves.new }
{
    moves[from] = 1;
    let mut states: usize = 1;
    for v in 0..pairs.variables {
        states = fill_variable(pairs, leaf, v, states, from, moves);
    }
}

// What the action makes of each state of each leaf, in the entries from `from` on. There is a base for each leaf.
pub fn fill_action(pairs: &Pairs<'_>, bases: &[usize], from: usize, moves: &mut [u16])
    requires room { from + begins pairs.now (length bases.now) ≤ length moves.old }
    requires filled { Filled (length bases.now) (begins pairs.now) bases.now }
    requires by_index { (i : ℕ) → i < length bases.now → small pairs.now (suc i) }
    ensures row { Row pairs.now.variables (entries pairs.now.factors.now) (entries pairs.now.sizes.now) (entries pairs.now.conditions.now) (entries pairs.now.effects.now) from (length bases.now) moves.new }
    ensures same { Same from (from + begins pairs.now (length bases.now)) moves.old moves.new }
{
    for (i, &base) in bases.iter().enumerate() {
        fill_leaf(pairs, i + 1, from + base, moves);
    }
}

// What each action makes of each state of each leaf, a row for each action. The pairs are those of all actions, 32 each.
pub fn fill_rows(
    pairs: &Pairs<'_>,
    bases: &[usize],
    leaves: usize,
    actions: usize,
    moves: &mut [u16],
)
    requires leaves_in_bounds { leaves < length bases.now }
    requires few { (pairs.now.variables ≤ 32) × (actions ≤ 255) }
    requires in_bounds { (8192 ≤ length pairs.now.conditions.now) × (8192 ≤ length pairs.now.effects.now) }
    requires room { actions * begins pairs.now leaves ≤ length moves.old }
    requires filled { Filled (leaves + 1) (begins pairs.now) bases.now }
    requires by_index { (a : ℕ) → a < actions → (i : ℕ) → i < leaves → Small pairs.now.variables (entries pairs.now.factors.now) (entries pairs.now.sizes.now) (entries_from (a * 32) pairs.now.effects.now) (suc i) }
    ensures rows { rows_of pairs.now leaves actions moves.new }
    ensures same { Same 0 (actions * begins pairs.now leaves) moves.old moves.new }
{
    let row = bases[leaves];
    let mut from = 0;
    for a in 0..actions {
        fill_action(&pairs.behind(a * 32), &bases[..leaves], from, moves);
        from += row;
    }
}
