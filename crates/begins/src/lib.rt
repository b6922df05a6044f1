// The begin of a layer behind a centre action, and what makes it cheap: only leaves that the action moves pass, and an action that is stuck makes none.
#![tactic(auto)]

ghost use Rattle.std.specs.Prelude.{◌≡◌, ◌++◌, ℕ, ◌+◌, ◌*◌, ◌≤◌, ◌<◌, length, get_or, take, drop};
ghost use Rattle.leaf.specs.Price.{mark};
ghost use Rattle.leaf.specs.Pass.{pass};
ghost use Rattle.layer.specs.Board.{row_on, begin_on};
ghost use Rattle.layer.specs.Held.{board_in};
ghost use Rattle.search.specs.Node.{least_of};
ghost use Rattle.rows.specs.Begun.{begun_words};
ghost use Rattle.rows.specs.Sign.{sign_of};
ghost use Rattle.stills.specs.Still.{StillOn, StillsOn};
ghost use Rattle.begins.specs.Begin.{stuck_in, stuck_by, leasts, Risen};

use keys::least;
use layer::Board;
use leaf::{add_price, fill, pass, passes};
use rows::sign_of;
use words::copy_words;

// The key and the signature of a layer's begin.
#[derive(Clone, Copy)]
pub struct Begun {
    pub key: u64,
    pub sign: u64,
}

// Whether an action whose moves begin at `from` is stuck in the leaf behind i leaves: no state that is reached passes. Where `stays` is not 0 it leaves
// the leaf's states as they are, and they are not looked at.
#[tactic(auto, using(std::proofs::lemmas::Grind::common_steps), unfolding(crate::specs::Begin::stuck_in))]
fn is_stuck_in(board: &Board<'_>, from: usize, stays: u8, old: &[u64], i: usize) -> bool
    requires i_lt_leaves { i < board.now.leaves }
    requires prices { row_on (board_in board.now) ≤ length old.now }
    requires moves { from + row_on (board_in board.now) ≤ length board.now.moves.now }
    ensures { result ≡ stuck_in i board.now.bases.now board.now.moves.now from stays old.now }
{
    if stays != 0 {
        return false;
    }
    let states = board.leaf(i);
    let at = from + states.start;
    !passes(&old[states], board.moves, at)
}

// Whether an action, whose centre conditions hold, moves leaf states and is stuck: in some leaf that it moves no state that is reached passes.
#[tactic(auto, using(std::proofs::lemmas::Grind::common_steps, loops::specs::Count::Laws::any_in, loops::specs::Count::Laws::any_more), unfolding(crate::specs::Begin::stuck_by, loops::specs::Count::any))]
pub fn is_stuck(board: &Board<'_>, still: &[u8], stills: &[u8], old: &[u64], a: usize) -> bool
    requires still_len { (length still.now ≡ 256) × (length stills.now ≡ 2048) }
    requires a_lt_actions { a < board.now.actions }
    requires prices { row_on (board_in board.now) ≤ length old.now }
    ensures { result ≡ stuck_by board.now.leaves board.now.bases.now board.now.moves.now still.now stills.now old.now a }
{
    if still[a] != 0 {
        return false;
    }
    let from = a * board.states();
    for i in 0..board.leaves {
        if is_stuck_in(board, from, stills[a * 8 + i], old, i) {
            return true;
        }
    }
    false
}

// Each state of a leaf passes over a centre action, at its own price. The action's moves of the leaf begin at `at`; where `still` is not 0 they
// leave each state as it is, and the prices stand in `new` already. How much the least price rises.
fn carry(old: &[u64], moves: &[u16], at: usize, still: u8, new: &mut [u64]) -> u64
    requires states { (length new.old ≡ length old.now) × (at + length old.now ≤ length moves.now) }
    requires within { (x : ℕ) → x < length old.now → get_or moves.now (at + x) 0 ≤ length old.now }
    requires stays { (still ≡ 0 → ⊥) → (x : ℕ) → x < length old.now → get_or moves.now (at + x) 0 ≡ x + 1 }
    requires copied { (still ≡ 0 → ⊥) → new.old ≡ old.now }
    ensures passed { new.new ≡ pass mark (length old.now) (λ x. get_or moves.now (at + x) 0) old.now (length old.now) }
    ensures rise { least_of old.now + result ≡ least_of new.new }
{
    if still != 0 {
        return 0;
    }
    fill(new);
    pass(old, moves, at, new);
    least(&new[..]) - least(old)
}

// The begin of the layer behind a centre action, at the front of `new`, as in `layer::begin_layer`: all prices are copied at once, and only the leaves
// that it moves pass. The key there: it rises from `low`, the key with the prices of `old`, with the least prices of the leaves.
fn begin_moved(
    board: &Board<'_>,
    stills: &[u8],
    action: usize,
    old: &[u64],
    low: u64,
    new: &mut [u64],
) -> u64
    requires stills { StillsOn (board_in board.now) stills.now }
    requires action_lt_actions { action < board.now.actions }
    requires prices { (row_on (board_in board.now) ≤ length old.now) × (row_on (board_in board.now) ≤ length new.old) }
    ensures begun { new.new ≡ begin_on (board_in board.now) action old.now ++ drop (row_on (board_in board.now)) new.old }
    ensures risen { Risen (leasts board.now.bases.now old.now) (leasts board.now.bases.now new.new) board.now.leaves low result }
{
    let row = board.states();
    copy_words(old, new, row);
    let mut key = low;
    for i in 0..board.leaves {
        let states = board.leaf(i);
        let at = action * row + states.start;
        let rise = carry(
            &old[states.start..states.end],
            board.moves,
            at,
            stills[action * 8 + i],
            &mut new[states],
        );
        key = add_price(key, rise);
    }
    key
}

// The begin of the layer behind centre action a, at the front of `next`, with its key and signature. Where the action moves no leaf state it is the
// old layer, and nothing is written; `low` is the key that this would have, `sign` its signature.
pub fn begin_of(
    board: &Board<'_>,
    still: &[u8],
    stills: &[u8],
    a: usize,
    old: &[u64],
    low: u64,
    sign: u64,
    next: &mut [u64],
) -> Begun
    requires still { StillOn (board_in board.now) still.now }
    requires stills { StillsOn (board_in board.now) stills.now }
    requires a_lt_actions { a < board.now.actions }
    requires prices { (row_on (board_in board.now) ≤ length old.now) × (row_on (board_in board.now) ≤ length next.old) }
    requires sign_value { sign ≡ sign_of (take (row_on (board_in board.now)) old.now) }
    ensures begun { begun_words (get_or still.now a 0) (row_on (board_in board.now)) old.now next.new
        ≡ begin_on (board_in board.now) a old.now ++ drop (row_on (board_in board.now)) next.old }
    ensures risen { Risen (leasts board.now.bases.now old.now)
        (leasts board.now.bases.now (begun_words (get_or still.now a 0) (row_on (board_in board.now)) old.now next.new)) board.now.leaves low result.key }
    ensures sign { result.sign
        ≡ sign_of (take (row_on (board_in board.now)) (begun_words (get_or still.now a 0) (row_on (board_in board.now)) old.now next.new)) }
    ensures stays { (get_or still.now a 0 ≡ 0 → ⊥) → next.new ≡ next.old }
{
    if still[a] != 0 {
        return Begun { key: low, sign };
    }
    let key = begin_moved(board, stills, a, old, low, next);
    let made = sign_of(&next[..board.states()]);
    Begun { key, sign: made }
}
