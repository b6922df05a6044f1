// What is read from prices: least prices, keys and goal costs.
#![tactic(auto)]

ghost use Rattle.std.specs.Prelude.{◌≡◌, ◌*◌, ◌≤◌, length, take};
ghost use Rattle.layer.specs.Board.{row_on};
ghost use Rattle.layer.specs.Held.{board_in};
ghost use Rattle.search.specs.Node.{least_of};
ghost use Rattle.keys.specs.Scan.{goals_by, key_by, goal_sum_by, goal_cost_by};

use layer::{Board, is_met};
use leaf::{MARK, add_price};
use task::Centre;

// The least of the prices at the front, four times as many as `fours`. Those of a turn are compared in pairs, so that few comparisons wait for another.
fn least_in_fours(prices: &[u64], fours: usize) -> u64
    requires { fours * 4 ≤ length prices.now }
    ensures { result ≡ least_of (take (fours * 4) prices.now) }
{
    let mut low = MARK;
    for j in 0..fours {
        let k = j * 4;
        let first = prices[k].min(prices[k + 1]);
        let second = prices[k + 2].min(prices[k + 3]);
        low = low.min(first.min(second));
    }
    low
}

// The least of the prices, the mark if there is none below it.
pub fn least(prices: &[u64]) -> u64
    ensures { result ≡ least_of prices.now }
{
    let from = prices.len() / 4 * 4;
    let mut low = least_in_fours(prices, prices.len() / 4);
    for &price in &prices[from..] {
        low = low.min(price);
    }
    low
}

// The least price of a goal state.
pub fn least_goal(prices: &[u64], goals: &[u16]) -> u64
    requires { length goals.now ≡ length prices.now }
    ensures { result ≡ least_of (goals_by goals.now prices.now) }
{
    let mut low = MARK;
    for (k, &price) in prices.iter().enumerate() {
        if goals[k] != 0 {
            if price < low {
                low = price;
            }
        }
    }
    low
}

// The key: the centre cost and the least price of each leaf.
pub fn key_of(board: &Board<'_>, paid: u64, prices: &[u64]) -> u64
    requires { row_on (board_in board.now) ≤ length prices.now }
    ensures { result ≡ key_by board.now.leaves board.now.bases.now paid prices.now }
{
    let mut key = paid;
    for i in 0..board.leaves {
        let states = board.leaf(i);
        key = add_price(key, least(&prices[states]));
    }
    key
}

// The centre cost and the least price of a goal state of each leaf; the mark where a leaf has none.
fn goal_sum(board: &Board<'_>, goals: &[u16], paid: u64, prices: &[u64]) -> u64
    requires { (row_on (board_in board.now) ≤ length prices.now) × (row_on (board_in board.now) ≤ length goals.now) }
    ensures { result ≡ goal_sum_by board.now.leaves board.now.bases.now goals.now paid prices.now }
{
    let mut sum = paid;
    for i in 0..board.leaves {
        let states = board.leaf(i);
        let low = least_goal(&prices[states.start..states.end], &goals[states]);
        sum = add_price(sum, low);
        if sum >= MARK {
            return MARK;
        }
    }
    sum
}

// The goal cost, the mark for a node that is no goal node.
pub fn goal_cost(
    board: &Board<'_>,
    goals: &[u16],
    goal: [u8; 32],
    spot: Centre,
    paid: u64,
    prices: &[u64],
) -> u64
    requires { (row_on (board_in board.now) ≤ length prices.now) × (row_on (board_in board.now) ≤ length goals.now) }
    ensures { result ≡ goal_cost_by board.now.leaves board.now.bases.now goals.now board.now.factors goal spot paid prices.now }
{
    if !is_met(board.factors, &goal, spot, 0) {
        return MARK;
    }
    goal_sum(board, goals, paid, prices)
}
