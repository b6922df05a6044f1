// A leaf's prices settle along the edges of its states, sweep by sweep, and a layer's leaf by leaf.
#![tactic(auto)]

ghost use Rattle.std.specs.Prelude.{◌≡◌, false, ◌++◌, ◌<◌, ◌≤◌, length, drop};
ghost use Rattle.layer.specs.Board.{row_on, states_on, settle_on, settled_on};
ghost use Rattle.layer.specs.Held.{board_in};
ghost use Rattle.mets.specs.Mets.{Mets};
ghost use Rattle.edges.specs.Edges.{Edges};
ghost use Rattle.settle.specs.Settling.{SettledBy};
ghost use Rattle.sweeps.specs.Sweeps.{some_met, edges_of, swept_by};
ghost use Rattle.sweeps.specs.Held.{WaysIn, MeantIn, AimsIn};

use edges::EdgeTable;
use layer::Board;
use settle::settle_by;
use task::Centre;

mod held;

pub use held::LeafWays;

// Whether the flag of one of these actions is set.
fn some_met(mets: &[u8], acts: &[u8]) -> bool
    requires { 256 ≤ length mets.now }
    ensures { result ≡ some_met mets.now acts.now }
{
    acts.iter().any(|&a| mets[a as usize] != 0)
}

// Prices settle along the edges of their states: every state sets out once, and then the dirty ones as long as a price falls of one that had its turn.
pub fn settle_along(prices: &mut [u64], ways: &LeafWays<'_>)
    requires { (length prices.old ≤ 256) × WaysIn ways.now (length prices.old)
        × AimsIn ways.now (length prices.old) }
    ensures { SettledBy (MeantIn ways.now (length prices.old)) prices.old prices.new }
{
    settle_by(prices, ways);
}

// The prices of the leaf behind i leaves settle. Where no edge of the leaf has its flag set, they are settled as they are. Whether it was swept.
fn settle_leaf(
    board: &Board<'_>,
    mets: &[u8],
    edges: &EdgeTable<'_>,
    centre: Centre,
    i: usize,
    prices: &mut [u64],
) -> bool
    requires flags { Mets (board_in board.now) centre mets.now }
    requires table { Edges (board_in board.now) edges.now.list.now edges.now.ends.now }
    requires leaf { (i < board.now.leaves) × (length prices.old ≡ states_on (board_in board.now) i) }
    ensures settled { prices.new ≡ settle_on (board_in board.now) i centre prices.old }
    ensures same { result ≡ false → prices.new ≡ prices.old }
    ensures told { result ≡ some_met mets.now (edges_of board.now.bases.now edges.now.list.now edges.now.ends.now i) }
{
    let states = board.leaf(i);
    let at = states.start;
    if !some_met(mets, &edges.list[edges.ends[at]..edges.ends[states.end]]) {
        return false;
    }
    let ways = LeafWays {
        moves: board.moves,
        row: board.states(),
        at,
        costs: board.costs,
        mets,
        edges: *edges,
    };
    settle_along(prices, &ways);
    true
}

// The prices at the front of `new` settle along the edges, leaf by leaf; `centre` is the layer's centre state, and `mets` flags the actions whose
// centre conditions hold there. Whether a leaf was swept, which is one of whose edges has its flag set: else all is as it was.
pub fn settle_edges(
    board: &Board<'_>,
    mets: &[u8],
    edges: &EdgeTable<'_>,
    centre: Centre,
    new: &mut [u64],
) -> bool
    requires { Mets (board_in board.now) centre mets.now
        × Edges (board_in board.now) edges.now.list.now edges.now.ends.now
        × (row_on (board_in board.now) ≤ length new.old) }
    ensures { (new.new ≡ settled_on (board_in board.now) centre new.old ++ drop (row_on (board_in board.now)) new.old)
        × (result ≡ false → new.new ≡ new.old)
        × (result ≡ swept_by board.now.leaves board.now.bases.now mets.now edges.now.list.now edges.now.ends.now) }
{
    let mut swept = false;
    for i in 0..board.leaves {
        let states = board.leaf(i);
        swept |= settle_leaf(board, mets, edges, centre, i, &mut new[states]);
    }
    swept
}
