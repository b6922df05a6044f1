// The edges of each leaf state: the leaf actions that move it, in a table made once.
#![tactic(auto)]

ghost use Rattle.std.specs.Prelude.{◌≡◌, ℕ, ◌+◌, ◌*◌, ◌<◌, ◌≤◌, length, get_or, set};
ghost use Rattle.layer.specs.Board.{base_on, row_on};
ghost use Rattle.layer.specs.Held.{board_in};
ghost use Rattle.layer.specs.Lent.{Front};
ghost use Rattle.edges.specs.Edges.{edges_at, those, of_leaf, edges_in, EdgesTo, Edges, Wrote};

use layer::Board;

mod held;

pub use held::EdgeTable;

impl<'a> EdgeTable<'a> {
    // The edges of state s.
    pub fn of(&self, s: usize) -> &'a [u8]
        requires starts { get_or self.now.ends.now s 0 ≤ get_or self.now.ends.now (s + 1) 0 }
        requires stops { (s + 1 < length self.now.ends.now) × (get_or self.now.ends.now (s + 1) 0 ≤ length self.now.list.now) }
        ensures { result.now ≡ edges_at self.now.list.now self.now.ends.now s }
    {
        &self.list[self.ends[s]..self.ends[s + 1]]
    }
}

// The leaf actions of the leaf behind i leaves, at the front of `acts`. How many there are.
fn actions_of(kinds: &[u8], actions: usize, i: usize, acts: &mut [u8]) -> usize
    requires few { (i < 8) × (actions ≤ 255) }
    requires room { (actions ≤ length kinds.now) × (actions ≤ length acts.old) }
    ensures { Front (those (of_leaf kinds.now i) actions) acts.old result acts.new }
{
    let mut count = 0;
    for (a, &kind) in kinds[..actions].iter().enumerate() {
        if kind as usize == i + 1 {
            acts[count] = a as u8;
            count += 1;
        }
    }
    count
}

// The edges of state s, at the front of `acts`: of the actions of its leaf, `own`, those that move it. How many there are.
fn edges_of(moves: &[u16], row: usize, own: &[u8], s: usize, acts: &mut [u8]) -> usize
    requires room { length own.now ≤ length acts.old }
    requires inside { (j : ℕ) → j < length own.now → get_or own.now j 0 * row + s < length moves.now }
    ensures { Front (edges_in moves.now row own.now s) acts.old result acts.new }
{
    let mut count = 0;
    for &a in own {
        if moves[a as usize * row + s] != 0 {
            acts[count] = a;
            count += 1;
        }
    }
    count
}

// The edges of state s, one of the leaf with the actions `own`, stand in the table behind those of the states before it.
fn fill_state(moves: &[u16], row: usize, own: &[u8], s: usize, list: &mut [u8], ends: &mut [usize])
    requires room { (s + 1 < length ends.old) × (get_or ends.old s 0 + length own.now ≤ length list.old) }
    requires inside { (j : ℕ) → j < length own.now → get_or own.now j 0 * row + s < length moves.now }
    ensures wrote { Wrote (edges_in moves.now row own.now s) (get_or ends.old s 0) list.old list.new }
    ensures ends { ends.new ≡ set ends.old (s + 1) (get_or ends.old s 0 + length (edges_in moves.now row own.now s)) }
{
    let from = ends[s];
    let count = edges_of(moves, row, own, s, &mut list[from..]);
    ends[s + 1] = from + count;
}

// The edges of the states of the leaf behind i leaves, whose actions are `own`, stand in the table.
fn fill_states(board: &Board<'_>, i: usize, own: &[u8], list: &mut [u8], ends: &mut [usize])
    requires i_lt_leaves { i < board.now.leaves }
    requires own { own.now ≡ those (of_leaf board.now.kinds.now i) board.now.actions }
    requires before { EdgesTo (board_in board.now) (base_on (board_in board.now) i) list.old ends.old }
    ensures { EdgesTo (board_in board.now) (base_on (board_in board.now) (i + 1)) list.new ends.new }
{
    let row = board.states();
    for s in board.leaf(i) {
        fill_state(board.moves, row, own, s, list, ends);
    }
}

// The edges of the states of the leaf behind i leaves stand in the table. Its actions are listed once, so that no state looks at all actions.
fn fill_leaf(board: &Board<'_>, i: usize, list: &mut [u8], ends: &mut [usize])
    requires i_lt_leaves { i < board.now.leaves }
    requires before { EdgesTo (board_in board.now) (base_on (board_in board.now) i) list.old ends.old }
    ensures { EdgesTo (board_in board.now) (base_on (board_in board.now) (i + 1)) list.new ends.new }
{
    let mut own = [0u8; 256];
    let count = actions_of(board.kinds, board.actions, i, &mut own);
    fill_states(board, i, &own[..count], list, ends);
}

// The table of the edges of all leaf states, in `list` and `ends` as an EdgeTable lends them. Where the first begin, and the words of both slices that stand
// for no state, are left to the program; the lengths stay.
pub fn fill_edges(board: &Board<'_>, list: &mut [u8], ends: &mut [usize])
    requires room { (row_on (board_in board.now) * board.now.actions ≤ length list.old) × (row_on (board_in board.now) < length ends.old) }
    ensures filled { Edges (board_in board.now) list.new ends.new }
    ensures lengths { (length list.new ≡ length list.old) × (length ends.new ≡ length ends.old) }
{
    ends[0] = 0;
    for i in 0..board.leaves {
        fill_leaf(board, i, list, ends);
    }
}
