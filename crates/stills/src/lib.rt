// Actions that leave the states of a leaf as they are, told once for each action and leaf, and actions that leave those of all leaves.
#![tactic(auto)]

ghost use Rattle.std.specs.Prelude.{◌≡◌, ◌+◌, ◌*◌, ◌≤◌, ◌<◌, length};
ghost use Rattle.layer.specs.Held.{board_in};
ghost use Rattle.stills.specs.Still.{StillOn, StillsOn, stays_by, still_entry, still_leaves, still_by, still_actions};

use layer::Board;

// Whether an action whose moves of a leaf begin at `at` leaves each of the leaf's states as it is.
fn is_still_leaf(moves: &[u16], at: usize, states: usize) -> bool
    requires { at + states ≤ length moves.now }
    ensures { result ≡ stays_by moves.now at states }
{
    moves[at..at + states]
        .iter()
        .enumerate()
        .all(|(x, next)| *next as usize == x + 1)
}

// Entry k of the table by action and leaf: 1 if action k / 8 leaves each state of the leaf behind k % 8 leaves as it is, else 0.
fn still_entry(board: &Board<'_>, k: usize) -> u8
    requires { k < board.now.actions * 8 }
    ensures { result ≡ still_entry board.now.leaves board.now.bases.now board.now.moves.now k }
{
    let i = k % 8;
    if i >= board.leaves {
        return 0;
    }
    let states = board.leaf(i);
    let at = k / 8 * board.states() + states.start;
    u8::from(is_still_leaf(board.moves, at, states.end - states.start))
}

// By action and leaf, eight entries to an action: 1 where the action leaves each state of the leaf as it is, 0 elsewhere.
pub fn still_leaves(board: &Board<'_>) -> [u8; 2048]
    ensures is { result ≡ still_leaves board.now.leaves board.now.actions board.now.bases.now board.now.moves.now }
    ensures stills { StillsOn (board_in board.now) result }
{
    let mut stills = [0u8; 2048];
    for (k, stays) in stills[..board.actions * 8].iter_mut().enumerate() {
        *stays = still_entry(board, k);
    }
    stills
}

// 1 if none of the entries of action a, one for each leaf, is 0, else 0.
fn is_still(leaves: usize, stills: &[u8], a: usize) -> u8
    requires { a * 8 + leaves ≤ length stills.now }
    ensures { result ≡ still_by leaves stills.now a }
{
    let from = a * 8;
    u8::from(!stills[from..from + leaves].contains(&0))
}

// The actions that leave each state of each leaf as it is: 1 for those, 0 for the others. They are read off the table by action and leaf, so that
// no move is looked at twice.
pub fn still_actions(board: &Board<'_>, stills: &[u8]) -> [u8; 256]
    requires { length stills.now ≡ 2048 }
    ensures is { result ≡ still_actions board.now.leaves board.now.actions stills.now }
    ensures still { StillsOn (board_in board.now) stills.now → StillOn (board_in board.now) result }
{
    let mut still = [0u8; 256];
    for (a, stays) in still[..board.actions].iter_mut().enumerate() {
        *stays = is_still(board.leaves, stills, a);
    }
    still
}
