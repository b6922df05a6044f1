// A task and its tables, held together.

ghost use Rattle.layer.specs.Board.{Fits};
ghost use Rattle.layer.specs.Held.{board_in};
ghost use Rattle.tables.specs.Tables.{Tabled};

use layer::Board;
use task::Task;

// A task with its tables: the board that the layers work with, and the initial state of each leaf.
#[derive(Clone, Copy)]
pub struct TaskTables<'a> {
    pub task: &'a Task,
    pub board: Board<'a>,
    pub starts: &'a [usize],
    pub ghost tabled: { Tabled task.now board.bases.now board.moves.now board.costs.now board.kinds.now starts.now },
    pub ghost fits: { Fits task.now (board_in board) },
}
