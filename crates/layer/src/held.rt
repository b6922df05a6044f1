// The tables that the layers work with, held together.

ghost use Rattle.layer.specs.Board.{Sound};
ghost use Rattle.layer.specs.Lent.{board_of};

// The tables of a task: where each leaf's states begin (and S behind the last leaf), what each action makes of each leaf state, costs, the leaf of each leaf
// action (0 for a centre action), factors, conditions. They can be indexed.
#[derive(Clone, Copy)]
pub struct Board<'a> {
    pub leaves: usize,
    pub actions: usize,
    pub bases: &'a [usize],
    pub moves: &'a [u16],
    pub costs: &'a [u16],
    pub kinds: &'a [u8],
    pub factors: [u8; 32],
    pub conditions: &'a [u8],
    pub ghost sound: { Sound (board_of leaves actions bases.now moves.now costs.now kinds.now factors conditions.now) },
}
