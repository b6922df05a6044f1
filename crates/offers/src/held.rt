// What the search works with and never changes, and the node that it expands.

ghost use Rattle.std.specs.Prelude.{◌≡◌, ◌≤◌, length};
ghost use Rattle.layer.specs.Board.{row_on};
ghost use Rattle.layer.specs.First.{Firsts};
ghost use Rattle.layer.specs.Held.{board_in};
ghost use Rattle.edges.specs.Edges.{Edges};
ghost use Rattle.stills.specs.Still.{StillOn, StillsOn};
ghost use Rattle.hops.specs.Hops.{Hops, Ways};

use dominance::Candidate;
use edges::EdgeTable;
use layer::Board;

// The tables that an offer reads: the board and the edges of its leaf states, each action's first condition, the states that meet the goal, the goal's pairs,
// and how many nodes the search may keep.
#[derive(Clone, Copy)]
pub struct OfferTables<'a> {
    pub board: Board<'a>,
    pub edges: EdgeTable<'a>,
    pub firsts: &'a [u8],
    pub goals: &'a [u16],
    pub goal: [u8; 32],
    pub nodes: usize,
    pub ghost edged: { Edges (board_in board) edges.list.now edges.ends.now },
    pub ghost asked: { Firsts (board_in board) firsts.now },
    pub ghost goals_fit: { row_on (board_in board) ≤ length goals.now },
}

// The tables of a search, made once: those of its offers, which actions leave which leaves as they are, the actions' hops and the ways that they go, and effects.
#[derive(Clone, Copy)]
pub struct SearchTables<'a> {
    pub offers: OfferTables<'a>,
    pub still: &'a [u8],
    pub stills: &'a [u8],
    pub hops: &'a [u16],
    pub ways: &'a [u8],
    pub effects: &'a [u8],
    pub ghost stays: { StillOn (board_in offers.board) still.now },
    pub ghost stays_by_leaf: { StillsOn (board_in offers.board) stills.now },
    pub ghost hopped: { Hops offers.board.actions (board_in offers.board) effects.now hops.now },
    pub ghost wayed: { Ways offers.board.actions hops.now ways.now },
    pub ghost effects_long: { length effects.now ≡ 8192 },
    pub ghost goals_long: { length offers.goals.now ≡ 1024 },
}

// The node that is expanded, with its number and its key.
#[derive(Clone, Copy)]
pub struct Opened<'a> {
    pub number: usize,
    pub key: u64,
    pub node: Candidate<'a>,
}

// The layer before a successor's: its prices, the states that they reach where there are 128 or more, and, where `still` is not 0, that the successor's layer begins
// with these prices.
#[derive(Clone, Copy)]
pub struct Origin<'a> {
    pub prices: &'a [u64],
    pub list: &'a [u16],
    pub still: u8,
}
