// What is known of a node that may be kept, held together.

ghost use Rattle.std.specs.Prelude.{◌≡◌, ◌≤◌, length, take};
ghost use Rattle.rows.specs.Reach.{Reaches};
ghost use Rattle.rows.specs.Sign.{sign_of};

use task::Centre;

// A node that may be kept, by what tells whether another dominates it: its centre state, its centre cost, its prices, their signature, and the states that
// they reach where there are 128 or more.
#[derive(Clone, Copy)]
pub struct Candidate<'a> {
    pub states: usize,
    pub spot: Centre,
    pub paid: u64,
    pub prices: &'a [u64],
    pub sign: u64,
    pub list: &'a [u16],
    pub ghost few: { states ≤ 1024 },
    pub ghost long: { states ≤ length prices.now },
    pub ghost signed: { sign ≡ sign_of (take states prices.now) },
    pub ghost reached: { 128 ≤ states → Reaches states prices.now list.now },
}
