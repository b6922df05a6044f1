// Whether the node of a row dominates another: the same centre state, no higher centre cost and no higher price anywhere. Where there are many states, those
// that the other reaches are listed first.
#![tactic(auto)]

ghost use Rattle.std.specs.Prelude.{◌≡◌, ◌+◌, ◌≤◌, ◌<◌, eqb, length};
ghost use Rattle.loops.specs.Count.{all};
ghost use Rattle.task.specs.Centre.{value_in};
ghost use Rattle.search.specs.Node.{dominates};
ghost use Rattle.rows.specs.Reach.{ReachesIn};
ghost use Rattle.rows.specs.Row.{spot_of, node_of, Packed, NotAbove, Above};
ghost use Rattle.rows.specs.Sign.Bits.{AboveInBits};
ghost use Rattle.dominance.specs.Held.{node_held};

use leaf::MARK;
use rows::pack;
use task::Centre;

mod held;

pub use held::Candidate;

// ---- the states that are reached

// The states from `from` to `to` behind the `many` that are listed, those of them that the prices reach; how many there are then. Each is written, and
// the count grows by a condition, so that nothing branches.
fn list_from(prices: &[u64], list: &mut [u16], from: usize, to: usize, many: usize) -> usize
    requires { (1024 ≤ length list.old) × (from ≤ to) × (to ≤ 1024) × (to ≤ length prices.now) × ReachesIn from prices.now list.old many }
    ensures { ReachesIn to prices.now list.new result }
{
    let mut n = many;
    for x in from..to {
        list[n] = x as u16;
        if prices[x] < MARK {
            n += 1;
        }
    }
    n
}

// The same of four states. Mostly none is reached: their prices are all the mark then, and so are the bits that they share.
fn list_four(prices: &[u64], list: &mut [u16], from: usize, many: usize) -> usize
    requires { (1024 ≤ length list.old) × (from + 4 ≤ 1024) × (from + 4 ≤ length prices.now) × ReachesIn from prices.now list.old many }
    ensures { ReachesIn (from + 4) prices.now list.new result }
{
    let low = prices[from] & prices[from + 1];
    let high = prices[from + 2] & prices[from + 3];
    if low & high == MARK {
        return many;
    }
    list_from(prices, list, from, from + 4, many)
}

// The same of all states, four at a time.
fn list_all(states: usize, prices: &[u64], list: &mut [u16]) -> usize
    requires { (1024 ≤ length list.old) × (states ≤ 1024) × (states ≤ length prices.now) }
    ensures { ReachesIn states prices.now list.new result }
{
    let mut many = 0;
    let mut x = 0;
    while x + 4 <= states {
        many = list_four(prices, list, x, many);
        x += 4;
    }
    list_from(prices, list, x, states, many)
}

// Lists the states that the prices reach where there are 128 or more, by rising number, and answers how many are listed. Fewer are told apart by the
// signature: then none is listed, and `list` stays as it is. The words of `list` behind those listed are left to the program; its length stays.
pub fn list_reached(states: usize, prices: &[u64], list: &mut [u16]) -> usize
    requires { (1024 ≤ length list.old) × (states ≤ 1024) × (states ≤ length prices.now) }
    ensures listed { (result ≤ 1024) × (128 ≤ states → ReachesIn states prices.now list.new result)
        × (states < 128 → result ≡ 0) × (states < 128 → list.new ≡ list.old) }
    ensures lengths { length list.new ≡ length list.old }
{
    if states >= 128 {
        return list_all(states, prices, list);
    }
    0
}

// ---- dominance

// Whether the row's node has this centre state: the same packs are the same values.
fn same_spot(row: &[u64], spot: Centre) -> bool
    requires { (40 ≤ length row.now) × Packed row.now }
    ensures { result ≡ all 32 (λ v. eqb (value_in (spot_of row.now) v) (value_in spot v)) }
{
    row[35] == pack(spot, 0)
        && row[36] == pack(spot, 8)
        && row[37] == pack(spot, 16)
        && row[38] == pack(spot, 24)
}

// A place where the row's price is higher, if there is one; before `from` none is.
fn place_from(row: &[u64], candidate: &Candidate<'_>, from: usize) -> Option<usize>
    requires { (length row.now ≡ 40 + candidate.now.states) × (from ≤ candidate.now.states) × NotAbove row.now candidate.now.prices.now from }
    ensures { Above candidate.now.states row.now candidate.now.prices.now result }
{
    for k in from..candidate.states {
        if row[40 + k] > candidate.prices[k] {
            return Some(k);
        }
    }
    None
}

// A place where the row's price is higher among the bits of the prices' signature, each that of one state below 64, if there is one.
fn place_in_bits(row: &[u64], candidate: &Candidate<'_>) -> Option<usize>
    requires { length row.now ≡ 40 + candidate.now.states }
    ensures { AboveInBits candidate.now.states row.now candidate.now.prices.now candidate.now.sign result }
{
    let mut rest = candidate.sign;
    while rest > 0 {
        let k = u64::trailing_zeros(rest) as usize;
        if row[40 + k] > candidate.prices[k] {
            return Some(k);
        }
        rest = rest & (rest - 1);
    }
    None
}

// A place where the row's price is higher, if there is one: below 64 by the bits of the prices' signature, as what cannot be reached has no lower price,
// and from there on one by one.
fn place_by_sign(row: &[u64], candidate: &Candidate<'_>) -> Option<usize>
    requires { (candidate.now.states < 128) × (length row.now ≡ 40 + candidate.now.states) }
    ensures { Above candidate.now.states row.now candidate.now.prices.now result }
{
    if let Some(place) = place_in_bits(row, candidate) {
        return Some(place);
    }
    if candidate.states <= 64 {
        return None;
    }
    place_from(row, candidate, 64)
}

// A place where the row's price is higher, if there is one: along the list of the states that are reached, as what cannot be reached has no lower price.
fn place_in_list(row: &[u64], candidate: &Candidate<'_>) -> Option<usize>
    requires { (128 ≤ candidate.now.states) × (length row.now ≡ 40 + candidate.now.states) }
    ensures { Above candidate.now.states row.now candidate.now.prices.now result }
{
    for &state in candidate.list {
        let x = state as usize;
        if row[40 + x] > candidate.prices[x] {
            return Some(x);
        }
    }
    None
}

// The same of any number of states: by the signature where they are few, along the list where they are many. `hint` is tried first: where one node was
// too high the next is often too.
fn place_above(row: &[u64], candidate: &Candidate<'_>, hint: usize) -> Option<usize>
    requires { length row.now ≡ 40 + candidate.now.states }
    ensures { Above candidate.now.states row.now candidate.now.prices.now result }
{
    if hint < candidate.states {
        if row[40 + hint] > candidate.prices[hint] {
            return Some(hint);
        }
    }
    if candidate.states < 128 {
        return place_by_sign(row, candidate);
    }
    place_in_list(row, candidate)
}

// Whether the row's node has the same centre state, no higher centre cost and no higher price anywhere. `hint` is the place to look at first. Which place it
// is afterwards, for the next node, is left to the program: a hint that is no higher than the number of states stays so (`hint`).
pub fn test_row(row: &[u64], candidate: &Candidate<'_>, hint: &mut usize) -> bool
    requires { (length row.now ≡ 40 + candidate.now.states) × Packed row.now }
    ensures tells { result ≡ dominates (node_of candidate.now.states row.now) (node_held candidate.now) }
    ensures hint { hint.old ≤ candidate.now.states → hint.new ≤ candidate.now.states }
{
    let dearer = row[32] > candidate.paid;
    if dearer {
        return false;
    }
    if let Some(place) = place_above(row, candidate, *hint) {
        *hint = place;
        return false;
    }
    same_spot(row, candidate.spot)
}
