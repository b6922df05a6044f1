// Rows of nodes in the lent table, and signatures of prices.
#![tactic(auto)]

ghost use Rattle.std.specs.Prelude.{◌≡◌, ℕ, ◌+◌, ◌*◌, ◌≤◌, ◌<◌, length, get_or, take};
ghost use Rattle.rows.specs.Four.{four_to};
ghost use Rattle.rows.specs.Row.{spot_of, node_of, node_with, pack_of, Packed};
ghost use Rattle.rows.specs.Sign.{class_of, sign_to, sign_of};

use leaf::MARK;
use task::Centre;
use words::copy_words;

// ---- signatures

// The signature of every `step`-th of the prices, `count` of them, at most 64: a bit for each, the first the lowest. Nothing branches.
fn sign_by_step(prices: &[u64], step: usize, count: usize) -> u64
    requires { (0 < step) × (count ≤ 64) × (count * step ≤ length prices.now) }
    ensures { result ≡ sign_to step prices.now count }
{
    let mut sign: u64 = 0;
    for k in (0..count).rev() {
        sign = sign * 2 + (prices[k * step] < MARK) as u64;
    }
    sign
}

// The signature of 64 prices or more: one of every so many is looked at, each where there are fewer than 128.
fn sign_of_many(prices: &[u64]) -> u64
    requires { 64 ≤ length prices.now }
    ensures { result ≡ sign_of prices.now }
{
    let step = prices.len() / 64;
    let count = prices.len() / step;
    let mut sign = 0;
    for k in 0..count {
        if prices[k * step] < MARK {
            sign = sign | (1 << (k % 64));
        }
    }
    sign
}

// The signature of prices: where 64 of them or fewer are looked at, bit by bit.
pub fn sign_of(prices: &[u64]) -> u64
    ensures { result ≡ sign_of prices.now }
{
    let states = prices.len();
    if states < 64 {
        return sign_by_step(prices, 1, states);
    }
    let step = states / 64;
    if states / step == 64 {
        return sign_by_step(prices, step, 64);
    }
    sign_of_many(prices)
}

// ---- rows

// The centre state in a row: each of its packs has eight values, the first its lowest byte.
pub fn read_spot(row: &[u64]) -> Centre
    requires { 39 ≤ length row.now }
    ensures { result ≡ spot_of row.now }
{
    let mut values = [0u8; 32];
    for k in 0..4 {
        let word = row[35 + k];
        values[k * 8..k * 8 + 8].copy_from_slice(&word.to_le_bytes());
    }
    Centre { values }
}

// Eight values of a centre state from value `from` on as one word, the first its lowest byte.
pub fn pack(spot: Centre, from: usize) -> u64
    requires { from ≤ 24 }
    ensures { result ≡ pack_of spot from }
{
    let values = spot.values;
    u64::from_le_bytes([
        values[from],
        values[from + 1],
        values[from + 2],
        values[from + 3],
        values[from + 4],
        values[from + 5],
        values[from + 6],
        values[from + 7],
    ])
}

// The four packs of a centre state into a row.
fn write_packs(row: &mut [u64], spot: Centre)
    requires { 40 ≤ length row.old }
    ensures { row.new ≡ four_to row.old 35 (pack_of spot 0) (pack_of spot 8) (pack_of spot 16) (pack_of spot 24) }
{
    row[35] = pack(spot, 0);
    row[36] = pack(spot, 8);
    row[37] = pack(spot, 16);
    row[38] = pack(spot, 24);
}

// A node into its row, with the signature of its prices. The words that are not used stay as they are.
pub fn write_row(
    row: &mut [u64],
    states: usize,
    spot: Centre,
    paid: u64,
    parent: usize,
    action: usize,
    sign: u64,
    prices: &[u64],
)
    requires { (length row.old ≡ 40 + states) × (states ≤ length prices.now) }
    ensures { (node_of states row.new ≡ node_with spot paid (take states prices.now) parent action) × Packed row.new
        × (get_or row.new 39 0 ≡ sign) × ((v : ℕ) → v < 32 → get_or row.new v 0 ≡ get_or row.old v 0) }
{
    write_packs(row, spot);
    row[32] = paid;
    row[33] = parent as u64;
    row[34] = action as u64;
    row[39] = sign;
    copy_words(prices, &mut row[40..], states);
}

// The class of a centre state, by its four packs: ten bits of a product of their mixed halves.
pub fn class_of(spot: Centre) -> usize
    ensures { result ≡ class_of spot }
{
    let low = pack(spot, 0) ^ pack(spot, 8);
    let high = pack(spot, 16) ^ pack(spot, 24);
    let all = low ^ high;
    let mix = (all ^ (all >> 32)) % 4294967296;
    ((mix * 2654435769 >> 22) % 1024) as usize
}
