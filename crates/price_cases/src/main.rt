// Runs the pricer over the calls on standard input, and prints a line for each: its number from 1 on, the answer, and whether the words
// that the answer leaves alone are as they were.
//
// A call stands there as a record behind its length, a path behind its length, and the number of words to lend, at most 1,100. Each of
// these numbers has two bytes, the more significant one first. The end of the input, or a larger number of words, ends the run.
// The line of an answered call has the number of prices, a checksum over all of them and the first twelve, a minus sign for unreachable;
// the line of a refused one has the refusal's number. The lent words lie between other words. All of them hold a pattern before the call;
// behind it, those outside the lent part must hold it still, and so must those behind the prices, or on a refusal all.
#![tactic(auto)]

ghost use Rattle.std.specs.Prelude.{◌≡◌, ◌<◌, ◌≤◌, length};

use answers::PriceRefusal;
use input::{read_full, read_length};
use pricer::prices;
use std::io;
use std::io::Read;

// Checksums are remainders by this prime.
const PRIME: u64 = 1000003;

// How many words stand before the lent ones.
const BEFORE: usize = 8;

// How many words can be lent.
const MOST: usize = 1100;

// How many words there are in all, eight of them behind the last that can be lent.
const ALL: usize = 1116;

// The price of an unreachable state.
const UNREACHABLE: u64 = u64::MAX;

// A checksum with one price more. The old sum counts 257 times, so that it matters where a price stands.
fn with_price(sum: u64, x: u64) -> u64
    requires { sum < 1000003 }
    ensures { result < 1000003 }
{
    (sum * 257 + x % PRIME) % PRIME
}

// The checksum of the prices.
fn sum_of_prices(prices: &[u64]) -> u64
    ensures { result < 1000003 }
{
    let mut sum: u64 = 0;
    for &price in prices {
        sum = with_price(sum, price);
    }
    sum
}

// The words before the call: the first lent word holds 1,000,000.
fn pattern() -> [u64; 1116] {
    let mut words = [0u64; ALL];
    for (i, word) in words.iter_mut().enumerate() {
        *word = 999992 + i as u64;
    }
    words
}

// Whether the words outside those of the prices hold what they held before the call.
fn kept_around(words: &[u64; 1116], count: usize) -> bool
    requires { count ≤ 1100 }
{
    let old = pattern();
    let end = BEFORE + count;
    words[..BEFORE] == old[..BEFORE] && words[end..] == old[end..]
}

// A space and a price.
fn print_price(rt: &impl Print, x: u64) -> io::Result<()> {
    if x == UNREACHABLE {
        print!(rt; " -")
    } else {
        print!(rt; " {x}")
    }
}

// The first prices, at most twelve.
fn print_first(rt: &impl Print, prices: &[u64]) -> io::Result<()> {
    for &price in prices.iter().take(12) {
        print_price(rt, price)?;
    }
    Ok(())
}

// The end of a line.
fn print_kept(rt: &impl Print, kept: bool) -> io::Result<()> {
    if kept {
        println!(rt; " kept")
    } else {
        println!(rt; " CHANGED")
    }
}

// The rest of an answered call's line.
fn print_answered(rt: &impl Print, words: &[u64; 1116], count: usize) -> io::Result<()> {
    print!(rt; " prices {count}")?;
    if count > MOST {
        return println!(rt; " TOO MANY");
    }
    let prices = &words[BEFORE..BEFORE + count];
    print!(rt; " sum {} first", sum_of_prices(prices))?;
    print_first(rt, prices)?;
    print_kept(rt, kept_around(words, count))
}

// The rest of a refused call's line.
fn print_refused(rt: &impl Print, words: &[u64; 1116], why: PriceRefusal) -> io::Result<()> {
    print!(rt; " refused {}", u8::from(why))?;
    print_kept(rt, *words == pattern())
}

// Calls the pricer with so many lent words, and prints the line.
fn run_call(rt: &impl Print, number: u64, rec: &[u8], path: &[u8], lent: usize) -> io::Result<()>
    requires { lent ≤ 1100 }
{
    let mut words = pattern();
    let answer = prices(rec, path, &mut words[BEFORE..BEFORE + lent]);
    print!(rt; "{number}")?;
    match answer {
        Ok(count) => print_answered(rt, &words, count),
        Err(why) => print_refused(rt, &words, why),
    }
}

// Fills `path` from the input, reads the number of words to lend, runs the call, and answers whether the input had all of it.
fn run_path(
    rt: &impl Print,
    input: &mut impl Read,
    number: u64,
    rec: &[u8],
    path: &mut [u8],
) -> io::Result<bool> {
    if read_full(input, path) < path.len() {
        return Ok(false);
    }
    let Some(lent) = read_length(input) else {
        return Ok(false);
    };
    if lent > MOST {
        return Ok(false);
    }
    run_call(rt, number, rec, path, lent)?;
    Ok(true)
}

// Fills `rec` from the input, reads the length of the path, and goes on with the path.
fn run_record(
    rt: &impl Print,
    input: &mut impl Read,
    number: u64,
    rec: &mut [u8],
) -> io::Result<bool> {
    if read_full(input, rec) < rec.len() {
        return Ok(false);
    }
    let Some(length) = read_length(input) else {
        return Ok(false);
    };
    let mut path = [0u8; 65535];
    run_path(rt, input, number, rec, &mut path[..length])
}

// Reads the length of a record, goes on with the record, and answers whether there was a whole call.
fn run_case(rt: &impl Print, input: &mut impl Read, number: u64) -> io::Result<bool> {
    let Some(length) = read_length(input) else {
        return Ok(false);
    };
    let mut rec = [0u8; 65535];
    run_record(rt, input, number, &mut rec[..length])
}

fn main(rt: HostRuntime) -> io::Result<()> {
    let mut input = rt.reader();
    for number in 1..1000000 {
        if !run_case(&rt, &mut input, number)? {
            break;
        }
    }
    Ok(())
}
