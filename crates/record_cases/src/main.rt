// Runs the record reader over the byte strings on standard input, and prints a line for each: its number from 1 on, and the answer.
//
// A byte string stands there behind its length, which has two bytes, the more significant one first. The end of the input ends the run.
// The line of an accepted record has the numbers of variables, leaves and actions, and a checksum over every entry of each of the task's
// arrays, in their order in the task; the line of a refused one has the refusal's number.
#![tactic(auto)]

ghost use Rattle.std.specs.Prelude.{◌<◌};

use input::{read_full, read_length};
use record::read_record;
use std::io;
use std::io::Read;
use task::Task;

// Checksums are remainders by this prime.
const PRIME: u64 = 1000003;

// A checksum with one entry more. The old sum counts 257 times, so that it matters where an entry stands.
fn with_entry(sum: u64, x: u16) -> u64
    requires { sum < 1000003 }
    ensures { result < 1000003 }
{
    (sum * 257 + x as u64) % PRIME
}

// The checksum of an array, whose entries are numbers of at most 16 bits.
fn checksum<T: Copy + Into<u16>>(entries: &[T]) -> u64 {
    let mut sum: u64 = 0;
    for x in entries {
        sum = with_entry(sum, (*x).into());
    }
    sum
}

// A space and a number.
fn print_number(rt: &impl Print, n: u64) -> io::Result<()> {
    print!(rt; " {n}")
}

// The rest of the line of an accepted record.
fn print_accepted(rt: &impl Print, t: &Task) -> io::Result<()> {
    print!(rt; " accepted {} {} {} sums", t.variables, t.leaves, t.actions)?;
    print_number(rt, checksum(&t.sizes))?;
    print_number(rt, checksum(&t.factors))?;
    print_number(rt, checksum(&t.initial))?;
    print_number(rt, checksum(&t.goal))?;
    print_number(rt, checksum(&t.handling))?;
    print_number(rt, checksum(&t.distance))?;
    print_number(rt, checksum(&t.conditions))?;
    print_number(rt, checksum(&t.effects))
}

// The line of one byte string.
fn print_answer(rt: &impl Print, number: u64, rec: &[u8]) -> io::Result<()> {
    print!(rt; "{number}")?;
    match read_record(rec) {
        Ok(task) => print_accepted(rt, &task)?,
        Err(why) => print!(rt; " refused {}", u8::from(why))?,
    }
    println!(rt)
}

// Fills `rec` from the input, prints its line, and answers whether the input had so many bytes.
fn run_record(
    rt: &impl Print,
    input: &mut impl Read,
    number: u64,
    rec: &mut [u8],
) -> io::Result<bool> {
    if read_full(input, rec) < rec.len() {
        return Ok(false);
    }
    print_answer(rt, number, rec)?;
    Ok(true)
}

// Reads the length of a byte string, runs the reader over it, and answers whether there was one.
fn run_case(rt: &impl Print, input: &mut impl Read, number: u64) -> io::Result<bool> {
    let Some(length) = read_length(input) else {
        return Ok(false);
    };
    let mut rec = [0u8; 65535];
    run_record(rt, input, number, &mut rec[..length])
}

fn main(rt: HostRuntime) -> io::Result<()> {
    let mut input = rt.reader();
    for number in 1..1000000 {
        if !run_case(&rt, &mut input, number)? {
            break;
        }
    }
    Ok(())
}
