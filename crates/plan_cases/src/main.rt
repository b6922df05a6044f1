// Plans the records on standard input one after the other, and prints of each what the program `plan` would.
//
// A record stands there behind its length, which has two bytes, the more significant one first. The end of the input ends the run.
#![tactic(auto)]

use input::{read_full, read_length};
use report::print_answer;
use std::io;
use std::io::Read;

// Fills `rec` from the input, prints its answer, and says whether the input had so many bytes.
fn run_record(rt: &impl Print, input: &mut impl Read, rec: &mut [u8]) -> io::Result<bool> {
    if read_full(input, rec) < rec.len() {
        return Ok(false);
    }
    print_answer(rt, rec)?;
    Ok(true)
}

// Reads the length of a record, prints the record's answer, and says whether there was one.
fn run_case(rt: &impl Print, input: &mut impl Read) -> io::Result<bool> {
    let Some(length) = read_length(input) else {
        return Ok(false);
    };
    let mut rec = [0u8; 65535];
    run_record(rt, input, &mut rec[..length])
}

fn main(rt: HostRuntime) -> io::Result<()> {
    let mut input = rt.reader();
    for _ in 0..1000000u64 {
        if !run_case(&rt, &mut input)? {
            return Ok(());
        }
    }
    Ok(())
}
