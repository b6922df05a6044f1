// Plans the task whose record stands on standard input, and prints the answer.
#![tactic(auto)]

use input::read_full;
use report::print_answer;
use std::io;

// The longest record has 19,531 bytes: whatever is longer is refused whatever follows, so one byte more is read and no more.
fn main(rt: HostRuntime) -> io::Result<()> {
    let mut rec = [0u8; 19532];
    let got = read_full(&mut rt.reader(), &mut rec);
    print_answer(&rt, &rec[..got])
}
