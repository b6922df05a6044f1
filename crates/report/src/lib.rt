// Plans the task of a record with a table of 4,096 words, as many nodes as fit, a budget of 4,096 and 8,192 plan bytes, and reports the answer
// on standard output.
//
// Prints the plan's length, its cost and the counts, then an action to a line; or one line that says why there is no plan.
#![tactic(auto)]

use answers::{Counts, PlanAnswer, PlanRefusal, Solution};
use planner::{fitting_nodes, plan};
use std::io;

// The counts, and the end of the line.
fn print_counts(rt: &impl Print, counts: Counts) -> io::Result<()> {
    println!(rt; " expanded {} kept {}", counts.expanded, counts.kept)
}

// The plan's actions, each on a line of its own.
fn print_actions(rt: &impl Print, plan: &[u8], length: usize) -> io::Result<()> {
    for action in plan.iter().take(length) {
        println!(rt; "{action}")?;
    }
    Ok(())
}

fn print_plan(rt: &impl Print, solution: Solution, counts: Counts, plan: &[u8]) -> io::Result<()> {
    print!(rt; "plan {} cost {}", solution.length, solution.cost)?;
    print_counts(rt, counts)?;
    print_actions(rt, plan, solution.length)
}

fn print_unsolvable(rt: &impl Print, counts: Counts) -> io::Result<()> {
    print!(rt; "unsolvable")?;
    print_counts(rt, counts)
}

fn print_refused(rt: &impl Print, why: PlanRefusal, counts: Counts) -> io::Result<()> {
    let number = u8::from(why);
    print!(rt; "refused {number}")?;
    print_counts(rt, counts)
}

// Plans a record and prints the answer.
pub fn print_answer(rt: &impl Print, rec: &[u8]) -> io::Result<()> {
    let mut bytes = [0u8; 8192];
    let mut table = [0u64; 4096];
    let answer = plan(rec, fitting_nodes(rec, 4096), 4096, &mut bytes, &mut table);
    match answer {
        PlanAnswer::Solved(solution, counts) => print_plan(rt, solution, counts, &bytes),
        PlanAnswer::Unsolvable(counts) => print_unsolvable(rt, counts),
        PlanAnswer::Refused(why, counts) => print_refused(rt, why, counts),
    }
}
