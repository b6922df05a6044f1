// The record reader: for every byte string the task that it writes down, or the one refusal of 1 to 11 that it meets first.
#![tactic(auto)]

ghost use Rattle.std.specs.Prelude.{◌≡◌, ◌<◌, ◌≤◌, ◌^◌, IfOk};
ghost use Rattle.task.specs.Valid.{Valid};
ghost use Rattle.fields.specs.Answers.{told_in};
ghost use Rattle.fields.specs.Fields.{next_field};
ghost use Rattle.parts.specs.Grammar.{task_of};
ghost use Rattle.record.specs.Record.{verdict_number, read_told, read_record};

use fields::{BitReader, Refusal};
use lists::{read_actions, read_list};
use parts::{Actions, Variables, read_head, read_variables};
use task::{FREE, Task};
use whole::whole;

// A task in which nothing is read yet.
fn blank_task() -> Task {
    Task {
        variables: 0,
        leaves: 0,
        actions: 0,
        sizes: [0; 32],
        factors: [0; 32],
        initial: [0; 32],
        goal: [FREE; 32],
        handling: [0; 256],
        distance: [0; 256],
        conditions: [FREE; 8192],
        effects: [FREE; 8192],
    }
}

// A whole task, field by field; what `into` holds on a refusal is left to the program.
fn read_task(r: &mut BitReader<'_>, into: &mut Task) -> Result<(), Refusal>
    requires { r.old.at < 2 ^ 10 }
    ensures told { task_of (next_field r.old.bytes.now) r.old.at ≡ told_in into.new result r.new.at }
    ensures near { r.new.at < 2 ^ 31 }
    ensures same_record { r.new.bytes ≡ r.old.bytes }
{
    let head = read_head(r)?;
    let n = head.variables as usize;
    let mut variables = Variables::blank();
    read_variables(r, head.leaves, n, &mut variables)?;
    let own_sizes = &variables.sizes[..n];
    let mut goal = [FREE; 32];
    read_list(r, own_sizes, 0, &mut goal)?;
    let mut actions = Actions::blank();
    read_actions(r, own_sizes, head.actions as usize, &mut actions)?;
    let Variables {
        sizes,
        factors,
        initial,
    } = variables;
    let Actions {
        handling,
        distance,
        conditions,
        effects,
    } = actions;
    *into = Task {
        variables: head.variables,
        leaves: head.leaves,
        actions: head.actions,
        sizes,
        factors,
        initial,
        goal,
        handling,
        distance,
        conditions,
        effects,
    };
    Ok(())
}

// The task that a record writes down, or why it is refused.
pub fn read_record(rec: &[u8]) -> Result<Task, Refusal>
    ensures answer { read_told result ≡ read_record rec.now }
    ensures valid { verdict_number (read_told result).verdict ≡ 0 → Valid (read_told result).task }
    ensures valid_task { IfOk result Valid }
{
    let mut r = BitReader::new(rec);
    let mut task = blank_task();
    read_task(&mut r, &mut task)?;
    if !r.ended() {
        return Err(Refusal::NotFilled);
    }
    whole(&task)?;
    Ok(task)
}
