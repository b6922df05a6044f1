// Runs the planner beside a plain one over the tasks on standard input, and prints a line for each: its number from 1 on, the planner's
// cost, the plain planner's, and whether the planner's plan carries out. The last line has the totals.
//
// A task stands there as a record behind its length, which has two bytes, the more significant one first. The end of the input ends the
// run. The plain planner is a uniform-cost search over whole states by the published meaning of a task; of the planner's code it uses the
// record reader alone. A line ends in DIFFERENT where the costs differ, or where a plan does not carry out for the cost that its answer
// states, or where the bytes behind the plan are not as they were.
#![tactic(auto)]

ghost use Rattle.std.specs.Prelude.{◌≡◌, ℕ, ◌+◌, ◌<◌, ◌≤◌, length, IfSome};
ghost use Rattle.task.specs.Valid.{Valid};

use answers::{PlanAnswer, Solution};
use input::{read_full, read_length};
use planner::plan;
use record::read_record;
use std::io;
use std::io::Read;
use steps::{holds, put};
use task::Task;

// How many whole states the plain planner can number.
const MOST: usize = 1024;

// What stands for a state that has no number.
const OVER: usize = 1025;

// How many nodes the planner may keep: its table has words for them where the leaves have at most 87 states together.
const NODES: u32 = 512;

// How many expansions the planner may begin.
const BUDGET: u32 = 4096;

// What each byte of the plan's buffer holds before the call.
const BLANK: u8 = 238;

// ---- what actions cost

// How long the carriage holds still behind a drive.
const PAUSE: u64 = 25;

// The travel over a distance: the least t with t times t at least 400 times the distance, up to 400; above that 200 and half of it,
// rounded up.
fn travel(distance: u16) -> u64
    ensures { result ≤ 32968 }
{
    let d = distance as u64;
    if d > 400 {
        return 200 + (d + 1) / 2;
    }
    for t in 0..400 {
        if t * t >= 400 * d {
            return t;
        }
    }
    400
}

// The drive time of a distance: the travel and the pause, where there is a drive.
fn drive(distance: u16) -> u64
    ensures { result ≤ 33000 }
{
    if distance == 0 {
        return 0;
    }
    travel(distance) + PAUSE
}

// What an action costs.
fn cost(handling: u16, distance: u16) -> u64 {
    handling as u64 + drive(distance)
}

// What each action of the task costs. Behind the last action stand costs of 0.
fn task_costs(task: &Task) -> [u64; 256] {
    let mut costs = [0u64; 256];
    for (a, entry) in costs.iter_mut().enumerate() {
        *entry = cost(task.handling[a], task.distance[a]);
    }
    costs
}

// A sum with more added, or the greatest number where that has no room.
fn plus(sum: u64, more: u64) -> u64 {
    sum.saturating_add(more)
}

// ---- states

// A number with one digit more, or 1,025 where that is above 1,024.
fn with_digit(number: usize, size: u8, value: u8) -> usize
    ensures { result ≤ 1025 }
{
    number
        .saturating_mul(usize::from(size))
        .saturating_add(usize::from(value))
        .min(OVER)
}

// How many whole states there are, or 1,025 where there are more than 1,024.
fn states_of(sizes: &[u8]) -> usize {
    let mut states: usize = 1;
    for &size in sizes {
        states = with_digit(states, size, 0);
    }
    states
}

// The number of the state with these values, mixed-radix, the first variable the most significant; or 1,025 where it is above 1,024.
fn number_of(sizes: &[u8], values: &[u8]) -> usize {
    let mut number: usize = 0;
    for (&size, &value) in sizes.iter().zip(values) {
        number = with_digit(number, size, value);
    }
    number
}

// The last digit of a number.
fn digit(number: usize, size: u8) -> u8 {
    if size == 0 {
        return 0;
    }
    (number % (size as usize)) as u8
}

// The number without its last digit.
fn without_digit(number: usize, size: u8) -> usize {
    if size == 0 {
        return 0;
    }
    number / (size as usize)
}

// The values in the state of this number, as many as there are sizes, and 0 behind them.
fn values_of(sizes: &[u8], number: usize) -> [u8; 32]
    requires { length sizes.now ≤ 32 }
{
    let mut values = [0u8; 32];
    let mut rest = number;
    for v in (0..sizes.len()).rev() {
        values[v] = digit(rest, sizes[v]);
        rest = without_digit(rest, sizes[v]);
    }
    values
}

// The values behind an action that is carried out from these, or none where it does not apply.
fn step(task: &Task, action: usize, mut values: [u8; 32]) -> Option<[u8; 32]>
    requires accepted { Valid task.now }
    requires fits { action < 256 }
{
    let row = action * 32;
    let end = row + task.variables as usize;
    if !holds(&task.conditions[row..end], &values) {
        return None;
    }
    put(&task.effects[row..end], &mut values);
    Some(values)
}

// Whether the goal holds of the values.
fn meets_goal(task: &Task, values: &[u8; 32]) -> bool
    requires { Valid task.now }
{
    holds(&task.goal[..task.variables as usize], values)
}

// ---- the plain planner

// What the search knows of a state: the least cost of a way to it so far, if there is a way, and whether it went on from there.
#[derive(Clone, Copy)]
struct Node {
    distance: Option<u64>,
    settled: bool,
}

impl Node {
    // Lowers the distance to this one, if this is lower.
    fn lower(&mut self, distance: u64) {
        if self.distance.is_none_or(|old| distance < old) {
            self.distance = Some(distance);
        }
    }

    // The distance of a state that the search can go on from.
    fn open(self) -> Option<u64> {
        if self.settled { None } else { self.distance }
    }
}

// Lowers a state's distance to this one, if there is such a state and this is lower.
fn lower(nodes: &mut [Node], state: usize, distance: u64) {
    if let Some(node) = nodes.get_mut(state) {
        node.lower(distance);
    }
}

// Notes that the search went on from the state.
fn settle(nodes: &mut [Node], state: usize) {
    if let Some(node) = nodes.get_mut(state) {
        node.settled = true;
    }
}

// A state that the search can go on from, and its distance.
#[derive(Clone, Copy)]
struct Near {
    state: usize,
    distance: u64,
}

// Lowers the distance of each state that an action leads to from this state.
fn lower_next(task: &Task, costs: &[u64; 256], here: Near, nodes: &mut [Node])
    requires { Valid task.now }
{
    let n = task.variables as usize;
    let values = values_of(&task.sizes[..n], here.state);
    for (a, &cost) in costs[..task.actions as usize].iter().enumerate() {
        if let Some(next) = step(task, a, values) {
            let state = number_of(&task.sizes[..n], &next);
            lower(nodes, state, plus(here.distance, cost));
        }
    }
}

// The nearer of a state found so far and another one, the first where they are as near.
fn nearer(found: Option<Near>, other: Near) -> Near
    ensures { (states : ℕ) → IfSome found (λ first. first.state < states) → other.state < states → result.state < states }
{
    match found {
        Some(first) if first.distance <= other.distance => first,
        _ => other,
    }
}

// The state of least distance that the search can go on from, if there is one.
fn nearest(nodes: &[Node]) -> Option<Near>
    ensures { IfSome result (λ near. near.state < length nodes.now) }
{
    let mut found = None;
    for (state, node) in nodes.iter().enumerate() {
        if let Some(distance) = node.open() {
            found = Some(nearer(found, Near { state, distance }));
        }
    }
    found
}

// Whether the goal holds in the state.
fn is_goal(task: &Task, state: usize) -> bool
    requires { Valid task.now }
{
    let n = task.variables as usize;
    meets_goal(task, &values_of(&task.sizes[..n], state))
}

// The number of the initial state.
fn first_state(task: &Task) -> usize
    requires { Valid task.now }
{
    number_of(&task.sizes[..task.variables as usize], &task.initial)
}

// The least cost of a plan, or none: settles the nearest states first, until one meets the goal.
fn plain_cost(task: &Task) -> Option<u64>
    requires { Valid task.now }
{
    let costs = task_costs(task);
    let mut nodes = [Node {
        distance: None,
        settled: false,
    }; MOST];
    lower(&mut nodes, first_state(task), 0);
    for _ in 0..MOST {
        let here = nearest(&nodes)?;
        if is_goal(task, here.state) {
            return Some(here.distance);
        }
        settle(&mut nodes, here.state);
        lower_next(task, &costs, here, &mut nodes);
    }
    None
}

// How many whole states the task has, or 1,025 where there are more than 1,024.
fn task_states(task: &Task) -> usize
    requires { Valid task.now }
{
    states_of(&task.sizes[..task.variables as usize])
}

// ---- a plan carried out

// What the plan's actions cost where each applies in turn from the initial state, and the goal holds at the end; else none.
fn carried_cost(task: &Task, plan: &[u8]) -> Option<u64>
    requires { Valid task.now }
{
    let costs = task_costs(task);
    let mut values = task.initial;
    let mut sum: u64 = 0;
    for &action in plan {
        if action >= task.actions {
            return None;
        }
        values = step(task, action as usize, values)?;
        sum = plus(sum, costs[action as usize]);
    }
    if meets_goal(task, &values) {
        Some(sum)
    } else {
        None
    }
}

// Whether each byte is blank.
fn is_blank(bytes: &[u8]) -> bool {
    bytes.iter().all(|byte| *byte == BLANK)
}

// Whether the plan has room in the bytes, those behind it are blank, and it carries out for the cost that the answer states.
fn carries(task: &Task, s: Solution, bytes: &[u8]) -> bool
    requires { Valid task.now }
{
    let Some((plan, rest)) = bytes.split_at_checked(s.length) else {
        return false;
    };
    is_blank(rest) && carried_cost(task, plan) == Some(s.cost)
}

// ---- the lines

// A space and a cost.
fn print_cost(rt: &impl Print, cost: Option<u64>) -> io::Result<()> {
    match cost {
        Some(cost) => print!(rt; " {cost}"),
        None => print!(rt; " none"),
    }
}

// The end of a line, by whether the planners agree; answers that too.
fn print_end(rt: &impl Print, same: bool) -> io::Result<bool> {
    if same {
        println!(rt)?;
    } else {
        println!(rt; " DIFFERENT")?;
    }
    Ok(same)
}

// The rest of the line of a task that the planner solved.
fn print_solved(
    rt: &impl Print,
    task: &Task,
    plain: Option<u64>,
    s: Solution,
    bytes: &[u8],
) -> io::Result<bool>
    requires { Valid task.now }
{
    print!(rt; " {} plain", s.cost)?;
    print_cost(rt, plain)?;
    if carries(task, s, bytes) {
        print!(rt; " carried yes")?;
        return print_end(rt, plain == Some(s.cost));
    }
    print!(rt; " carried no")?;
    print_end(rt, false)
}

// The rest of the line of a task that has no plan by the planner.
fn print_unsolvable(rt: &impl Print, plain: Option<u64>, bytes: &[u8]) -> io::Result<bool> {
    print!(rt; " none plain")?;
    print_cost(rt, plain)?;
    print!(rt; " carried none")?;
    print_end(rt, plain.is_none() && is_blank(bytes))
}

// The rest of the line of a task that the planner refused.
fn print_refused(rt: &impl Print, plain: Option<u64>) -> io::Result<bool> {
    print!(rt; " refused plain")?;
    print_cost(rt, plain)?;
    print!(rt; " carried none")?;
    print_end(rt, false)
}

// Runs the planner on the task's record, and prints the rest of the line.
fn run_planner(rt: &impl Print, task: &Task, rec: &[u8], plain: Option<u64>) -> io::Result<bool>
    requires { Valid task.now }
{
    let mut bytes = [BLANK; 4096];
    let mut table = [0u64; 65536];
    let answer = plan(rec, NODES, BUDGET, &mut bytes, &mut table);
    print!(rt; " planner")?;
    match answer {
        PlanAnswer::Solved(s, _) => print_solved(rt, task, plain, s, &bytes),
        PlanAnswer::Unsolvable(_) => print_unsolvable(rt, plain, &bytes),
        PlanAnswer::Refused(_, _) => print_refused(rt, plain),
    }
}

// ---- the run

// What came of a call: a task that was not planned; one with a plan and one without, each with whether the planners agree.
#[derive(Clone, Copy)]
enum Outcome {
    Left,
    Solved(bool),
    Unsolvable(bool),
}

// The totals of a run.
#[derive(Clone, Copy)]
struct Totals {
    tasks: u64,
    solved: u64,
    unsolvable: u64,
    differences: u64,
}

impl Totals {
    // With one task more.
    fn with_task(mut self) -> Totals {
        self.tasks = plus(self.tasks, 1);
        self
    }

    // With one difference more, if there is one.
    fn with_difference(mut self, same: bool) -> Totals {
        if same {
            return self;
        }
        self.differences = plus(self.differences, 1);
        self
    }

    // With one task more that has a plan.
    fn with_solved(mut self) -> Totals {
        self.solved = plus(self.solved, 1);
        self
    }

    // With one task more that has none.
    fn with_unsolvable(mut self) -> Totals {
        self.unsolvable = plus(self.unsolvable, 1);
        self
    }

    // With what came of a call.
    fn with(self, outcome: Outcome) -> Totals {
        match outcome {
            Outcome::Left => self.with_task(),
            Outcome::Solved(same) => self.with_task().with_solved().with_difference(same),
            Outcome::Unsolvable(same) => self.with_task().with_unsolvable().with_difference(same),
        }
    }

    // The last line.
    fn print(self, rt: &impl Print) -> io::Result<()> {
        print!(rt; "tasks {} solved {}", self.tasks, self.solved)?;
        println!(rt;
            " unsolvable {} differences {}",
            self.unsolvable, self.differences
        )
    }
}

// Plans a task both ways, and prints the rest of its line.
fn run_task(rt: &impl Print, task: &Task, rec: &[u8]) -> io::Result<Outcome>
    requires { Valid task.now }
{
    if task_states(task) > MOST {
        println!(rt; " has more than 1024 states")?;
        return Ok(Outcome::Left);
    }
    let plain = plain_cost(task);
    let same = run_planner(rt, task, rec, plain)?;
    if plain.is_none() {
        return Ok(Outcome::Unsolvable(same));
    }
    Ok(Outcome::Solved(same))
}

// Reads the task that the record writes down, plans it, and prints its line.
fn run_record(rt: &impl Print, number: u64, rec: &[u8]) -> io::Result<Outcome> {
    print!(rt; "{number}")?;
    match read_record(rec) {
        Ok(task) => run_task(rt, &task, rec),
        Err(_) => {
            println!(rt; " refused by the reader")?;
            Ok(Outcome::Left)
        }
    }
}

// Fills `rec` from the input and goes on with it; none at the end of the input.
fn fill_record(
    rt: &impl Print,
    input: &mut impl Read,
    number: u64,
    rec: &mut [u8],
) -> io::Result<Option<Outcome>> {
    if read_full(input, rec) < rec.len() {
        return Ok(None);
    }
    Ok(Some(run_record(rt, number, rec)?))
}

// Reads the length of a record and goes on with the record; none at the end of the input.
fn run_case(rt: &impl Print, input: &mut impl Read, number: u64) -> io::Result<Option<Outcome>> {
    let Some(length) = read_length(input) else {
        return Ok(None);
    };
    let mut rec = [0u8; 65535];
    fill_record(rt, input, number, &mut rec[..length])
}

fn main(rt: HostRuntime) -> io::Result<()> {
    let mut input = rt.reader();
    let mut totals = Totals {
        tasks: 0,
        solved: 0,
        unsolvable: 0,
        differences: 0,
    };
    for number in 1..1000000 {
        let Some(outcome) = run_case(&rt, &mut input, number)? else {
            return totals.print(&rt);
        };
        totals = totals.with(outcome);
    }
    totals.print(&rt)
}
