// The functions of `depot` under their C names, for a controller to link (`include/depot.h`). Each only calls depot's, and promises what that one promises.
#![tactic(auto)]

ghost use Rattle.std.specs.Prelude.{◌≡◌, List, ℕ};
ghost use Rattle.leaf.specs.Price.{mark};
ghost use Rattle.price.specs.Demand.{PathMeets};
ghost use Rattle.record.specs.Record.{read_record};
ghost use Rattle.answers.specs.Told.{plan_told, price_told};
ghost use Rattle.pricer.specs.Pricer.{prices_of, call_on as pathOn, price_in};
ghost use Rattle.planner.specs.Planner.{record_plan, call_on, given_with};
ghost use Rattle.depot.specs.Depot.{answered, for_record, words_for, bytes_for};
ghost use Rattle.depot.specs.Depot.Demands.{Said, JustEnough, Enough};

// Plans: 0 for a plan, 255 for "unsolvable", else the refusal's number. Length, cost, expansions begun and nodes kept stand in the first four words
// of `answer`, where it has four.
#[unsafe(no_mangle)]
pub extern "C" fn depot_plan(
    record: &[u8],
    nodes: u32,
    budget: u32,
    plan: &mut [u8],
    table: &mut [u64],
    answer: &mut [u64],
) -> u32
    ensures number { result ≡ (plan_told (record_plan «record».now nodes budget plan.old table.old).answer).number }
    ensures bytes { plan.new ≡ (record_plan «record».now nodes budget plan.old table.old).plan }
    ensures words { table.new ≡ (record_plan «record».now nodes budget plan.old table.old).words }
    ensures values { answer.new
        ≡ answered (plan_told (record_plan «record».now nodes budget plan.old table.old).answer) answer.old }
    ensures demands { Said (call_on «record».now nodes plan.old table.old)
        (given_with «record».now nodes budget table.old) result answer.old answer.new plan.new table.new }
{
    depot::depot_plan(record, nodes, budget, plan, table, answer)
}

// Prices after a path of centre actions: 0, or the refusal's number.
#[unsafe(no_mangle)]
pub extern "C" fn depot_prices(record: &[u8], path: &[u8], prices: &mut [u64]) -> u32
    ensures number { result ≡ (price_told (prices_of «record».now path.now prices.old).answer).number }
    ensures words { prices.new ≡ (prices_of «record».now path.now prices.old).words }
    ensures demands { PathMeets (pathOn «record».now path.now prices.old) mark
        (price_in (read_record «record».now).task prices.new) prices.new result }
{
    depot::depot_prices(record, path, prices)
}

// The words that a table for this record and these nodes needs, 0 where the record or the number of nodes is refused.
#[unsafe(no_mangle)]
pub extern "C" fn depot_table_words(record: &[u8], nodes: u32) -> u64
    ensures words { result ≡ for_record (words_for nodes) «record».now nodes }
    ensures just_enough { (budget : ℕ) (plan : List ℕ)
        → JustEnough result (λ table. (plan_told (record_plan «record».now nodes budget plan table).answer).number) }
{
    depot::depot_table_words(record, nodes)
}

// The bytes that a plan buffer for this record and these nodes needs at most, 0 where the record or the number of nodes is refused: with a buffer of
// that many bytes no call with these nodes is answered 24.
#[unsafe(no_mangle)]
pub extern "C" fn depot_plan_bytes(record: &[u8], nodes: u32) -> u64
    ensures bytes { result ≡ for_record (bytes_for nodes) «record».now nodes }
    ensures enough { (budget : ℕ) (table : List ℕ)
        → Enough result (λ plan. (plan_told (record_plan «record».now nodes budget plan table).answer).number) }
{
    depot::depot_plan_bytes(record, nodes)
}
