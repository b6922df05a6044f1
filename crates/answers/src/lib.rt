// What the planner and the pricer answer, and each answer in the paper's numbers.
#![tactic(auto)]

ghost use Rattle.std.specs.Prelude.{◌≡◌};
ghost use Rattle.answers.specs.declared.PlanRefusal.TheVariants.{InRecord};
ghost use Rattle.answers.specs.declared.PriceRefusal.TheVariants.{InRecord as PriceInRecord};
ghost use Rattle.answers.specs.Told.{plan_refusal_number, plan_told, price_refusal_number, price_told};

use fields::Refusal;

// How many expansions have begun, and how many nodes are kept.
#[derive(Clone, Copy, PartialEq, Eq)]
pub struct Counts {
    pub expanded: usize,
    pub kept: usize,
}

// A plan's length and cost.
#[derive(Clone, Copy, PartialEq, Eq)]
pub struct Solution {
    pub length: usize,
    pub cost: u64,
}

// Why there is no plan: the record's own refusals, then 20 to 24.
#[derive(Clone, Copy, PartialEq, Eq)]
pub enum PlanRefusal {
    InRecord(Refusal),
    NodesWrong,
    TableShort,
    TableFull,
    BudgetSpent,
    PlanLong,
}

// A plan, none, or a refusal.
#[derive(Clone, Copy, PartialEq, Eq)]
pub enum PlanAnswer {
    Solved(Solution, Counts),
    Unsolvable(Counts),
    Refused(PlanRefusal, Counts),
}

// Why no prices are given: the record's own refusals, then 12, 21, 13.
#[derive(Clone, Copy, PartialEq, Eq)]
pub enum PriceRefusal {
    InRecord(Refusal),
    PathWrong,
    SliceShort,
    NotApplicable,
}

// An answer of the planner in numbers.
#[derive(Clone, Copy, PartialEq, Eq)]
pub struct Told {
    pub number: u32,
    pub length: u64,
    pub cost: u64,
    pub expanded: u64,
    pub kept: u64,
}

// An answer of the pricer, how many prices it wrote or why none, in numbers.
#[derive(Clone, Copy, PartialEq, Eq)]
pub struct PricesTold {
    pub number: u32,
    pub count: u64,
}

// The record's own refusals are the planner's and the pricer's too, so that `?` passes them on.
impl From<Refusal> for PlanRefusal {
    ghost from_gives = { λ why r. r ≡ InRecord why };

    fn from(why: Refusal) -> PlanRefusal {
        PlanRefusal::InRecord(why)
    }
}

impl From<Refusal> for PriceRefusal {
    ghost from_gives = { λ why r. r ≡ PriceInRecord why };

    fn from(why: Refusal) -> PriceRefusal {
        PriceRefusal::InRecord(why)
    }
}

// The refusal's number.
impl From<PlanRefusal> for u8 {
    ghost from_gives = { λ r n. n ≡ plan_refusal_number r };

    fn from(r: PlanRefusal) -> u8 {
        match r {
            PlanRefusal::InRecord(why) => u8::from(why),
            PlanRefusal::NodesWrong => 20,
            PlanRefusal::TableShort => 21,
            PlanRefusal::TableFull => 22,
            PlanRefusal::BudgetSpent => 23,
            PlanRefusal::PlanLong => 24,
        }
    }
}

// The refusal's number.
impl From<PriceRefusal> for u8 {
    ghost from_gives = { λ r n. n ≡ price_refusal_number r };

    fn from(r: PriceRefusal) -> u8 {
        match r {
            PriceRefusal::InRecord(why) => u8::from(why),
            PriceRefusal::PathWrong => 12,
            PriceRefusal::SliceShort => 21,
            PriceRefusal::NotApplicable => 13,
        }
    }
}

impl Told {
    // An answer without a plan: how far the search came stands in it all the same.
    fn without_plan(number: u32, counts: Counts) -> Told
        ensures { result ≡ record { number = number; length = 0; cost = 0; expanded = counts.expanded; kept = counts.kept } }
    {
        Told {
            number,
            length: 0,
            cost: 0,
            expanded: counts.expanded as u64,
            kept: counts.kept as u64,
        }
    }
}

// The planner's answer in numbers.
impl From<PlanAnswer> for Told {
    ghost from_gives = { λ answer told. told ≡ plan_told answer };

    fn from(answer: PlanAnswer) -> Told {
        match answer {
            PlanAnswer::Solved(solution, counts) => Told {
                number: 0,
                length: solution.length as u64,
                cost: solution.cost,
                expanded: counts.expanded as u64,
                kept: counts.kept as u64,
            },
            PlanAnswer::Unsolvable(counts) => Told::without_plan(255, counts),
            PlanAnswer::Refused(why, counts) => {
                Told::without_plan(u32::from(u8::from(why)), counts)
            }
        }
    }
}

// The pricer's answer in numbers.
impl From<Result<usize, PriceRefusal>> for PricesTold {
    ghost from_gives = { λ answer told. told ≡ price_told answer };

    fn from(answer: Result<usize, PriceRefusal>) -> PricesTold {
        match answer {
            Ok(count) => PricesTold {
                number: 0,
                count: count as u64,
            },
            Err(why) => PricesTold {
                number: u32::from(u8::from(why)),
                count: 0,
            },
        }
    }
}
