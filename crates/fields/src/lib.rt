// The fields of a task record, most significant bit first, and what a record can be refused for.
#![tactic(auto)]

ghost use Rattle.std.specs.Prelude.{◌≡◌, ◌&&◌, ◌+◌, ◌*◌, ◌<◌, ◌≤◌, ◌^◌, eqb, length, IfOk, OnErr};
ghost use Rattle.fields.specs.Fields.{width, field_of, next_field, ends_at, fill_of, number_of_field};
ghost use Rattle.fields.specs.Answers.{number_of, told};

// The width of every field in bits, by its kind.
pub const WIDTHS: [usize; 11] = [5, 3, 8, 4, 4, 4, 6, 12, 10, 5, 4];

// The kinds of fields, in the order in which a record first has them.
#[derive(Clone, Copy, PartialEq, Eq)]
pub enum Field {
    Variables,
    Leaves,
    Actions,
    Size,
    Factor,
    Initial,
    Pairs,
    Handling,
    Distance,
    Variable,
    Value,
}

impl Field {
    // The field's width in bits.
    pub fn width(self) -> usize
        ensures { result ≡ width (number_of_field self) }
    {
        WIDTHS[self as usize]
    }
}

// Why a record is refused, in the order of the numbers 1 to 11.
#[derive(Clone, Copy, PartialEq, Eq)]
pub enum Refusal {
    RecordEnds,
    SizeOne,
    FactorUnknown,
    InitialOutside,
    PairVariable,
    PairValue,
    NoEffects,
    NotFilled,
    FactorEmpty,
    TooManyStates,
    NotStar,
}

// The refusal's number.
impl From<Refusal> for u8 {
    ghost from_gives = { λ why n. n ≡ number_of why };

    fn from(why: Refusal) -> u8 {
        match why {
            Refusal::RecordEnds => 1,
            Refusal::SizeOne => 2,
            Refusal::FactorUnknown => 3,
            Refusal::InitialOutside => 4,
            Refusal::PairVariable => 5,
            Refusal::PairValue => 6,
            Refusal::NoEffects => 7,
            Refusal::NotFilled => 8,
            Refusal::FactorEmpty => 9,
            Refusal::TooManyStates => 10,
            Refusal::NotStar => 11,
        }
    }
}

// A bit reader: the record it was given and the bit it has reached.
#[derive(Clone, Copy)]
pub struct BitReader<'a> {
    pub bytes: &'a [u8],
    pub at: usize,
}

impl<'a> BitReader<'a> {
    // A reader at the record's first bit.
    pub fn new(bytes: &'a [u8]) -> BitReader<'a>
        ensures { (result.bytes ≡ bytes.entry) × (result.at ≡ 0) }
    {
        BitReader { bytes, at: 0 }
    }

    // The number that the next `width` bits write; the record has them. A field may begin and end inside a byte, so the loop goes by the bits' numbers in the record.
    fn bits(&self, width: usize) -> u16
        requires { (self.now.at < 2 ^ 32) × (width ≤ 12) × (self.now.at + width ≤ 8 * length self.now.bytes.now) }
        ensures { result ≡ field_of self.now.bytes.now self.now.at width }
    {
        let mut value: u16 = 0;
        for i in 0..width {
            let k = self.at + i;
            let low = k % 8;
            let high = 7 - low;
            let bit = (self.bytes[k / 8] >> high) % 2;
            value = value * 2 + bit as u16;
        }
        value
    }

    // The next field's number, and the reader goes behind it. Where the record ends inside the field, the reader stays where it was.
    pub fn read(&mut self, field: Field) -> Result<u16, Refusal>
        requires { self.old.at < 2 ^ 32 }
        ensures told { next_field self.old.bytes.now (number_of_field field) self.old.at ≡ told result self.new.at }
        ensures small { IfOk result (λ value. value < 2 ^ width (number_of_field field)) }
        ensures moves { IfOk result (λ _. self.new.at ≡ self.old.at + width (number_of_field field)) }
        ensures stays { OnErr result (self.new.at ≡ self.old.at) }
        ensures same_record { self.new.bytes ≡ self.old.bytes }
    {
        let width = field.width();
        if (self.at + width + 7) / 8 > self.bytes.len() {
            return Err(Refusal::RecordEnds);
        }
        let value = self.bits(width);
        self.at += width;
        Ok(value)
    }

    // Whether the reader has reached the record's end: zero bits fill the last byte, and nothing follows.
    pub fn ended(&self) -> bool
        requires { self.now.at < 2 ^ 32 }
        ensures { result ≡ (ends_at self.now.bytes.now self.now.at && eqb (fill_of self.now.bytes.now self.now.at) 0) }
    {
        let bytes = self.at.div_ceil(8);
        if self.bytes.len() != bytes {
            return false;
        }
        self.bits(bytes * 8 - self.at) == 0
    }
}
