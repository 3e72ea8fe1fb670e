// The lent tables of document 01, its answers, and opening.
#![tactic(auto)]

pub mod entries;

ghost use Rattle.std.specs.Prelude.{◌≡◌, ◌&&◌, eqb};
ghost use Rattle.std.specs.Result.{result_unwrap_or};
ghost use Rattle.table_drawing.specs.Tables.{records_length, objects_length, groups_length, sites_right, tables_of};
ghost use Rattle.table_drawing.specs.AnswerNumbers.{outcome_of, number_of, answer_of};
ghost use Rattle.table_drawing.specs.Opening.{opening_of};

use edit_history::RECORDS;
use edit_record::{PLACE, SITES};
use group_step::{GROUPS, OBJECTS};

// The numbers of an object's entry: the place of its Create, its number of Sets and its number of groups.
pub const ENTRY: usize = 3;

// Why a call is refused, by documents 01 and 02; `number_of` gives each its number.
#[derive(Clone, Copy, PartialEq, Eq)]
pub enum Refusal {
    Malformed,
    Repeated,
    Early,
    Torn,
    Astray,
    Full,
    Crowded,
    Unsound,
    BadSites,
    BadFile,
    NoRoom,
    NoLine,
    Nameless,
    TooManySets,
}

// The counters of a drawing: N, the records held, the objects, how many edits of each site are held, and the sum of the
// records' words.
#[repr(C)]
#[derive(Clone, Copy)]
pub struct Counters {
    pub sites: u8,
    pub records: u16,
    pub objects: u16,
    pub held: [u16; SITES],
    pub sum: u32,
}

// Whether tables of these lengths are as long as they must be.
pub fn lengths_right(records: usize, objects: usize, groups: usize) -> bool
    ensures { result ≡ (eqb records records_length && eqb objects objects_length && eqb groups groups_length) }
{
    (records == RECORDS * PLACE) & (objects == OBJECTS * ENTRY) & (groups == OBJECTS * GROUPS)
}

// Whether a drawing may have n sites.
pub fn sites_right(n: u8) -> bool
    ensures { result ≡ sites_right n }
{
    (1 <= n) & (n as usize <= SITES)
}

impl From<Refusal> for u8 {
    ghost from_gives = { λ r n. n ≡ number_of r };

    fn from(r: Refusal) -> u8 {
        match r {
            Refusal::Malformed => 1,
            Refusal::Repeated => 2,
            Refusal::Early => 3,
            Refusal::Torn => 4,
            Refusal::Astray => 5,
            Refusal::Full => 6,
            Refusal::Crowded => 7,
            Refusal::Unsound => 8,
            Refusal::BadSites => 9,
            Refusal::BadFile => 10,
            Refusal::NoRoom => 11,
            Refusal::NoLine => 12,
            Refusal::Nameless => 16,
            Refusal::TooManySets => 18,
        }
    }
}

// The number of an answer: 0 where the call is done.
pub fn number<T>(answer: &Result<T, Refusal>) -> u8
    ensures { result ≡ answer_of answer.now }
{
    match answer {
        Ok(_) => 0,
        Err(r) => u8::from(*r),
    }
}

// Opens an empty drawing of n sites; refused, everything stays as it was.
pub fn open(
    c: Counters,
    records: &mut [u8],
    objects: &mut [u16],
    groups: &mut [u64],
    n: u8,
) -> Result<Counters, Refusal>
    ensures { outcome_of (answer_of result) (tables_of (result_unwrap_or result c) records.new objects.new groups.new)
        ≡ opening_of (tables_of c records.old objects.old groups.old) n }
{
    if !lengths_right(records.len(), objects.len(), groups.len()) {
        return Err(Refusal::Unsound);
    }
    if !sites_right(n) {
        return Err(Refusal::BadSites);
    }
    records.fill(0);
    objects.fill(0);
    groups.fill(0);
    Ok(Counters {
        sites: n,
        records: 0,
        objects: 0,
        held: [0; SITES],
        sum: 0,
    })
}
