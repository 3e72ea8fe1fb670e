// The calls of the interface to which the counters are lent by `&mut`, made from Rattle: each function here has plain
// parameters, lends a local to one of those calls, and has the same contract. Assumes nothing of what is lent.
#![tactic(auto)]

ghost use Rattle.std.specs.Prelude.{◌≡◌};
ghost use Rattle.table_drawing.specs.Tables.{tables_of};
ghost use Rattle.table_drawing.specs.AnswerNumbers.{outcome_of};
ghost use Rattle.table_drawing.specs.Opening.{opening_of};
ghost use Rattle.table_arrival.specs.Arrival.{arrival_of};
ghost use Rattle.table_given.specs.Replay.{replayed};
ghost use Rattle.block_store.specs.Reading.{reading_of};

use call_by_value::{Answered, FileTaken};
use call_c::{spireslate_arrive, spireslate_open, spireslate_read};
use table_drawing::Counters;

// Opens an empty drawing of n sites, on a copy of the counters, which is given back.
pub fn open_on(
    c: Counters,
    records: &mut [u8],
    objects: &mut [u16],
    groups: &mut [u64],
    n: u8,
) -> Answered
    ensures { outcome_of result.number (tables_of result.counters records.new objects.new groups.new)
        ≡ opening_of (tables_of c records.old objects.old groups.old) n }
{
    let mut d = c;
    let number = spireslate_open(&mut d, records, objects, groups, n);
    Answered {
        number,
        counters: d,
    }
}

// An arriving edit, on a copy of the counters, which is given back.
pub fn arrive_on(
    c: Counters,
    records: &mut [u8],
    objects: &mut [u16],
    groups: &mut [u64],
    rec: &[u8],
) -> Answered
    ensures { outcome_of result.number (tables_of result.counters records.new objects.new groups.new)
        ≡ arrival_of (tables_of c records.old objects.old groups.old) rec.now }
{
    let mut d = c;
    let number = spireslate_arrive(&mut d, records, objects, groups, rec);
    Answered {
        number,
        counters: d,
    }
}

// Reads a file, on a copy of the counters, which is given back.
pub fn read_on(
    c: Counters,
    records: &mut [u8],
    objects: &mut [u16],
    groups: &mut [u64],
    file: &[u8],
) -> FileTaken
    ensures { replayed result.answer.number result.answer.index
        (tables_of result.counters records.new objects.new groups.new)
        ≡ reading_of (tables_of c records.old objects.old groups.old) file.now }
{
    let mut d = c;
    let answer = spireslate_read(&mut d, records, objects, groups, file);
    FileTaken {
        answer,
        counters: d,
    }
}
