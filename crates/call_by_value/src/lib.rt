// The calls that change the tables, with document 01's numbers for answers: the counters go in by value and come back
// beside the answer. Assumes nothing of what is lent.
#![tactic(auto)]

ghost use Rattle.std.specs.Prelude.{◌≡◌};
ghost use Rattle.table_drawing.specs.Tables.{tables_of};
ghost use Rattle.table_drawing.specs.AnswerNumbers.{outcome_of};
ghost use Rattle.table_drawing.specs.Opening.{opening_of};
ghost use Rattle.table_arrival.specs.Arrival.{arrival_of};
ghost use Rattle.table_given.specs.Replay.{replayed};
ghost use Rattle.block_store.specs.Reading.{reading_of};

use table_drawing::Counters;

// The number of an answer, and the counters after the call.
#[repr(C)]
#[derive(Clone, Copy)]
pub struct Answered {
    pub number: u8,
    pub counters: Counters,
}

// Opens an empty drawing of n sites; refused, everything stays as it was.
pub fn open_by_value(
    c: Counters,
    records: &mut [u8],
    objects: &mut [u16],
    groups: &mut [u64],
    n: u8,
) -> Answered
    ensures { outcome_of result.number
        (tables_of result.counters records.new objects.new groups.new)
        ≡ opening_of (tables_of c records.old objects.old groups.old) n }
{
    let opened = table_drawing::open(c, records, objects, groups, n);
    Answered {
        number: table_drawing::number(&opened),
        counters: opened.unwrap_or(c),
    }
}

// An arriving edit, any bytes, at any tables: 8, then 1 to 7 in turn, the first that applies; else the edit is taken.
pub fn arrive_by_value(
    c: Counters,
    records: &mut [u8],
    objects: &mut [u16],
    groups: &mut [u64],
    rec: &[u8],
) -> Answered
    ensures { outcome_of result.number
        (tables_of result.counters records.new objects.new groups.new)
        ≡ arrival_of (tables_of c records.old objects.old groups.old)
        rec.now }
{
    let arrived = table_arrival::arrive(c, records, objects, groups, rec);
    Answered {
        number: table_drawing::number(&arrived),
        counters: arrived.unwrap_or(c),
    }
}

// The number of the answer to a file that is read, and the index of the refused record.
#[repr(C)]
#[derive(Clone, Copy)]
pub struct FileAnswer {
    pub number: u8,
    pub index: usize,
}

// An answer to a file that is read, and the counters after it.
#[repr(C)]
#[derive(Clone, Copy)]
pub struct FileTaken {
    pub answer: FileAnswer,
    pub counters: Counters,
}

// Reads a file, any bytes, into the tables: lengths (8), 10, 9, then its records in turn.
pub fn read_by_value(
    c: Counters,
    records: &mut [u8],
    objects: &mut [u16],
    groups: &mut [u64],
    file: &[u8],
) -> FileTaken
    ensures { replayed result.answer.number result.answer.index
        (tables_of result.counters records.new objects.new groups.new)
        ≡ reading_of (tables_of c records.old objects.old groups.old)
        file.now }
{
    match block_store::read_file(c, records, objects, groups, file) {
        Ok(read) => FileTaken {
            answer: FileAnswer {
                number: 0,
                index: 0,
            },
            counters: read,
        },
        Err(e) => FileTaken {
            answer: FileAnswer {
                number: u8::from(e.refusal),
                index: e.index,
            },
            counters: e.counters,
        },
    }
}
