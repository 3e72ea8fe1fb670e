// The calls of documents 01 and 02, with the names, the parameters and the answers that a C program has for them: the
// crate `call_c_c` exports each function of this file, and c/spireslate.h declares it. Every input has an answer, so none
// of them asks anything of its caller. Answers are the documents' numbers. A call that changes the counters takes them by
// `&mut`, where the caller keeps them; any other takes them by value.
#![tactic(auto)]

ghost use Rattle.std.specs.Prelude.{◌≡◌};
ghost use Rattle.std.specs.Result.{result_unwrap_or};
ghost use Rattle.table_drawing.specs.Tables.{tables_of};
ghost use Rattle.table_drawing.specs.AnswerNumbers.{outcome_of, answer_of};
ghost use Rattle.table_drawing.specs.Opening.{opening_of};
ghost use Rattle.table_arrival.specs.Arrival.{arrival_of};
ghost use Rattle.table_given.specs.Replay.{replayed};
ghost use Rattle.table_check.specs.Check.{check_of};
ghost use Rattle.table_engine.specs.Enumeration.{enumeration, enumeration_of};
ghost use Rattle.table_output.specs.Output.{writing};
ghost use Rattle.block_trailer.specs.Locating.{found, located};
ghost use Rattle.block_store.specs.Writing.{writing_of};
ghost use Rattle.block_store.specs.Reading.{reading_of};
ghost use Rattle.list_lines.specs.LineByNumber.{line_of};
ghost use Rattle.list_print.specs.Printing.{listing_of};

use call_by_value::FileAnswer;
use edit_record::{Seq, Site};
use table_drawing::{Counters, Refusal};

// Opens an empty drawing of n sites; refused, everything stays as it was.
pub fn spireslate_open(
    c: &mut Counters,
    records: &mut [u8],
    objects: &mut [u16],
    groups: &mut [u64],
    n: u8,
) -> u8
    ensures { outcome_of result (tables_of c.new records.new objects.new groups.new)
        ≡ opening_of (tables_of c.old records.old objects.old groups.old) n }
{
    let opened = call_by_value::open_by_value(*c, records, objects, groups, n);
    *c = opened.counters;
    opened.number
}

// An arriving edit, any bytes, at any tables: 8, then 1 to 7 in turn, the first that applies; else the edit is taken.
pub fn spireslate_arrive(
    c: &mut Counters,
    records: &mut [u8],
    objects: &mut [u16],
    groups: &mut [u64],
    rec: &[u8],
) -> u8
    ensures { outcome_of result (tables_of c.new records.new objects.new groups.new)
        ≡ arrival_of (tables_of c.old records.old objects.old groups.old) rec.now }
{
    let arrived = call_by_value::arrive_by_value(*c, records, objects, groups, rec);
    *c = arrived.counters;
    arrived.number
}

// Reads a file, any bytes, into the tables: lengths (8), 10, 9, then its records in turn.
pub fn spireslate_read(
    c: &mut Counters,
    records: &mut [u8],
    objects: &mut [u16],
    groups: &mut [u64],
    file: &[u8],
) -> FileAnswer
    ensures { replayed result.number result.index (tables_of c.new records.new objects.new groups.new)
        ≡ reading_of (tables_of c.old records.old objects.old groups.old) file.now }
{
    let read = call_by_value::read_by_value(*c, records, objects, groups, file);
    *c = read.counters;
    read.answer
}

// Whether the tables are what their records give from an empty drawing: 0, else 8.
pub fn spireslate_check(c: Counters, records: &[u8], objects: &[u16], groups: &[u64]) -> u8
    ensures { result ≡ check_of (tables_of c records.now objects.now groups.now) }
{
    let said = table_check::check(c, records, objects, groups);
    table_drawing::number(&said)
}

// The number of the answer to a call that writes, and the number of bytes written.
#[repr(C)]
#[derive(Clone, Copy)]
pub struct WriteAnswer {
    pub number: u8,
    pub bytes: usize,
}

// The answer w by its number.
fn by_number(w: Result<usize, Refusal>) -> WriteAnswer
    ensures { (result.number ≡ answer_of w) × (result.bytes ≡ result_unwrap_or w 0) }
{
    WriteAnswer {
        number: table_drawing::number(&w),
        bytes: w.unwrap_or(0),
    }
}

// Writes the block of the tables into out from the start on; refused, everything stays as it was.
pub fn spireslate_write(
    c: Counters,
    records: &[u8],
    objects: &[u16],
    groups: &[u64],
    out: &mut [u8],
    start: usize,
) -> WriteAnswer
    ensures { writing result.number result.bytes out.new
        ≡ writing_of (tables_of c records.now objects.now groups.now) out.old start }
{
    let w = block_store::write(c, records, objects, groups, out, start);
    by_number(w)
}

// Puts line k of the list into out from the start on; refused, everything stays as it was.
pub fn spireslate_line(
    c: Counters,
    records: &[u8],
    objects: &[u16],
    groups: &[u64],
    k: usize,
    out: &mut [u8],
    start: usize,
) -> WriteAnswer
    ensures { writing result.number result.bytes out.new
        ≡ line_of (tables_of c records.now objects.now groups.now) k out.old start }
{
    let w = list_lines::print_line(c, records, objects, groups, k, out, start);
    by_number(w)
}

// Puts all lines of the list into out from the start on, if they have room there; refused, everything stays as it was.
pub fn spireslate_list(
    c: Counters,
    records: &[u8],
    objects: &[u16],
    groups: &[u64],
    out: &mut [u8],
    start: usize,
) -> WriteAnswer
    ensures { writing result.number result.bytes out.new
        ≡ listing_of (tables_of c records.now objects.now groups.now) out.old start }
{
    let w = list_print::print_list(c, records, objects, groups, out, start);
    by_number(w)
}

// The number of the answer to a call that gives groups, and how many there are.
#[repr(C)]
#[derive(Clone, Copy)]
pub struct GroupsAnswer {
    pub number: u8,
    pub count: usize,
}

// Puts the groups of the box whose Create is the one named into out, worked out with no arrival order; refused,
// everything stays as it was.
pub fn spireslate_groups(
    c: Counters,
    records: &[u8],
    objects: &[u16],
    groups: &[u64],
    site: u8,
    seq: u16,
    out: &mut [u64],
) -> GroupsAnswer
    ensures { enumeration result.number result.count out.new
        ≡ enumeration_of (tables_of c records.now objects.now groups.now)
        (record { 0 = site }) (record { 0 = seq }) out.old }
{
    let e = table_engine::enumerate_groups(c, records, objects, groups, Site(site), Seq(seq), out);
    GroupsAnswer {
        number: table_drawing::number(&e),
        count: e.unwrap_or(0),
    }
}

// The number of the answer to a file, what its trailer says, and where the stretch of its records starts.
#[repr(C)]
#[derive(Clone, Copy)]
pub struct LocateAnswer {
    pub number: u8,
    pub sites: u8,
    pub form: u8,
    pub records: u16,
    pub start: usize,
}

// Locates the block of a file, any bytes: 10, then 9; refused, N, the form, the records and the start are 0.
pub fn spireslate_locate(file: &[u8]) -> LocateAnswer
    ensures { (found result.number result.sites result.form result.records ≡ (located file.now).trailer)
        × (result.start ≡ (located file.now).start) }
{
    match block_trailer::read_trailer(file) {
        Ok(t) => LocateAnswer {
            number: 0,
            sites: t.sites,
            form: t.form,
            records: t.records,
            start: t.start,
        },
        Err(r) => LocateAnswer {
            number: u8::from(r),
            sites: 0,
            form: 0,
            records: 0,
            start: 0,
        },
    }
}
