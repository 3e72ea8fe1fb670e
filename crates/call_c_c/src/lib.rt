// The calls of documents 01 and 02 as a C program makes them: c/spireslate.h declares each function of this file. Each
// makes the call of that name of the crate `call_c` and has its contract, so none asks anything of its caller but that a
// pointer points to as many elements as it says.
#![tactic(auto)]

ghost use Rattle.std.specs.Prelude.{◌≡◌};
ghost use Rattle.table_drawing.specs.Tables.{tables_of};
ghost use Rattle.table_drawing.specs.AnswerNumbers.{outcome_of};
ghost use Rattle.table_drawing.specs.Opening.{opening_of};
ghost use Rattle.table_arrival.specs.Arrival.{arrival_of};
ghost use Rattle.table_given.specs.Replay.{replayed};
ghost use Rattle.table_check.specs.Check.{check_of};
ghost use Rattle.table_engine.specs.Enumeration.{enumeration, enumeration_of};
ghost use Rattle.table_output.specs.Output.{writing};
ghost use Rattle.block_trailer.specs.Locating.{found, located};
ghost use Rattle.block_store.specs.Writing.{writing_of};
ghost use Rattle.block_store.specs.Reading.{reading_of};
ghost use Rattle.list_lines.specs.LineByNumber.{line_of};
ghost use Rattle.list_print.specs.Printing.{listing_of};

use call_by_value::FileAnswer;
use call_c::{GroupsAnswer, LocateAnswer, WriteAnswer};
use table_drawing::Counters;

// Opens an empty drawing of n sites; refused, everything stays as it was.
#[unsafe(no_mangle)]
pub extern "C" fn spireslate_open(
    c: &mut Counters,
    records: &mut [u8],
    objects: &mut [u16],
    groups: &mut [u64],
    n: u8,
) -> u8
    ensures { outcome_of result (tables_of c.new records.new objects.new groups.new)
        ≡ opening_of (tables_of c.old records.old objects.old groups.old) n }
{
    call_c::spireslate_open(c, records, objects, groups, n)
}

// An arriving edit, any bytes, at any tables: 8, then 1 to 7 in turn, the first that applies; else the edit is taken.
#[unsafe(no_mangle)]
pub extern "C" fn spireslate_arrive(
    c: &mut Counters,
    records: &mut [u8],
    objects: &mut [u16],
    groups: &mut [u64],
    rec: &[u8],
) -> u8
    ensures { outcome_of result (tables_of c.new records.new objects.new groups.new)
        ≡ arrival_of (tables_of c.old records.old objects.old groups.old) rec.now }
{
    call_c::spireslate_arrive(c, records, objects, groups, rec)
}

// Reads a file, any bytes, into the tables: lengths (8), 10, 9, then its records in turn.
#[unsafe(no_mangle)]
pub extern "C" fn spireslate_read(
    c: &mut Counters,
    records: &mut [u8],
    objects: &mut [u16],
    groups: &mut [u64],
    file: &[u8],
) -> FileAnswer
    ensures { replayed result.number result.index (tables_of c.new records.new objects.new groups.new)
        ≡ reading_of (tables_of c.old records.old objects.old groups.old) file.now }
{
    call_c::spireslate_read(c, records, objects, groups, file)
}

// Whether the tables are what their records give from an empty drawing: 0, else 8.
#[unsafe(no_mangle)]
pub extern "C" fn spireslate_check(
    c: Counters,
    records: &[u8],
    objects: &[u16],
    groups: &[u64],
) -> u8
    ensures { result ≡ check_of (tables_of c records.now objects.now groups.now) }
{
    call_c::spireslate_check(c, records, objects, groups)
}

// Writes the block of the tables into out from the start on; refused, everything stays as it was.
#[unsafe(no_mangle)]
pub extern "C" fn spireslate_write(
    c: Counters,
    records: &[u8],
    objects: &[u16],
    groups: &[u64],
    out: &mut [u8],
    start: usize,
) -> WriteAnswer
    ensures { writing result.number result.bytes out.new
        ≡ writing_of (tables_of c records.now objects.now groups.now) out.old start }
{
    call_c::spireslate_write(c, records, objects, groups, out, start)
}

// Puts line k of the list into out from the start on; refused, everything stays as it was.
#[unsafe(no_mangle)]
pub extern "C" fn spireslate_line(
    c: Counters,
    records: &[u8],
    objects: &[u16],
    groups: &[u64],
    k: usize,
    out: &mut [u8],
    start: usize,
) -> WriteAnswer
    ensures { writing result.number result.bytes out.new
        ≡ line_of (tables_of c records.now objects.now groups.now) k out.old start }
{
    call_c::spireslate_line(c, records, objects, groups, k, out, start)
}

// Puts all lines of the list into out from the start on, if they have room there; refused, everything stays as it was.
#[unsafe(no_mangle)]
pub extern "C" fn spireslate_list(
    c: Counters,
    records: &[u8],
    objects: &[u16],
    groups: &[u64],
    out: &mut [u8],
    start: usize,
) -> WriteAnswer
    ensures { writing result.number result.bytes out.new
        ≡ listing_of (tables_of c records.now objects.now groups.now) out.old start }
{
    call_c::spireslate_list(c, records, objects, groups, out, start)
}

// Puts the groups of the box whose Create is the one named into out, worked out with no arrival order; refused,
// everything stays as it was.
#[unsafe(no_mangle)]
pub extern "C" fn spireslate_groups(
    c: Counters,
    records: &[u8],
    objects: &[u16],
    groups: &[u64],
    site: u8,
    seq: u16,
    out: &mut [u64],
) -> GroupsAnswer
    ensures { enumeration result.number result.count out.new
        ≡ enumeration_of (tables_of c records.now objects.now groups.now)
        (record { 0 = site }) (record { 0 = seq }) out.old }
{
    call_c::spireslate_groups(c, records, objects, groups, site, seq, out)
}

// Locates the block of a file, any bytes: 10, then 9; refused, N, the form, the records and the start are 0.
#[unsafe(no_mangle)]
pub extern "C" fn spireslate_locate(file: &[u8]) -> LocateAnswer
    ensures { (found result.number result.sites result.form result.records ≡ (located file.now).trailer)
        × (result.start ≡ (located file.now).start) }
{
    call_c::spireslate_locate(file)
}
