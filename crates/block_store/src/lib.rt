// The stored block of document 01: writing it, and reading a file.
#![tactic(auto)]

ghost use Rattle.std.specs.Prelude.{◌≡◌, true, ◌++◌, ◌+◌, ◌-◌, ◌*◌, ◌≤◌, length, drop};
ghost use Rattle.std.specs.Result.{result_unwrap_or};
ghost use Rattle.edit_record.specs.Layout.{place_length};
ghost use Rattle.edit_form.specs.OldForm.{start_of, chained};
ghost use Rattle.edit_history.specs.EditsHeld.{most_records, bytes_at};
ghost use Rattle.edit_sum.specs.WordSum.{ListsFit};
ghost use Rattle.table_drawing.specs.Tables.{tables_of, lengths_right, sites_right};
ghost use Rattle.table_drawing.specs.AnswerNumbers.{answer_of};
ghost use Rattle.table_given.specs.Replay.{replayed_by};
ghost use Rattle.block_trailer.specs.Trailer.{trailer_length, trailer_of};
ghost use Rattle.table_output.specs.Output.{writing};
ghost use Rattle.block_store.specs.Writing.{writing_of};
ghost use Rattle.block_store.specs.Reading.{records_read, reading_of};

use block_trailer::TRAILER;
use edit_record::PLACE;
use table_drawing::{Counters, Refusal};
use table_given::FileRefusal;
use table_output::{copy_in, has_room};

// The bytes of the first n records of a table.
fn record_bytes(records: &[u8], n: usize) -> usize
    requires { (n ≤ most_records) × (n * place_length ≤ length records.now) × ListsFit records.now n }
    ensures { result ≡ length (chained (bytes_at records.now) n) }
{
    let mut bytes: usize = 0;
    for i in 0..n {
        let at = i * PLACE;
        bytes = bytes + edit_record::span_of(&records[at..]);
    }
    bytes
}

// The first n records of a table at the start of out, each from its place, one behind the other.
fn write_records(out: &mut [u8], records: &[u8], n: usize)
    requires { (n ≤ most_records) × (n * place_length ≤ length records.now) × ListsFit records.now n
        × (length (chained (bytes_at records.now) n) ≤ length out.old) }
    ensures { out.new ≡ chained (bytes_at records.now) n
        ++ drop (length (chained (bytes_at records.now) n)) out.old }
{
    let mut end: usize = 0;
    for i in 0..n {
        let at = i * PLACE;
        let rest = &records[at..];
        let bytes = edit_record::span_of(rest);
        copy_in(&mut out[end..], rest, bytes);
        end = end + bytes;
    }
}

// The block of n records of so many bytes, of a drawing of so many sites, at the start of out.
fn write_block(out: &mut [u8], records: &[u8], n: u16, sites: u8, end: usize)
    requires { (n ≤ most_records) × (n * place_length ≤ length records.now) × ListsFit records.now n
        × (end ≡ length (chained (bytes_at records.now) n))
        × (end + trailer_length ≤ length out.old) }
    ensures { out.new ≡ (chained (bytes_at records.now) n ++ trailer_of n sites end)
        ++ drop (end + trailer_length) out.old }
{
    write_records(out, records, n as usize);
    let bytes = block_trailer::trailer_bytes(n, sites, end);
    copy_in(&mut out[end..], &bytes, TRAILER);
}

// Writes the block of the tables into out from the start on, and says how many bytes it has; refused, everything stays
// as it was.
pub fn write(
    c: Counters,
    records: &[u8],
    objects: &[u16],
    groups: &[u64],
    out: &mut [u8],
    start: usize,
) -> Result<usize, Refusal>
    ensures { writing (answer_of result) (result_unwrap_or result 0) out.new
        ≡ writing_of (tables_of c records.now objects.now groups.now)
        out.old start }
{
    if !table_soundness::is_sound(c, records, objects, groups) {
        return Err(Refusal::Unsound);
    }
    let end = record_bytes(records, c.records as usize);
    let bytes = end + TRAILER;
    if !has_room(out.len(), start, bytes) {
        return Err(Refusal::NoRoom);
    }
    write_block(&mut out[start..], records, c.records, c.sites, end);
    Ok(bytes)
}

// Takes the n records of a located stretch in its form into tables of the stated lengths; a refused record leaves an
// empty drawing.
fn read_records(
    sites: u8,
    records: &mut [u8],
    objects: &mut [u16],
    groups: &mut [u64],
    stretch: &[u8],
    form: u8,
    n: usize,
) -> Result<Counters, FileRefusal>
    requires { (lengths_right records.old objects.old groups.old ≡ true)
        × (sites_right sites ≡ true)
        × (n ≤ most_records)
        × (start_of form stretch.now n ≤ length stretch.now) }
    ensures { replayed_by result records.new objects.new groups.new
        ≡ records_read sites form stretch.now n }
{
    match table_replay::replay(sites, records, objects, groups, stretch, form, n) {
        Ok(after) => Ok(after),
        Err(e) => {
            let empty = table_drawing::open(e.counters, records, objects, groups, sites);
            Err(FileRefusal {
                refusal: e.refusal,
                index: e.index,
                counters: empty.unwrap_or(e.counters),
            })
        }
    }
}

// Why a file is refused of which no record was looked at: the counters stay.
fn refused(refusal: Refusal, counters: Counters) -> FileRefusal
    ensures { result ≡ record { refusal = refusal; index = 0; counters = counters } }
{
    FileRefusal {
        refusal,
        index: 0,
        counters,
    }
}

// Reads a file, any bytes, into the tables: lengths (8), 10, 9, then its records in turn.
pub fn read_file(
    c: Counters,
    records: &mut [u8],
    objects: &mut [u16],
    groups: &mut [u64],
    file: &[u8],
) -> Result<Counters, FileRefusal>
    ensures { replayed_by result records.new objects.new groups.new
        ≡ reading_of (tables_of c records.old objects.old groups.old)
        file.now }
{
    if !table_drawing::lengths_right(records.len(), objects.len(), groups.len()) {
        return Err(refused(Refusal::Unsound, c));
    }
    let t = match block_trailer::read_trailer(file) {
        Ok(t) => t,
        Err(r) => return Err(refused(r, c)),
    };
    // by what was read of the trailer, which else would be looked into twice
    let end = block_trailer::trailer_at(file.len());
    let stretch = &file[t.start..end];
    read_records(
        t.sites,
        records,
        objects,
        groups,
        stretch,
        t.form,
        t.records as usize,
    )
}
