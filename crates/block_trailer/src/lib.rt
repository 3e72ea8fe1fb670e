// The trailer of document 01's stored block, its last 8 bytes, and locating a block in a file by it.
#![tactic(auto)]

ghost use Rattle.std.specs.Prelude.{◌≡◌, ◌-◌, ◌≤◌, eqb, length};
ghost use Rattle.edit_record.specs.RecordBytes.{four};
ghost use Rattle.edit_form.specs.OldForm.{start_of};
ghost use Rattle.table_drawing.specs.Tables.{records_length};
ghost use Rattle.block_trailer.specs.Trailer.{trailer_length, file_limit, trailer_of, unfit_trailer};
ghost use Rattle.block_trailer.specs.Locating.{found_by, start_by, further, located};

use edit_form::LONG;
use edit_history::RECORDS;
use table_drawing::Refusal;

// The bytes of a trailer.
pub const TRAILER: usize = 8;

// A file that is read has at most so many bytes.
pub const FILE_LIMIT: usize = 65536;

// Where the fields of a trailer start, the first of which is the number of records.
const AT_SITES: usize = 2;

const AT_FORM: usize = 3;

const AT_DISTANCE: usize = 4;

// What a file's trailer says: N, the form and the number of records; and where the first of them starts.
#[derive(Clone, Copy)]
pub struct Trailer {
    pub sites: u8,
    pub form: u8,
    pub records: u16,
    pub start: usize,
}

// Where the trailer starts in a file of n bytes, and the stretch of the records ends.
pub fn trailer_at(n: usize) -> usize
    ensures { result ≡ n - trailer_length }
{
    if n < TRAILER { 0 } else { n - TRAILER }
}

// The distance in the four bytes from i on.
fn distance_at(file: &[u8], i: usize) -> usize
    requires { i ≤ file_limit }
    ensures { result ≡ four file.now i }
{
    edit_record::four_at(file, i) as usize
}

// Whether the first n records of a stretch, walked one behind the other, end where it ends. A record that starts past
// its end ends the walk.
fn is_filled(stretch: &[u8], form: u8, n: usize) -> bool
    requires { length stretch.now ≤ file_limit }
    ensures { result ≡ eqb (start_of form stretch.now n) (length stretch.now) }
{
    let mut at: usize = 0;
    for _ in 0..n {
        if stretch.len() < at {
            return false;
        }
        at = at + edit_form::length_from(&stretch[at..], form);
    }
    at == stretch.len()
}

// Whether the trailer of a file within the limit is unfit.
fn is_unfit(file: &[u8]) -> bool
    requires { length file.now ≤ file_limit }
    ensures { result ≡ unfit_trailer file.now }
{
    let n = file.len();
    let at = trailer_at(n);
    let records = edit_record::two_at(file, at) as usize;
    let form = edit_record::byte_at(file, at + AT_FORM);
    let distance = distance_at(file, at + AT_DISTANCE);
    if (n < TRAILER) | (RECORDS < records) | (LONG < form) | (at < distance) {
        return true;
    }
    let start = at - distance;
    !is_filled(&file[start..at], form, records)
}

// What the trailer of a file says; a file over the limit is not looked into.
pub fn read_trailer(file: &[u8]) -> Result<Trailer, Refusal>
    ensures { (found_by result ≡ (located file.now).trailer) × (start_by result ≡ (located file.now).start) }
{
    if FILE_LIMIT < file.len() {
        return Err(Refusal::BadFile);
    }
    if is_unfit(file) {
        return Err(Refusal::BadFile);
    }
    let at = trailer_at(file.len());
    let sites = edit_record::byte_at(file, at + AT_SITES);
    let form = edit_record::byte_at(file, at + AT_FORM);
    if (sites < 1) | (edit_form::sites_by(form) < sites) {
        return Err(Refusal::BadSites);
    }
    let records = edit_record::two_at(file, at);
    let start = at - distance_at(file, at + AT_DISTANCE);
    Ok(Trailer {
        sites,
        form,
        records,
        start,
    })
}

// The stretch of the caller's own file that holds the records of its block.
pub fn locate(file: &[u8]) -> &[u8]
    ensures { (result.now ≡ (located file.now).stretch)
        × (result.ref_ptr ≡ further file.entry.ref_ptr (located file.now).start) }
{
    match read_trailer(file) {
        Ok(t) => {
            let end = trailer_at(file.len());
            &file[t.start..end]
        }
        Err(_) => &file[0..0],
    }
}

// The bytes of the trailer behind n long records of a drawing of so many sites, of so many bytes.
pub fn trailer_bytes(n: u16, sites: u8, distance: usize) -> [u8; TRAILER]
    requires { distance ≤ records_length }
    ensures { result ≡ trailer_of n sites distance }
{
    let [low, high] = n.to_le_bytes();
    let [a, b, c, d] = (distance as u32).to_le_bytes();
    [low, high, sites, LONG, a, b, c, d]
}
