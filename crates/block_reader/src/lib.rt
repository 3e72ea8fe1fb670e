// A reader that holds the stretch of a block, its form and its place in it, and gives the records one by one as long
// ones: document 01, 'The stored block'. `take` decodes, at plain parameters; `second` has plain parameters too, and
// lends a reader of its own. Assumes nothing of the stretch, the form and the place.
#![tactic(auto)]

ghost use Rattle.std.specs.Prelude.{◌≡◌, ◌+◌, leb, drop};
ghost use Rattle.edit_form.specs.OldForm.{length_from};
ghost use Rattle.block_reader.specs.Reader.{taken_at, given_by, moved_on, second_of};

use edit_record::Edit;

// A record, or None, the end mark, and the place after it.
#[derive(Clone, Copy)]
pub struct TakenNext {
    pub given: Option<Edit>,
    pub place: usize,
}

// A stretch of records, their form, and the place of the one to be given next.
#[derive(Clone, Copy)]
pub struct Reader<'a> {
    pub stretch: &'a [u8],
    pub form: u8,
    pub place: usize,
}

// Whether n bytes have a record of so many bytes at a place.
fn is_left(n: usize, place: usize, bytes: usize) -> bool
    ensures { result ≡ leb (place + bytes) n }
{
    if n < bytes {
        return false;
    }
    place <= n - bytes
}

// The bytes of the record at a place; past the end of the stretch, of one of which nothing is left.
fn bytes_at(stretch: &[u8], form: u8, place: usize) -> usize
    ensures { result ≡ length_from form (drop place stretch.now) }
{
    if stretch.len() < place {
        return edit_form::length_from(&stretch[..0], form);
    }
    edit_form::length_from(&stretch[place..], form)
}

// The record at a place, or the end mark where fewer bytes than that record's are left, and the place after it. The
// part of the stretch from the place on is handed to the decoder of its form.
pub fn take(stretch: &[u8], form: u8, place: usize) -> TakenNext
    ensures { result ≡ taken_at stretch.now form place }
{
    let bytes = bytes_at(stretch, form, place);
    if !is_left(stretch.len(), place, bytes) {
        return TakenNext { given: None, place };
    }
    let edit = edit_form::edit_from(&stretch[place..], form);
    TakenNext {
        given: Some(edit),
        place: place + bytes,
    }
}

// A reader at the start of a stretch in a form.
pub fn reader_of<'a>(stretch: &'a [u8], form: u8) -> Reader<'a>
    ensures { (result.stretch ≡ stretch.entry) × (result.form ≡ form) × (result.place ≡ 0) }
{
    Reader {
        stretch,
        form,
        place: 0,
    }
}

// The next record, or the end mark: the place moves past the record, and stays put at the end.
pub fn next_record<'s, 'a>(r: &'s mut Reader<'a>) -> Option<Edit>
    ensures { (result ≡ given_by r.old) × (r.new ≡ moved_on r.old) }
{
    let t = take(r.stretch, r.form, r.place);
    r.place = t.place;
    t.given
}

// The second record of a stretch, or the end mark, by a reader of its own.
pub fn second(stretch: &[u8], form: u8) -> Option<Edit>
    ensures { result ≡ second_of stretch.now form }
{
    let mut r = reader_of(stretch, form);
    next_record(&mut r);
    next_record(&mut r)
}
