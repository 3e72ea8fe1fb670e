// The old and the long form of a stored record: how many bytes the record at the front of what is left of a stretch
// has, an old one as a long one, and the edit and the site in it.
#![tactic(auto)]

ghost use Rattle.std.specs.Prelude.{◌≡◌, ◌++◌, ◌+◌, ◌≤◌, length, get_or, take, drop};
ghost use Rattle.edit_record.specs.Layout.{site_at, record_length};
ghost use Rattle.edit_record.specs.RecordBytes.{decode_of};
ghost use Rattle.edit_form.specs.OldForm.{old_form, sites_by, length_from, old_length, has_old_form, long_of};
ghost use Rattle.edit_form.specs.OldForm.{long_from};

use edit_record::{AT_KIND, AT_SITE, AT_VECTOR, CREATE, Edit, RECORD, SET, SITES};

// The forms, by the number that a trailer has for each. No enum: a stretch is walked in a form that any caller names,
// and what is not the old form is the long one.
pub const OLD: u8 = 0;

pub const LONG: u8 = 1;

// The entries of an old vector, and the bytes of those that it lacks.
const OLD_SITES: usize = 8;

const LACKING: usize = 2 * (SITES - OLD_SITES);

const OLD_RECORD: usize = RECORD - LACKING;

// Where the entries of an old vector end.
const AT_OLD_END: usize = AT_VECTOR + 2 * OLD_SITES;

// The most sites in a form.
pub fn sites_by(form: u8) -> u8
    ensures { result ≡ sites_by form }
{
    if form == OLD {
        OLD_SITES as u8
    } else {
        SITES as u8
    }
}

// The bytes of the record at the front of what is left of a stretch in a form.
pub fn length_from(rest: &[u8], form: u8) -> usize
    ensures { result ≡ length_from form rest.now }
{
    if form == OLD {
        return OLD_RECORD;
    }
    edit_record::span_of(rest)
}

// The record with n bytes of s, from `from` on, in place of its own from `to` on.
fn with_part(rec: [u8; RECORD], to: usize, s: &[u8], from: usize, n: usize) -> [u8; RECORD]
    requires { (to + n ≤ record_length) × (from + n ≤ length s.now) }
    ensures { result ≡ take to rec ++ (take n (drop from s.now) ++ drop (to + n) rec) }
{
    let mut out = rec;
    out[to..to + n].copy_from_slice(&s[from..from + n]);
    out
}

// Whether a record of a kind has an old form.
fn has_old_form(kind: u8) -> bool
    ensures { result ≡ has_old_form kind }
{
    (kind == CREATE) | (kind == SET)
}

// The old record at the front of a stretch as a long one; of a kind that has no old form, zeros alone.
pub fn widened_from(rest: &[u8]) -> [u8; RECORD]
    requires { old_length ≤ length rest.now }
    ensures { result ≡ long_of (take old_length rest.now) }
{
    if !has_old_form(rest[AT_KIND]) {
        return [0u8; RECORD];
    }
    let front = with_part([0u8; RECORD], 0, rest, 0, AT_OLD_END);
    with_part(
        front,
        AT_OLD_END + LACKING,
        rest,
        AT_OLD_END,
        OLD_RECORD - AT_OLD_END,
    )
}

// Where that record, of so many bytes, stands as a long one: a long one where it is, an old one in `wide`. A copy is
// read slowly right after it was made, so what can be read where it stands is.
pub fn long_in<'a>(rest: &'a [u8], form: u8, used: usize, wide: &'a [u8]) -> &'a [u8]
    requires { (length_from form rest.now ≤ length rest.now)
        × (used ≡ length_from form rest.now)
        × (form ≡ old_form → wide.now ≡ long_from form rest.now) }
    ensures { result.now ≡ long_from form rest.now }
{
    if form == OLD {
        return wide;
    }
    &rest[..used]
}

// The edit in that record, where it is there whole: a long one is read where it stands.
pub fn edit_from(rest: &[u8], form: u8) -> Edit
    requires { length_from form rest.now ≤ length rest.now }
    ensures { result ≡ decode_of (long_from form rest.now) }
{
    if form == OLD {
        let wide = widened_from(rest);
        return edit_record::decode(&wide);
    }
    edit_record::decode(rest)
}

// The site of that record, read where it stands.
pub fn site_from(rest: &[u8], form: u8) -> u8
    requires { length_from form rest.now ≤ length rest.now }
    ensures { result ≡ get_or (long_from form rest.now) site_at 0 }
{
    let old = has_old_form(rest[AT_KIND]);
    if (form == OLD) & !old {
        return 0;
    }
    rest[AT_SITE]
}
