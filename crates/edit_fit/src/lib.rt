// Answer 1 of document 01, of a record's bytes: whether its length is that of a record, and each field of it fit.
#![tactic(auto)]

ghost use Rattle.std.specs.Prelude.{◌≡◌, false, ◌&&◌, ◌≤◌, leb, length, drop};
ghost use Rattle.edit_record.specs.declared.Edit.{Edit};
ghost use Rattle.edit_record.specs.Layout.{most_sites, vector_at, members_at, most_members, record_length};
ghost use Rattle.edit_record.specs.RecordBytes.{counts, first_fours, decode_of};
ghost use Rattle.edit_record.specs.Answer1.{is_limited, nonzero_past, list_unfit, unfit, malformed};

use edit_record::{
    AT_COUNT, AT_KEY, AT_KIND, AT_MEMBERS, AT_SEQ, AT_SITE, AT_TARGET, AT_TARGET_SEQ, AT_VECTOR,
    CREATE, KEYS, LIMITED, MEMBER, MEMBERS, SET, SITES, byte_at, four_at, is_aimed_kind,
    is_layer_kind, name_in, own_entry, pair_at, span_of, value_of,
};

// Whether an entry of the vector of a record that is there whole is nonzero at or past n. All are looked at, which is
// faster than to stop at the first.
fn is_nonzero_past(n: u8, rec: &[u8]) -> bool
    requires { record_length ≤ length rec.now }
    ensures { result ≡ nonzero_past n (counts most_sites (drop vector_at rec.now)) }
{
    let mut found = false;
    for i in n as usize..SITES {
        found |= pair_at(rec, AT_VECTOR + 2 * i) != 0;
    }
    found
}

// Whether the list of k members, which are read where they stand, is wrong: a zero byte is none, or of two members that
// follow each other the second has no larger name.
fn are_members_wrong(rec: &[u8], k: usize) -> bool
    requires { k ≤ most_members }
    ensures { (e : Edit) → e.count ≡ k → e.members ≡ first_fours most_members k (drop members_at rec.now) →
        result ≡ list_unfit e }
{
    let mut found = false;
    let mut last: u32 = 0;
    for i in 0..k {
        let m = four_at(rec, AT_MEMBERS + MEMBER * i);
        let name = name_in(m);
        found |= (m / 256 % 256 != 0) | ((i != 0) & (name <= last));
        last = name;
    }
    found
}

// Whether the record at the front of rec is a limited Set whose list is wrong: every other kind is done with at once.
fn is_list_unfit_in(rec: &[u8]) -> bool
    ensures { result ≡ (is_limited (decode_of rec.now) && list_unfit (decode_of rec.now)) }
{
    if byte_at(rec, AT_KIND) != LIMITED {
        return false;
    }
    let count = four_at(rec, AT_COUNT) as usize;
    if MEMBERS < count {
        return true;
    }
    are_members_wrong(rec, count)
}

// Whether answer 1 is given, in a drawing of n sites, to the edit of a record that is there whole, but that the entries
// at or past n are not looked at. The fields are read where they stand: an edit is longer than all that is asked of
// most. Most are plain Sets, of which less is asked.
pub fn is_body_unfit(n: u8, rec: &[u8]) -> bool
    requires { record_length ≤ length rec.now }
    ensures { (leb n (decode_of rec.now).site.0 ≡ false →
        nonzero_past n (decode_of rec.now).vector ≡ false) →
        result ≡ unfit n (decode_of rec.now) }
{
    let kind = rec[AT_KIND];
    let site = rec[AT_SITE];
    if n <= site {
        return true;
    }
    let key = rec[AT_KEY];
    let seq = pair_at(rec, AT_SEQ);
    let tseq = pair_at(rec, AT_TARGET_SEQ);
    let own = own_entry(rec, site);
    if kind == SET {
        return (seq == 0) | (seq != own) | (KEYS <= key) | (tseq == 0);
    }
    let tsite = rec[AT_TARGET];
    let value = value_of(rec);
    let layer = is_layer_kind(kind);
    let aimed = is_aimed_kind(kind);
    let list = is_list_unfit_in(rec);
    !((kind == CREATE) | aimed)
        | (seq == 0)
        | (seq != own)
        | (KEYS <= key)
        | (aimed & (tseq == 0))
        | ((kind == CREATE) & !((tsite == 0) & (key == 0) & (tseq == 0) & (value == 0)))
        | (layer & !((key == 0) & (value == 0)))
        | list
}

// Whether answer 1 is given, in a drawing of n sites, to the edit of a record that is there whole.
pub fn is_unfit(n: u8, rec: &[u8]) -> bool
    requires { record_length ≤ length rec.now }
    ensures { result ≡ unfit n (decode_of rec.now) }
{
    if is_nonzero_past(n, rec) {
        return true;
    }
    is_body_unfit(n, rec)
}

// Whether answer 1 is given to these bytes, of any length, in a drawing of n sites.
pub fn is_malformed(n: u8, rec: &[u8]) -> bool
    ensures { result ≡ malformed n rec.now }
{
    if rec.len() != span_of(rec) {
        return true;
    }
    is_unfit(n, rec)
}
