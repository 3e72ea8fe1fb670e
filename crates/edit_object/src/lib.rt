// One object among the records, looked for by the name of its Create: whether the Create is held, and where the
// object's Sets stand.
#![tactic(auto)]

ghost use Rattle.std.specs.Prelude.{◌≡◌, ◌&&◌, map, ◌≤◌, ◌<◌, ltb, length, take};
ghost use Rattle.edit_record.specs.Layout.{record_length};
ghost use Rattle.edit_record.specs.RecordBytes.{decode_of};
ghost use Rattle.edit_history.specs.EditsHeld.{most_records, record_at, edits_of, is_set_on, sets_on};
ghost use Rattle.edit_object.specs.CreateHeld.{is_create_of};

use edit_causal::is_same;
use edit_record::{
    AT_KIND, AT_SEQ, AT_SITE, AT_TARGET, AT_TARGET_SEQ, CREATE, PLACE, RECORD, Seq, Site,
    is_set_kind,
};

// Whether the record in place p is the Create s.q; only the bytes that tell it are read, where they stand.
fn is_create_at(recs: &[u8], p: usize, s: Site, q: Seq) -> bool
    requires { p < most_records }
    ensures { result ≡ is_create_of s q (record_at recs.now p) }
{
    let at = p * PLACE;
    let kind = edit_record::byte_at(recs, at + AT_KIND);
    let site = edit_record::byte_at(recs, at + AT_SITE);
    let seq = edit_record::two_at(recs, at + AT_SEQ);
    (kind == CREATE) & is_same(Site(site), Seq(seq), s, q)
}

// Whether it is, and stands among the first n.
pub fn is_create_in(recs: &[u8], n: usize, p: usize, s: Site, q: Seq) -> bool
    requires { n ≤ most_records }
    ensures { result ≡ (ltb p n && is_create_of s q (record_at recs.now p)) }
{
    if n <= p {
        return false;
    }
    is_create_at(recs, p, s, q)
}

// Whether a record that is there whole is a Set on the Create s.q; only the bytes that tell it are read.
pub fn is_set_in(rec: &[u8], s: Site, q: Seq) -> bool
    requires { record_length ≤ length rec.now }
    ensures { result ≡ is_set_on s q (decode_of rec.now) }
{
    let seq = edit_record::pair_at(rec, AT_TARGET_SEQ);
    is_set_kind(rec[AT_KIND]) & is_same(Site(rec[AT_TARGET]), Seq(seq), s, q)
}

// The same of the record in place p. It is read where it stands, if all of it is there.
fn is_set_at(recs: &[u8], p: usize, s: Site, q: Seq) -> bool
    requires { p < most_records }
    ensures { result ≡ is_set_on s q (record_at recs.now p) }
{
    let at = p * PLACE;
    if at + RECORD <= recs.len() {
        return is_set_in(&recs[at..], s, q);
    }
    let e = edit_history::decode_at(recs, p);
    is_set_kind(e.kind) & is_same(e.tsite, e.tseq, s, q)
}

// Puts the places of the Sets on the Create s.q, of the first n records, at the front of out; says how many they are.
pub fn put_places(out: &mut [u16], recs: &[u8], n: usize, s: Site, q: Seq) -> usize
    requires { (n ≤ most_records) × (length (sets_on s q (edits_of recs.now n)) ≤ length out.old) }
    ensures { (map (record_at recs.now) (take result out.new) ≡ sets_on s q (edits_of recs.now n))
        × (result ≡ length (sets_on s q (edits_of recs.now n))) }
{
    let mut w: usize = 0;
    for i in 0..n {
        if is_set_at(recs, i, s, q) {
            out[w] = i as u16;
            w += 1;
        }
    }
    w
}
