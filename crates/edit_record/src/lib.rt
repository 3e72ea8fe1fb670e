// The edit record of document 01: sites and sequence numbers, and a record's bytes to an edit and back.
#![tactic(auto)]

mod lists;
mod writing;

ghost use Rattle.std.specs.Prelude.{◌≡◌, ℕ, ◌+◌, ◌*◌, ◌≤◌, ◌<◌, ◌^◌, length, get_or, drop, ◌||◌, eqb};
ghost use Rattle.edit_record.specs.Layout.{most_sites, vector_at, value_at, record_length};
ghost use Rattle.edit_record.specs.Layout.{set_kind, limited_kind, top_kind, bottom_kind};
ghost use Rattle.edit_record.specs.RecordBytes.{two, four, counts, decode_of, placed, span_of};
ghost use Rattle.edit_record.specs.Answer1.{entry_of, name_in};

use lists::{count_of, members_of};
use writing::{encode_fields, with_list};

// The sites that a drawing has at most: the entries of a vector.
pub const SITES: usize = 16;

// The attribute keys are the numbers below this one.
pub const KEYS: u8 = 16;

// The kinds. No enum: a record is any bytes, and what `decode` gives of one keeps its kind, whatever number that is.
pub const CREATE: u8 = 1;

pub const SET: u8 = 2;

// A Set that is limited to one version.
pub const LIMITED: u8 = 3;

pub const TOP: u8 = 4;

pub const BOTTOM: u8 = 5;

// Where each field of a record starts.
pub const AT_KIND: usize = 0;

pub const AT_SITE: usize = 1;

pub const AT_SEQ: usize = 2;

pub const AT_VECTOR: usize = 4;

pub const AT_TARGET: usize = AT_VECTOR + 2 * SITES;

pub const AT_KEY: usize = AT_TARGET + 1;

pub const AT_TARGET_SEQ: usize = AT_TARGET + 2;

pub const AT_VALUE: usize = AT_TARGET + 4;

// The bytes of a record, but that a limited Set goes on.
pub const RECORD: usize = AT_VALUE + 4;

// Where a limited Set has the count of its members, with two zero bytes, and where the members.
pub const AT_COUNT: usize = RECORD;

pub const AT_MEMBERS: usize = AT_COUNT + 4;

// The bytes of a member, and the most members.
pub const MEMBER: usize = 4;

pub const MEMBERS: usize = 16;

// The bytes of a place in the table of records, which has room for the longest.
pub const PLACE: usize = AT_MEMBERS + MEMBER * MEMBERS;

// The numbers that one, two and four bytes have: those of sites, of edits of a site, and of values.
pub const SITE_NUMBERS: u32 = 256;

pub const SEQ_NUMBERS: u32 = 65536;

pub const VALUES: u64 = 4294967296;

// The number of a laptop. It is never taken for a sequence number.
#[derive(Clone, Copy, PartialEq, Eq)]
pub struct Site(pub u8);

// The number of an edit among those of its site, from 1 on; in a vector, how many of them were applied.
#[derive(Clone, Copy, PartialEq, Eq)]
pub struct Seq(pub u16);

// An edit, field by field in the record's order; `tsite` and `tseq` name the target. A member is the number in its
// four bytes, and `count` that in the four where the count and the zero bytes stand: zeros but in a limited Set.
#[derive(Clone, Copy)]
pub struct Edit {
    pub kind: u8,
    pub site: Site,
    pub seq: Seq,
    pub vector: [u16; SITES],
    pub tsite: Site,
    pub key: u8,
    pub tseq: Seq,
    pub value: u32,
    pub count: u32,
    pub members: [u32; MEMBERS],
}

// The byte at i, and 0 past the end.
pub fn byte_at(s: &[u8], i: usize) -> u8
    ensures { result ≡ get_or s.now i 0 }
{
    s.get(i).copied().unwrap_or(0)
}

// The number in the two bytes from i on. One test tells that both are there, as they most often are.
pub fn two_at(s: &[u8], i: usize) -> u16
    requires { i < 2 ^ 48 }
    ensures { result ≡ two s.now i }
{
    if i + 1 < s.len() {
        return pair_at(s, i);
    }
    u16::from_le_bytes([byte_at(s, i), byte_at(s, i + 1)])
}

// The number in the four bytes from i on, in the same way.
pub fn four_at(s: &[u8], i: usize) -> u32
    requires { i < 2 ^ 47 }
    ensures { result ≡ four s.now i }
{
    if i + 3 < s.len() {
        return quad_at(s, i);
    }
    two_at(s, i) as u32 + two_at(s, i + 2) as u32 * 65536
}

// The number in the two bytes from i on, which are both there.
pub fn pair_at(s: &[u8], i: usize) -> u16
    requires { i + 1 < length s.now }
    ensures { result ≡ two s.now i }
{
    u16::from_le_bytes([s[i], s[i + 1]])
}

// The number in the four bytes from i on, which are all there.
pub fn quad_at(s: &[u8], i: usize) -> u32
    requires { i + 3 < length s.now }
    ensures { result ≡ four s.now i }
{
    u32::from_le_bytes([s[i], s[i + 1], s[i + 2], s[i + 3]])
}

// How many bytes the record at the front of rec has: a limited Set by the count that is stored.
pub fn span_of(rec: &[u8]) -> usize
    ensures { result ≡ span_of rec.now }
{
    if byte_at(rec, AT_KIND) == LIMITED {
        return AT_MEMBERS + two_at(rec, AT_COUNT) as usize * MEMBER;
    }
    RECORD
}

// The vector of a record that is there whole.
pub fn vector_of(rec: &[u8]) -> [u16; SITES]
    requires { record_length ≤ length rec.now }
    ensures { result ≡ counts most_sites (drop vector_at rec.now) }
{
    let mut v = [0u16; SITES];
    for (i, n) in v.iter_mut().enumerate() {
        *n = pair_at(rec, AT_VECTOR + 2 * i);
    }
    v
}

// The edit in the first bytes of rec, where a record is there whole.
fn decode_whole(rec: &[u8]) -> Edit
    requires { record_length ≤ length rec.now }
    ensures { result ≡ decode_of rec.now }
{
    Edit {
        kind: rec[AT_KIND],
        site: Site(rec[AT_SITE]),
        seq: Seq(pair_at(rec, AT_SEQ)),
        vector: vector_of(rec),
        tsite: Site(rec[AT_TARGET]),
        key: rec[AT_KEY],
        tseq: Seq(pair_at(rec, AT_TARGET_SEQ)),
        value: value_of(rec),
        count: count_of(rec),
        members: members_of(rec),
    }
}

// The bytes of a record that is not there whole, with zeros after them.
fn padded(rec: &[u8]) -> [u8; RECORD]
    requires { length rec.now ≤ record_length }
    ensures { (i : ℕ) → get_or result i 0 ≡ get_or rec.now i 0 }
{
    let mut whole = [0u8; RECORD];
    whole[..rec.len()].copy_from_slice(rec);
    whole
}

// The edit in the first bytes of rec; a byte past the end counts as 0. The bound is tested once, not for each byte.
pub fn decode(rec: &[u8]) -> Edit
    ensures { result ≡ decode_of rec.now }
{
    if RECORD <= rec.len() {
        return decode_whole(rec);
    }
    let whole = padded(rec);
    decode_whole(&whole)
}

// The bytes of a place that holds an edit.
pub fn encode(e: Edit) -> [u8; PLACE]
    ensures { result ≡ placed e }
{
    let fields = encode_fields(e);
    let members = e.members;
    if e.kind == LIMITED {
        return with_list(fields, e.count, members);
    }
    with_list(fields, 0, [0u32; MEMBERS])
}

// Entry i of some numbers, and 0 past their end.
pub fn entry_at(s: &[u16], i: usize) -> u16
    ensures { result ≡ get_or s.now i 0 }
{
    s.get(i).copied().unwrap_or(0)
}

// Whether an edit of this kind is a Set, be it limited or not.
pub fn is_set_kind(kind: u8) -> bool
    ensures { result ≡ (eqb kind set_kind || eqb kind limited_kind) }
{
    (kind == SET) | (kind == LIMITED)
}

// Whether an edit of this kind is to-top or to-bottom.
pub fn is_layer_kind(kind: u8) -> bool
    ensures { result ≡ (eqb kind top_kind || eqb kind bottom_kind) }
{
    (kind == TOP) | (kind == BOTTOM)
}

// Whether an edit of this kind names an object as its target.
pub fn is_aimed_kind(kind: u8) -> bool
    ensures { result ≡ (eqb kind set_kind || eqb kind limited_kind || (eqb kind top_kind || eqb kind bottom_kind)) }
{
    is_set_kind(kind) | is_layer_kind(kind)
}

// The count of a site in a vector, and 0 for a site that has no entry.
pub fn entry(v: [u16; SITES], s: Site) -> Seq
    ensures { result ≡ entry_of v s }
{
    Seq(entry_at(&v, s.0 as usize))
}

// The name of a member: its site and its sequence number as one number.
pub fn name_in(m: u32) -> u32
    ensures { result ≡ name_in m }
{
    m % 256 * 65536 + m / 65536
}

// The entry of a site in the vector of a record that is there whole, and 0 for a site that has none.
pub fn own_entry(rec: &[u8], site: u8) -> u16
    requires { record_length ≤ length rec.now }
    ensures { result ≡ get_or (counts most_sites (drop vector_at rec.now)) site 0 }
{
    if (site as usize) < SITES {
        return pair_at(rec, AT_VECTOR + 2 * site as usize);
    }
    0
}

// The value of a record that is there whole.
pub fn value_of(rec: &[u8]) -> u32
    requires { record_length ≤ length rec.now }
    ensures { result ≡ four rec.now value_at }
{
    quad_at(rec, AT_VALUE)
}
