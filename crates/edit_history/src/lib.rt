// The edits held, in the order of arrival: answers 2 to 5 of document 01 against them, and what an arriving edit asks
// of them.
#![tactic(auto)]

ghost use Rattle.std.specs.Prelude.{◌≡◌, true, cond, ◌||◌, ◌+◌, ◌^◌, ◌≤◌, ◌<◌, length, get_or, leb, ltb};
ghost use Rattle.edit_record.specs.Layout.{most_sites, two_bytes};
ghost use Rattle.edit_record.specs.Answer1.{entry_of};
ghost use Rattle.edit_history.specs.EditsHeld.{most_records, record_at};
ghost use Rattle.edit_history.specs.Answers2to5.{larger_somewhere};
ghost use Rattle.edit_history.specs.SurveyForms.{bump, ahead_elsewhere, mark_bits};

use edit_record::{AT_KIND, Edit, PLACE, RECORD, SITES, Seq, Site};

// The records held, Creates included, are at most so many.
pub const RECORDS: usize = 256;

// What an edit whose target is held asks of the edits held: the number of its object, how many Sets that has, which of
// them conflict with it by document 01's rule, bit i for the i-th, and whether one of them is limited.
#[derive(Clone, Copy)]
pub struct Held {
    pub object: usize,
    pub sets: usize,
    pub plain: u64,
    pub limited: bool,
}

// What an arriving edit asks of the edits held: whether 4 applies, and all the rest if its target is held.
#[derive(Clone, Copy)]
pub struct Surveyed {
    pub torn: bool,
    pub held: Option<Held>,
}

// The edit in place p of a table of records; a place past the end holds zeros. With `get` and `unwrap_or` in place of
// the test, the walk over the records takes longer.
pub fn decode_at(recs: &[u8], p: usize) -> Edit
    requires { p < two_bytes }
    ensures { result ≡ record_at recs.now p }
{
    let at = p * PLACE;
    if at <= recs.len() {
        edit_record::decode(&recs[at..])
    } else {
        edit_record::decode(&recs[..0])
    }
}

// The vector of the edit in place p, read where it stands.
pub fn vector_at(recs: &[u8], p: usize) -> [u16; SITES]
    requires { p < two_bytes }
    ensures { result ≡ (record_at recs.now p).vector }
{
    let at = p * PLACE;
    if at + RECORD <= recs.len() {
        return edit_record::vector_of(&recs[at..]);
    }
    decode_at(recs, p).vector
}

// The kind of the edit in place p, read where it stands.
pub fn kind_at(recs: &[u8], p: usize) -> u8
    requires { p < two_bytes }
    ensures { result ≡ (record_at recs.now p).kind }
{
    edit_record::byte_at(recs, p * PLACE + AT_KIND)
}

// The counts with one edit more of the site s.
pub fn bumped(v: [u16; SITES], s: Site) -> [u16; SITES]
    requires { get_or v s.0 0 < most_records }
    ensures { result ≡ bump v s }
{
    let mut w = v;
    let i = s.0 as usize;
    if i < SITES {
        w[i] += 1;
    }
    w
}

// How many edits of site s are held, by the counts of all sites.
pub fn held_from(held: &[u16], s: Site) -> u16
    ensures { result ≡ (entry_of held.now s).0 }
{
    edit_record::entry_at(held, s.0 as usize)
}

// Whether answer 2 is given to the edit s.q, where so many edits of each site are held.
pub fn is_repeated(held: &[u16], s: Site, q: Seq) -> bool
    ensures { result ≡ leb q.0 (entry_of held.now s).0 }
{
    q.0 <= held_from(held, s)
}

// Whether an entry of v other than the site's own is above that of held. All are looked at, which is faster than to
// stop at the first.
fn is_ahead_elsewhere(held: &[u16], v: [u16; SITES], s: Site) -> bool
    requires { most_sites ≤ length held.now }
    ensures { result ≡ ahead_elsewhere held.now v s }
{
    let own = s.0 as usize;
    let mut found = false;
    for t in 0..SITES {
        found |= (t != own) & (held[t] < v[t]);
    }
    found
}

// Whether answer 3 is given to the edit s.q with the vector v, where so many edits of each site are held.
pub fn is_early(held: &[u16], v: [u16; SITES], s: Site, q: Seq) -> bool
    requires { most_sites ≤ length held.now }
    ensures { result
        ≡ (ltb ((entry_of held.now s).0 + 1) q.0 || ahead_elsewhere held.now v s) }
{
    let own = held_from(held, s);
    (own as u32 + 1 < q.0 as u32) | is_ahead_elsewhere(held, v, s)
}

// Whether an entry of v is larger than w's. All are looked at, which is faster than to stop at the first.
pub fn is_larger_somewhere(v: [u16; SITES], w: [u16; SITES]) -> bool
    ensures { result ≡ larger_somewhere v w }
{
    let mut found = false;
    for s in 0..SITES {
        found |= w[s] < v[s];
    }
    found
}

// The marks m with bit k, if b holds.
pub fn marked_if(b: bool, m: u64, k: usize) -> u64
    requires { (m < 2 ^ k) × (b ≡ true → k < mark_bits) }
    ensures { result ≡ m + cond b (2 ^ k) 0 }
{
    if b { m + (1 << k) } else { m }
}
