// The bytes of an edit, put down two and four at a time from the front.
ghost use Rattle.std.specs.Prelude.{◌≡◌, ◌+◌, ◌<◌, [], ◌∷◌, ◌++◌, take};
ghost use Rattle.edit_record.specs.Layout.{vector_at, target_at, record_length, place_length};
ghost use Rattle.edit_record.specs.RecordBytes.{count_bytes, four_bytes, field_bytes};

use super::{
    AT_COUNT, AT_KIND, AT_MEMBERS, AT_SEQ, AT_TARGET, AT_TARGET_SEQ, AT_VALUE, AT_VECTOR, Edit,
    MEMBER, MEMBERS, PLACE, SITES,
};

// The bytes before i as they stand, then these two; what stands behind is left open.
fn with_two(bytes: [u8; PLACE], i: usize, low: u8, high: u8) -> [u8; PLACE]
    requires { i + 1 < place_length }
    ensures { take (i + 2) result ≡ take i bytes ++ (low ∷ high ∷ []) }
{
    let mut out = bytes;
    out[i] = low;
    out[i + 1] = high;
    out
}

// The bytes before i as they stand, then the two of a count.
fn with_count(bytes: [u8; PLACE], i: usize, n: u16) -> [u8; PLACE]
    requires { i + 1 < place_length }
    ensures { take (i + 2) result ≡ take i bytes ++ count_bytes (n ∷ []) }
{
    let [low, high] = n.to_le_bytes();
    with_two(bytes, i, low, high)
}

// The bytes before a vector as they stand, then those of its counts.
fn with_vector(bytes: [u8; PLACE], v: [u16; SITES]) -> [u8; PLACE]
    ensures { take target_at result ≡ take vector_at bytes ++ count_bytes v }
{
    let mut out = bytes;
    for (i, &n) in v.iter().enumerate() {
        let next = with_count(out, AT_VECTOR + 2 * i, n);
        out = next;
    }
    out
}

// The bytes before i as they stand, then the four of a number.
fn with_four(bytes: [u8; PLACE], i: usize, n: u32) -> [u8; PLACE]
    requires { i + 3 < place_length }
    ensures { take (i + 4) result ≡ take i bytes ++ four_bytes (n ∷ []) }
{
    let low = with_count(bytes, i, (n % 65536) as u16);
    with_count(low, i + 2, (n / 65536) as u16)
}

// The bytes of a record that every kind has; what stands behind is left open.
pub fn encode_fields(e: Edit) -> [u8; PLACE]
    ensures { take record_length result ≡ field_bytes e }
{
    let v = e.vector;
    let author = with_two([0u8; PLACE], AT_KIND, e.kind, e.site.0);
    let own = with_count(author, AT_SEQ, e.seq.0);
    let seen = with_vector(own, v);
    let target = with_two(seen, AT_TARGET, e.tsite.0, e.key);
    let named = with_count(target, AT_TARGET_SEQ, e.tseq.0);
    with_four(named, AT_VALUE, e.value)
}

// The bytes before the count of a list as they stand, then those of the count and of the members.
pub fn with_list(bytes: [u8; PLACE], count: u32, members: [u32; MEMBERS]) -> [u8; PLACE]
    ensures { result ≡ take record_length bytes ++ four_bytes (count ∷ members) }
{
    let mut out = with_four(bytes, AT_COUNT, count);
    for (i, &m) in members.iter().enumerate() {
        let next = with_four(out, AT_MEMBERS + MEMBER * i, m);
        out = next;
    }
    out
}
