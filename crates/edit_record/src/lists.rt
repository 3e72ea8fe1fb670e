// The list of a limited Set: its count and its members in the bytes.
ghost use Rattle.std.specs.Prelude.{◌≡◌, ◌≤◌, drop, cond};
ghost use Rattle.edit_record.specs.Layout.{count_at, members_at, most_members};
ghost use Rattle.edit_record.specs.RecordBytes.{two, four, first_fours, limits};

use super::{AT_COUNT, AT_KIND, AT_MEMBERS, LIMITED, MEMBER, MEMBERS, byte_at, four_at, two_at};

// The count of a limited Set with its zero bytes, and 0 for every other kind.
pub fn count_of(rec: &[u8]) -> u32
    ensures { result ≡ cond (limits rec.now) (four rec.now count_at) 0 }
{
    if byte_at(rec, AT_KIND) == LIMITED {
        return four_at(rec, AT_COUNT);
    }
    0
}

// The first k members of a limited Set, and 0 for the others.
fn first_members(rec: &[u8], k: usize) -> [u32; MEMBERS]
    requires { k ≤ most_members }
    ensures { result ≡ first_fours most_members k (drop members_at rec.now) }
{
    let mut m = [0u32; MEMBERS];
    for i in 0..k {
        m[i] = four_at(rec, AT_MEMBERS + MEMBER * i);
    }
    m
}

// The members of a limited Set by the count that is stored, and zeros for every other kind.
pub fn members_of(rec: &[u8]) -> [u32; MEMBERS]
    ensures { result ≡ first_fours most_members (cond (limits rec.now) (two rec.now count_at) 0)
        (drop members_at rec.now) }
{
    if byte_at(rec, AT_KIND) != LIMITED {
        return [0u32; MEMBERS];
    }
    let k = two_at(rec, AT_COUNT) as usize;
    first_members(rec, k.min(MEMBERS))
}
