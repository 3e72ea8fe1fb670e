// What makes the objects sound: their rows of groups, their Creates and their Sets. Each object is tested by what was
// gathered from the records, so that none is held against every record.
ghost use Rattle.std.specs.Prelude.{◌≡◌, ◌^◌, ◌≤◌, ◌<◌, ltb, length};
ghost use Rattle.math_lists.specs.NumbersBelow.{all};
ghost use Rattle.edit_record.specs.Layout.{two_bytes};
ghost use Rattle.group_step.specs.GroupRows.{most_objects, most_groups};
ghost use Rattle.table_drawing.specs.Tables.{groups_length};
ghost use Rattle.table_soundness.specs.Sound.{slot_sound, row_sound, entry_sound, object_sound};
ghost use Rattle.table_soundness.specs.SoundnessForms.{CreatesBefore, Tallied};

use edit_record::{CREATE, byte_at};
use group_step::{GROUPS, SETS};
use table_drawing::ENTRY;
use table_drawing::entries::{at16, at64};

// Whether the group g, which has room for SETS bits, has none at or past k.
fn is_below(g: u64, k: u64) -> bool
    ensures { result ≡ ltb g (2 ^ k) }
{
    if k < SETS as u64 { g >> k == 0 } else { true }
}

// Whether place i of the row of object o, which has g groups of k Sets, is sound; the place is used.
fn slot_sound(groups: &[u64], o: usize, k: u64, g: usize, i: usize) -> bool
    requires { (o < most_objects) × (i < g) × (g ≤ most_groups) }
    ensures { result ≡ slot_sound groups.now o k g i }
{
    let at = o * GROUPS + i;
    let here = at64(groups, at);
    let next = at64(groups, at + 1);
    let below = is_below(here, k);
    below & ((g <= i + 1) | (here < next))
}

// Whether the row of object o, which has g groups of k Sets, is sound. Most places of a row are unused, and are only
// held against 0.
fn row_sound(groups: &[u64], o: usize, k: u64, g: usize) -> bool
    requires { (o < most_objects) × (length groups.now ≡ groups_length) }
    ensures { result ≡ row_sound groups.now o k g }
{
    if !((1 <= g) & (g <= GROUPS)) {
        return false;
    }
    let mut sound = true;
    for i in 0..g {
        sound &= slot_sound(groups, o, k, g, i);
    }
    for &unused in &groups[o * GROUPS + g..(o + 1) * GROUPS] {
        sound &= unused == 0;
    }
    sound
}

// Whether p is the place of the Create of object o, and k the number of its Sets.
fn entry_sound(
    recs: &[u8],
    n: usize,
    numbers: &[u8],
    tallies: &[u8],
    o: usize,
    p: usize,
    k: usize,
) -> bool
    requires { (p < two_bytes) × CreatesBefore recs.now n numbers.now × Tallied recs.now n tallies.now }
    ensures { result ≡ entry_sound recs.now n o p k }
{
    let kind = edit_history::kind_at(recs, p);
    let number = byte_at(numbers, p);
    let tally = byte_at(tallies, p);
    (p < n) & (kind == CREATE) & (number as usize == o) & (k == tally as usize) & (k <= SETS)
}

// Whether object o is sound: its entry and its row.
fn object_sound(
    recs: &[u8],
    n: usize,
    objects: &[u16],
    groups: &[u64],
    numbers: &[u8],
    tallies: &[u8],
    o: usize,
) -> bool
    requires { (o < most_objects) × (length groups.now ≡ groups_length) × CreatesBefore recs.now n numbers.now
        × Tallied recs.now n tallies.now }
    ensures { result ≡ object_sound recs.now n objects.now groups.now o }
{
    let at = o * ENTRY;
    let place = at16(objects, at);
    let sets = at16(objects, at + 1);
    let many = at16(objects, at + 2);
    let entry = entry_sound(recs, n, numbers, tallies, o, place as usize, sets as usize);
    let row = row_sound(groups, o, sets as u64, many as usize);
    entry & row
}

// Whether each of the first m objects is sound.
pub fn objects_sound(
    recs: &[u8],
    n: usize,
    objects: &[u16],
    groups: &[u64],
    numbers: &[u8],
    tallies: &[u8],
    m: usize,
) -> bool
    requires { (m ≤ most_objects) × (length groups.now ≡ groups_length) × CreatesBefore recs.now n numbers.now
        × Tallied recs.now n tallies.now }
    ensures { result ≡ all m (object_sound recs.now n objects.now groups.now) }
{
    let mut sound = true;
    for o in 0..m {
        sound &= object_sound(recs, n, objects, groups, numbers, tallies, o);
    }
    sound
}
