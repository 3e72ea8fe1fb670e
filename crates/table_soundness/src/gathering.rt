// The one pass over the records: whether each passes 1 to 5 and its place is zero past it, the counts of the edits and
// the index of their places, the sum of their words, how many Creates stand before each, and how many Sets there are on
// each.
ghost use Rattle.std.specs.Prelude.{◌≡◌, true, false, cond, ◌+◌, ◌*◌, ◌≤◌, ◌<◌, length, get_or, replicate};
ghost use Rattle.math_lists.specs.NumbersBelow.{sum};
ghost use Rattle.edit_record.specs.Layout.{most_sites, place_length};
ghost use Rattle.edit_history.specs.EditsHeld.{most_records};
ghost use Rattle.edit_walk.specs.WalkForms.{places_length, Walking, GoesOn};
ghost use Rattle.table_soundness.specs.Sound.{rest_zero};
ghost use Rattle.table_soundness.specs.SoundnessForms.{WrongPast, Targeted, Tallying, GatheredOver};

use super::Tally;
use super::unused::is_rest_zero;
use edit_history::RECORDS;
use edit_record::{AT_KIND, AT_TARGET, AT_TARGET_SEQ, CREATE, PLACE, SITES, Seq, Site};

// Whether record i is one to go on with: the walk over those before it does, and its place is zero past it.
fn is_next_right(
    sites: u8,
    room: &[u16],
    held: &[u16],
    recs: &[u8],
    places: &[u16],
    i: usize,
) -> bool
    requires { (sites ≤ most_sites)
        × (length room.now ≡ most_sites)
        × (i < most_records)
        × (i * place_length + place_length ≤ length recs.now)
        × Walking sites (λ s. get_or room.now s 0) recs.now i held.now places.now }
    ensures { (result ≡ true →
        GoesOn sites (λ s. get_or room.now s 0) recs.now i held.now
        places.now
        × (rest_zero recs.now i ≡ true))
        × (result ≡ false →
        WrongPast sites (λ s. get_or room.now s 0) recs.now i) }
{
    if !edit_next::goes_on(sites, room, held, recs, places, i) {
        return false;
    }
    is_rest_zero(recs, i)
}

// Tallies record i, if it is a Set, in the place of its target by the index. The first record is no Set, so that each
// tally is below RECORDS and has room in a byte.
fn tally_set(tallies: &mut [u8], recs: &[u8], i: usize, places: &[u16])
    requires { (i < most_records)
        × (i * place_length + place_length ≤ length recs.now)
        × Targeted recs.now (i + 1)
        × Tallying recs.now i places.now tallies.old }
    ensures { Tallying recs.now (i + 1) places.now tallies.new }
{
    let at = i * PLACE;
    let kind = recs[at + AT_KIND];
    let site = recs[at + AT_TARGET];
    let seq = edit_record::pair_at(recs, at + AT_TARGET_SEQ);
    let p = edit_walk::place_at(places, Site(site), Seq(seq)) as usize;
    let more = u8::from(edit_record::is_set_kind(kind));
    if p < RECORDS {
        tallies[p] += more;
    }
}

// Walks over the first n records, with room in the index for so many edits of each site, and gathers from each what it
// gives; none where one is wrong. A record goes into the index last, so that what was read of it still holds.
pub fn gather(
    sites: u8,
    room: [u16; SITES],
    recs: &[u8],
    n: usize,
    places: &mut [u16],
    earlier: &mut [u8],
    tallies: &mut [u8],
) -> Option<Tally>
    requires { (sites ≤ most_sites)
        × (sum most_sites (λ s. get_or room s 0) ≤ most_records)
        × (n ≤ most_records)
        × (n * place_length ≤ length recs.now)
        × (length places.old ≡ places_length)
        × (length earlier.old ≡ most_records)
        × (tallies.old ≡ replicate most_records 0) }
    ensures { GatheredOver sites (λ s. get_or room s 0) recs.now n result places.new
        earlier.new tallies.new }
{
    edit_walk::space_places(room, places);
    let mut held = [0u16; SITES];
    let mut sum: u32 = 0;
    let mut creates: u16 = 0;
    for i in 0..n {
        if !is_next_right(sites, &room, &held, recs, places, i) {
            return None;
        }
        sum = edit_sum::sum_more(sum, recs, i);
        tally_set(tallies, recs, i, places);
        let kind = recs[i * PLACE + AT_KIND];
        earlier[i] = creates as u8;
        creates += u16::from(kind == CREATE);
        edit_walk::put_next(recs, i, &mut held, places);
    }
    Some(Tally { held, sum, creates })
}
