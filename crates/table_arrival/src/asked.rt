// What an arriving record is asked, and asks, before it is taken: 1 to 3 by the counters, and then all the rest in one
// survey of the records held, by the index of their places that the test of soundness leaves.
ghost use Rattle.std.specs.Prelude.{◌≡◌, true, false, cond, [], ◌∷◌, ◌*◌, ◌≤◌, length};
ghost use Rattle.math_lists.specs.SortedLists.{any};
ghost use Rattle.edit_record.specs.Layout.{most_sites, record_length, place_length};
ghost use Rattle.edit_record.specs.RecordBytes.{decode_of};
ghost use Rattle.edit_history.specs.EditsHeld.{most_records, edits_of, sets_on, is_target};
ghost use Rattle.edit_history.specs.Answer16.{records_named};
ghost use Rattle.edit_history.specs.SurveyForms.{survey_of, SurveyedOf, repeated_against, early_against};
ghost use Rattle.edit_walk.specs.WalkForms.{Indexed, in_turn_against};
ghost use Rattle.group_step.specs.GroupRows.{most_sets};
ghost use Rattle.table_index.specs.IndexForms.{number_at, Holds};
ghost use Rattle.table_drawing.specs.AnswerNumbers.{number_of, answer_of};
ghost use Rattle.table_arrival.specs.Answers6and7.{first_of, in_turn};
ghost use Rattle.table_arrival.specs.ArrivalForms.{three_by, MatesOf};

use super::Mates;
use edit_history::{Held, Surveyed};
use edit_record::{
    AT_KIND, AT_SEQ, AT_SITE, AT_TARGET, AT_TARGET_SEQ, CREATE, LIMITED, PLACE, Seq, Site,
};
use table_drawing::{Counters, Refusal};

// 2 or 3, if one of them applies to a record that is there whole, by the counts of the edits held.
fn two_or_three(held: &[u16], rec: &[u8]) -> Result<(), Refusal>
    requires { (record_length ≤ length rec.now) × (most_sites ≤ length held.now) }
    ensures { answer_of result ≡ first_of in_turn (false
        ∷ repeated_against held.now (decode_of rec.now)
        ∷ early_against held.now (decode_of rec.now) ∷ []) }
{
    let v = edit_record::vector_of(rec);
    let s = rec[AT_SITE];
    let q = edit_record::pair_at(rec, AT_SEQ);
    if edit_history::is_repeated(held, Site(s), Seq(q)) {
        return Err(Refusal::Repeated);
    }
    if edit_history::is_early(held, v, Site(s), Seq(q)) {
        return Err(Refusal::Early);
    }
    Ok(())
}

// 1 to 3, the first that applies to a record, by the counters. It says as well what the type of the counts says, for
// callers that have them from a struct.
pub fn one_to_three(c: Counters, rec: &[u8]) -> Result<(), Refusal>
    ensures { (answer_of result ≡ first_of in_turn (three_by c rec.now)) × (length c.held ≡ most_sites) }
{
    let held = c.held;
    if edit_fit::is_malformed(c.sites, rec) {
        return Err(Refusal::Malformed);
    }
    two_or_three(&held, rec)
}

// How many Creates stand before place p.
fn creates_before(recs: &[u8], p: usize) -> usize
    requires { p ≤ most_records }
    ensures { result ≡ number_at recs.now p }
{
    let mut count: usize = 0;
    for i in 0..p {
        if edit_history::kind_at(recs, i) == CREATE {
            count += 1;
        }
    }
    count
}

// What the Sets on the Create s.q, among the first n records, are to the edit of rec: one walk tells it all.
fn mates_on(recs: &[u8], n: usize, s: Site, q: Seq, rec: &[u8]) -> Mates
    requires { (n * place_length ≤ length recs.now)
        × (n ≤ most_records)
        × (record_length ≤ length rec.now)
        × (length (sets_on s q (edits_of recs.now n)) ≤ most_sets) }
    ensures { MatesOf (sets_on s q (edits_of recs.now n)) (decode_of rec.now) result }
{
    let mut sets: usize = 0;
    let mut plain: u64 = 0;
    let mut limited = false;
    for i in 0..n {
        let at = i * PLACE;
        let place = &recs[at..];
        if edit_object::is_set_in(place, s, q) {
            let b = edit_causal::is_conflict_in(place, rec);
            plain = edit_history::marked_if(b, plain, sets);
            limited = limited | (place[AT_KIND] == LIMITED);
            sets += 1;
        }
    }
    Mates {
        sets,
        plain,
        limited,
    }
}

// All that a record whose target is held asks of the records held.
fn survey_held(c: Counters, recs: &[u8], places: &[u16], rec: &[u8]) -> Held
    requires { Holds c recs.now
        × (most_records * place_length ≤ length recs.now)
        × Indexed recs.now c.records places.now
        × (record_length ≤ length rec.now)
        × (any (is_target (decode_of rec.now)) (edits_of recs.now c.records) ≡ true) }
    ensures { result ≡ survey_of (edits_of recs.now c.records) (decode_of rec.now) }
{
    let s = rec[AT_TARGET];
    let q = edit_record::pair_at(rec, AT_TARGET_SEQ);
    let p = edit_walk::place_at(places, Site(s), Seq(q));
    let object = creates_before(recs, p as usize);
    let m = mates_on(recs, c.records as usize, Site(s), Seq(q), rec);
    Held {
        object,
        sets: m.sets,
        plain: m.plain,
        limited: m.limited,
    }
}

// All that a record to which none of 1 to 3 is given asks of the records held.
pub fn survey(c: Counters, recs: &[u8], places: &[u16], rec: &[u8]) -> Surveyed
    requires { Holds c recs.now
        × (most_records * place_length ≤ length recs.now)
        × Indexed recs.now c.records places.now
        × (record_length ≤ length rec.now)
        × (in_turn_against c.sites c.held (decode_of rec.now) ≡ true)
        × (length c.held ≡ most_sites) }
    ensures { SurveyedOf (edits_of recs.now c.records) (decode_of rec.now) result }
{
    let a = table_index::aim_of(c, recs, places, rec);
    if !a.held {
        return Surveyed {
            torn: a.torn,
            held: None,
        };
    }
    let held = survey_held(c, recs, places, rec);
    Surveyed {
        torn: a.torn,
        held: Some(held),
    }
}

// The answer to a record that asks nothing of the Sets held: 8 before it, where 16 is given to a record held.
pub fn answer_where_named(
    c: Counters,
    recs: &[u8],
    places: &[u16],
    answer: Result<(), Refusal>,
) -> Result<(), Refusal>
    requires { Holds c recs.now × Indexed recs.now c.records places.now }
    ensures { answer_of result ≡ cond (records_named recs.now c.records) (answer_of answer) 8 }
{
    if group_named::are_all_named(recs, c.records as usize, places) {
        answer
    } else {
        Err(Refusal::Unsound)
    }
}

// The same of one that is refused with r.
pub fn refusal_where_named(c: Counters, recs: &[u8], places: &[u16], r: Refusal) -> Refusal
    requires { Holds c recs.now × Indexed recs.now c.records places.now }
    ensures { number_of result ≡ cond (records_named recs.now c.records) (number_of r) 8 }
{
    if group_named::are_all_named(recs, c.records as usize, places) {
        r
    } else {
        Refusal::Unsound
    }
}
