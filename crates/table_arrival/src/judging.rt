// What is tested of an arriving record at tables that are sound but for 16, and judged of it where 16 is given to none
// of the records held: whether it is given to the arriving one, and which Sets conflict with it.
ghost use Rattle.std.specs.Prelude.{◌≡◌, true, false, ◌≤◌, length, is_some, IfSome};
ghost use Rattle.math_lists.specs.SortedLists.{any};
ghost use Rattle.edit_record.specs.Layout.{record_length};
ghost use Rattle.edit_record.specs.RecordBytes.{decode_of};
ghost use Rattle.edit_history.specs.EditsHeld.{edits_of, sets_on, is_target};
ghost use Rattle.edit_history.specs.Answer16.{records_named};
ghost use Rattle.edit_history.specs.SurveyForms.{SurveyedOf};
ghost use Rattle.edit_walk.specs.WalkForms.{Indexed};
ghost use Rattle.table_index.specs.IndexForms.{Holds};
ghost use Rattle.table_arrival.specs.ArrivalForms.{TestedFor};

use edit_history::Surveyed;
use edit_record::{AT_KIND, AT_TARGET, AT_TARGET_SEQ, LIMITED, Seq, Site};
use group_limited::{BoxRows, Judged};
use table_drawing::Counters;

// What is judged by the rows of the box, which has k Sets, or none where 16 is given to a record held: the rows are
// worked out once, as 16 of them is tested.
fn judge_by_rows(c: Counters, recs: &[u8], places: &[u16], rec: &[u8], k: usize) -> Option<Judged>
    requires { Holds c recs.now
        × Indexed recs.now c.records places.now
        × (record_length ≤ length rec.now)
        × (any (is_target (decode_of rec.now)) (edits_of recs.now c.records) ≡ true)
        × (k ≡ length (sets_on (decode_of rec.now).tsite (decode_of rec.now).tseq
        (edits_of recs.now c.records))) }
    ensures { TestedFor true recs.now c.records (decode_of rec.now) result }
{
    let s = rec[AT_TARGET];
    let q = edit_record::pair_at(rec, AT_TARGET_SEQ);
    let p = edit_walk::place_at(places, Site(s), Seq(q));
    let mut rows = BoxRows::none();
    let n = c.records as usize;
    let named = group_named::are_named_last_in(&mut rows, recs, n, places, p as usize);
    if !named {
        return None;
    }
    let judged = rows.judge(recs, k, rec);
    Some(judged)
}

// What is judged where document 01's conflicts, plain, are all that there are, or none where 16 is given to a record
// held.
fn judge_plainly(c: Counters, recs: &[u8], places: &[u16], plain: u64) -> Option<Judged>
    requires { Holds c recs.now × Indexed recs.now c.records places.now }
    ensures { (is_some result ≡ records_named recs.now c.records)
        × IfSome result (λ j. (j.nameless ≡ false) × (j.conflicts ≡ plain)) }
{
    if !group_named::are_all_named(recs, c.records as usize, places) {
        return None;
    }
    Some(Judged {
        nameless: false,
        conflicts: plain,
    })
}

// What is judged with the survey v, or none where 16 is given to a record held. Where no Set of its object is limited,
// and it is not, document 01's conflicts are all that there are. One whose object is not held is not judged. The rows
// are asked for in two places, so that their work space is no part of an arrival's, in which soundness was tested
// before.
pub fn judge(c: Counters, recs: &[u8], places: &[u16], rec: &[u8], v: Surveyed) -> Option<Judged>
    requires { Holds c recs.now
        × Indexed recs.now c.records places.now
        × (record_length ≤ length rec.now)
        × SurveyedOf (edits_of recs.now c.records) (decode_of rec.now) v }
    ensures { TestedFor (is_some v.held) recs.now c.records (decode_of rec.now) result }
{
    let limited = edit_record::byte_at(rec, AT_KIND) == LIMITED;
    let Some(h) = v.held else {
        return judge_plainly(c, recs, places, 0);
    };
    if limited {
        return judge_by_rows(c, recs, places, rec, h.sets);
    }
    if h.limited {
        return judge_by_rows(c, recs, places, rec, h.sets);
    }
    judge_plainly(c, recs, places, h.plain)
}
