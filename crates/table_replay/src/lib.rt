// Records taken one after another from an empty drawing.
#![tactic(auto)]

ghost use Rattle.std.specs.Prelude.{◌≡◌, true, [], ◌≤◌, length, replicate};
ghost use Rattle.edit_record.specs.Layout.{most_sites};
ghost use Rattle.edit_form.specs.OldForm.{start_of, stored_in};
ghost use Rattle.edit_history.specs.EditsHeld.{most_records, count_from};
ghost use Rattle.edit_history.specs.SurveyForms.{Counted};
ghost use Rattle.edit_walk.specs.WalkForms.{Spaced};
ghost use Rattle.table_drawing.specs.Tables.{tables_of, empty_drawing, lengths_right, sites_right};
ghost use Rattle.table_index.specs.IndexForms.{IndexOf, counters_of};
ghost use Rattle.table_given.specs.Replay.{replayed_by, replay_of, edits_in};
ghost use Rattle.table_kept.specs.BoxForms.{KeptFor};

use edit_form::OLD;
use edit_record::{RECORD, SITES};
use table_drawing::Counters;
use table_given::FileRefusal;
use table_index::Index;
use table_kept::Kept;

// How many of the first n records of a stretch name each site.
fn count_stretch(recs: &[u8], form: u8, n: usize) -> [u16; SITES]
    requires { (n ≤ most_records) × (start_of form recs.now n ≤ length recs.now) }
    ensures { Counted result (edits_in (stored_in form recs.now) n) }
{
    let mut counts = [0u16; SITES];
    let mut at: usize = 0;
    for _ in 0..n {
        let rest = &recs[at..];
        let site = edit_form::site_from(rest, form) as usize;
        at = at + edit_form::length_from(rest, form);
        if site < SITES {
            counts[site] = counts[site] + 1;
        }
    }
    counts
}

// Takes the first n records of a stretch, one after another, into an empty drawing: an old one as a long one, a long
// one where it stands. Each goes the short way if it can, else the long one. The index has room for all of them.
fn take_records(
    ix: &mut Index,
    sites: u8,
    records: &mut [u8],
    objects: &mut [u16],
    groups: &mut [u64],
    kept: &mut Kept,
    recs: &[u8],
    form: u8,
    n: usize,
) -> Result<Counters, FileRefusal>
    requires { (tables_of (counters_of sites 0 0 (replicate most_sites 0) 0) records.old objects.old groups.old
        ≡ empty_drawing sites)
        × IndexOf records.old 0 ix.old.places ix.old.numbers ix.old.counts ix.old.chains
        × Spaced (λ s. count_from s (edits_in (stored_in form recs.now) n)) ix.old.places
        × (sites_right sites ≡ true)
        × (n ≤ most_records)
        × (start_of form recs.now n ≤ length recs.now)
        × KeptFor [] kept.old.names kept.old.rows }
    ensures { replayed_by result records.new objects.new groups.new
        ≡ replay_of sites (stored_in form recs.now) n }
{
    let mut held = [0u16; SITES];
    let mut m: u16 = 0;
    let mut sum: u32 = 0;
    // written for old records alone: what was just written is read slowly
    let mut wide = [0u8; RECORD];
    let mut at: usize = 0;
    for i in 0..n {
        let rest = &recs[at..];
        let used = edit_form::length_from(rest, form);
        at = at + used;
        if form == OLD {
            wide = edit_form::widened_from(rest);
        }
        let rec = edit_form::long_in(rest, form, used, &wide);
        if let Some(t) = table_next::short::take_short(
            ix, sites, i, m, sum, &mut held, records, objects, groups, kept, rec,
        ) {
            m = t.objects;
            sum = t.sum;
            continue;
        }
        let c = Counters {
            sites,
            records: i as u16,
            objects: m,
            held,
            sum,
        };
        let next = match table_next::take_next(ix, c, records, objects, groups, kept, rec) {
            Ok(next) => next,
            Err(refusal) => {
                return Err(FileRefusal {
                    refusal,
                    index: i,
                    counters: c,
                });
            }
        };
        held = next.held;
        m = next.objects;
        sum = next.sum;
    }
    Ok(Counters {
        sites,
        records: n as u16,
        objects: m,
        held,
        sum,
    })
}

// Opens a drawing of so many sites in the tables and takes the first n records of a stretch in a form into it, one
// after another.
pub fn replay(
    sites: u8,
    records: &mut [u8],
    objects: &mut [u16],
    groups: &mut [u64],
    recs: &[u8],
    form: u8,
    n: usize,
) -> Result<Counters, FileRefusal>
    requires { (lengths_right records.old objects.old groups.old ≡ true)
        × (sites_right sites ≡ true)
        × (n ≤ most_records)
        × (start_of form recs.now n ≤ length recs.now) }
    ensures { replayed_by result records.new objects.new groups.new
        ≡ replay_of sites (stored_in form recs.now) n }
{
    let held = [0u16; SITES];
    let none = Counters {
        sites,
        records: 0,
        objects: 0,
        held,
        sum: 0,
    };
    _ = table_drawing::open(none, records, objects, groups, sites);
    let mut kept = Kept::none();
    let mut ix = Index::none();
    let by_site = count_stretch(recs, form, n);
    edit_walk::space_places(by_site, &mut ix.places);
    take_records(
        &mut ix, sites, records, objects, groups, &mut kept, recs, form, n,
    )
}
