// The short way of a record: all that is asked of it is asked in one look. Where it or another Set of its box is
// limited it is judged by what is kept of the box. A record that is not taken here goes the long way, which says why.
ghost use Rattle.std.specs.Prelude.{◌≡◌, true, MatchOption, [], ◌∷◌, ◌++◌};
ghost use Rattle.edit_record.specs.RecordBytes.{decode_of};
ghost use Rattle.edit_record.specs.Answer1.{is_set};
ghost use Rattle.edit_history.specs.EditsHeld.{edits_of};
ghost use Rattle.table_drawing.specs.Tables.{tables_of};
ghost use Rattle.table_index.specs.IndexForms.{counters_of, PassedOf};
ghost use Rattle.table_kept.specs.BoxForms.{KeptFor};
ghost use Rattle.table_plain.specs.TakingForms.{TakesShort, TookShort};

use edit_history::{Held, Surveyed};
use edit_record::{AT_KIND, LIMITED};
use table_index::plain::look;
use table_index::{Index, Looked};
use table_kept::Kept;
use table_plain::Took;

// Takes a Set of which a was found, by what is kept of its box, unless it names no version or there is no room for the
// groups of the box: then nothing is changed, but that no more is kept of it.
fn take_limited(
    ix: &mut Index,
    sites: u8,
    n: usize,
    m: u16,
    sum: u32,
    held: &mut [u16],
    records: &mut [u8],
    objects: &mut [u16],
    groups: &mut [u64],
    kept: &mut Kept,
    rec: &[u8],
    a: Looked,
) -> Option<Took>
    requires { TakesShort
        (tables_of (counters_of sites n m held.old sum) records.old objects.old groups.old)
        ix.old.places ix.old.numbers ix.old.counts ix.old.chains rec.now
        × PassedOf sites n m records.old ix.old.places ix.old.numbers ix.old.counts (decode_of rec.now) a
        × (is_set (decode_of rec.now) ≡ true)
        × KeptFor (edits_of records.old n) kept.old.names kept.old.rows }
    ensures { TookShort sites n m sum
        (tables_of (counters_of sites n m held.old sum) records.old objects.old groups.old)
        rec.now result held.new records.new objects.new groups.new
        ix.old.places ix.old.numbers ix.old.counts ix.old.chains
        ix.new.places ix.new.numbers ix.new.counts ix.new.chains
        × MatchOption result (KeptFor (edits_of records.old n) kept.new.names kept.new.rows)
        (λ k. KeptFor (edits_of records.old n ++ (decode_of rec.now ∷ [])) kept.new.names kept.new.rows) }
{
    let v = Surveyed {
        torn: false,
        held: Some(Held {
            object: a.object,
            sets: a.sets,
            plain: a.conflicts,
            limited: a.limited,
        }),
    };
    let j = kept.judge(ix, records, n, rec, v);
    if j.nameless {
        kept.forget();
        return None;
    }
    let judged = Looked {
        limited: a.limited,
        object: a.object,
        sets: a.sets,
        conflicts: j.conflicts,
    };
    let Some(t) = table_plain::take_judged(
        ix, sites, n, m, sum, held, records, objects, groups, rec, judged,
    ) else {
        kept.forget();
        return None;
    };
    Some(t)
}

// Takes a record, unless it is refused: then nothing is changed, but that no more may be kept of its box. There are n
// records, m objects and so many edits of each site, and this sum; the index has room for the record.
pub fn take_short(
    ix: &mut Index,
    sites: u8,
    n: usize,
    m: u16,
    sum: u32,
    held: &mut [u16],
    records: &mut [u8],
    objects: &mut [u16],
    groups: &mut [u64],
    kept: &mut Kept,
    rec: &[u8],
) -> Option<Took>
    requires { TakesShort
        (tables_of (counters_of sites n m held.old sum) records.old objects.old groups.old)
        ix.old.places ix.old.numbers ix.old.counts ix.old.chains rec.now
        × KeptFor (edits_of records.old n) kept.old.names kept.old.rows }
    ensures { TookShort sites n m sum
        (tables_of (counters_of sites n m held.old sum) records.old objects.old groups.old)
        rec.now result held.new records.new objects.new groups.new
        ix.old.places ix.old.numbers ix.old.counts ix.old.chains
        ix.new.places ix.new.numbers ix.new.counts ix.new.chains
        × MatchOption result (KeptFor (edits_of records.old n) kept.new.names kept.new.rows)
        (λ k. KeptFor (edits_of records.old n ++ (decode_of rec.now ∷ [])) kept.new.names kept.new.rows) }
{
    let Some(a) = look(ix, sites, held, records, n, m, rec) else {
        return None;
    };
    let kind = rec[AT_KIND];
    if a.limited | (kind == LIMITED) {
        return take_limited(
            ix, sites, n, m, sum, held, records, objects, groups, kept, rec, a,
        );
    }
    table_plain::take_plain(ix, sites, n, m, sum, held, records, objects, groups, rec, a)
}
