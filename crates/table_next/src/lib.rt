// One record taken at tables that are sound, by the index of their records and by what is kept of a box with a limited
// Set: the short way (`short`), or the long one, which says why it is refused.
#![tactic(auto)]

pub mod short;

ghost use Rattle.std.specs.Prelude.{[], ◌∷◌, ◌++◌};
ghost use Rattle.std.specs.Result.{result_unwrap_or};
ghost use Rattle.edit_record.specs.RecordBytes.{decode_of};
ghost use Rattle.edit_history.specs.EditsHeld.{edits_of};
ghost use Rattle.table_drawing.specs.Tables.{tables_of};
ghost use Rattle.table_drawing.specs.AnswerNumbers.{answer_of};
ghost use Rattle.table_kept.specs.BoxForms.{KeptFor};
ghost use Rattle.table_plain.specs.TakingForms.{Takes, Leaves};

use table_arrival::asked;
use table_drawing::{Counters, Refusal};
use table_index::Index;
use table_kept::Kept;

// Takes one record at tables that are sound, by the index of their records and by what is kept of a box with a limited
// Set, and puts it into the index if it is taken. The index has room for it.
pub fn take_next(
    ix: &mut Index,
    c: Counters,
    records: &mut [u8],
    objects: &mut [u16],
    groups: &mut [u64],
    kept: &mut Kept,
    rec: &[u8],
) -> Result<Counters, Refusal>
    requires { Takes (tables_of c records.old objects.old groups.old)
        ix.old.places ix.old.numbers ix.old.counts ix.old.chains rec.now
        × KeptFor (edits_of records.old c.records) kept.old.names kept.old.rows }
    ensures { Leaves (tables_of c records.old objects.old groups.old)
        rec.now (answer_of result)
        (tables_of (result_unwrap_or result c) records.new objects.new groups.new)
        ix.old.places ix.new.places ix.new.numbers ix.new.counts ix.new.chains
        × KeptFor (edits_of records.old c.records ++ (decode_of rec.now ∷ []))
        kept.new.names kept.new.rows }
{
    asked::one_to_three(c, rec)?;
    let n = c.records as usize;
    let v = table_index::survey(ix, c, records, rec);
    let j = kept.judge(ix, records, n, rec, v);
    let after = table_arrival::accept(c, records, objects, groups, rec, v, j, true)?;
    table_index::add(ix, records, n, c.objects);
    Ok(after)
}
