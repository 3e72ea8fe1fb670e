// A record copied out of the table: its bytes are then read without asking for each of them whether the table has it.
ghost use Rattle.std.specs.Prelude.{◌+◌, ◌^◌, ◌≤◌, ◌<◌, length};
ghost use Rattle.edit_record.specs.Layout.{record_length};
ghost use Rattle.edit_history.specs.EditsHeld.{record_at};
ghost use Rattle.table_sets.specs.FieldForms.{Copied, HasFields};

use edit_record::{PLACE, RECORD};

// The bytes of a record from `at` on, where all of them are there.
fn copy_whole(recs: &[u8], at: usize) -> [u8; RECORD]
    requires { at + record_length ≤ length recs.now }
    ensures { Copied result recs.now at }
{
    let mut copy = [0u8; RECORD];
    copy.copy_from_slice(&recs[at..at + RECORD]);
    copy
}

// The same, and a byte past the end of the table is 0.
fn copy_rest(recs: &[u8], at: usize) -> [u8; RECORD]
    requires { at < 2 ^ 32 }
    ensures { Copied result recs.now at }
{
    let mut copy = [0u8; RECORD];
    for (i, byte) in copy.iter_mut().enumerate() {
        *byte = edit_record::byte_at(recs, at + i);
    }
    copy
}

// The bytes of the record in place p, as far as a limited Set lists nothing.
pub fn copy_at(recs: &[u8], p: u16) -> [u8; RECORD]
    ensures { HasFields result (record_at recs.now p) }
{
    let at = p as usize * PLACE;
    if at + RECORD <= recs.len() {
        return copy_whole(recs, at);
    }
    copy_rest(recs, at)
}
