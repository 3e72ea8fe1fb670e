// A Set of an object as one number, which tells its site, its sequence number and its value: by it a later Set of the
// same key is told whether they conflict, and no record is read again.
ghost use Rattle.std.specs.Prelude.{◌≡◌, ◌≤◌, length};
ghost use Rattle.edit_record.specs.declared.Edit.{Edit};
ghost use Rattle.edit_record.specs.Layout.{record_length};
ghost use Rattle.table_sets.specs.FieldForms.{HasFields};
ghost use Rattle.table_sets.specs.KeyForms.{unlike, ToldAs};

use edit_causal::shown;
use edit_record::{AT_SEQ, AT_SITE, KEYS, VALUES};

// The keys that the Sets of an object are told apart by.
pub const KEY_CHAINS: usize = KEYS as usize;

// A name as a number, of 64 bits.
const SEQ_NUMBERS: u64 = edit_record::SEQ_NUMBERS as u64;

const SITE_NUMBERS: u64 = edit_record::SITE_NUMBERS as u64;

// What a later Set is told of the one with these bytes, whose key is known, as one number.
pub fn told_of(rec: &[u8], key: u8) -> u64
    requires { record_length ≤ length rec.now }
    ensures { (e : Edit) → HasFields rec.now e → key ≡ e.key → ToldAs result e }
{
    let site = edit_record::byte_at(rec, AT_SITE);
    let seq = edit_record::pair_at(rec, AT_SEQ);
    let sent = edit_record::value_of(rec);
    let value = shown(key, sent);
    (site as u64 * SEQ_NUMBERS + seq as u64) * VALUES + value as u64
}

// Whether the author of the Set with these bytes, told as y, had not seen the one told as x, and it is shown
// differently. That is asked first, since no byte is read for it.
pub fn is_unlike(x: u64, y: u64, rec: &[u8]) -> bool
    requires { record_length ≤ length rec.now }
    ensures { (a b : Edit) → ToldAs x a → ToldAs y b → HasFields rec.now b → result ≡ unlike a b }
{
    if x % VALUES == y % VALUES {
        return false;
    }
    let site = (x / (SEQ_NUMBERS * VALUES) % SITE_NUMBERS) as u8;
    let seq = (x / VALUES % SEQ_NUMBERS) as u16;
    let seen = edit_record::own_entry(rec, site);
    !(seq <= seen)
}
