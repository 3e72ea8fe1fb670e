// The sum of document 02's Req 11: the words of the records, added up and wrapped at 32 bits.
#![tactic(auto)]

ghost use Rattle.std.specs.Prelude.{◌≡◌, ◌+◌, ◌*◌, ◌<◌, ◌≤◌, length};
ghost use Rattle.edit_record.specs.Layout.{most_members, place_length};
ghost use Rattle.edit_record.specs.RecordBytes.{span_of};
ghost use Rattle.edit_history.specs.EditsHeld.{most_records, record_at};
ghost use Rattle.edit_sum.specs.WordSum.{word_length, record_words, word_at, wrapped, sum_of, sum_held};

use edit_record::{AT_KIND, LIMITED, PLACE, RECORD};

// The bytes of a word.
const WORD: usize = 4;

// The word that starts i words from the front.
fn word_at(s: &[u8], i: usize) -> u32
    requires { i * word_length + word_length ≤ length s.now }
    ensures { result ≡ word_at s.now i }
{
    edit_record::quad_at(s, i * WORD)
}

// The sum of two numbers, wrapped at the top.
pub fn added(a: u32, b: u32) -> u32
    ensures { result ≡ wrapped (a + b) }
{
    a.wrapping_add(b)
}

// The first n words added up, wrapped at the top.
fn sum_words(s: &[u8], n: usize) -> u32
    requires { n * word_length ≤ length s.now }
    ensures { result ≡ sum_of n s.now }
{
    let mut sum: u32 = 0;
    for i in 0..n {
        sum = added(sum, word_at(s, i));
    }
    sum
}

// The words of the record at the front of rec added up, wrapped at the top. Most records are no limited Sets, and have
// a number of words that is known beforehand.
pub fn sum_record(rec: &[u8]) -> u32
    requires { span_of rec.now ≤ length rec.now }
    ensures { result ≡ sum_of (record_words rec.now) rec.now }
{
    if edit_record::byte_at(rec, AT_KIND) == LIMITED {
        return sum_words(rec, edit_record::span_of(rec) / WORD);
    }
    sum_words(rec, RECORD / WORD)
}

// The sum of the first i + 1 records of a table by that of the first i. The last has room in its place.
pub fn sum_more(sum: u32, recs: &[u8], i: usize) -> u32
    requires { (sum ≡ sum_held i recs.now)
        × (i * place_length + place_length ≤ length recs.now)
        × (i < most_records)
        × ((record_at recs.now i).count ≤ most_members) }
    ensures { result ≡ sum_held (i + 1) recs.now }
{
    let at = i * PLACE;
    added(sum, sum_record(&recs[at..]))
}
