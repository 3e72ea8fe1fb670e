// Whether every entry of a lent slice from a place on is zero, and every place of the records past its record. They are
// if they have no bit between them, which a processor tells faster than it compares each.
ghost use Rattle.std.specs.Prelude.{◌≡◌, ◌+◌, ◌*◌, ◌≤◌, ◌<◌, length};
ghost use Rattle.edit_record.specs.Layout.{place_length};
ghost use Rattle.edit_history.specs.EditsHeld.{most_records};
ghost use Rattle.table_soundness.specs.Sound.{zero_from, rest_zero};

use edit_record::{AT_KIND, LIMITED, PLACE, RECORD};

// So many bytes, and so many groups, are brought from memory at a time.
const LINE: usize = 64;

const LINE_GROUPS: usize = 8;

// Whether every byte from k on is zero. Four parts of whole lines are walked at once, so that four times as much is in
// a turn of the loop; fewer than four lines are left past them.
pub fn is_zero_from8(s: &[u8], k: usize) -> bool
    ensures { result ≡ zero_from s.now k }
{
    if s.len() <= k {
        return true;
    }
    let part = (s.len() - k) / (4 * LINE) * LINE;
    let second = k + part;
    let third = second + part;
    let fourth = third + part;
    let mut bits: u8 = 0;
    for i in 0..part {
        bits |= s[k + i] | s[second + i] | s[third + i] | s[fourth + i];
    }
    for &byte in &s[fourth + part..] {
        bits |= byte;
    }
    bits == 0
}

// Whether every number from k on is zero.
pub fn is_zero_from16(s: &[u16], k: usize) -> bool
    ensures { result ≡ zero_from s.now k }
{
    if s.len() <= k {
        return true;
    }
    let mut zero = true;
    for &number in &s[k..] {
        zero &= number == 0;
    }
    zero
}

// Whether every group from k on is zero, by four parts as well. The three stand apart by the type of what they go over:
// one over a trait of the three types would be longer than they are.
pub fn is_zero_from64(s: &[u64], k: usize) -> bool
    ensures { result ≡ zero_from s.now k }
{
    if s.len() <= k {
        return true;
    }
    let part = (s.len() - k) / (4 * LINE_GROUPS) * LINE_GROUPS;
    let second = k + part;
    let third = second + part;
    let fourth = third + part;
    let mut bits: u64 = 0;
    for i in 0..part {
        bits |= s[k + i] | s[second + i] | s[third + i] | s[fourth + i];
    }
    for &group in &s[fourth + part..] {
        bits |= group;
    }
    bits == 0
}

// Whether every byte from k on is zero, for few bytes of a number known beforehand: from the last one down, so that a
// caller's other ways have no first byte in common with this one, which would be read apart from the rest.
fn is_zero_down8(s: &[u8], k: usize) -> bool
    requires { k ≤ length s.now }
    ensures { result ≡ zero_from s.now k }
{
    let mut bits: u8 = 0;
    for i in (k..s.len()).rev() {
        bits |= s[i];
    }
    bits == 0
}

// Whether place p of the records is zero past its record. Most records are no limited Sets, and end where all of these
// do.
pub fn is_rest_zero(recs: &[u8], p: usize) -> bool
    requires { (p < most_records) × (p * place_length + place_length ≤ length recs.now) }
    ensures { result ≡ rest_zero recs.now p }
{
    let at = p * PLACE;
    let end = at + PLACE;
    let place = &recs[at..end];
    if place[AT_KIND] == LIMITED {
        let span = edit_record::span_of(place);
        return is_zero_from8(place, span);
    }
    is_zero_down8(place, RECORD)
}
