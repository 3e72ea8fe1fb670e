// Bytes put at a start that the caller names within a longer output: there is room for all of them, or nothing is
// written. Bytes before and after them stay.
#![tactic(auto)]

ghost use Rattle.std.specs.Prelude.{◌≡◌, ◌++◌, ◌+◌, ◌≤◌, leb, length, take, drop};
ghost use Rattle.std.specs.Result.{result_unwrap_or};
ghost use Rattle.table_drawing.specs.AnswerNumbers.{answer_of};
ghost use Rattle.table_output.specs.Output.{writing, written_at};

use table_drawing::Refusal;

// The first n bytes of src at the start of out. A loop: where a length is known at run time alone, `copy_from_slice` is a
// call, which takes more stack than docs/MANUAL.md says.
pub fn copy_in(out: &mut [u8], src: &[u8], n: usize)
    requires { (n ≤ length out.old) × (n ≤ length src.now) }
    ensures { out.new ≡ take n src.now ++ drop n out.old }
{
    for i in 0..n {
        out[i] = src[i];
    }
}

// Whether so many bytes have room from the start on in an output of n bytes.
pub fn has_room(n: usize, start: usize, bytes: usize) -> bool
    ensures { result ≡ leb (start + bytes) n }
{
    if n < start {
        return false;
    }
    bytes <= n - start
}

// Puts the first n bytes of src into out from the start on, if there is room for them, and says how many they are.
pub fn put_at(out: &mut [u8], start: usize, src: &[u8], n: usize) -> Result<usize, Refusal>
    requires { n ≤ length src.now }
    ensures { writing (answer_of result) (result_unwrap_or result 0) out.new ≡ written_at out.old start (take n src.now) }
{
    if !has_room(out.len(), start, n) {
        return Err(Refusal::NoRoom);
    }
    copy_in(&mut out[start..], src, n);
    Ok(n)
}
