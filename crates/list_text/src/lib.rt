// Pieces of a line of text: bytes put behind the first n of a buffer, which stay. Each function says how many bytes
// stand there then. Nothing here speaks of an edit.
#![tactic(auto)]

ghost use Rattle.std.specs.Prelude.{◌≡◌, [], ◌∷◌, ◌++◌, ◌+◌, ◌^◌, ◌≤◌, ◌<◌, length, take};
ghost use Rattle.list_text.specs.Decimal.{decimal};
ghost use Rattle.list_text.specs.Pieces.{dotted, equated};
ghost use Rattle.list_text.specs.HeadAndRefusal.{head_line, refusal_line};
ghost use Rattle.list_text.specs.Pieces.{key_digits, word_digits, dotted_length, equated_length};
ghost use Rattle.list_text.specs.HeadAndRefusal.{head_length, refusal_length};

// The marks of the printed list.
pub const SPACE: u8 = b' ';

pub const PLUS: u8 = b'+';

pub const MINUS: u8 = b'-';

pub const DOT: u8 = b'.';

pub const EQUALS: u8 = b'=';

pub const NEWLINE: u8 = b'\n';

// The digits, at most, of a key, and of a number of one, two and four bytes.
const KEY_DIGITS: usize = 2;

const BYTE_DIGITS: usize = 3;

const PAIR_DIGITS: usize = 5;

const WORD_DIGITS: usize = 10;

// The bytes, at most, of `a.b` of one and two bytes, and of `a=b` of a key and four bytes.
pub const DOTTED: usize = BYTE_DIGITS + 1 + PAIR_DIGITS;

pub const EQUATED: usize = KEY_DIGITS + 1 + WORD_DIGITS;

// Puts one byte.
pub fn put_byte(out: &mut [u8], n: usize, b: u8) -> usize
    requires { n < length out.old }
    ensures { (take result out.new ≡ take n out.old ++ (b ∷ [])) × (result ≡ n + 1) }
{
    out[n] = b;
    n + 1
}

// Puts the bytes of s.
pub fn put_bytes(out: &mut [u8], n: usize, s: &[u8]) -> usize
    requires { n + length s.now ≤ length out.old }
    ensures { (take result out.new ≡ take n out.old ++ s.now)
        × (result ≡ n + length s.now) }
{
    let end = n + s.len();
    out[n..end].copy_from_slice(s);
    end
}

// How many digits the decimal of m has; nothing is divided for it.
fn digits(m: u32) -> usize
    ensures { result ≡ length (decimal m) }
{
    if m < 10 {
        return 1;
    }
    if m < 100 {
        return 2;
    }
    if m < 1000 {
        return 3;
    }
    if m < 10000 {
        return 4;
    }
    if m < 100000 {
        return 5;
    }
    if m < 1000000 {
        return 6;
    }
    if m < 10000000 {
        return 7;
    }
    if m < 100000000 {
        return 8;
    }
    if m < 1000000000 {
        return 9;
    }
    10
}

// Puts the decimal of m.
fn put_decimal(out: &mut [u8], n: usize, m: u32) -> usize
    requires { n + length (decimal m) ≤ length out.old }
    ensures { (take result out.new ≡ take n out.old ++ decimal m)
        × (result ≡ n + length (decimal m)) }
{
    let end = n + digits(m);
    itoa::write_digits(m as u64, out, end);
    end
}

// Puts `a.b`.
pub fn put_dotted(out: &mut [u8], n: usize, a: u8, b: u16) -> usize
    requires { n + dotted_length ≤ length out.old }
    ensures { (take result out.new ≡ take n out.old ++ dotted a b) × (result ≤ n + dotted_length) }
{
    let k = put_decimal(out, n, a as u32);
    let l = put_byte(out, k, DOT);
    put_decimal(out, l, b as u32)
}

// Puts `a=b`, where a has no more digits than a key.
pub fn put_equated(out: &mut [u8], n: usize, a: u8, b: u32) -> usize
    requires { (a < 10 ^ key_digits) × (n + equated_length ≤ length out.old) }
    ensures { (take result out.new ≡ take n out.old ++ equated a b) × (result ≤ n + equated_length) }
{
    let k = put_decimal(out, n, a as u32);
    let l = put_byte(out, k, EQUALS);
    put_decimal(out, l, b)
}

// Puts a fixed word and a number.
fn put_labelled(out: &mut [u8], n: usize, word: &[u8], m: u32) -> usize
    requires { n + length word.now + word_digits ≤ length out.old }
    ensures { (take result out.new ≡ take n out.old ++ (word.now ++ decimal m))
        × (result ≤ n + length word.now + word_digits) }
{
    let k = put_bytes(out, n, word);
    put_decimal(out, k, m)
}

// Puts line 0 at the front.
pub fn put_head(out: &mut [u8], sites: u32, objects: u32, versions: u32, sum: u32) -> usize
    requires { head_length ≤ length out.old }
    ensures { (take result out.new ≡ head_line sites objects versions sum) × (result ≤ head_length) }
{
    let a = put_labelled(out, 0, b"sites ", sites);
    let b = put_labelled(out, a, b" objects ", objects);
    let c = put_labelled(out, b, b" versions ", versions);
    let d = put_labelled(out, c, b" sum ", sum);
    put_byte(out, d, NEWLINE)
}

// Puts the line of a refusal with the number m at the front.
pub fn put_refusal(out: &mut [u8], m: u32) -> usize
    requires { refusal_length ≤ length out.old }
    ensures { (take result out.new ≡ refusal_line m) × (result ≤ refusal_length) }
{
    let k = put_labelled(out, 0, b"refused ", m);
    put_byte(out, k, NEWLINE)
}
