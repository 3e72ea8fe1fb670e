// The entries of the lent slices, read with 0 past the end.
ghost use Rattle.std.specs.Prelude.{◌≡◌, get_or};

// The number at i, and 0 past the end.
pub fn at16(s: &[u16], i: usize) -> u16
    ensures { result ≡ get_or s.now i 0 }
{
    s.get(i).copied().unwrap_or(0)
}

// The group at i, and 0 past the end.
pub fn at64(s: &[u64], i: usize) -> u64
    ensures { result ≡ get_or s.now i 0 }
{
    s.get(i).copied().unwrap_or(0)
}
