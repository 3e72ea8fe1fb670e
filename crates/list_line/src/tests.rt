// The methods that put one piece: what they print is taken from documents 01 and 02 (Req 03), not from the definitions
// that their clauses name.
use super::pieces::Pieces;

// Puts settings and names behind the first two bytes, which stay, and reads what stands there then.
#[test]
fn pieces_are_put(rt: HostRuntime) {
    let mut kept = Pieces::none();
    let mut out = [b'.'; 48];
    // a stamp tells the value one less than itself; a place on the grid is shown as the first of its square
    for (key, stamp, want) in [
        (2, 41, b".. 2=40"),
        (2, 42, b".. 2=41"),
        (2, 42, b".. 2=41"),
        (1, 31, b".. 1=24"),
    ] {
        let n = kept.put_setting(&mut out, 2, key, stamp);
        assert_eq!(rt; n, 7);
        assert_eq!(rt; out[..7], want[..]);
    }
    assert_eq!(rt; kept.put_setting(&mut out, 2, 2, 0), 2);
    // site 3, number 17, the Set that bit 5 of a group stands for
    let x = (3 * 65536 + 17) * 64 + 5;
    kept.put_names(&[x], 1);
    let n = kept.put_member(&mut out, 2, 0, x, 0b100000);
    assert_eq!(rt; n, 7);
    assert_eq!(rt; out[..7], b"..+3.17"[..]);
    assert_eq!(rt; kept.put_member(&mut out, 2, 0, x, 0b011111), 2);
}
