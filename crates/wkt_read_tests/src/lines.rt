//! Lines answered in a room, by hand.
use std::process::Abort;
use wkt_lines::{answer_line, write_whole_lines};
use wkt_num::{Decimal, OfType};

// Lines, each with what it is answered with.
const LINES: &str = "\
POINT(1 2)|POINT(1 2)
point ( 1.50\t-0 ) and more|POINT(1.5 0)
POINT EMPTY|POINT EMPTY
POINT(+1 ++2)|POINT(1 2)
linestring zm(1 2 3 4,5 6 7 8)|LINESTRING ZM(1 2 3 4,5 6 7 8)
LINESTRING(0000000000000000000000000000000000000000001 2,3 4.0000000000000000000000000000000)|LINESTRING(1 2,3 4)
POLYGON(EMPTY,(0 0,1 0))|POLYGON EMPTY
MULTIPOINT(1 2,(3 4),EMPTY)|MULTIPOINT((1 2),(3 4),EMPTY)
GEOMETRYCOLLECTION(POLYGON(EMPTY),POINT(1 2))|GEOMETRYCOLLECTION(POLYGON EMPTY,POINT(1 2))
|refused
 |refused
POINT|refused
POINT(1 2|refused
POINT(1.1234567 2)|refused
POINT(\u{e9} 2)|refused
point(1 2.0)  |POINT(1 2)";

/// The first line is answered so, behind three bytes.
fn is_answered(rt: &impl Abort, rest: &[u8], taken: usize, want: &str) {
    assert!(rt; rest.len() <= 301);
    let mut out = [7u8; 800];
    match answer_line(OfType::<Decimal<6>>::new(), rest, &mut out, 3) {
        Ok(answer) => {
            assert!(rt; answer.taken == taken);
            assert!(rt; out[..3] == [7; 3]);
            assert!(rt; 4 <= answer.len && answer.len <= 800);
            let given = str::from_utf8(&out[3..answer.len - 1]).ok();
            assert!(rt; given == Some(want), "{given:?}");
            assert!(rt; out[answer.len - 1] == b'\n');
        }
        Err(_) => panic!(rt; "no room"),
    }
}

/// A line is answered so, last and with another behind it, which isn't looked at.
fn line_is_answered(rt: &impl Abort, line: &[u8], want: &str) {
    let n = line.len();
    assert!(rt; n < 200);
    is_answered(rt, line, n + 1, want);
    let mut two = [b'x'; 300];
    two[..n].copy_from_slice(line);
    two[n] = b'\n';
    is_answered(rt, &two, n + 1, want);
}

#[test]
fn lines(rt: HostRuntime) {
    for row in LINES.lines() {
        let (line, want) = row.split_once('|').unwrap_or((row, ""));
        line_is_answered(&rt, line.as_bytes(), want);
    }
    line_is_answered(&rt, b"point(1 2.0) \xff", "refused");
}

// Bytes, whether the fronts of their lines alone count, how many first lines are answered then, and how.
const WHOLE: [(&[u8], bool, usize, &str); 9] = [
    (
        b"POINT(1 2.0)\nPOINT(3 4)\nPOINT(5)\n",
        false,
        2,
        "POINT(1 2)\nPOINT(3 4)\n",
    ),
    (b"POINT(1 2) \t\r\nPOINT(3 4)", false, 1, "POINT(1 2)\n"),
    (b"POINT(1 2) x\nPOINT(3 4)\n", false, 0, ""),
    (
        b"POINT(1 2) x\nPOINT(3 4)\n",
        true,
        2,
        "POINT(1 2)\nPOINT(3 4)\n",
    ),
    (b"POINT(1 2)\xff\n", true, 0, ""),
    (b"POINT(1 2)\xff\n", false, 0, ""),
    (b"\nPOINT(1 2)\n", false, 0, ""),
    (b"POINT(1.1234567 2)\n", false, 0, ""),
    (b"", false, 0, ""),
];

#[test]
fn whole_lines(rt: HostRuntime) {
    for (bytes, front, lines, want) in WHOLE {
        let mut room = [7u8; 300];
        let whole = write_whole_lines(OfType::<Decimal<6>>::new(), front, bytes, &mut room);
        assert!(&rt; whole.lines == lines);
        assert!(&rt; str::from_utf8(&room[..whole.len]).ok() == Some(want));
    }
}
