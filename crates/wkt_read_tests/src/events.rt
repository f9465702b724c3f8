//! The events of texts of each kind.

use std::process::Abort;
use wkt_fill::{EventRoom, WktUnits, write_events};
use wkt_num::{Places, WktNum};

// In each line how many places numbers have, a text, its events and its numbers. An event is the header of a geometry or its
// end, or how many coordinates come.
const TEXTS: &str = "\
0|POINT(1 2)|POINT 1 END|1 2
0|POINT ZM EMPTY|POINT+ZM 0 END|
0|POINT EMPTY|POINT 0 END|
0|linestring z (1 2 3, 4 5 6)|LINESTRING+Z 2 END|1 2 3 4 5 6
0|LINESTRING M EMPTY|LINESTRING+M 0 END|
0|POLYGON((1 2,3 4),EMPTY,(5 6,7 8,9 10))|POLYGON 2 0 3 END|1 2 3 4 5 6 7 8 9 10
0|POLYGON EMPTY|POLYGON END|
0|MULTIPOINT M(1 2 3,EMPTY,(4 5 6))|MULTIPOINT+M 1 0 1 END|1 2 3 4 5 6
0|MULTIPOINT(EMPTY)|MULTIPOINT 0 END|
0|MULTILINESTRING((1 2,3 4),EMPTY)|MULTILINESTRING 2 0 END|1 2 3 4
0|MULTIPOLYGON ZM(((1 2 3 4)),EMPTY,((5 6 7 8),EMPTY))|MULTIPOLYGON+ZM POLYGON+ZM 1 END POLYGON+ZM END POLYGON+ZM 1 0 END END|1 2 3 4 5 6 7 8
0|MULTIPOLYGON EMPTY|MULTIPOLYGON END|
0|GEOMETRYCOLLECTION EMPTY|GEOMETRYCOLLECTION END|
0|GEOMETRYCOLLECTION Z(POINT(1 2),GEOMETRYCOLLECTION(MULTIPOLYGON Z EMPTY,LINESTRING M(3 4 5)),GEOMETRYCOLLECTION ZM EMPTY,POINT EMPTY)|GEOMETRYCOLLECTION+Z POINT 1 END GEOMETRYCOLLECTION MULTIPOLYGON+Z END LINESTRING+M 1 END END GEOMETRYCOLLECTION+ZM END POINT 0 END END|1 2 3 4 5
0|LINESTRING(-1 0)|LINESTRING 1 END|-1 0
2|LINESTRING(-1.5 +.25)|LINESTRING 1 END|-150 25
18|LINESTRING(180 -180)|LINESTRING 1 END|180000000000000000000 -180000000000000000000
0|LINESTRING(170141183460469231731687303715884105727 -170141183460469231731687303715884105728)|LINESTRING 1 END|170141183460469231731687303715884105727 -170141183460469231731687303715884105728
0|LINESTRING(9223372036854775808 -9223372036854775809)|LINESTRING 1 END|9223372036854775808 -9223372036854775809
0|LINESTRING(18446744073709551616 -18446744073709551616)|LINESTRING 1 END|18446744073709551616 -18446744073709551616
36|POINT(0.000000000000000000000000000000000001 -0)|POINT 1 END|1 0";

/// What nothing was written to.
const NOTHING: WktUnits = WktUnits { low: 7, high: 7 };

/// The event of a word, or what nothing was written to.
fn event(word: Option<&str>) -> usize {
    let Some(word) = word else {
        return 7;
    };
    let (kind, dimension) = word.split_once('+').unwrap_or((word, ""));
    let kind = match kind {
        "POINT" => 0,
        "LINESTRING" => 4,
        "POLYGON" => 8,
        "MULTIPOINT" => 12,
        "MULTILINESTRING" => 16,
        "MULTIPOLYGON" => 20,
        "GEOMETRYCOLLECTION" => 24,
        "END" => return usize::MAX,
        count => return count.parse::<usize>().unwrap_or(99),
    };
    let dimension = match dimension {
        "Z" => 1,
        "M" => 2,
        "ZM" => 3,
        _ => 0,
    };
    (1 << 63) + kind + dimension
}

/// The number of a word, or what nothing was written to: 7 in each half.
fn number(word: Option<&str>) -> i128 {
    match word {
        Some(word) => i128::read_number(word).unwrap_or(99),
        None => 129_127_208_515_966_861_319,
    }
}

/// The text has these events, and these numbers of so many places; behind them the rooms are as they were.
fn has(rt: &impl Abort, places: u32, text: &str, events: &str, numbers: &str) {
    assert!(rt; places <= 36);
    let mut event_room = [7usize; 24];
    let mut number_room = [NOTHING; 24];
    let mut room = EventRoom {
        events: &mut event_room,
        numbers: &mut number_room,
    };
    let Some(counts) = write_events(Places::new(places), text.as_bytes(), &mut room) else {
        panic!(rt; "no front in {text}");
    };
    assert_eq!(rt; counts.end, text.len(), "in {text}");
    let mut events = events.split_whitespace();
    let mut numbers = numbers.split_whitespace();
    for i in 0..24 {
        let word = events.next();
        assert_eq!(rt; word.is_some(), i < counts.events, "event {i} in {text}");
        assert_eq!(rt; event_room[i], event(word), "event {i} in {text}");
        let word = numbers.next();
        assert_eq!(rt; word.is_some(), i < counts.numbers, "number {i} in {text}");
        let units = number_room[i];
        let given = i128::from(units.high) * (1 << 64) + i128::from(units.low);
        assert_eq!(rt; given, number(word), "number {i} in {text}");
    }
}

#[test]
fn texts_have_their_events(rt: HostRuntime) {
    for row in TEXTS.lines() {
        let mut columns = row.split('|');
        let places = columns.next().unwrap_or("").parse::<u32>().unwrap_or(99);
        let text = columns.next().unwrap_or("");
        let events = columns.next().unwrap_or("");
        has(&rt, places, text, events, columns.next().unwrap_or(""));
    }
}

#[test]
fn what_has_no_room_is_counted(rt: HostRuntime) {
    let text = "GEOMETRYCOLLECTION(LINESTRING(1 2,3 4),POLYGON((5 6)))";
    for i in 0..10 {
        let mut event_room = [7usize; 24];
        let mut number_room = [NOTHING; 24];
        let mut room = EventRoom {
            events: &mut event_room[..i],
            numbers: &mut number_room[..10 - i],
        };
        let Some(counts) = write_events(Places::new(0), text.as_bytes(), &mut room) else {
            panic!(&rt; "no front");
        };
        assert_eq!(&rt; counts.events, 8);
        assert_eq!(&rt; counts.numbers, 6);
        assert_eq!(&rt; counts.end, text.len());
        for j in i..24 {
            assert_eq!(&rt; event_room[j], 7);
        }
        for j in 10 - i..24 {
            assert_eq!(&rt; number_room[j].low, 7);
        }
    }
}

#[test]
fn a_text_without_a_geometry_has_no_events(rt: HostRuntime) {
    for text in [
        "POINT(1)",
        "",
        "GEOMETRYCOLLECTION(POINT(1 2)",
        "POINT(0.5 1)",
    ] {
        let mut room = EventRoom {
            events: &mut [],
            numbers: &mut [],
        };
        assert!(&rt; write_events(Places::new(0), text.as_bytes(), &mut room).is_none());
    }
}
