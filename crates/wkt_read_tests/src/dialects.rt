//! Texts in dialects: SRIDs, rooms, and what takes time.
use std::alloc::Global;
use std::process::Abort;
use wkt_dialects::{Dialects, Front, NoRoom, Put, place_in, split_srid, write_as_read};

#[test]
fn srids(rt: HostRuntime) {
    assert!(&rt; split_srid(b"SRID=4326;POINT(1 2)") == Some((4326, 10)));
    assert!(&rt; split_srid(b" sRid=000000001;") == Some((1, 16)));
    assert!(&rt; split_srid(b"POINT(1 2)") == None);
}

const ALL: Dialects = Dialects {
    srid: true,
    untagged: true,
    exponents: true,
    nan: true,
};

// In a buffer as long as what is written, and in each shorter one.
#[test]
fn rooms(rt: HostRuntime) {
    let text = b"MULTIPOINT(1 2 3,nan nan nan,-2.5e2 +4 5.e-1)\0x";
    let wanted = b"MULTIPOINTZ ( 1 2 3 , EMPTY , -250. +4 .5 ) \0x";
    let mut room = [0u8; 64];
    for len in 0..64 {
        let mut put = Front::new(&mut room[..len]);
        let result = write_as_read(ALL, text, &mut put);
        if len < wanted.len() {
            assert!(&rt; result == Err(NoRoom), "{len}");
        } else {
            assert!(&rt;
                result == Ok(()) && put.bytes() == wanted.as_slice(),
                "{len}"
            );
        }
    }
}

// So many times one text, and another behind it.
fn repeated(rt: &impl Abort, alloc: Global, one: &[u8], other: &[u8]) -> Vec<u8> {
    let mut text = Vec::new(alloc);
    for _turn in 0..100_000 {
        match text.put(one) {
            Ok(()) => {}
            Err(NoRoom) => panic!(rt; "no memory"),
        }
    }
    match text.put(other) {
        Ok(()) => text,
        Err(NoRoom) => panic!(rt; "no memory"),
    }
}

// Were a lexeme looked at for each header before it, this would take a minute and more.
#[test]
fn many_headers(rt: HostRuntime) {
    for (one, wanted) in [
        (
            b"GEOMETRYCOLLECTION(" as &[u8],
            b"GEOMETRYCOLLECTION ( " as &[u8],
        ),
        (b"POLYGON(EMPTY,", b"POLYGON ( EMPTY , "),
        (b"POINT ", b"POINT "),
        (b"(", b"( "),
    ] {
        let text = repeated(&rt, rt.alloc(), one, b"(1 2 3");
        let mut other = Vec::new(rt.alloc());
        match write_as_read(ALL, &text, &mut other) {
            Ok(()) => {
                let at = place_in(ALL, &text, &other, other.len());
                assert!(&rt; at == (text.len(), text.len(), text.len()));
                assert!(&rt; other.starts_with(wanted));
            }
            Err(NoRoom) => panic!(&rt; "no memory"),
        }
    }
}
