//! Codes, names, capability words, lists and calls that fail.

use crate::common::{list, row_passes, rows};
use cxl_enc::{
    Caps, Factors, FailingCalls, FixedList, Name, cap_word, code_of, gran_code, gran_of, legal_cap,
    split, ways_of,
};

/// A code of the CXL HDM decoder control, with its number of ways and its granularity, where 0 is none.
struct Code {
    name: &'static str,
    code: u8,
    ways: u8,
    bytes: u32,
}

const CODES: &[Code] = rows! {
    Code { name, code, ways, bytes };
    "one way, 256 bytes", 0, 1, 256;
    "two ways, 512 bytes", 1, 2, 512;
    "four ways, 1 KiB", 2, 4, 1_024;
    "eight ways, 2 KiB", 3, 8, 2_048;
    "sixteen ways, 4 KiB", 4, 16, 4_096;
    "no ways, 8 KiB", 5, 0, 8_192;
    "no ways, 16 KiB", 6, 0, 16_384;
    "code 7 of nothing", 7, 0, 0;
    "three ways", 8, 3, 0;
    "six ways", 9, 6, 0;
    "twelve ways", 10, 12, 0;
    "code 11 of nothing", 11, 0, 0;
};

/// The number of ways of a code, and the code of that number.
fn stands_for(code: u8, ways: u8) -> bool {
    if ways == 0 {
        ways_of(code).is_none()
    } else {
        ways_of(code) == Some(ways) && code_of(ways) == Some(code)
    }
}

/// The granularity of a code, and the code of it.
fn stands_for_bytes(code: u8, bytes: u32) -> bool {
    if bytes == 0 {
        gran_of(code).is_none()
    } else {
        gran_of(code) == Some(bytes) && gran_code(u64::from(bytes)) == Some(code)
    }
}

#[test]
fn codes(rt: HostRuntime) {
    for row in CODES {
        let right = stands_for(row.code, row.ways) && stands_for_bytes(row.code, row.bytes);
        row_passes(&rt, row.name, right);
    }
}

#[test]
fn five_and_twelve_ways(rt: HostRuntime) {
    let twelve = Factors {
        third: true,
        bits: 2,
    };
    assert!(rt; split(12) == twelve && code_of(5).is_none() && gran_code(32_768).is_none());
}

/// A word is a name, which keeps its bytes.
fn is_name(word: &str) -> bool {
    match Name::read(word.as_bytes()) {
        Some(name) => *name.bytes() == *word.as_bytes(),
        None => false,
    }
}

/// A word, and whether it is a name.
struct Word {
    name: &'static str,
    word: &'static str,
    named: bool,
}

const WORDS: &[Word] = rows! {
    Word { name, word, named };
    "an underscore and digits", "e_15", true;
    "fifteen letters", "abcdefghijklmno", true;
    "sixteen letters", "abcdefghijklmnop", false;
    "an empty word", "", false;
    "a hyphen", "a-b", false;
};

#[test]
fn names(rt: HostRuntime) {
    for row in WORDS {
        row_passes(&rt, row.name, is_name(row.word) == row.named);
    }
    assert!(rt; Name::read(b"e_15") == Name::read(b"e_15"));
}

/// The words of a port and of an endpoint with all defaults.
#[test]
fn capability_words(rt: HostRuntime) {
    let port = Caps {
        decoders: 4,
        targets: 8,
        low: true,
        high: true,
        ways3: false,
        ways16: false,
    };
    let endpoint = Caps {
        targets: 0,
        ways3: true,
        ways16: true,
        ..port
    };
    assert!(rt; cap_word(&port) == 0x382);
    assert!(rt; cap_word(&endpoint) == 0x1b02);
}

/// A capability word, whether it is an endpoint's, and whether it is legal.
struct CapWord {
    name: &'static str,
    word: u32,
    endpoint: bool,
    legal: bool,
}

const LEGAL: &[CapWord] = rows! {
    CapWord { name, word, endpoint, legal };
    "a port", 0x382, false, true;
    "an endpoint", 0x1b02, true, true;
    "one decoder with one target", 0x10, false, true;
    "an endpoint with targets", 0x382, true, false;
    "a port without targets", 0x1b02, false, false;
    "bit 10 that no capability has", 0x782, false, false;
    "a port of sixteen ways", 0x1382, false, false;
    "decoder count code 6", 0x386, false, false;
};

#[test]
fn legal_words(rt: HostRuntime) {
    for row in LEGAL {
        row_passes(
            &rt,
            row.name,
            legal_cap(row.word, row.endpoint) == row.legal,
        );
    }
}

#[test]
fn lists_and_calls(rt: HostRuntime) {
    let mut items = FixedList::new(list(&rt, b"\x03\x01\x02"));
    assert!(rt; items.items() == b"\x03\x01\x02".as_slice());
    assert!(rt; items.items().len() == 3);
    items.replace_all(b"\x04\x06\x05".as_slice());
    assert!(rt; items.items() == b"\x04\x06\x05".as_slice());
    assert!(rt; begins(&mut FailingCalls::new(list(&rt, &[2, 4]))));
}

/// The second and the fourth call fail.
fn begins(calls: &mut FailingCalls) -> bool {
    let first = !calls.begin() && calls.begin();
    let right = first && !calls.begin() && calls.begin() && !calls.begin();
    calls.fault();
    right
}
