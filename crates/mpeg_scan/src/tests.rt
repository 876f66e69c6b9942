//! Expected values are worked out by hand from ISO/IEC 11172-2; film A is a sequence header, a
//! group header, an I picture and one slice, and film B is film A, a P picture and one slice.

ghost use Rattle.std.specs.Prelude.{⊤};

mod refusals;

use crate::laws::{law_film_is_well_formed, law_start_codes_are_those_in_the_bytes};
use crate::{FilmFault, Found, ScanRefused, Scanner, Unit, picture_time, scan};
use std::alloc::Global;
use std::fmt::Debug;
use std::process::Abort;
use vod_base::NoMemory;

/// The parts of films, a letter and hexadecimal digits each:
/// - S a sequence header at 25 pictures a second, G a group header, s a slice, and the picture
///   headers I and P;
/// - B the header of a B picture, of temporal_reference 2, vbv_delay FFFF, full-pel 1 and f-code 5
///   forward, 1 and 6 backward, and D that of a D picture, of temporal_reference 1;
/// - z, g, i and p the headers S, G, I and P without their last bytes;
/// - J, K and L sequence headers of the rate codes 0, 4 and 9;
/// - T and U picture headers of the types 0 and 5;
/// - M a start code of an MPEG-2 stream, Y one of a system stream, n a byte;
/// - q a start code and the last bytes of a sequence header's, which overlap;
/// - R an I picture and its slice; x, y and w a zero. `joined` repeats these.
const PARTS: &str = "S000001b316012013ffffe0a0|G000001b800080040|s000001011234|\
    I00000100000ffff8|P000001000057fff880|B00000100009ffffef0|D000001000067fff8|\
    z000001b316012013ffffe0|g000001b8000800|i00000100000f|p000001000057fff8|\
    J000001b316012010ffffe0a0|K000001b316012014ffffe0a0|L000001b316012019ffffe0a0|\
    T000001000007fff8|U00000100002ffff8|M000001b5|Y000001ba|n00|q000001000001b3|\
    R00000100000ffff8000001011234|x00|y00|w00|";

/// The units of a film with a picture of each kind, as they are printed; shorter films have the
/// first of them.
const UNITS: &str = "[\
    Unit { from: 0, head_end: 28, to: 34, first_slice: 0, slices: 1, temporal: 0, \
    presentation: 0, kind: I, vectors: 0, has_sequence: true, starts_group: true }, \
    Unit { from: 34, head_end: 43, to: 49, first_slice: 1, slices: 1, temporal: 1, \
    presentation: 1, kind: P, vectors: 1, has_sequence: false, starts_group: false }, \
    Unit { from: 49, head_end: 58, to: 70, first_slice: 2, slices: 2, temporal: 2, \
    presentation: 2, kind: B, vectors: 237, has_sequence: false, starts_group: false }, \
    Unit { from: 70, head_end: 86, to: 92, first_slice: 4, slices: 1, temporal: 0, \
    presentation: 3, kind: I, vectors: 0, has_sequence: false, starts_group: true }, \
    Unit { from: 92, head_end: 100, to: 106, first_slice: 5, slices: 1, temporal: 1, \
    presentation: 4, kind: D, vectors: 0, has_sequence: false, starts_group: false }";

#[derive(Debug, Clone, Copy)]
enum Call {
    Head(u64, u64),
    Slice(u64, u64),
    Unit(Unit),
}

#[derive(Drop)]
struct Listener {
    calls: Vec<Call>,
    pictures: u64,
    keeps: bool,
}

impl Listener {
    fn new(alloc: Global, keeps: bool) -> Listener {
        Listener {
            calls: Vec::new(alloc),
            pictures: 0,
            keeps,
        }
    }

    fn hear(&mut self, call: Call) -> Result<(), NoMemory> {
        if !self.keeps {
            return Ok(());
        }
        self.calls.push(call)?;
        Ok(())
    }
}

impl Found for Listener {
    ghost heard = { λ _ _. ⊤ };

    fn head(&mut self, from: u64, to: u64) -> Result<(), NoMemory> {
        self.hear(Call::Head(from, to))
    }

    fn slice(&mut self, from: u64, to: u64) -> Result<(), NoMemory> {
        self.hear(Call::Slice(from, to))
    }

    fn unit(&mut self, unit: Unit) -> Result<(), NoMemory> {
        self.pictures = self.pictures.saturating_add(1);
        self.hear(Call::Unit(unit))
    }
}

/// The value of a hexadecimal digit.
fn digit(digit: u8) -> u8 {
    match digit {
        b'0'..=b'9' => digit - b'0',
        b'a'..=b'f' => digit - b'a' + 10,
        _ => 0,
    }
}

/// Appends the part of that letter to a film.
fn put(film: &mut Vec<u8>, letter: char) -> Option<()> {
    let (_, rest) = PARTS.split_once(letter)?;
    let (digits, _) = rest.split_once('|')?;
    for pair in digits.as_bytes().chunks(2) {
        if let [high, low] = pair {
            film.push(16 * (digit(*high) & 15) + (digit(*low) & 15))
                .ok()?;
        }
    }
    Some(())
}

/// A film of the parts of these letters.
fn joined(alloc: Global, letters: &str) -> Option<Vec<u8>> {
    let mut film = Vec::new(alloc);
    for letter in letters.chars() {
        let times = match letter {
            'R' => 1023,
            'w' => 1352,
            'x' => 1353,
            'y' => 1400,
            _ => 1,
        };
        for _ in 0..times {
            put(&mut film, letter)?;
        }
    }
    Some(film)
}

/// A film of these parts has so many of the units; its rate code, picture time, bytes and slices
/// are printed so.
fn check_film(rt: &impl Abort, alloc: Global, letters: &str, units: usize, rest: &str) {
    let bytes = joined(alloc, letters).expect(rt, letters);
    let film = scan(alloc, bytes).expect(rt, letters);
    law_film_is_well_formed(&film);
    assert!(rt; film.units.len() == units, "{letters}");
    let text = format!(in alloc; "{:?}", film.units).expect(rt, letters);
    assert!(rt;
        UNITS.starts_with(text.trim_end_matches(']')),
        "{letters}: {text}"
    );
    let text = format!(in alloc;
        "{} {} {} {:?}",
        film.rate,
        film.picture_time(),
        film.bytes.len(),
        film.slice_starts
    )
    .expect(rt, letters);
    assert!(rt; text.as_str() == rest, "{letters}: {text}");
}

#[test]
fn units_of_films(rt: HostRuntime) {
    law_start_codes_are_those_in_the_bytes();
    check_film(&rt, rt.alloc(), "SGIs", 1, "3 14400 34 [28]");
    check_film(&rt, rt.alloc(), "SGIsPs", 2, "3 14400 49 [28, 43]");
}

#[test]
fn fields_of_headers(rt: HostRuntime) {
    let rest = "3 14400 106 [28, 43, 58, 64, 86, 100]";
    check_film(&rt, rt.alloc(), "SGIsPsBssGIsDs", 5, rest);
}

/// What the scanner reports of a film that is fed in two chunks, or byte by byte if the cut is past
/// its end.
fn calls_in_chunks(alloc: Global, film: &[u8], cut: usize) -> Result<Vec<Call>, ScanRefused> {
    if 1000 < film.len() {
        return Err(ScanRefused::NoMemory);
    }
    let mut found = Listener::new(alloc, true);
    let mut scanner = Scanner::new();
    if cut <= film.len() {
        let (front, back) = film.split_at(cut);
        scanner.feed(front, &mut found)?;
        scanner.feed(back, &mut found)?;
    } else {
        for byte in film {
            scanner.feed(&[*byte], &mut found)?;
        }
    }
    scanner.finish(&mut found)?;
    Ok(found.calls)
}

/// The calls of a film that is fed so, as they are printed.
fn calls_text(alloc: Global, film: &[u8], cut: usize) -> Option<String> {
    let calls = calls_in_chunks(alloc, film, cut).ok()?;
    format!(in alloc; "{calls:?}").ok()
}

#[test]
fn cuts_change_nothing(rt: HostRuntime) {
    let want = "[Head(0, 28), Slice(28, 34), Unit(Unit { from: 0, head_end: 28, to: 34, \
        first_slice: 0, slices: 1, temporal: 0, presentation: 0, kind: I, vectors: 0, \
        has_sequence: true, starts_group: true }), Head(34, 43), Slice(43, 49), \
        Unit(Unit { from: 34, head_end: 43, to: 49, first_slice: 1, slices: 1, temporal: 1, \
        presentation: 1, kind: P, vectors: 1, has_sequence: false, starts_group: false })]";
    let film = joined(rt.alloc(), "SGIsPs").expect(&rt, "a film");
    assert!(rt; film.len() == 49);
    for cut in 0..=50 {
        let text = calls_text(rt.alloc(), &film, cut).expect(&rt, "the film is refused");
        assert!(rt; text.as_str() == want, "cut at {cut}: {text}");
    }
}

#[test]
fn a_refusal_is_answered_again(rt: HostRuntime) {
    let mut found = Listener::new(rt.alloc(), true);
    let mut scanner = Scanner::new();
    let fault = Err(ScanRefused::Fault(FilmFault::SystemCode(0)));
    assert!(rt; scanner.feed(b"\0\0\x01\xba", &mut found) == fault);
    let sequence = b"\0\0\x01\xb3\x16\x01\x20\x13\xff\xff\xe0\xa0";
    assert!(rt; scanner.feed(sequence, &mut found) == fault);
    assert!(rt; scanner.finish(&mut found).is_err());
}

#[test]
fn times_of_pictures(rt: HostRuntime) {
    for (rate, units) in [
        (1, 15015),
        (2, 15000),
        (3, 14400),
        (4, 12012),
        (5, 12000),
        (6, 7200),
        (7, 6006),
        (8, 6000),
    ] {
        assert!(rt; picture_time(rate) == units, "rate {rate}");
    }
}

/// A scanner that was fed the parts of these letters.
fn fed(alloc: Global, letters: &str) -> Option<Scanner> {
    let film = joined(alloc, letters)?;
    if 1000 < film.len() {
        return None;
    }
    let mut scanner = Scanner::new();
    scanner.feed(&film, &mut Listener::new(alloc, false)).ok()?;
    Some(scanner)
}

fn check_printed(rt: &impl Abort, alloc: Global, value: &impl Debug, want: &str) {
    let text = format!(in alloc; "{value:?}").expect(rt, want);
    assert!(rt; text.as_str() == want, "{text}");
}

#[test]
fn values_print_their_fields(rt: HostRuntime) {
    let scanner = fed(rt.alloc(), "SGIss").expect(&rt, "a scanner");
    // The second slice is the latest code, and isn't counted yet.
    let want = "Scanner { progress: Progress { fed: 40, prefix: Nothing, latest: Some(Code { \
        place: 34, value: 1, header: HeaderBytes { bytes: [18, 52, 0, 0, 0], len: 2 } }), \
        tally: Tally { rate: Some(3), pictures: 1, before_group: 0, all_slices: 1, \
        unit: Some(UnitTally { from: 0, picture: Some(Header { place: 20, temporal: 0, kind: I, \
        vectors: 0 }), slices: Some(Slices { first: 28, last: 28, count: 1 }), \
        has_sequence: true, starts_group: true }) } }, refused: None }";
    check_printed(&rt, rt.alloc(), &scanner, want);
    let film = joined(rt.alloc(), "SGIs").expect(&rt, "a film");
    let film = scan(rt.alloc(), film).expect(&rt, "a film");
    let want =
        "Film { bytes: [0, 0, 1, 179, 22, 1, 32, 19, 255, 255, 224, 160, 0, 0, 1, 184, 0, 8, \
        0, 64, 0, 0, 1, 0, 0, 15, 255, 248, 0, 0, 1, 1, 18, 52], rate: 3, \
        units: [Unit { from: 0, head_end: 28, to: 34, first_slice: 0, slices: 1, temporal: 0, \
        presentation: 0, kind: I, vectors: 0, has_sequence: true, starts_group: true }], \
        slice_starts: [28] }";
    check_printed(&rt, rt.alloc(), &film, want);
}
