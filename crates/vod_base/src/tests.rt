//! Worked rows: numbers, lines, names and blanks as they are read, and the objects in memory with
//! their failing calls.

use super::*;
use crate::laws::law_blanks_are_space_and_tab;
use std::alloc::Global;
use std::fmt;
use std::process::Abort;
use std::test::Fail;

// What a row of a table gives is what the row says. A table's loop calls this, since an assertion
// in the loop itself makes the proof of its test dearer.
fn same<T: fmt::Debug + PartialEq>(rt: &impl Abort, found: &T, want: &T, row: &str) {
    assert_eq!(rt; found, want, "at {row:?}");
}

#[test]
fn reads_numbers(rt: HostRuntime) {
    for (text, want) in [
        ("0", Ok(0)),
        ("0017", Ok(17)),
        ("18446744073709551615", Ok(u64::MAX)),
        ("18446744073709551616", Err(NumberFault::TooLarge)),
        ("99999999999999999999x", Err(NumberFault::NotDigit(20))),
        ("", Err(NumberFault::Empty)),
        ("+1", Err(NumberFault::NotDigit(0))),
        ("1a2", Err(NumberFault::NotDigit(1))),
    ] {
        same(&rt, &read_number(text.as_bytes()), &want, text);
    }
}

#[test]
fn knows_digits(rt: HostRuntime) {
    for (text, all, some) in [
        ("0", true, true),
        ("0017", true, true),
        ("", true, false),
        ("1/", false, false),
        (":1", false, false),
    ] {
        same(&rt, &are_digits(text.as_bytes()), &all, text);
        same(&rt, &is_decimal(text.as_bytes()), &some, text);
    }
}

#[test]
fn appends_numbers(rt: HostRuntime) -> Result<(), Fail> {
    let mut text = Vec::new(rt.alloc());
    for number in [0, 17, u64::MAX] {
        push_number(&mut text, number)?;
        text.push(b' ')?;
    }
    assert_eq!(rt; text.as_slice(), b"0 17 18446744073709551615 ".as_slice());
    Ok(())
}

// The ends of the line that begins at a place.
fn ends_of(text: &[u8], at: usize) -> Option<(usize, usize)> {
    if at > text.len() {
        return None;
    }
    let line = line_end(text, at)?;
    Some((line.text_end, line.next))
}

#[test]
fn ends_lines(rt: HostRuntime) {
    for (text, at, want) in [
        ("ab\ncd", 0, Some((2, 3))),
        ("ab\r\ncd", 0, Some((2, 4))),
        ("ab\r\ncd", 2, Some((2, 4))),
        ("ab\r\ncd", 3, Some((3, 4))),
        ("a\rb\n", 0, Some((3, 4))),
        ("\n", 0, Some((0, 1))),
        ("ab\ncd", 3, None),
        ("a\r", 0, None),
        ("", 0, None),
    ] {
        same(&rt, &ends_of(text.as_bytes(), at), &want, text);
    }
}

#[test]
fn names_files(rt: HostRuntime) {
    let long = "abcdefghijklmnopqrstuvwxyzabcdefghijklmnopqrstuvwxyz0123456789_-";
    for (name, want) in [
        ("news.mpg", true),
        ("-", true),
        (long, true),
        ("", false),
        (".hidden", false),
        ("a/b", false),
        ("a b", false),
        (
            "abcdefghijklmnopqrstuvwxyzabcdefghijklmnopqrstuvwxyz0123456789_-a",
            false,
        ),
    ] {
        same(&rt, &good_name(name.as_bytes()), &want, name);
    }
}

fn text(alloc: Global, bytes: &str) -> Result<Vec<u8>, Fail> {
    Ok(Vec::from_slice(alloc, bytes.as_bytes())?)
}

/// An object in memory prints its name alone.
fn prints<T: fmt::Debug>(
    rt: &impl Abort,
    alloc: Global,
    object: &T,
    want: &str,
) -> Result<(), Fail> {
    let text = format!(in alloc; "{object:?}")?;
    assert_eq!(rt; text.as_str(), want);
    Ok(())
}

#[test]
fn finds_and_reads(rt: HostRuntime) -> Result<(), Fail> {
    let alloc = rt.alloc();
    let first = (String::from_str(alloc, "a")?, text(alloc, "hello")?);
    let second = (String::from_str(alloc, "a")?, text(alloc, "hidden")?);
    let mut library = MemoryLibrary::new(vec![in alloc; first, second]?, vec![in alloc; 3]?);
    for (name, want) in [("a", Ok(Some(5))), ("b", Ok(None)), ("a", Err(StoreFault))] {
        same(&rt, &library.find(name), &want, name);
    }
    let rows: [(&str, u64, &[u8]); 5] = [
        ("a", 0, b"hell"),
        ("a", 4, b"o"),
        ("a", 5, b""),
        ("a", u64::MAX, b""),
        ("b", 0, b""),
    ];
    for (name, at, want) in rows {
        let mut into = [0u8; 4];
        same(
            &rt,
            &library.read(name, at, &mut into),
            &Ok(want.len()),
            name,
        );
        assert!(rt; into.starts_with(want));
    }
    prints(&rt, alloc, &library, "MemoryLibrary { .. }")
}

#[test]
fn keeps_what_is_written(rt: HostRuntime) -> Result<(), Fail> {
    let alloc = rt.alloc();
    let Ok(mut sink) = MemorySink::new(alloc, 8, vec![in alloc; 2]?) else {
        panic!(rt; "no memory for 8 bytes");
    };
    for (text, want) in [
        ("abc", Ok(())),
        ("d", Err(SinkFault)),
        ("defghi", Err(SinkFault)),
        ("defgh", Ok(())),
    ] {
        same(&rt, &sink.write_all(text.as_bytes()), &want, text);
    }
    assert_eq!(rt; sink.bytes(), b"abcdefgh".as_slice());
    prints(&rt, alloc, &sink, "MemorySink { .. }")
}

#[test]
fn trims_blanks(rt: HostRuntime) {
    let rows: [(&[u8], &[u8]); 3] = [(b" \t a b\t ", b"a b"), (b" \t", b""), (b"\n", b"\n")];
    for (text, want) in rows {
        assert_eq!(rt; trim(text), want);
    }
    assert!(rt; is_blank(b'\t'));
    law_blanks_are_space_and_tab();
}

fn link(alloc: Global, events: Vec<Event>, nexts: &[u64]) -> Result<MemoryLink, Fail> {
    let failing_sends = vec![in alloc; 2]?;
    let failing_nexts = Vec::from_slice(alloc, nexts)?;
    Ok(MemoryLink::new(alloc, events, 6, failing_sends, failing_nexts)?)
}

// What a link gives in turn, and the bytes that come with it.
fn hear(rt: &impl Abort, link: &mut MemoryLink, rows: &[(Result<Heard, LinkFault>, &[u8])]) {
    for (want, bytes) in rows {
        let mut into = [0u8; 3];
        same(rt, &link.next(&mut into), want, "a link");
        assert!(rt; into.starts_with(bytes));
    }
}

#[test]
fn hears(rt: HostRuntime) -> Result<(), Fail> {
    let alloc = rt.alloc();
    let long = Event::Bytes(text(alloc, "hello")?);
    let none = Event::Bytes(Vec::new(alloc));
    let events = vec![in alloc; long, none, Event::Slot(7)]?;
    let mut link = link(alloc, events, &[2])?;
    let rows: [(Result<Heard, LinkFault>, &[u8]); 8] = [
        (Ok(Heard::Bytes(3)), b"hel"),
        (Err(LinkFault), b""),
        (Ok(Heard::Bytes(2)), b"lo"),
        (Ok(Heard::Slot(7)), b""),
        (Ok(Heard::End), b""),
        (Ok(Heard::End), b""),
        (Ok(Heard::End), b""),
        (Err(LinkFault), b""),
    ];
    hear(&rt, &mut link, &rows);
    Ok(())
}

#[test]
fn sends(rt: HostRuntime) -> Result<(), Fail> {
    let alloc = rt.alloc();
    let mut link = link(alloc, Vec::new(alloc), &[])?;
    for (text, want) in [
        ("abc", Ok(())),
        ("d", Err(LinkFault)),
        ("defg", Err(LinkFault)),
        ("def", Ok(())),
    ] {
        same(&rt, &link.send(text.as_bytes()), &want, text);
    }
    assert_eq!(rt; link.sent(), b"abcdef".as_slice());
    prints(&rt, alloc, &link, "MemoryLink { .. }")
}

const OPENING: Opening = Opening {
    port: 8554,
    all: false,
    connections: 1,
    slot_units: 14_400,
};

// A gate of one part, which has these links and failing calls.
fn gate(
    rt: &impl Abort,
    alloc: Global,
    links: Vec<MemoryLink>,
    failing_in_part: &[u64],
    failing: &[u64],
) -> Result<MemoryGate, Fail> {
    let part = MemoryPart {
        links,
        failing: Vec::from_slice(alloc, failing_in_part)?,
    };
    prints(rt, alloc, &part, "MemoryPart { .. }")?;
    let failing = Vec::from_slice(alloc, failing)?;
    Ok(MemoryGate::new(alloc, vec![in alloc; part]?, failing)?)
}

#[test]
fn gives_and_gets_back(rt: HostRuntime) -> Result<(), Fail> {
    let alloc = rt.alloc();
    let links = vec![in alloc; link(alloc, Vec::new(alloc), &[])?]?;
    let mut gate = gate(&rt, alloc, links, &[3], &[])?;
    assert_eq!(rt; gate.open(&OPENING), Ok(()));
    let Ok(mut part) = gate.split() else {
        panic!(rt; "the split failed");
    };
    let Ok(Some(mut link)) = part.take() else {
        panic!(rt; "the part has a link");
    };
    assert_eq!(rt; link.send(b"abc"), Ok(()));
    part.give_back(link);
    gate.rejoin(part);
    let [back] = gate.given_back(0) else {
        panic!(rt; "one link came back");
    };
    assert_eq!(rt; back.sent(), b"abc".as_slice());
    prints(&rt, alloc, &gate, "MemoryGate { .. }")
}

// A link whose events were read before returns all of them again once a part gives the link. A part
// that is split off past the last script gives no link.
#[test]
fn gives_links_anew(rt: HostRuntime) -> Result<(), Fail> {
    let alloc = rt.alloc();
    let mut heard = link(alloc, vec![in alloc; Event::Slot(7)]?, &[])?;
    let rows: [(Result<Heard, LinkFault>, &[u8]); 2] = [
        (Ok(Heard::Slot(7)), b""),
        (Ok(Heard::End), b""),
    ];
    hear(&rt, &mut heard, &rows);
    let mut gate = gate(&rt, alloc, vec![in alloc; heard]?, &[], &[])?;
    assert_eq!(rt; gate.open(&OPENING), Ok(()));
    let Ok(mut part) = gate.split() else {
        panic!(rt; "the first split failed");
    };
    let Ok(mut past) = gate.split() else {
        panic!(rt; "the second split failed");
    };
    let Ok(Some(mut given)) = part.take() else {
        panic!(rt; "the part has a link");
    };
    hear(&rt, &mut given, &rows);
    assert!(rt; matches!(&past.take(), Ok(None)));
    Ok(())
}

#[test]
fn fails_at_its_numbers(rt: HostRuntime) -> Result<(), Fail> {
    let alloc = rt.alloc();
    let mut gate = gate(&rt, alloc, Vec::new(alloc), &[2], &[1, 3])?;
    assert_eq!(rt; gate.open(&OPENING), Err(GateFault));
    assert_eq!(rt; gate.open(&OPENING), Ok(()));
    assert!(rt; gate.split().is_err());
    let Ok(mut part) = gate.split() else {
        panic!(rt; "the second split failed");
    };
    assert!(rt; matches!(&part.take(), Ok(None)));
    assert!(rt; part.take().is_err());
    Ok(())
}
