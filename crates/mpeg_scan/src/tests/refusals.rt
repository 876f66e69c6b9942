//! Films that are refused, and the point that each is refused at.

use super::joined;
use crate::{ScanRefused, scan};
use std::alloc::Global;
use std::process::Abort;

/// The fault that a film is refused for, or its pictures.
fn outcome(alloc: Global, film: Vec<u8>) -> Option<String> {
    match scan(alloc, film) {
        Ok(film) => format!(in alloc; "{} pictures", film.units.len()).ok(),
        Err(ScanRefused::Fault(fault)) => format!(in alloc; "{fault:?}").ok(),
        Err(ScanRefused::NoMemory) => None,
    }
}

/// Each row has a film's parts, by their letters, and the fault that it is refused for, or its
/// pictures.
fn check_rows(rt: &impl Abort, alloc: Global, rows: &str) {
    for row in rows.split('|') {
        let (letters, want) = row.split_once(' ').expect(rt, row);
        let film = joined(alloc, letters).expect(rt, row);
        let found = outcome(alloc, film).expect(rt, row);
        assert!(rt; found.as_str() == want, "{row}: {found}");
    }
}

#[test]
fn refuses_each_fault(rt: HostRuntime) {
    let alloc = rt.alloc();
    // other streams
    let rows = " Empty|n NoSequence|GIs NoSequence|s NoSequence|Y SystemCode(0)|SM Mpeg2(12)";
    check_rows(&rt, alloc, rows);
    // headers cut short
    let rows = "SGi ShortHeader(20)|SGp ShortHeader(20)|Sg ShortHeader(12)|z ShortHeader(0)";
    check_rows(&rt, alloc, rows);
    // headers with other values
    let rows = "JG BadRate(0, 0)|LG BadRate(0, 9)|SGIsK BadRate(34, 4)|STs BadType(12)|\
        SUs BadType(12)";
    check_rows(&rt, alloc, rows);
    // heads without their parts
    let rows = "SGI PictureWithoutSlices(20)|SIPs PictureWithoutSlices(12)|\
        S HeadWithoutPicture(0)|Ss HeadWithoutPicture(0)|SGIxs HeadTooLong(0)";
    check_rows(&rt, alloc, rows);
    // a header is judged before a later code
    let rows = "zY ShortHeader(0)|JM BadRate(0, 0)|STY BadType(12)|SpI ShortHeader(12)|\
        STI BadType(12)";
    check_rows(&rt, alloc, rows);
    // a header is judged before a later slice
    check_rows(
        &rt,
        alloc,
        "zs ShortHeader(0)|Js BadRate(0, 0)|STys BadType(12)",
    );
    // the first code is judged first
    check_rows(
        &rt,
        alloc,
        "YS SystemCode(0)|MS Mpeg2(0)|Is NoSequence|qS NoSequence",
    );
}

#[test]
fn limits_of_heads_and_groups(rt: HostRuntime) {
    let rows = "SGIws 1 pictures|SRIs 1024 pictures|SRIsI GroupTooLong(14348)|\
        SRII PictureWithoutSlices(14334)";
    check_rows(&rt, rt.alloc(), rows);
}
