//! Methods, topics, required options and the refusals of faults, by worked values.

use super::*;
use rtsp_text::{Request, RequestFault};
use std::process::Abort;
use wire_curve::{CurveFault, CurveRefused};

/// What the rows of a table are about.
#[derive(Clone, Copy)]
enum Kind {
    Method,
    Topic,
    Option,
}

/// The methods.
const ALL: [Method; 7] = [
    Method::Options,
    Method::Describe,
    Method::Setup,
    Method::Play,
    Method::Pause,
    Method::Teardown,
    Method::GetParameter,
];

/// What the bodies of a table ask for.
const TOPICS: [Topic; 7] = [
    Topic::Nothing,
    Topic::Booked,
    Topic::Booked,
    Topic::Offer,
    Topic::Unknown,
    Topic::Unknown,
    Topic::Unknown,
];

/// Whether the option that stands after a head, if one does, is the one that the head requires.
fn is_required(row: &str) -> bool {
    let (head, option) = row.split_once('@').unwrap_or((row, ""));
    let request = Request {
        method: b"OPTIONS",
        url: b"*",
        sequence: 1,
        head: head.as_bytes(),
        body: b"",
    };
    option_of(&request) == option.as_bytes()
        && required_options(&request).is_none() == option.is_empty()
}

/// Whether what is read of the row at this place is right.
fn is_right(kind: Kind, place: usize, row: &str) -> bool {
    match kind {
        Kind::Method => read_method(row.as_bytes()) == ALL.get(place).copied(),
        Kind::Topic => Some(read_topic(row.as_bytes())) == TOPICS.get(place).copied(),
        Kind::Option => is_required(row),
    }
}

/// Compares each row of a table.
fn check(rt: &impl Abort, kind: Kind, rows: &str) {
    for (place, row) in rows.split('|').enumerate() {
        assert!(rt; is_right(kind, place, row), "at {row:?}");
    }
}

/// The names of the methods in their order, and then texts that name none.
const NAMES: &str = "OPTIONS|DESCRIBE|SETUP|PLAY|PAUSE|TEARDOWN|GET_PARAMETER|\
    SET_PARAMETER|RECORD|play|";

#[test]
fn reads_methods(rt: HostRuntime) {
    check(&rt, Kind::Method, NAMES);
}

#[test]
fn reads_topics(rt: HostRuntime) {
    check(
        &rt,
        Kind::Topic,
        "|x-Booked|x-Booked\r\n|x-Offer\n|x-Offer\r\n\r\n|x-Offers|\r\n",
    );
}

#[test]
fn names_the_refusal_of_a_fault(rt: HostRuntime) {
    assert!(rt; Refusal::from(RequestFault::BadLine) == Refusal::BadRequest);
    assert!(rt; Refusal::from(RequestFault::BadVersion) == Refusal::Version);
    assert!(rt; Refusal::from(RequestFault::NoSequenceNumber) == Refusal::BadRequest);
    let few = CurveFault::NoPictures;
    assert!(rt; Refusal::from(CurveRefused::Fault(few)) == Refusal::Range);
    assert!(rt; Refusal::from(CurveRefused::NoMemory) == Refusal::Memory);
}

/// Whether this is the row of DESCRIBE.
fn is_describe(row: &MethodRow) -> bool {
    row.method == Method::Describe
        && row.name == "DESCRIBE"
        && row.session == SessionNeed::Ignored
        && row.film == FilmNeed::Any
        && row.state == StateNeed::Any
}

/// Whether this is the row of PLAY.
fn is_play(row: &MethodRow) -> bool {
    row.method == Method::Play
        && row.name == "PLAY"
        && row.session == SessionNeed::MustBeNamed
        && row.film == FilmNeed::Own
        && row.state == StateNeed::NoRangeWhilePlaying
}

#[test]
fn reads_the_row_of_a_method(rt: HostRuntime) {
    assert!(rt; is_describe(&row_of(Method::Describe)));
    assert!(rt; is_play(&row_of(Method::Play)));
}

/// Whether the text at a place of the list is this one.
fn is_listed(parts: &[&[u8]], place: usize, want: &str) -> bool {
    match parts.get(place) {
        Some(part) => *part == want.as_bytes(),
        None => false,
    }
}

#[test]
fn lists_the_names_of_the_methods(rt: HostRuntime) {
    let parts = listed_names();
    assert!(rt; is_listed(&parts, 0, ""));
    assert!(rt; is_listed(&parts, 1, "OPTIONS"));
    assert!(rt; is_listed(&parts, 12, ", "));
    assert!(rt; is_listed(&parts, 13, "GET_PARAMETER"));
}

const OPTIONS: &str = "\
    OPTIONS * RTSP/1.0\r\nRequire: x-key\r\nProxy-Require: y\r\n\r\n@x-key|\
    OPTIONS * RTSP/1.0\r\nproxy-require: y\r\n\r\n@y|\
    OPTIONS * RTSP/1.0\r\nCSeq: 1\r\n\r\n";

#[test]
fn reads_required_options(rt: HostRuntime) {
    check(&rt, Kind::Option, OPTIONS);
}
