//! The methods that are spoken: one table, a row for each.

ghost use Rattle.std.specs.Prelude.{◌≡◌, ◌≢◌, ◌≤◌, true, MatchOption, flat_map, length, map};
ghost use Rattle.std.specs.Prelude.{sum_by};
ghost use Rattle.std.specs.List.{list_all};
ghost use Rattle.rtsp_text.specs.Lines.{is_one_line};
ghost use Rattle.rtsp_methods.specs.declared.methods.Method.{Method};
ghost use Rattle.rtsp_methods.specs.Methods.{IsRowOf, all_methods, name_list, name_of};
ghost use Rattle.rtsp_methods.specs.Methods.{separator_before, values_in, values_of};

/// A method of RTSP that is spoken (RFC 2326 section 10).
#[derive(Clone, Copy, Debug, PartialEq, Eq)]
pub enum Method {
    /// OPTIONS (section 10.1).
    Options,
    /// DESCRIBE (section 10.2).
    Describe,
    /// SETUP (section 10.4).
    Setup,
    /// PLAY (section 10.5).
    Play,
    /// PAUSE (section 10.6).
    Pause,
    /// TEARDOWN (section 10.7).
    Teardown,
    /// GET_PARAMETER (section 10.8).
    GetParameter,
}

/// What a method needs of the Session header of its request (RFC 2326 section 12.37).
#[derive(Clone, Copy, Debug, PartialEq, Eq)]
pub enum SessionNeed {
    /// The header isn't read.
    Ignored,
    /// The header may be missing; where it stands, it names the session.
    MayBeNamed,
    /// The header names the session.
    MustBeNamed,
}

/// Which films a method can be asked of.
#[derive(Clone, Copy, Debug, PartialEq, Eq)]
pub enum FilmNeed {
    /// Any film of the server.
    Any,
    /// The session's film, where there is a session.
    Own,
}

/// In which states of a session a method is valid.
#[derive(Clone, Copy, Debug, PartialEq, Eq)]
pub enum StateNeed {
    /// In each state.
    Any,
    /// Before there is a session.
    NoSession,
    /// While a play is sent.
    Playing,
    /// In each state, but while a play is sent only without a Range.
    NoRangeWhilePlaying,
}

/// What holds for a method: a row of [`METHODS`].
#[derive(Clone, Copy, Debug)]
pub struct MethodRow {
    /// The method.
    pub method: Method,
    /// Its name on the wire.
    pub name: &'static str,
    /// What it needs of the Session header.
    pub session: SessionNeed,
    /// Which films it can be asked of.
    pub film: FilmNeed,
    /// In which states it is valid.
    pub state: StateNeed,
}

/// The methods in the order of [`Method`], in which the reply to OPTIONS lists them.
pub const METHODS: [MethodRow; 7] = [
    // RFC 2326 section 10.1: it may be asked at any time, and of `*`.
    MethodRow {
        method: Method::Options,
        name: "OPTIONS",
        session: SessionNeed::Ignored,
        film: FilmNeed::Any,
        state: StateNeed::Any,
    },
    // Section 10.2: any film can be described, also during a session of another one.
    MethodRow {
        method: Method::Describe,
        name: "DESCRIBE",
        session: SessionNeed::Ignored,
        film: FilmNeed::Any,
        state: StateNeed::Any,
    },
    // Section 10.4: it makes the session. One session a connection, of one film: a second is 455.
    MethodRow {
        method: Method::Setup,
        name: "SETUP",
        session: SessionNeed::MayBeNamed,
        film: FilmNeed::Own,
        state: StateNeed::NoSession,
    },
    // Section 10.5. No queue of plays: it would need reservations for plays without a start yet.
    MethodRow {
        method: Method::Play,
        name: "PLAY",
        session: SessionNeed::MustBeNamed,
        film: FilmNeed::Own,
        state: StateNeed::NoRangeWhilePlaying,
    },
    // Section 10.6. A play that sent its last byte is over, so a PAUSE is then 455.
    MethodRow {
        method: Method::Pause,
        name: "PAUSE",
        session: SessionNeed::MustBeNamed,
        film: FilmNeed::Own,
        state: StateNeed::Playing,
    },
    // Section 10.7.
    MethodRow {
        method: Method::Teardown,
        name: "TEARDOWN",
        session: SessionNeed::MustBeNamed,
        film: FilmNeed::Own,
        state: StateNeed::Any,
    },
    // Section 10.8: of use before there is a session, since a look needs none.
    MethodRow {
        method: Method::GetParameter,
        name: "GET_PARAMETER",
        session: SessionNeed::MayBeNamed,
        film: FilmNeed::Own,
        state: StateNeed::Any,
    },
];

/// How many parts [`listed_names`] has: a name and what stands before it, for each method.
pub const NAME_PARTS: usize = 2 * METHODS.len();

/// Reads the method of a request. None where it isn't spoken, as in another case of letters.
pub fn read_method(text: &[u8]) -> Option<Method>
    ensures { MatchOption result ((method : Method) →
        text.now ≢ name_of method) (λ method. text.now ≡ name_of method) }
{
    for row in rows() {
        // Byte by byte: RFC 2326 section 10 takes names of methods in their own case alone.
        if text == row.name.as_bytes() {
            return Some(row.method);
        }
    }
    None
}

/// Returns the row of a method.
pub fn row_of(method: Method) -> MethodRow
    ensures { IsRowOf method result }
{
    METHODS[method as usize]
}

/// The rows of the table.
fn rows() -> &'static [MethodRow]
    ensures { map values_in result.now ≡ map values_of all_methods }
{
    &METHODS
}

/// Returns the names of all methods as the reply to OPTIONS lists them, in parts: a comma and a
/// blank stand before each name but the first (RFC 2326 section 12.28).
pub fn listed_names() -> [&'static [u8]; NAME_PARTS]
    ensures text { flat_map (λ part. part.now) result ≡ name_list }
    ensures line { list_all (λ part. is_one_line part.now) result ≡ true }
    ensures short { sum_by (λ part. length part.now) result ≤ 100 }
{
    let mut parts: [&'static [u8]; NAME_PARTS] = [b""; NAME_PARTS];
    for (place, row) in rows().iter().enumerate() {
        parts[2 * place] = separator_before(place);
        parts[2 * place + 1] = row.name.as_bytes();
    }
    parts
}

/// What stands before the name of a place in a list of names.
fn separator_before(place: usize) -> &'static [u8]
    ensures { result.now ≡ separator_before place }
{
    if place == 0 { b"" } else { b", " }
}
