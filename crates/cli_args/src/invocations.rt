//! What the arguments ask for.

ghost use Rattle.std.specs.Prelude.{◌≡◌};
ghost use Rattle.cli_args.specs.InvocationViews.{source_name, source_read};

use crate::capacity_steps::Steps;

/// What the arguments of the command line ask for.
#[derive(Debug, Drop)]
pub enum Invocation<'a> {
    /// `--help` alone.
    Help,
    /// `--version` alone.
    Version,
    /// `plan`: the plan of a trace or film.
    Plan(ClientParams<'a>),
    /// `check`: whether a certificate, by its name, is that of the best plan.
    Check(ClientParams<'a>, &'a str),
    /// `scan`: the units of a film, by its name.
    Scan(&'a str),
    /// `make`: a trace, film or system stream from a number, with 1 to 100,000 pictures.
    Make(MediaKind, u64, u32),
    /// `day`: a script of plays over one link.
    Day(ScriptRun<'a>),
    /// `fair`: drawn plays over one link.
    Fair(FairRun),
    /// `serve`: films over RTSP.
    Serve(ServeArgs<'a>),
    /// `watch`: a film from a server.
    Watch(WatchArgs<'a>),
}

/// What is planned, by its name.
#[derive(Clone, Copy, Debug, PartialEq, Eq)]
pub enum PlanSource<'a> {
    /// A trace, with one picture a slot.
    Trace(&'a str),
    /// A film, in slots of this length, from 360 to 360,000 in 1/360,000 second.
    Film(&'a str, u32),
}

impl<'a> PlanSource<'a> {
    /// Returns its name in the library.
    pub fn name(&self) -> &'a str
        ensures { result.now ≡ source_name (source_read self.now) }
    {
        match self {
            PlanSource::Trace(name) => name,
            PlanSource::Film(name, _) => name,
        }
    }
}

/// A trace or film and the client that it is planned for.
#[derive(Clone, Copy, Debug)]
pub struct ClientParams<'a> {
    /// What is planned.
    pub source: PlanSource<'a>,
    /// The client's buffer, from 1 to 2^42 bytes.
    pub buffer: u64,
    /// The start delay, from 0 to 10,000 slots.
    pub delay: u64,
}

/// What `make` generates.
#[derive(Clone, Copy, Debug, PartialEq, Eq)]
pub enum MediaKind {
    /// An MPEG-1 video stream (ISO/IEC 11172-2).
    Film,
    /// The sizes of pictures, in bytes.
    Trace,
    /// A system stream (ISO/IEC 11172-1) that carries the film.
    System,
}

/// Where a server listens, and its workers.
#[derive(Clone, Copy, Debug, PartialEq, Eq)]
pub struct ListenSettings {
    /// The port, from 1 to 65,535.
    pub port: u16,
    /// Whether it listens at all addresses, and not at 127.0.0.1 alone.
    pub all: bool,
    /// How many workers it has, from 1 to 256.
    pub workers: u32,
    /// How many connections each worker takes; 0 is no end.
    pub connections: u64,
}

/// The client for which a play is planned where its request names no other, and the length of a
/// slot.
#[derive(Clone, Copy, Debug, PartialEq, Eq)]
pub struct PlanSettings {
    /// The client's buffer, from 1 to 2^42 bytes.
    pub buffer: u64,
    /// The start delay, from 0 to 10,000 slots.
    pub delay: u64,
    /// The length of a slot, from 360 to 360,000 in 1/360,000 second.
    pub slot: u32,
}

/// A server's films, link and connections.
#[derive(Debug, Drop)]
pub struct ServeArgs<'a> {
    /// The arguments of the command. Those of the key `film` name its films, 1 to 64, no two alike.
    pub words: &'a [String],
    /// The steps of its link's capacity.
    pub capacity: Steps,
    /// The most entries of its journal, from 2 to 1,048,576.
    pub journal: u64,
    /// Where it listens.
    pub listening: ListenSettings,
    /// What it plans by.
    pub planning: PlanSettings,
}

/// A script and the link that it runs over.
#[derive(Debug, Drop)]
pub struct ScriptRun<'a> {
    /// The name of the script.
    pub script: &'a str,
    /// The steps of the link's capacity.
    pub capacity: Steps,
    /// The most entries of the journal, from 2 to 1,048,576.
    pub journal: u64,
    /// The length of a slot, from 360 to 360,000 in 1/360,000 second.
    pub slot: u32,
}

/// Drawn plays and the link that they run over.
#[derive(Debug, Drop)]
pub struct FairRun {
    /// The number that the generator begins with.
    pub seed: u64,
    /// How many turns are run, from 1 to 100,000.
    pub plays: u32,
    /// The steps of the link's capacity.
    pub capacity: Steps,
}

/// A film that is watched, and its server at 127.0.0.1.
#[derive(Clone, Copy, Debug)]
pub struct WatchArgs<'a> {
    /// The name of the film.
    pub film: &'a str,
    /// The server's port, from 1 to 65,535.
    pub port: u16,
    /// The client's buffer and start delay, and the length of a slot.
    pub planning: PlanSettings,
}
