//! What `day` and `fair` read and run.

ghost use Rattle.std.specs.Prelude.{◌≡◌, Some, List, ℕ, All, length, IfOk, IfErr, OnOk};
ghost use Rattle.std.specs.List.{Contains};
ghost use Rattle.vod_base.specs.IoState.{File};
ghost use Rattle.admission.specs.Histories.{IsLegal};
ghost use Rattle.cli_args.specs.Ranges.{IsFairRunInRange, IsScriptRunInRange};
ghost use Rattle.day_run.specs.DayLaws.{IsLink};
ghost use Rattle.day_script.specs.Scripts.{AreClients, AreLines};
ghost use Rattle.day_run.specs.Days.{IsDay, link_of};
ghost use Rattle.day_run.specs.FairDays.{IsFair};
ghost use Rattle.day_script.specs.ScriptReading.{HasGoodName};
ghost use Rattle.day_run.specs.Sources.{AreSources, IsSource};
ghost use Rattle.cli_errors.specs.ReadErrors.{IsReadOnly, IsReadError};
ghost use Rattle.day_run.specs.declared.media.Source.{Source};
ghost use Rattle.day_script.specs.declared.scripts.Script.{Script};
ghost use Rattle.cli_errors.specs.declared.errors.InputError.{InputError};
ghost use Rattle.inputs.specs.FileReads.{IsThatName};
ghost use Rattle.offline_commands.specs.Days.{AreHeldAs, HoldsScript, IsDayRefused};
ghost use Rattle.offline_commands.specs.Days.{IsFirstNamedRefused, IsHeldAs, IsNameOf};
ghost use Rattle.offline_commands.specs.Days.{IsNamedRefused, IsScriptOf, IsScriptRefused};
ghost use Rattle.offline_commands.specs.Days.{names_in};

use crate::traces::load_trace;
use cli_args::{FairRun, ScriptRun, profile_of};
use cli_errors::{CliError, InputError};
use day_run::{Day, Source, fair, run_script};
use day_script::{Named, Script, ScriptRefused, SourceKind, read_script};
use inputs::{load_script_film, read_input};
use std::alloc::Global;
use vod_base::{Library, NoMemory};

/// Reads the script of that name.
///
/// # Errors
///
/// [`CliError::Refused`] with [`InputError::NotFound`] where there is no such file, and with
/// [`InputError::BadScript`] and the first bad line where it is no script; [`CliError::StoreFault`]
/// where the library fails; and [`CliError::NoMemory`].
pub fn load_script<'a, L: Library>(
    alloc: Global,
    library: &mut L,
    name: &'a str,
) -> Result<Script, CliError<'a>>
    // leaves: files that were only read
    ensures library { IsReadOnly L.files L.faults library.old library.new }
    // answers: a script whose lines may stand where they stand
    ensures lines { IfOk result (λ script.
        AreLines (length script.named.items) script.lines.items) }
    ensures clients { IfOk result (λ script. AreClients script.lines.items) }
    ensures read { IfOk result (IsScriptOf (L.files library.old) name.entry.now) }
    ensures names { IfOk result (λ script. All HasGoodName script.named.items) }
    // faults: of the script's name, each with its cause
    ensures error { IfErr result (IsReadError (IsThatName name.entry.now) IsScriptRefused
        (L.files library.old) (L.faults library.old) (L.faults library.new)) }
{
    let text = read_input(alloc, library, name)?;
    match read_script(alloc, &text) {
        Ok(script) => Ok(script),
        Err(ScriptRefused::BadScript { line }) => Err(CliError::Refused(
            name,
            InputError::BadScript(line),
        )),
        Err(ScriptRefused::NoMemory) => Err(CliError::NoMemory),
    }
}

/// Reads the films and traces that a script names, and judges them one by one in the order of its
/// lines.
///
/// # Errors
///
/// [`CliError::Refused`] with the first of them that is missing or refused;
/// [`CliError::StoreFault`] where the library fails; and [`CliError::NoMemory`].
pub fn load_sources<'a, L: Library>(
    alloc: Global,
    library: &mut L,
    named: &'a [Named],
) -> Result<Vec<Source>, CliError<'a>>
    // leaves: files that were only read
    ensures library { IsReadOnly L.files L.faults library.old library.new }
    // answers: a source for each name, which is the one that the file holds
    ensures count { IfOk result (λ sources. length sources.items ≡ length named.entry.now) }
    ensures sources { IfOk result (λ sources. AreSources sources.items) }
    ensures held { (held : List File) → L.files library.old ≡ Some held →
        IfOk result (λ sources. AreHeldAs held named.entry.now sources.items) }
    // faults: of one of the names, the first that is refused
    ensures error { IfErr result (IsReadError (Contains (names_in named.entry.now))
        (IsFirstNamedRefused named.entry.now)
        (L.files library.old) (L.faults library.old) (L.faults library.new)) }
{
    let mut sources = Vec::new(alloc);
    for one in named {
        let source = load_source(alloc, library, one)?;
        sources.push(source)?;
    }
    Ok(sources)
}

/// Runs a script.
///
/// # Errors
///
/// [`NoMemory`] alone.
pub fn run_day(
    alloc: Global,
    run: &ScriptRun<'_>,
    script: &Script,
    sources: &[Source],
) -> Result<Day, NoMemory>
    // needs: settings in range, and lines that name these sources alone
    requires run { IsScriptRunInRange run.now }
    requires sources { AreSources sources.now }
    requires lines { AreLines (length sources.now) script.now.lines.items }
    // answers: the day's one text and its journal, which is legal
    ensures day { IfOk result (λ day.
        IsDay (link_of run.now.capacity run.now.journal run.now.slot sources.now)
        script.now.lines.items day.text.items day.journal.items) }
    ensures legal { IfOk result (λ day. IsLegal run.now.capacity day.journal.items) }
    ensures link { OnOk result
        (IsLink (link_of run.now.capacity run.now.journal run.now.slot sources.now)) }
{
    let profile = profile_of(alloc, run.capacity.as_slice())?;
    run_script(alloc, script, sources, profile, run.journal, run.slot)
}

/// Runs drawn plays.
///
/// # Errors
///
/// [`NoMemory`] alone.
pub fn run_fair(alloc: Global, run: &FairRun) -> Result<Day, NoMemory>
    requires { IsFairRunInRange run.now }
    ensures fair { IfOk result (λ day.
        IsFair run.now.capacity run.now.seed run.now.plays day.text.items day.journal.items) }
    ensures legal { IfOk result (λ day. IsLegal run.now.capacity day.journal.items) }
{
    let profile = profile_of(alloc, run.capacity.as_slice())?;
    fair(alloc, run.seed, run.plays, profile)
}

/// A law: a script that a library holds, with each film and trace that it names, isn't also
/// refused. So status 3 comes only where there is no day to run.
pub fn law_playable_script_is_not_refused()
    ensures { (held : List File) (name : List ℕ) (script : Script) (sources : List Source)
        (input : List ℕ) (fault : InputError) → HoldsScript held name script →
        AreHeldAs held script.named.items sources → IsDayRefused name held input fault → ⊥ }
{}

/// A film or trace that a script names.
fn load_source<'a, L: Library>(
    alloc: Global,
    library: &mut L,
    named: &'a Named,
) -> Result<Source, CliError<'a>>
    ensures library { IsReadOnly L.files L.faults library.old library.new }
    ensures source { IfOk result IsSource }
    ensures held { (held : List File) → L.files library.old ≡ Some held →
        IfOk result (IsHeldAs held named.entry.now) }
    ensures error { IfErr result (IsReadError (IsNameOf named.entry.now)
        (IsNamedRefused named.entry.now)
        (L.files library.old) (L.faults library.old) (L.faults library.new)) }
{
    let name = named.name.as_str();
    match named.kind {
        SourceKind::Film => {
            // Held in memory, so that the work of a slot makes no system call for the film.
            let film = load_script_film(alloc, library, name)?;
            Ok(Source::Film(film))
        }
        SourceKind::Trace => {
            let sizes = load_trace(alloc, library, name)?;
            Ok(Source::Trace(sizes))
        }
    }
}
