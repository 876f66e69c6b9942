//! What a reader of the output learns from it: laws over the texts of a server and a client.

ghost use Rattle.std.specs.Prelude.{◌≡◌, ◌<◌, ◌^◌, ℕ, List, length};
ghost use Rattle.admission.specs.declared.entries.Entry.{Entry};
ghost use Rattle.vodserve.specs.ServerOutput.{served_text};
ghost use Rattle.rtsp_client.specs.Meters.{watched_in};
ghost use Rattle.rtsp_client.specs.ClientHistory.{History};
ghost use Rattle.rtsp_client.specs.declared.watch_request.Wish.{Wish};
ghost use Rattle.vodserve.specs.TextLaws.{TellsPlay, TellsServed};
ghost use Rattle.vodserve.specs.WatchSpec.{IsShortWatched, watched_text};

/// A law: the last line of a server's text has the number of connections that were served, and the
/// number of entries of its journal.
pub fn law_last_line_determines_counts()
    ensures line { (entries : List Entry) (connections : ℕ) → connections < 2 ^ 64 →
        length entries < 2 ^ 64 →
        TellsServed connections (length entries) (served_text entries connections) }
    ensures connections { (entries entries' : List Entry) (connections connections' : ℕ) →
        connections < 2 ^ 64 → connections' < 2 ^ 64 → length entries < 2 ^ 64 →
        length entries' < 2 ^ 64 →
        served_text entries connections ≡ served_text entries' connections' →
        connections ≡ connections' }
    ensures entries { (entries entries' : List Entry) (connections connections' : ℕ) →
        connections < 2 ^ 64 → connections' < 2 ^ 64 → length entries < 2 ^ 64 →
        length entries' < 2 ^ 64 →
        served_text entries connections ≡ served_text entries' connections' →
        length entries ≡ length entries' }
{}

/// A law: the line that a client prints at a film's end has, each by its key, what it received of
/// the film and what the meter of the buffer read.
pub fn law_watch_line_determines_result()
    ensures { (wish : Wish) (history : History) → IsShortWatched (watched_in wish history) →
        TellsPlay wish history (watched_text (watched_in wish history)) }
{}
