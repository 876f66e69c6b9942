//! Laws of a script's text, each a contract without a body.

ghost use Rattle.std.specs.Prelude.{ℕ, List, ◌≡◌, ◌≢◌, ◌<◌, ◌+◌, ◌-◌, ◌++◌, ◌∷◌, [], false, true};
ghost use Rattle.std.specs.Prelude.{All, length, slice_index};
ghost use Rattle.std.specs.List.{list_all};
ghost use Rattle.day_script.specs.declared.scripts.Line.{Line};
ghost use Rattle.day_script.specs.declared.scripts.Script.{Script};
ghost use Rattle.day_script.specs.TextLines.{lines_of_script};
ghost use Rattle.day_script.specs.ScriptReading.{IsBadLine, IsScript, Name, Reading, lines_read};
ghost use Rattle.day_script.specs.ScriptReading.{names_of};
ghost use Rattle.day_script.specs.Scripts.{latest_slot};
ghost use Rattle.day_script.specs.ScriptText.{AreWritten, IsInWords, MayStand, is_verb, is_word};
ghost use Rattle.day_script.specs.ScriptText.{line_text, names_used, script_text, words_text};

/// A script that is spelled line by line is read as that script. A line whose numbers are out of
/// their ranges, whose name is none that a file may have, whose slot isn't later, or whose first
/// word is none of the six verbs with its number of words, is named as the first bad one, whatever
/// stands after it.
pub fn law_written_script_reads_back()
    ensures read { (script : Script) →
        AreWritten (names_of script.named.items) script.lines.items →
        names_used script.lines.items ≡ length (names_of script.named.items) →
        IsScript (script_text (names_of script.named.items) script.lines.items) script }
    ensures range { (names : List Name) (lines : List Line) (line : Line) (rest : List ℕ) →
        AreWritten names lines → IsInWords names line → ¬ MayStand (latest_slot lines) names line →
        IsBadLine (script_text names lines ++ (line_text names line ++ 10 ∷ rest))
        (length lines + 1) }
    ensures verb { (names : List Name) (lines : List Line) (verb : List ℕ)
        (words : List (List ℕ)) (rest : List ℕ) → AreWritten names lines →
        list_all is_word (verb ∷ words) ≡ true → 0 < length (words_text (verb ∷ words)) →
        is_verb (length (verb ∷ words)) verb ≡ false →
        IsBadLine (script_text names lines ++ (words_text (verb ∷ words) ++ 10 ∷ rest))
        (length lines + 1) }
{}

/// A line of a script is ended by LF or CR LF, the last one also by the end of the text; an empty
/// line says nothing.
pub fn law_script_lines_end_at_line_feeds()
    ensures ended { (line rest : List ℕ) → All (λ b. b ≢ 10) line →
        slice_index line (length line - 1) ≢ 13 →
        lines_of_script (line ++ 10 ∷ rest) ≡ line ∷ lines_of_script rest }
    ensures returned { (line rest : List ℕ) → All (λ b. b ≢ 10) line →
        lines_of_script (line ++ 13 ∷ 10 ∷ rest) ≡ line ∷ lines_of_script rest }
    ensures last { (line : List ℕ) → All (λ b. b ≢ 10) line → line ≢ [] →
        lines_of_script line ≡ line ∷ [] }
    ensures empty { (reading : Reading) (before after : List (List ℕ)) →
        lines_read reading (before ++ [] ∷ after) ≡ lines_read reading (before ++ after) }
{}
