//! Laws of the definitions, in the terms of their subject.

ghost use Rattle.std.specs.Prelude.{◌≡◌, ◌≢◌, ◌+◌, ◌-◌, ◌<◌, ◌^◌, ◌++◌, ◌∷◌, ◌↔◌, ℕ, true, List};
ghost use Rattle.std.specs.Prelude.{All, Contains, None, Some, codes, decimal, length, replicate};
ghost use Rattle.std.specs.Prelude.{slice_index};
ghost use Rattle.vod_base.specs.Blanks.{IsTrimmed, is_blank, without_blanks};
ghost use Rattle.vod_base.specs.Lines.{IsLine};
ghost use Rattle.vod_base.specs.Links.{IoEvent, sends};
ghost use Rattle.vod_base.specs.MemoryLinks.{sent_of};
ghost use Rattle.vod_base.specs.Names.{good_name, IsPlainFileName};
ghost use Rattle.vod_base.specs.Numbers.{number_of};
ghost use Rattle.vod_base.specs.IoState.{File, file_named};

/// A text is read as a number of 64 bits exactly if it is the number's decimal text. Leading zeros
/// are allowed.
pub fn law_decimal_text_is_read()
    ensures { (text : List ℕ) (number : ℕ) → number < 2 ^ 64 → (number_of text ≡ Some number)
        ↔ ((zeros : ℕ) × (text ≡ replicate zeros 48 ++ decimal number)) }
{}

/// A good name is one that is safe as the name of a file in a folder.
pub fn law_good_name_is_a_safe_file_name()
    ensures { (name : List ℕ) → good_name name ≡ true → IsPlainFileName name }
{}

/// Blanks are the space and the tab, and no other byte.
pub fn law_blanks_are_space_and_tab()
    ensures { (byte : ℕ) → (is_blank byte ≡ true) ↔ Contains (codes " \t") byte }
{}

/// A trimmed text is the text without the spaces and tabs around it, and loses nothing else.
pub fn law_trim_removes_outer_blanks_only()
    ensures { (text : List ℕ) → IsTrimmed text (without_blanks text) }
{}

/// A line is its text and the LF or the CR LF that ends it: a CR directly before the LF is no part
/// of the text, each other CR is. At one place one line begins.
pub fn law_line_ends_at_lf_or_crlf()
    ensures carriage { (front text rest : List ℕ) → All (λ byte. byte ≢ 10) text →
        IsLine (front ++ text ++ (codes "\r\n" ++ rest)) (length front)
        (length front + length text) (length front + length text + 2) }
    ensures feed { (front text rest : List ℕ) → All (λ byte. byte ≢ 10) text →
        (0 < length text → slice_index text (length text - 1) ≢ 13) →
        IsLine (front ++ text ++ (codes "\n" ++ rest)) (length front)
        (length front + length text) (length front + length text + 1) }
    ensures one { (bytes : List ℕ) (at one other next after : ℕ) → IsLine bytes at one next →
        IsLine bytes at other after → (one ≡ other) × (next ≡ after) }
{}

/// A name names the first file that has it, and no file if none has it.
pub fn law_first_file_of_a_name_counts()
    ensures first { (before after : List File) (name bytes : List ℕ) →
        All (λ file. file.name ≢ name) before →
        file_named (before ++ record { name = name; bytes = bytes } ∷ after) name ≡ Some bytes }
    ensures none { (files : List File) (name : List ℕ) → All (λ file. file.name ≢ name) files →
        file_named files name ≡ None }
{}

/// The sent bytes in the history that a link exposes are those of its sends, in order.
pub fn law_sent_bytes_are_in_order()
    ensures bytes { (bytes : List ℕ) → sent_of (sends bytes) ≡ bytes }
    ensures order { (one other : List IoEvent) →
        sent_of (one ++ other) ≡ sent_of one ++ sent_of other }
{}
