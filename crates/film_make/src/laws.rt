//! What is true of every generated trace, film and system stream.

ghost use Rattle.std.specs.Prelude.{◌≡◌, ◌≢◌, ℕ, ◌+◌, ◌*◌, ◌%◌, ◌<◌, ◌≤◌, ◌++◌, [], ◌∷◌, List};
ghost use Rattle.std.specs.Prelude.{decimal, drop, flat_map, length, take};
ghost use Rattle.std.specs.Int.{IsInRange};
ghost use Rattle.mpeg_scan.specs.StandardUnits.{backward_vector, forward_vector};
ghost use Rattle.mpeg_scan.specs.StandardUnits.{picture_coding_type, temporal_reference};
ghost use Rattle.sys_demux.specs.SystemStreams.{IsSystem};
ghost use Rattle.film_make.specs.Film.{film_of, picture_of, pictures_of, sequence_and_group};
ghost use Rattle.film_make.specs.Headers.{IsGroupHeader, IsSequenceHeader, field_of};
ghost use Rattle.film_make.specs.Slices.{EndsWithSlices};
ghost use Rattle.film_make.specs.SystemStream.{system_of};
ghost use Rattle.film_make.specs.Trace.{sizes_of, trace_of, trace_size};

/// The sizes of a trace: as many as pictures were asked for, the first of each twelve from 800 to
/// 7,996 bytes, every other from 200 to 1,999, where each size comes of some word; fewer pictures
/// have the first of them. Its text has them line by line.
pub fn law_trace_sizes_are_in_range()
    // how many sizes, and their ranges
    ensures count { (words : ℕ → ℕ) (n : ℕ) → length (sizes_of words n) ≡ n }
    ensures first { (words : ℕ → ℕ) (k : ℕ) → k % 12 ≡ 0 → IsInRange 800 7996 (trace_size words k) }
    ensures other { (words : ℕ → ℕ) (k : ℕ) → k % 12 ≢ 0 → IsInRange 200 1999 (trace_size words k) }
    // each size of the range comes, and a longer trace begins with a shorter one
    ensures each { (k size : ℕ) → k % 12 ≢ 0 → IsInRange 200 1999 size →
        (words : ℕ → ℕ) × (trace_size words k ≡ size) }
    ensures front { (words : ℕ → ℕ) (m n : ℕ) → m ≤ n →
        take m (sizes_of words n) ≡ sizes_of words m }
    // the text
    ensures lines { (words : ℕ → ℕ) (n : ℕ) →
        trace_of words n ≡ flat_map (λ size. decimal size ++ 10 ∷ []) (sizes_of words n) }
{}

/// A film with a picture begins with a sequence and a group header, and the headers of a film say
/// what is meant: pictures of 352 by 288 square samples, 25 a second, in closed groups; and of the
/// twelve pictures of a group, in the order of the stream, the types (1 is I, 2 P, 3 B), the places
/// in the order of showing, and the vectors' fields (0 full-pel, f-code 1).
pub fn law_film_headers_are_standard()
    // the headers before a group
    ensures begins { (words : ℕ → ℕ) (n : ℕ) → 1 ≤ n →
        take 20 (film_of words n) ≡ sequence_and_group }
    ensures sequence { IsSequenceHeader (take 12 sequence_and_group) }
    ensures group { IsGroupHeader (drop 12 sequence_and_group) }
    // the fields of the twelve picture headers
    ensures types { field_of picture_coding_type ≡
        1 ∷ 2 ∷ 3 ∷ 2 ∷ 3 ∷ 2 ∷ 3 ∷ 2 ∷ 3 ∷ 2 ∷ 3 ∷ 2 ∷ [] }
    ensures shown { field_of temporal_reference ≡
        0 ∷ 2 ∷ 1 ∷ 4 ∷ 3 ∷ 6 ∷ 5 ∷ 8 ∷ 7 ∷ 10 ∷ 9 ∷ 11 ∷ [] }
    ensures forward { field_of forward_vector ≡
        0 ∷ 1 ∷ 1 ∷ 1 ∷ 1 ∷ 1 ∷ 1 ∷ 1 ∷ 1 ∷ 1 ∷ 1 ∷ 1 ∷ [] }
    ensures backward { field_of backward_vector ≡
        0 ∷ 0 ∷ 1 ∷ 0 ∷ 1 ∷ 0 ∷ 1 ∷ 0 ∷ 1 ∷ 0 ∷ 1 ∷ 0 ∷ [] }
{}

/// The bytes of a picture with its headers: four slices, each with its code and 300 to 1,499 bytes
/// of an I picture, 60 to 459 of a P picture and 30 to 229 of a B picture.
pub fn law_picture_sizes_are_bounded()
    ensures intra { (words : ℕ → ℕ) (k : ℕ) → k % 12 ≡ 0 →
        IsInRange (28 + 4 * (4 + 300)) (28 + 4 * (4 + 1499)) (length (picture_of words k)) }
    ensures predicted { (words : ℕ → ℕ) (k : ℕ) → k % 12 % 2 ≡ 1 →
        IsInRange (9 + 4 * (4 + 60)) (9 + 4 * (4 + 459)) (length (picture_of words k)) }
    ensures bidirectional { (words : ℕ → ℕ) (k : ℕ) → 0 < k % 12 → k % 12 % 2 ≡ 0 →
        IsInRange (9 + 4 * (4 + 30)) (9 + 4 * (4 + 229)) (length (picture_of words k)) }
{}

/// A picture is its headers and four slices, and nothing else: with those of its sequence and group
/// 28 bytes of headers, else 9, and slices 1 to 4 in order, each with its start code and bytes
/// among which no other start code stands.
pub fn law_picture_has_four_slices()
    ensures first { (words : ℕ → ℕ) (k : ℕ) → k % 12 ≡ 0 →
        EndsWithSlices 28 4 (picture_of words k) }
    ensures other { (words : ℕ → ℕ) (k : ℕ) → k % 12 ≢ 0 →
        EndsWithSlices 9 4 (picture_of words k) }
{}

/// A film of fewer pictures is a prefix of a film of more, except its end.
pub fn law_shorter_film_is_a_prefix()
    ensures { (words : ℕ → ℕ) (m n : ℕ) → m ≤ n →
        (rest : List ℕ) × (pictures_of words n ≡ pictures_of words m ++ rest) }
{}

/// A generated system stream is one, and its video is the film that was wrapped.
pub fn law_system_stream_unwraps_to_its_film()
    ensures { (video : List ℕ) → IsSystem (system_of video) video }
{}
