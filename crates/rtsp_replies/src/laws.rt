//! Laws of replies, in the terms of RFC 2326.

ghost use Rattle.std.specs.Prelude.{◌≡◌, ℕ};
ghost use Rattle.rtsp_text.specs.Replies.{phrase};
ghost use Rattle.rtsp_methods.specs.declared.refusals.Refusal.{Refusal};
ghost use Rattle.rtsp_replies.specs.PublicLaws.{IsPublicTold};
ghost use Rattle.rtsp_replies.specs.Phrases.{phrase_of};
ghost use Rattle.rtsp_replies.specs.Replies.{code_of, public_text};

/// Each refusal has the phrase for its cause, in this project's own spelling: RFC 2326 section
/// 7.1.1 spells four of the twelve otherwise, and recommends its phrases only.
pub fn law_refusals_have_their_phrases()
    ensures { (refusal : Refusal) → phrase (code_of refusal) ≡ phrase_of refusal }
{}

/// The reply to an OPTIONS names the methods by which requests are judged (RFC 2326 section 10.1).
pub fn law_options_reply_lists_all_methods()
    ensures { (sequence : ℕ) → IsPublicTold sequence (public_text sequence) }
{}
