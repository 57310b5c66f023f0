//! Texts.
ghost use Rattle.std.specs.Prelude.{◌≡◌, ◌↔◌, ℕ, List, true, IsUtf8};
ghost use Rattle.fb_model.specs.Utf8.{is_utf8_text};

/// The test of bytes passes just those that are the UTF-8 of some characters.
pub fn texts_are_utf8()
    ensures { (bytes : List ℕ) → (is_utf8_text bytes ≡ true) ↔ IsUtf8 bytes }
{}
