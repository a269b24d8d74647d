//! Laws over the definitions, each the contract of a function that does nothing.

ghost use Rattle.std.specs.Prelude.{◌≡◌, None, Ok};
ghost use Rattle.soup.specs.declared.raw.Raw.{Raw};
ghost use Rattle.soup.specs.Limits.{IsRaw};
ghost use Rattle.off_text.specs.Grammar.{reads};
ghost use Rattle.off_text.specs.Text.{IsOfTriples, off_text};

/// The text of a soup is read again as the same soup.
pub fn read_back_law()
    ensures { (raw : Raw) → IsRaw raw → IsOfTriples raw → reads None (off_text raw) ≡ Ok raw }
{}
