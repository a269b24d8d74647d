//! Names of files.

ghost use Rattle.std.specs.Prelude.{◌≡◌, map, IfOk};
ghost use Rattle.std.specs.List.{list_any};
ghost use Rattle.std.specs.Str.{bytes_eq};
ghost use Rattle.tet_words.specs.Facts.{AreNames};
ghost use Rattle.tet_words.specs.Names.{is_bad, has_equal, check_names};

use crate::fault::WordFault;

fn is_bad(name: &str) -> bool
    ensures { result ≡ is_bad name.now }
{
    name.is_empty() || name == "-"
}

fn has_bad(names: &[&str]) -> bool
    ensures { result ≡ list_any is_bad (map (λ n. n.now) names.now) }
{
    for name in names {
        if is_bad(name) {
            return true;
        }
    }
    false
}

fn stands_in(name: &str, names: &[&str]) -> bool
    ensures { result ≡ list_any (bytes_eq name.now) (map (λ n. n.now) names.now) }
{
    for other in names {
        if name == *other {
            return true;
        }
    }
    false
}

fn has_equal(names: &[&str]) -> bool
    ensures { result ≡ has_equal (map (λ n. n.now) names.now) }
{
    for i in 0..names.len() {
        if stands_in(names[i], &names[i + 1..]) {
            return true;
        }
    }
    false
}

/// Tests the names of a command.
pub fn check_names(names: &[&str]) -> Result<(), WordFault>
    ensures value { result ≡ check_names (map (λ n. n.now) names.now) }
    ensures names { IfOk result (λ u. AreNames (map (λ n. n.now) names.now)) }
{
    if has_bad(names) {
        return Err(WordFault::Name);
    }
    if has_equal(names) {
        return Err(WordFault::SameName);
    }
    Ok(())
}
