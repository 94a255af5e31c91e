//! What stands after the first word of a command: names of files, and options with their values.

ghost use Rattle.std.specs.Prelude.{ℕ, ◌≡◌, ◌<◌, ◌≤◌, ◌↔◌, ◌∷◌, ◌++◌, IsTrue, IsSome, List, length, map, codes, IfSome, IsSomeAnd, string_bytes};
ghost use Rattle.command_words.specs.Grammar as model;
ghost use Rattle.command_words.specs.Words.{IsItemBefore, HasOwnForm, item_of};

/// The name of a file, an option's name and its value, or the name of an option without a value.
#[derive(Clone, Copy, Debug)]
pub(crate) enum Item<'a> {
    Name(&'a str),
    Named(&'a str, &'a str),
    Flag(&'a str),
}

/// The first item of some words, and the words after it.
///
/// An option has no value where it is that of the collector, and else has one. None where no such
/// item is first.
pub(crate) fn read_item(words: &[String]) -> Option<(Item<'_>, &[String])>
    ensures found { IfSome result
        (λ r. IsItemBefore (item_of r.0) (map string_bytes r.1.now) (map string_bytes words.now)) }
    ensures shorter { IfSome result (λ r. length r.1.now < length words.now) }
    ensures only { (item : model.Item) (rest : List (List ℕ)) → HasOwnForm item
        → IsItemBefore item rest (map string_bytes words.now)
        → IsSomeAnd result (λ r. (item_of r.0 ≡ item) × (map string_bytes r.1.now ≡ rest)) }
{
    let [word, rest @ ..] = words else {
        return None;
    };
    let word = word.as_str();
    match word.strip_prefix('-') {
        None if word.is_empty() => None,
        None => Some((Item::Name(word), rest)),
        Some(option) => read_option(option.strip_prefix('-')?, rest),
    }
}

// The option whose word goes on so after `--`, and the words after it.
fn read_option<'a>(option: &'a str, rest: &'a [String]) -> Option<(Item<'a>, &'a [String])>
    ensures found { IfSome result (λ r. IsItemBefore (item_of r.0) (map string_bytes r.1.now)
        ((codes "--" ++ option.now) ∷ map string_bytes rest.now)) }
    ensures shorter { IfSome result (λ r. length r.1.now ≤ length rest.now) }
    ensures only { (item : model.Item) (others : List (List ℕ)) → HasOwnForm item
        → IsItemBefore item others ((codes "--" ++ option.now) ∷ map string_bytes rest.now)
        → IsSomeAnd result (λ r. (item_of r.0 ≡ item) × (map string_bytes r.1.now ≡ others)) }
{
    match option.split_once('=') {
        Some((name, value)) => named(name, value, rest),
        None if is_flag(option) => Some((Item::Flag(option), rest)),
        None => {
            let [value, rest @ ..] = rest else {
                return None;
            };
            named(option, value.as_str(), rest)
        }
    }
}

/// Whether an option of this name has no value.
pub(crate) fn is_flag(name: &str) -> bool
    ensures { IsTrue result ↔ name.now ≡ codes "collector" }
{
    name == "collector"
}

// An option of this name and value, if it can have that value.
fn named<'a>(name: &'a str, value: &'a str, rest: &'a [String]) -> Option<(Item<'a>, &'a [String])>
    ensures found { IfSome result
        (λ r. (item_of r.0 ≡ model.Named name.now value.now) × (r.1.now ≡ rest.now)) }
    ensures plain { IsSome result ↔ model.IsPlainWord value.now }
{
    if is_plain(value) {
        Some((Item::Named(name, value), rest))
    } else {
        None
    }
}

/// Whether a word can be a name or a value: it is neither empty nor begins with `-`.
pub(crate) fn is_plain(word: &str) -> bool
    ensures { IsTrue result ↔ model.IsPlainWord word.now }
{
    !word.is_empty() && !word.starts_with('-')
}
