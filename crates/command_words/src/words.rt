//! The words of a command line.

ghost use Rattle.std.specs.Prelude.{◌≡◌, List, ℕ, Some, map, IfSome, IfNone, IsSomeAnd, string_bytes};
ghost use Rattle.std.specs.Option.{option_map};
ghost use Rattle.command_words.specs.Grammar as model;
ghost use Rattle.command_words.specs.Grammar.{IsCommandLine};
ghost use Rattle.command_words.specs.Words.{AreTwoNames, AreWordsOf, IsOneName, seen};

use crate::command::CommandLine;
use crate::create::read_create;
use crate::item::is_plain;
use crate::rebuild::read_rebuild;
use crate::run::read_run;
use crate::soak::read_soak;

/// Reads the words of a command line: `create IMAGE`, `geometry IMAGE`, `show IMAGE`, `report
/// IMAGE`, `parity IMAGE PARITY`, `rebuild IMAGE PARITY UNIT`, `certify IMAGE CERTIFICATE`, `check
/// IMAGE CERTIFICATE`, `run IMAGE SCRIPT` or `soak IMAGE NUMBER ROUNDS`.
///
/// Options of `create` stand anywhere after its first word, as `--name value` or `--name=value`,
/// each at most once: `--groups` and `--units` (in a group) are below 2^16; `--chunks`, `--blocks`,
/// `--ws-min`, `--ws-opt`, `--mw`, `--sector` and `--ring` below 2^32; `--capacity` below 2^64.
/// Numbers are `0` or digits without a leading 0.
///
/// Options of `run` stand anywhere after its first word in the same way. `--stop unit:nth:cut` and
/// `--lanes` are each named at most once, and so is `--collector`, which has no value. `--fail` is
/// named up to 16 times, with `p:unit:nth:cut`, `f:unit:nth` or `r:unit:nth`. Lanes are 0 to 8, and
/// the nth of a stop is at least 1. The numbers of stops and plans are below 2^32.
///
/// The numbers of `rebuild` and `soak` are spelled in the same way. The unit is below 2^32, the
/// number of the load below 2^64, and the rounds are 1 to 3,125.
///
/// The other commands have no options. None where the words are no command: the first one is none
/// of these, a word is missing or too many, a word is empty, a word begins with `-` and isn't one
/// of the command's options, an option is named too often, or it can't have its value.
pub fn read_words(words: &[String]) -> Option<CommandLine<'_>>
    ensures found { IfSome result (λ c. IsCommandLine (map string_bytes words.now) (seen c)) }
    ensures none { IfNone result
        ((c : model.CommandLine) → ¬ IsCommandLine (map string_bytes words.now) c) }
    ensures only { (c : model.CommandLine) → IsCommandLine (map string_bytes words.now) c
        → option_map seen result ≡ Some c }
{
    let [first, rest @ ..] = words else {
        return None;
    };
    match first.as_str() {
        "create" => {
            let (image, numbers) = read_create(rest)?;
            Some(CommandLine::Create { image, numbers })
        }
        "geometry" => {
            let image = read_name(rest)?;
            Some(CommandLine::Geometry { image })
        }
        "show" => {
            let image = read_name(rest)?;
            Some(CommandLine::Show { image })
        }
        "report" => {
            let image = read_name(rest)?;
            Some(CommandLine::Report { image })
        }
        "parity" => {
            let (image, parity) = read_names(rest)?;
            Some(CommandLine::Parity { image, parity })
        }
        "rebuild" => {
            let (image, parity, unit) = read_rebuild(rest)?;
            Some(CommandLine::Rebuild {
                image,
                parity,
                unit,
            })
        }
        "certify" => {
            let (image, certificate) = read_names(rest)?;
            Some(CommandLine::Certify { image, certificate })
        }
        "check" => {
            let (image, certificate) = read_names(rest)?;
            Some(CommandLine::Check { image, certificate })
        }
        "run" => {
            let (image, script, options) = read_run(rest)?;
            Some(CommandLine::Run {
                image,
                script,
                options,
            })
        }
        "soak" => {
            let (image, number, rounds) = read_soak(rest)?;
            Some(CommandLine::Soak {
                image,
                number,
                rounds,
            })
        }
        _ => None,
    }
}

// The words after the first one of a command that names an image alone.
fn read_name(words: &[String]) -> Option<&str>
    ensures found { IfSome result (λ r. IsOneName (map string_bytes words.now) r.now) }
    ensures only { (image : List ℕ) → IsOneName (map string_bytes words.now) image
        → IsSomeAnd result (λ r. r.now ≡ image) }
{
    let [image] = words else {
        return None;
    };
    let image = image.as_str();
    if is_plain(image) { Some(image) } else { None }
}

// The words after the first one of a command that names an image and another file.
fn read_names(words: &[String]) -> Option<(&str, &str)>
    ensures found { IfSome result (λ r. AreTwoNames (map string_bytes words.now) r.0.now r.1.now) }
    ensures only { (image other : List ℕ) → AreTwoNames (map string_bytes words.now) image other
        → IsSomeAnd result (λ r. (r.0.now ≡ image) × (r.1.now ≡ other)) }
{
    let [image, other] = words else {
        return None;
    };
    let image = image.as_str();
    let other = other.as_str();
    if is_plain(image) && is_plain(other) {
        Some((image, other))
    } else {
        None
    }
}
