//! A plan of a fault, as a word spells it.

ghost use Rattle.std.specs.Prelude.{ℕ, ◌≡◌, ◌≢◌, ◌++◌, List, codes, IfSome, IfNone};
ghost use Rattle.unit_port.specs.declared.armed.CommandKind.TheVariants as kinds;
ghost use Rattle.unit_port.specs.declared.armed.FaultPlan.{FaultPlan};
ghost use Rattle.command_words.specs.Grammar.{IsPlan};
ghost use Rattle.command_words.specs.Words.{kind_word};

use crate::fuse::in_three;
use crate::number::read_small;
use unit_port::{CommandKind, FaultPlan};

/// The plan that a word spells, as `p:unit:nth:cut` for a program, `f:unit:nth` for a fetch or
/// `r:unit:nth` for a reset. The numbers are below 2^32.
pub(crate) fn read_plan(word: &str) -> Option<FaultPlan>
    ensures found { IfSome result (λ p. IsPlan p word.now) }
    ensures none { IfNone result ((p : FaultPlan) → ¬ IsPlan p word.now) }
{
    let (kind, numbers) = word.split_once(':')?;
    match kind {
        "p" => read_program(numbers),
        "f" => read_other(CommandKind::Fetch, numbers),
        "r" => read_other(CommandKind::Reset, numbers),
        _ => None,
    }
}

// The plan of a program whose word goes on so after `p:`.
fn read_program(numbers: &str) -> Option<FaultPlan>
    ensures kind { IfSome result (λ p. p.kind ≡ kinds.Program) }
    ensures found { IfSome result (λ p. IsPlan p (codes "p:" ++ numbers.now)) }
    ensures none { IfNone result ((p : FaultPlan) → p.kind ≡ kinds.Program
        → ¬ IsPlan p (codes "p:" ++ numbers.now)) }
{
    let (unit, nth, cut) = in_three(numbers)?;
    let unit = read_small(unit)?;
    let nth = read_small(nth)?;
    let cut = read_small(cut)?;
    Some(FaultPlan {
        unit,
        kind: CommandKind::Program,
        nth,
        cut,
    })
}

// The plan of a fetch or a reset whose word goes on so after its kind.
fn read_other(kind: CommandKind, numbers: &str) -> Option<FaultPlan>
    requires other { kind ≢ kinds.Program }
    ensures found { IfSome result (λ p. IsPlan p (kind_word kind ++ numbers.now)) }
    ensures none { IfNone result ((p : FaultPlan) → p.kind ≡ kind
        → ¬ IsPlan p (kind_word kind ++ numbers.now)) }
{
    let (unit, nth) = numbers.split_once(':')?;
    let unit = read_small(unit)?;
    let nth = read_small(nth)?;
    Some(FaultPlan {
        unit,
        kind,
        nth,
        cut: 0,
    })
}
