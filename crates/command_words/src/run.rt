//! The words of `run`.

ghost use Rattle.std.specs.Prelude.{ℕ, ◌≡◌, ◌≢◌, ◌++◌, ◌∷◌, [], List, length, map, codes, IfSome, IfNone, IsSomeAnd, string_bytes};
ghost use Rattle.command_words.specs.Grammar as model;
ghost use Rattle.command_words.specs.Grammar.{AreItemsOf};
ghost use Rattle.command_words.specs.Words.{AreWordsOf, HasReadRun, item_of, names_read, options_seen};

use crate::command::RunOptions;
use crate::fault::read_plan;
use crate::fuse::read_fuse;
use crate::item::{Item, is_flag, read_item};
use crate::number::read_lanes;
use crate::plans::FaultPlans;
use unit_port::Fuse;

/// The names of files that have been read: that of an image comes before that of a script.
#[derive(Clone, Copy, Debug)]
pub(crate) enum RunNames<'a> {
    Nothing,
    Image(&'a str),
    Both(&'a str, &'a str),
}

/// What has been read of the words of `run`: names, and options that are named.
#[derive(Debug, Drop)]
pub(crate) struct RunWords<'a> {
    pub(crate) names: RunNames<'a>,
    pub(crate) stop: Option<Fuse>,
    pub(crate) plans: FaultPlans,
    pub(crate) lanes: Option<u32>,
    pub(crate) collector: bool,
}

/// Reads the words after `run`.
pub(crate) fn read_run(words: &[String]) -> Option<(&str, &str, RunOptions)>
    ensures found { IfSome result (λ r. AreWordsOf (map string_bytes words.now)
        (model.Run r.0.now r.1.now (options_seen r.2))) }
    ensures only { (image script : List ℕ) (options : model.RunOptions)
        → AreWordsOf (map string_bytes words.now) (model.Run image script options)
        → IsSomeAnd result
        (λ r. (r.0.now ≡ image) × (r.1.now ≡ script) × (options_seen r.2 ≡ options)) }
{
    let mut read = RunWords::new();
    let mut rest = words;
    while !rest.is_empty() {
        let (item, others) = read_item(rest)?;
        read = read.with(item)?;
        rest = others;
    }
    let (image, script) = read.names.both()?;
    let options = RunOptions {
        stop: read.stop,
        plans: read.plans,
        lanes: read.lanes.unwrap_or(0),
        collector: read.collector,
    };
    Some((image, script, options))
}

impl<'a> RunNames<'a> {
    // With one more name. None where there are two.
    fn with(self, name: &'a str) -> Option<RunNames<'a>>
        ensures taken { IfSome result
            (λ next. names_read next ≡ names_read self.entry ++ name.now ∷ []) }
        ensures refused { IfNone result (length (names_read self.entry) ≡ 2) }
    {
        match self {
            RunNames::Nothing => Some(RunNames::Image(name)),
            RunNames::Image(image) => Some(RunNames::Both(image, name)),
            RunNames::Both(..) => None,
        }
    }

    // Both names, where there are two.
    fn both(self) -> Option<(&'a str, &'a str)>
        ensures found { IfSome result (λ r. names_read self.entry ≡ r.0.now ∷ r.1.now ∷ []) }
        ensures none { IfNone result (length (names_read self.entry) ≢ 2) }
    {
        match self {
            RunNames::Nothing | RunNames::Image(_) => None,
            RunNames::Both(image, script) => Some((image, script)),
        }
    }
}

impl<'a> RunWords<'a> {
    // Nothing has been read.
    fn new() -> RunWords<'a>
        ensures { HasReadRun [] result }
    {
        RunWords {
            names: RunNames::Nothing,
            stop: None,
            plans: FaultPlans::none(),
            lanes: None,
            collector: false,
        }
    }

    // What has been read with this item. None where it can't follow.
    fn with(self, item: Item<'a>) -> Option<RunWords<'a>>
        ensures taken { IfSome result (λ next. (items : List model.Item)
            → HasReadRun items self.entry → HasReadRun (items ++ item_of item.entry ∷ []) next) }
        ensures refused { IfNone result ((items more : List model.Item) (image script : List ℕ)
            (options : model.RunOptions) → HasReadRun items self.entry
            → ¬ AreItemsOf (items ++ item_of item.entry ∷ more)
            (model.Run image script options)) }
    {
        match item {
            Item::Name(name) => self.with_name(name),
            Item::Named(name, value) => self.with_option(name, value),
            Item::Flag(name) => self.with_flag(name),
        }
    }

    // With the next name. None where there are two.
    fn with_name(self, name: &'a str) -> Option<RunWords<'a>>
        ensures taken { IfSome result (λ next. (items : List model.Item)
            → HasReadRun items self.entry → HasReadRun (items ++ model.Name name.now ∷ []) next) }
        ensures refused { IfNone result ((items more : List model.Item) (image script : List ℕ)
            (options : model.RunOptions) → HasReadRun items self.entry
            → ¬ AreItemsOf (items ++ model.Name name.now ∷ more)
            (model.Run image script options)) }
    {
        let names = self.names.with(name)?;
        Some(RunWords { names, ..self })
    }

    // With an option. None where there is no option of this name, it was named too often before, or
    // it can't have this value.
    fn with_option(self, name: &'a str, value: &'a str) -> Option<RunWords<'a>>
        ensures taken { IfSome result (λ next. (items : List model.Item)
            → HasReadRun items self.entry
            → HasReadRun (items ++ model.Named name.now value.now ∷ []) next) }
        ensures refused { IfNone result ((items more : List model.Item) (image script : List ℕ)
            (options : model.RunOptions) → HasReadRun items self.entry
            → ¬ AreItemsOf (items ++ model.Named name.now value.now ∷ more)
            (model.Run image script options)) }
    {
        match name {
            "stop" => self.with_stop(value),
            "fail" => self.with_plan(value),
            "lanes" => self.with_lanes(value),
            _ => None,
        }
    }

    // With the option `--stop`. None where it was named before, or this is no stop.
    fn with_stop(self, value: &'a str) -> Option<RunWords<'a>>
        ensures taken { IfSome result (λ next. (items : List model.Item)
            → HasReadRun items self.entry
            → HasReadRun (items ++ model.Named (codes "stop") value.now ∷ []) next) }
        ensures refused { IfNone result ((items more : List model.Item) (image script : List ℕ)
            (options : model.RunOptions) → HasReadRun items self.entry
            → ¬ AreItemsOf (items ++ model.Named (codes "stop") value.now ∷ more)
            (model.Run image script options)) }
    {
        if self.stop.is_some() {
            return None;
        }
        let stop = Some(read_fuse(value)?);
        Some(RunWords { stop, ..self })
    }

    // With the option `--fail`. None where it was named 16 times before, or this is no plan.
    fn with_plan(self, value: &'a str) -> Option<RunWords<'a>>
        ensures taken { IfSome result (λ next. (items : List model.Item)
            → HasReadRun items self.entry
            → HasReadRun (items ++ model.Named (codes "fail") value.now ∷ []) next) }
        ensures refused { IfNone result ((items more : List model.Item) (image script : List ℕ)
            (options : model.RunOptions) → HasReadRun items self.entry
            → ¬ AreItemsOf (items ++ model.Named (codes "fail") value.now ∷ more)
            (model.Run image script options)) }
    {
        let plan = read_plan(value)?;
        let plans = self.plans.with(plan)?;
        Some(RunWords { plans, ..self })
    }

    // With the option `--lanes`. None where it was named before, or this is no number of lanes.
    fn with_lanes(self, value: &'a str) -> Option<RunWords<'a>>
        ensures taken { IfSome result (λ next. (items : List model.Item)
            → HasReadRun items self.entry
            → HasReadRun (items ++ model.Named (codes "lanes") value.now ∷ []) next) }
        ensures refused { IfNone result ((items more : List model.Item) (image script : List ℕ)
            (options : model.RunOptions) → HasReadRun items self.entry
            → ¬ AreItemsOf (items ++ model.Named (codes "lanes") value.now ∷ more)
            (model.Run image script options)) }
    {
        if self.lanes.is_some() {
            return None;
        }
        let lanes = Some(read_lanes(value)?);
        Some(RunWords { lanes, ..self })
    }

    // With an option that has no value. None where there is none of this name, or it was named
    // before.
    fn with_flag(self, name: &'a str) -> Option<RunWords<'a>>
        ensures taken { IfSome result (λ next. (items : List model.Item)
            → HasReadRun items self.entry → HasReadRun (items ++ model.Flag name.now ∷ []) next) }
        ensures refused { IfNone result ((items more : List model.Item) (image script : List ℕ)
            (options : model.RunOptions) → HasReadRun items self.entry
            → ¬ AreItemsOf (items ++ model.Flag name.now ∷ more)
            (model.Run image script options)) }
    {
        if self.collector || !is_flag(name) {
            return None;
        }
        Some(RunWords {
            collector: true,
            ..self
        })
    }
}
