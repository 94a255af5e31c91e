//! The words of `create`.

ghost use Rattle.std.specs.Prelude.{ℕ, ◌≡◌, ◌++◌, ◌∷◌, [], List, map, IfSome, IfNone, IsSomeAnd, string_bytes};
ghost use Rattle.pblk_model.specs.CommandText as text;
ghost use Rattle.command_words.specs.Grammar as model;
ghost use Rattle.command_words.specs.Grammar.{AreItemsOf, AreNumbers, create_options, numbers_of};
ghost use Rattle.command_words.specs.Words.{AreWordsOf, HasRead, item_of, numbers_seen};

use crate::command::CreateNumbers;
use crate::item::{Item, read_item};
use crate::number::read_number;
use crate::options::CreateOption;

/// What has been read of the words of `create`: the image's name, and the number of each option
/// that is named.
#[derive(Clone, Copy, Debug)]
pub(crate) struct CreateWords<'a> {
    pub(crate) image: Option<&'a str>,
    pub(crate) values: [Option<u64>; 10],
}

/// Reads the words after `create`.
pub(crate) fn read_create(words: &[String]) -> Option<(&str, CreateNumbers)>
    ensures found { IfSome result
        (λ r. AreWordsOf (map string_bytes words.now) (model.Create r.0.now (numbers_seen r.1))) }
    ensures only { (image : List ℕ) (numbers : text.CreateNumbers)
        → AreWordsOf (map string_bytes words.now) (model.Create image numbers)
        → IsSomeAnd result (λ r. (r.0.now ≡ image) × (numbers_seen r.1 ≡ numbers)) }
{
    let mut read = CreateWords::new();
    let mut rest = words;
    while !rest.is_empty() {
        let (item, others) = read_item(rest)?;
        read = read.with(item)?;
        rest = others;
    }
    Some((read.image?, read.numbers()))
}

impl CreateNumbers {
    /// The numbers where no option is named: those of a small drive of one group of two parallel
    /// units.
    pub fn small() -> CreateNumbers
        ensures { AreNumbers create_options (numbers_of (numbers_seen result)) [] }
    {
        CreateWords::new().numbers()
    }
}

impl<'a> CreateWords<'a> {
    // Nothing has been read.
    fn new() -> CreateWords<'a>
        ensures { HasRead [] result }
    {
        CreateWords {
            image: None,
            values: [None; 10],
        }
    }

    // What has been read with this item. None where it can't follow.
    fn with(self, item: Item<'a>) -> Option<CreateWords<'a>>
        ensures taken { IfSome result (λ next. (items : List model.Item)
            → HasRead items self.entry → HasRead (items ++ item_of item.entry ∷ []) next) }
        ensures refused { IfNone result ((items more : List model.Item) (image : List ℕ)
            (numbers : text.CreateNumbers) → HasRead items self.entry
            → ¬ AreItemsOf (items ++ item_of item.entry ∷ more) (model.Create image numbers)) }
    {
        match item {
            Item::Name(name) => self.with_name(name),
            Item::Named(name, value) => self.with_option(name, value),
            Item::Flag(_) => None,
        }
    }

    // With the name of the image. None where it has one.
    fn with_name(self, name: &'a str) -> Option<CreateWords<'a>>
        ensures taken { IfSome result (λ next. (items : List model.Item)
            → HasRead items self.entry → HasRead (items ++ model.Name name.now ∷ []) next) }
        ensures refused { IfNone result ((items more : List model.Item) (image : List ℕ)
            (numbers : text.CreateNumbers) → HasRead items self.entry
            → ¬ AreItemsOf (items ++ model.Name name.now ∷ more) (model.Create image numbers)) }
    {
        match self.image {
            None => Some(CreateWords {
                image: Some(name),
                ..self
            }),
            Some(_) => None,
        }
    }

    // With an option. None where there is no option of this name, it has a value, or this isn't its
    // number.
    fn with_option(self, name: &'a str, value: &'a str) -> Option<CreateWords<'a>>
        ensures taken { IfSome result (λ next. (items : List model.Item)
            → HasRead items self.entry
            → HasRead (items ++ model.Named name.now value.now ∷ []) next) }
        ensures refused { IfNone result ((items more : List model.Item) (image : List ℕ)
            (numbers : text.CreateNumbers) → HasRead items self.entry
            → ¬ AreItemsOf (items ++ model.Named name.now value.now ∷ more)
            (model.Create image numbers)) }
    {
        let option = CreateOption::by_name(name)?;
        let place = option.place();
        let mut values = self.values;
        if values[place].is_some() {
            return None;
        }
        let number = read_number(value)?;
        if number > option.most() {
            return None;
        }
        values[place] = Some(number);
        Some(CreateWords { values, ..self })
    }

    // The numbers, by the options that are named.
    fn numbers(&self) -> CreateNumbers
        requires { (items : List model.Item) × HasRead items self.now }
        ensures { (items : List model.Item) → HasRead items self.now
            → AreNumbers create_options (numbers_of (numbers_seen result)) items }
    {
        let [
            groups,
            units,
            chunks,
            blocks,
            ws_min,
            ws_opt,
            mw,
            sector,
            capacity,
            ring,
        ] = self.values;
        CreateNumbers {
            groups: groups.unwrap_or(1) as u16,
            units: units.unwrap_or(2) as u16,
            chunks: chunks.unwrap_or(8) as u32,
            blocks: blocks.unwrap_or(24) as u32,
            ws_min: ws_min.unwrap_or(2) as u32,
            ws_opt: ws_opt.unwrap_or(4) as u32,
            mw: mw.unwrap_or(8) as u32,
            sector: sector.unwrap_or(512) as u32,
            capacity: capacity.unwrap_or(64),
            ring: ring.unwrap_or(64) as u32,
        }
    }
}
