//! The options of `create`.

ghost use Rattle.std.specs.Prelude.{◌≡◌, ◌+◌, ◌<◌, IfSome, IfNone, Some, map, slice_get};
ghost use Rattle.command_words.specs.Grammar.{create_options, IsOneOf};
ghost use Rattle.command_words.specs.Words.{place_of};

/// An option of `create`, whose value is a number.
#[derive(Clone, Copy, Debug)]
pub(crate) enum CreateOption {
    Groups,
    Units,
    Chunks,
    Blocks,
    WsMin,
    WsOpt,
    Mw,
    Sector,
    Capacity,
    Ring,
}

impl CreateOption {
    /// The option of this name.
    pub(crate) fn by_name(name: &str) -> Option<CreateOption>
        ensures found { IfSome result
            (λ o. slice_get (map (λ o. o.name) create_options) (place_of o) ≡ Some name.now) }
        ensures none { IfNone result (¬ IsOneOf create_options name.now) }
    {
        match name {
            "groups" => Some(CreateOption::Groups),
            "units" => Some(CreateOption::Units),
            "chunks" => Some(CreateOption::Chunks),
            "blocks" => Some(CreateOption::Blocks),
            "ws-min" => Some(CreateOption::WsMin),
            "ws-opt" => Some(CreateOption::WsOpt),
            "mw" => Some(CreateOption::Mw),
            "sector" => Some(CreateOption::Sector),
            "capacity" => Some(CreateOption::Capacity),
            "ring" => Some(CreateOption::Ring),
            _ => None,
        }
    }

    /// The greatest number that the option may have.
    pub(crate) fn most(self) -> u64
        ensures { slice_get (map (λ o. o.below) create_options) (place_of self)
            ≡ Some (result + 1) }
    {
        match self {
            CreateOption::Groups | CreateOption::Units => u64::from(u16::MAX),
            CreateOption::Capacity => u64::MAX,
            _ => u64::from(u32::MAX),
        }
    }

    /// The option's place in the list of them.
    pub(crate) fn place(self) -> usize
        ensures place { result ≡ place_of self }
        ensures within { result < 10 }
    {
        match self {
            CreateOption::Groups => 0,
            CreateOption::Units => 1,
            CreateOption::Chunks => 2,
            CreateOption::Blocks => 3,
            CreateOption::WsMin => 4,
            CreateOption::WsOpt => 5,
            CreateOption::Mw => 6,
            CreateOption::Sector => 7,
            CreateOption::Capacity => 8,
            CreateOption::Ring => 9,
        }
    }
}
