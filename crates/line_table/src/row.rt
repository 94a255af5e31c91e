//! What is kept of a line.

ghost use Rattle.std.specs.Prelude.{◌≡◌};
ghost use Rattle.line_table.specs.Rows.{is_free_state, is_full_or_failed, is_outlived, latest, kept};

/// The state of a line.
#[derive(Clone, Copy, Debug, PartialEq, Eq)]
pub enum LineState {
    /// Its chunks are Free or Offline, and there is room for data.
    Free,
    /// It was opened, and takes stripes.
    Open,
    /// Its end record has landed.
    Full,
    /// A program in it failed, or it was found without a whole end record.
    Failed,
    /// Nothing in it is needed any more, and its chunks are to be reset.
    Freed,
    /// Its chunks are Free or Offline, and too few of them are left for data.
    Dead,
}

impl LineState {
    pub(crate) fn is_free(self) -> bool
        ensures { result ≡ is_free_state self }
    {
        matches!(self, LineState::Free)
    }

    fn is_full_or_failed(self) -> bool
        ensures { result ≡ is_full_or_failed self }
    {
        matches!(self, LineState::Full | LineState::Failed)
    }

    /// What a turn to this state leaves of the position that took a sector last.
    pub(crate) fn kept(self, taker: Option<u64>) -> Option<u64>
        ensures { result ≡ kept self taker }
    {
        match self {
            LineState::Open => None,
            _ => taker,
        }
    }
}

/// The greater of two positions, of which there may be one alone.
pub(crate) fn latest(taker: Option<u64>, by: u64) -> u64
    ensures { result ≡ latest taker by }
{
    taker.map_or(by, |taker| taker.max(by))
}

/// What is kept of a line. Contracts speak of it; the table's calls give its parts.
#[derive(Clone, Copy, Debug, PartialEq, Eq)]
pub struct Row {
    pub state: LineState,
    /// How many of its chunks weren't Offline when its state last changed.
    pub width: u32,
    /// How many sectors have their latest content in it.
    pub live: u32,
    /// The greatest position that took a sector from it, since the table was made or the line last opened.
    pub taker: Option<u64>,
}

impl Row {
    /// Whether the line is Full or Failed and has no live sector.
    pub(crate) fn is_outlived(&self) -> bool
        ensures { result ≡ is_outlived self.now }
    {
        self.state.is_full_or_failed() && self.live == 0
    }
}
