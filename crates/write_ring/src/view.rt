//! What the ring is made with, and what each of its seats knows. No value of a view is ever made:
//! it is there in contracts alone.
use pblk_model::Claim;
use sector_pool::{Origin, Source};
use std::collections::LinkedList;

/// What a ring is made with. It never changes.
#[derive(Drop)]
pub struct Key {
    /// The ring's first position.
    pub first: u64,
    /// How many positions the ring has room for.
    pub size: u64,
    /// How many of these are kept for copies.
    pub reserve: u64,
    /// How many sectors the target has.
    pub capacity: u64,
    /// Which region the frames are of.
    pub origin: Origin,
}

/// An entry that was put at a position.
pub struct Row {
    /// Its position.
    pub position: u64,
    /// Whether it was claimed for copies.
    pub copy: bool,
    /// Which sector of the target's capacity it is.
    pub lba: u64,
    /// The block from which a copy was made.
    pub source: Option<Source>,
    /// Its bytes.
    pub sector: LinkedList<u8>,
}

/// What a seat's last loads and exchanges found.
pub struct LastFound {
    /// How many loads and exchanges of words there were.
    pub steps: u64,
    /// What the last load of `claimed` found.
    pub claimed: u64,
    /// What the last exchange of `claimed` found.
    pub met: u64,
    /// What the last load of `freed` found.
    pub freed: u64,
    /// What the last load of `granted` found.
    pub granted: u64,
    /// What the seat had found in `claimed` when it last loaded a limit, `freed` or `granted`.
    pub over: u64,
    /// What the last load of a turn word found.
    pub turn: u64,
}

/// What a seat knows as a pass.
pub struct Part {
    /// Its shares, of the 128 that all passes have together.
    pub shares: u64,
    /// Whether it may claim for copies.
    pub copier: bool,
    /// What it claimed, the oldest first.
    pub claims: LinkedList<Claim>,
    /// What it put, the oldest first.
    pub puts: LinkedList<Row>,
    /// The first of its positions that are claimed and not filled yet.
    pub next: u64,
    /// The end of these positions.
    pub until: u64,
    /// Whether these were claimed for copies.
    pub copy: bool,
}

/// What a seat knows as the intake.
pub struct Desk {
    /// Whether it is the intake.
    pub on: bool,
    /// What it took, the oldest first.
    pub took: LinkedList<Row>,
    /// The next position that it takes.
    pub taken: u64,
    /// The position whose slot is out with it, where one is.
    pub away: Option<u64>,
    /// The word `freed`, which the intake alone stores.
    pub freed: u64,
    /// The word `granted`, which the intake alone stores.
    pub granted: u64,
}

/// What a seat knows.
pub struct View {
    /// What its last loads and exchanges found.
    pub found: LastFound,
    /// What it knows as a pass.
    pub pass: Part,
    /// What it knows as the intake.
    pub intake: Desk,
    /// What the ring was made with.
    pub key: Key,
}
