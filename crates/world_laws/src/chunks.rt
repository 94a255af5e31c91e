//! Laws over legal worlds: each is the contract of a function that does nothing.

ghost use Rattle.std.specs.Prelude.{◌≡◌, ◌≢◌, ◌+◌, ◌*◌, ◌≤◌, ◌<◌, ◌↔◌, ◌⊎◌, ◌==◌, ℕ, suc};
ghost use Rattle.std.specs.Prelude.{true, false, nat_lt};
ghost use Rattle.std.specs.Prelude.{List, None, Option, Some, length, slice_get, slice_index, take};
ghost use Rattle.std.specs.List.{Contains, filter, list_any};
ghost use Rattle.pblk_model.specs.Chunk.{Block, Chunk, pointer};
ghost use Rattle.pblk_model.specs.ChunkStep.{Done, Read, Write, refusal};
ghost use Rattle.pblk_model.specs.Contents.{contents, counted, winner};
ghost use Rattle.pblk_model.specs.History.{after, users};
ghost use Rattle.pblk_model.specs.Image.{Image, line_units, width};
ghost use Rattle.pblk_model.specs.Records.{Record, line_records, named};
ghost use Rattle.pblk_model.specs.Sealed.{IsSealed};
ghost use Rattle.pblk_model.specs.StartRecord.{StartRecord, start_of};
ghost use Rattle.pblk_model.specs.UnitLog.{Answered, UnitEvent};
ghost use Rattle.pblk_laws.specs.LineBlocks.{chunk_in};
ghost use Rattle.pblk_world.specs.Events.{Logged};
ghost use Rattle.pblk_world.specs.World.{World, log_of, knows_engine, media, unit_event_of, unit_events};
ghost use Rattle.pblk_world.specs.EngineLog.{Begun, begun, Placed, life_of, placed_on};
ghost use Rattle.pblk_world.specs.EngineLog.{AsFound, Freed, Opened, Opening, last_opening};
ghost use Rattle.pblk_world.specs.EngineLog.{Taken, has_landed, holds_position, openings};
ghost use Rattle.pblk_world.specs.EngineLog.{named_events, placements, stripes_of, stripes_on, takes, turn};
ghost use Rattle.pblk_world.specs.Fronts.{synced};
ghost use Rattle.pblk_world.specs.Commanding.{ended_stripes, has_stopped, is_program, was_stopped};
ghost use Rattle.pblk_world.specs.Fronts.{history, user_positions};
ghost use Rattle.pblk_world.specs.Legal.{IsLegal};
ghost use Rattle.pblk_world.specs.Lines.{found_image, is_empty_state, known_image, place_of};
ghost use Rattle.pblk_world.specs.Starts.{has_landed_start, newest_start};
ghost use Rattle.pblk_world.specs.LegalMounts.{IsLegalMount};
ghost use Rattle.world_laws.specs.KnownChunks.{IsChange};
ghost use Rattle.world_laws.specs.LifeBlocks.{IsBlockOfLife};
ghost use Rattle.world_laws.specs.OpenedChunks.{IsOpenedChunk, WasProgrammed};
ghost use Rattle.world_laws.specs.UnitChunks.{NoProgram, chunk_after};
ghost use Rattle.world_laws.specs.UnitPrograms.{IsProgramOfStripe};

/// Once a unit knows that the mount has begun, each of its programs is of a stripe that was placed
/// on it and of which it knew: where k programs were done or failed before, of the k-th one. From
/// the prefix of its log that the mount began with until it knows of the beginning, the unit only
/// fetches. While the program of a stripe hasn't ended, its line is opened as it was when the
/// stripe was placed.
pub fn a_units_programs_are_of_its_stripes()
    ensures programs { (i : Image) (w : World) (unit number : ℕ) (l : Logged) (e : UnitEvent)
        → IsLegal i w → slice_get (log_of w (suc unit)) number ≡ Some l
        → unit_event_of l.event ≡ Some e → is_program e.command ≡ true → 0 < knows_engine l
        → IsProgramOfStripe (log_of w) unit number l e }
    ensures before { (i : Image) (w : World) (legal : IsLegal i w) (b : Begun)
        (begins : begun (log_of w 0) ≡ Some b) (unit number : ℕ) (l : Logged) (e : UnitEvent)
        → slice_index b.knows (suc unit) ≤ number
        → slice_get (log_of w (suc unit)) number ≡ Some l → unit_event_of l.event ≡ Some e
        → knows_engine l ≤ 0 → (at : ℕ) × (e.command ≡ Read at) }
    ensures pending { (i : Image) (w : World) (legal : IsLegal i w) (unit k : ℕ) (p : Placed)
        → slice_get (placed_on (log_of w 0) unit) k ≡ Some p
        → ended_stripes (log_of w (suc unit)) ≤ k → life_of (log_of w 0) p.stripe.line ≡ p.life }
{}

/// After an event of a unit that was stopped, all chunks of the unit stay. A chunk that is Free or
/// Offline stays as it is while nothing is programmed in it, whatever becomes of other commands.
/// Nothing is programmed in a line as the mount found it, nor in a line that was freed, from the
/// prefixes on that the beginning and the freeing name. A chunk in which nothing is programmed
/// stays, or is emptied. One of a line as the mount found it stays, unless the line is a stray.
pub fn a_chunk_stays()
    ensures stopped { (i : Image) (w : World) (legal : IsLegal i w) (unit line number later : ℕ)
        (l : Logged) (e : UnitEvent) → slice_get (log_of w (suc unit)) number ≡ Some l
        → unit_event_of l.event ≡ Some e → was_stopped e.outcome ≡ true → number < later
        → later ≤ length (log_of w (suc unit))
        → chunk_after i (log_of w) line unit later
        ≡ chunk_after i (log_of w) line unit (suc number) }
    ensures empty { (i : Image) (w : World) (legal : IsLegal i w) (unit line from count : ℕ)
        (c : Chunk) → from + count ≤ length (log_of w (suc unit))
        → chunk_after i (log_of w) line unit from ≡ Some c → is_empty_state c.state ≡ true
        → NoProgram (log_of w) line unit from (from + count)
        → chunk_after i (log_of w) line unit (from + count) ≡ Some c }
    ensures emptied { (i : Image) (w : World) (legal : IsLegal i w) (unit line from count : ℕ)
        (c d : Chunk) → from + count ≤ length (log_of w (suc unit))
        → NoProgram (log_of w) line unit from (from + count)
        → chunk_after i (log_of w) line unit from ≡ Some c
        → chunk_after i (log_of w) line unit (from + count) ≡ Some d
        → (d ≡ c) ⊎ (is_empty_state d.state ≡ true) }
    ensures found { (i : Image) (w : World) (legal : IsLegal i w) (b : Begun)
        (begins : begun (log_of w 0) ≡ Some b) (unit line to : ℕ)
        → life_of (log_of w 0) line ≡ AsFound
        → NoProgram (log_of w) line unit (slice_index b.knows (suc unit)) to }
    ensures freed { (i : Image) (w : World) (legal : IsLegal i w) (b : Begun)
        (begins : begun (log_of w 0) ≡ Some b) (unit line to : ℕ) (was : Option Opening)
        (knows : List ℕ) → life_of (log_of w 0) line ≡ Freed was knows
        → NoProgram (log_of w) line unit (slice_index knows (suc unit)) to }
    ensures kept { (i : Image) (w : World) (legal : IsLegal i w) (b : Begun)
        (begins : begun (log_of w 0) ≡ Some b) (unit line : ℕ)
        (found : life_of (log_of w 0) line ≡ AsFound)
        (none : list_any (λ stray. stray == line) b.beginning.strays ≡ false) (count : ℕ)
        → slice_index b.knows (suc unit) + count ≤ length (log_of w (suc unit))
        → chunk_after i (log_of w) line unit (slice_index b.knows (suc unit) + count)
        ≡ chunk_after i (log_of w) line unit (slice_index b.knows (suc unit)) }
{}

/// A chunk of an opened line is empty at the prefix of its unit's log that the opening names. At
/// each later prefix the blocks of a program that was done stand in it.
pub fn an_opened_chunk_has_its_stripes()
    ensures empty { (i : Image) (w : World) (legal : IsLegal i w) (b : Begun)
        (begins : begun (log_of w 0) ≡ Some b) (unit line : ℕ) (o : Opening)
        (is_open : life_of (log_of w 0) line ≡ Opened o) (c : Chunk)
        → chunk_after i (log_of w) line unit (slice_index o.knows (suc unit)) ≡ Some c
        → is_empty_state c.state ≡ true }
    ensures done { (i : Image) (w : World) (o : Opening) (line unit events at index : ℕ)
        (c : Chunk) (blocks : List Block) (block : Block)
        → IsOpenedChunk i w o line unit events c → life_of (log_of w 0) line ≡ Opened o
        → WasProgrammed (log_of w) o line unit events at blocks
        → slice_get blocks index ≡ Some block → slice_get c.blocks (at + index) ≡ Some block }
{}

/// Let a line have been opened, and maybe freed since. From the prefix of its unit's log on that
/// the last opening names, each block of a chunk of it is that block of a stripe of this opening,
/// whose program is in the prefix. The blocks of a program that was done stand in the chunk until
/// it is emptied.
pub fn a_chunk_has_stripes_of_its_last_opening()
    ensures blocks { (i : Image) (w : World) (o : Opening) (line unit events at : ℕ) (c : Chunk)
        (block : Block) → IsOpenedChunk i w o line unit events c
        → slice_get c.blocks at ≡ Some block
        → IsBlockOfLife (log_of w) o line unit events at block }
    ensures done { (i : Image) (w : World) (o : Opening) (line unit events at index : ℕ)
        (c : Chunk) (blocks : List Block) (block : Block)
        → IsOpenedChunk i w o line unit events c
        → WasProgrammed (log_of w) o line unit events at blocks
        → slice_get blocks index ≡ Some block
        → (slice_get c.blocks (at + index) ≡ Some block) ⊎ (is_empty_state c.state ≡ true) }
{}

/// A line as the mount found it has on the media the start record and the records that it had. A
/// line of an older mount that was freed has what it had, or less.
pub fn an_unopened_line_has_what_it_had()
    ensures start { (i : Image) (w : World) (mount : IsLegalMount i w) (b : Begun)
        (begins : begun (log_of w 0) ≡ Some b) (line : ℕ) (sealed : IsSealed i)
        → life_of (log_of w 0) line ≡ AsFound
        → start_of (media i (log_of w)) line ≡ start_of (found_image i (log_of w)) line }
    ensures records { (i : Image) (w : World) (mount : IsLegalMount i w) (b : Begun)
        (begins : begun (log_of w 0) ≡ Some b) (line : ℕ) (sealed : IsSealed i)
        → life_of (log_of w 0) line ≡ AsFound
        → line_records (media i (log_of w)) line ≡ line_records (found_image i (log_of w)) line }
    ensures freed { (i : Image) (w : World) (mount : IsLegalMount i w) (b : Begun)
        (begins : begun (log_of w 0) ≡ Some b) (line : ℕ) (sealed : IsSealed i)
        (knows : List ℕ) → life_of (log_of w 0) line ≡ Freed None knows
        → (start_of (media i (log_of w)) line ≡ None)
        ⊎ ((start_of (media i (log_of w)) line ≡ start_of (found_image i (log_of w)) line)
        × ((r : Record) → Contains (line_records (media i (log_of w)) line) r
        → Contains (line_records (found_image i (log_of w)) line) r)) }
{}

/// Let a stripe have landed. Where its line was freed since, the front of the newest start record
/// that has landed is above each position that the stripe holds. The latest entry of a sector below
/// the front synced is in a stripe that has landed, and the stripe's line wasn't freed since. Until
/// an entry of the sector is below it, the line of the sector's winner is as the mount found it.
pub fn what_has_landed_is_kept_while_it_counts()
    ensures freed { (i : Image) (w : World) (o : Opening) (p : Placed) (position : ℕ)
        → IsLegalMount i w → Contains (openings (log_of w 0)) o
        → life_of (log_of w 0) o.line ≢ Opened o → Contains (stripes_of (log_of w 0) o) p
        → has_landed (log_of w 0) p ≡ true → holds_position i.shape position p ≡ true
        → (start : StartRecord) × (newest_start i (log_of w) ≡ Some start)
        × (position < start.front) }
    ensures latest { (i : Image) (w : World) (t : Taken) → IsLegalMount i w
        → Contains (takes (log_of w 0)) t → t.mark.lba < i.shape.capacity
        → t.entry.position < synced i.shape (log_of w 0)
        → ((u : Taken) → Contains (takes (log_of w 0)) u → u.mark.lba ≡ t.mark.lba
        → u.entry.position < synced i.shape (log_of w 0) → u.entry.position ≤ t.entry.position)
        → (p : Placed) × Contains (placements (log_of w 0)) p × (has_landed (log_of w 0) p ≡ true)
        × (holds_position i.shape t.entry.position p ≡ true)
        × (life_of (log_of w 0) p.stripe.line ≡ p.life) }
    ensures winner { (i : Image) (w : World) (lba : ℕ) (r : Record) → IsLegalMount i w
        → winner (counted (found_image i (log_of w))) lba ≡ Some r
        → ((u : Taken) → Contains (takes (log_of w 0)) u → u.mark.lba ≡ lba
        → synced i.shape (log_of w 0) ≤ u.entry.position)
        → life_of (log_of w 0) r.line ≡ AsFound }
{}

/// The media of a mount over a sealed image are sealed, also where units were stopped or failed.
pub fn the_media_stay_sealed()
    ensures { (i : Image) (w : World) → IsLegalMount i w → IsSealed i
        → IsSealed (media i (log_of w)) }
{}

/// The history below a position leaves in each sector its latest entry below that position: the one
/// with the greatest position whose mark is the sector's, a user's or a copy. A sector without one
/// has what the image that the mount found holds there.
pub fn a_sector_holds_its_latest_entry()
    ensures latest { (i : Image) (w : World) (lba position : ℕ) (t : Taken) → IsLegalMount i w
        → lba < i.shape.capacity → Contains (takes (log_of w 0)) t → t.mark.lba ≡ lba
        → t.entry.position < position
        → ((u : Taken) → Contains (takes (log_of w 0)) u → u.mark.lba ≡ lba
        → u.entry.position < position → u.entry.position ≤ t.entry.position)
        → slice_get (after (contents (found_image i (log_of w)))
        (take (users (user_positions (log_of w 0)) position) (history (log_of w 0)))) lba
        ≡ Some t.entry.sector }
    ensures found { (i : Image) (w : World) (lba position : ℕ) → IsLegalMount i w
        → lba < i.shape.capacity
        → ((u : Taken) → Contains (takes (log_of w 0)) u → u.mark.lba ≡ lba
        → position ≤ u.entry.position)
        → slice_get (after (contents (found_image i (log_of w)))
        (take (users (user_positions (log_of w 0)) position) (history (log_of w 0)))) lba
        ≡ slice_get (contents (found_image i (log_of w))) lba }
{}

/// A line has no start record but that of its last opening, and no record but of entries in stripes
/// of that opening. While it is opened, the start record stands once it has landed, and so does a
/// record for each position of a stripe that has landed.
pub fn a_line_has_what_was_placed_in_it()
    ensures start { (i : Image) (w : World) (line : ℕ) (o : Opening) (r : StartRecord)
        → IsLegalMount i w → last_opening (life_of (log_of w 0) line) ≡ Some o
        → start_of (media i (log_of w)) line ≡ Some r → r ≡ o.start }
    ensures stands { (i : Image) (w : World) (line : ℕ) (o : Opening) → IsLegalMount i w
        → life_of (log_of w 0) line ≡ Opened o → has_landed_start i.shape (log_of w 0) o ≡ true
        → start_of (media i (log_of w)) line ≡ Some o.start }
    ensures entry { (i : Image) (w : World) (line : ℕ) (o : Opening) (r : Record)
        → IsLegalMount i w → last_opening (life_of (log_of w 0) line) ≡ Some o
        → Contains (line_records (media i (log_of w)) line) r
        → (t : Taken) × Contains (takes (log_of w 0)) t × (t.entry.position ≡ r.position)
        × (named i.shape t.mark ≡ Some r.lba) × (r.sector ≡ t.entry.sector) }
    ensures placed { (i : Image) (w : World) (line : ℕ) (o : Opening) (r : Record)
        → IsLegalMount i w → last_opening (life_of (log_of w 0) line) ≡ Some o
        → Contains (line_records (media i (log_of w)) line) r
        → (p : Placed) × Contains (stripes_of (log_of w 0) o) p
        × (holds_position i.shape r.position p ≡ true) }
    ensures landed { (i : Image) (w : World) (line : ℕ) (o : Opening) (p : Placed)
        (position : ℕ) → IsLegalMount i w → life_of (log_of w 0) line ≡ Opened o
        → Contains (stripes_of (log_of w 0) o) p → has_landed (log_of w 0) p ≡ true
        → holds_position i.shape position p ≡ true
        → (r : Record) × Contains (line_records (media i (log_of w)) line) r
        × (r.position ≡ position) }
{}

/// An opened line has on the media the units that the engine knows, as many as its start record
/// says, and each block of a stripe of the opening has an address there. The k-th stripe of an
/// opening on a unit is at k times WS_OPT in the unit's chunk, a stripe of pads too, also where the
/// line was freed since.
pub fn a_stripe_has_its_place()
    ensures units { (i : Image) (w : World) (mount : IsLegalMount i w) (o : Opening)
        (is_open : life_of (log_of w 0) o.line ≡ Opened o)
        → line_units (known_image i (log_of w)) o.line ≡ line_units (media i (log_of w)) o.line }
    ensures width { (i : Image) (w : World) (mount : IsLegalMount i w) (o : Opening)
        (is_open : life_of (log_of w 0) o.line ≡ Opened o)
        → o.start.width ≡ width (media i (log_of w)) o.line }
    ensures line { (i : Image) (w : World) (mount : IsLegalMount i w) (o : Opening)
        (is_open : life_of (log_of w 0) o.line ≡ Opened o) (p : Placed) (index : ℕ)
        → Contains (stripes_of (log_of w 0) o) p → index < length p.stripe.blocks
        → (a : ℕ) × (place_of (media i (log_of w)) o.line a
        ≡ Some (p.stripe.unit, p.stripe.at + index)) }
    ensures chunk { (i : Image) (w : World) (o : Opening) (unit k : ℕ) (p : Placed)
        → IsLegalMount i w → Contains (openings (log_of w 0)) o
        → slice_get (stripes_on (log_of w 0) o unit) k ≡ Some p
        → p.stripe.at ≡ k * i.shape.ws_opt }
{}

/// Of two changes of a chunk, programs or resets that weren't stopped, the engine was told of the
/// earlier one when the unit made the later one. So a chunk as the engine knows it is what some
/// first events of its unit left, those whose changes of the chunk the engine was told of.
pub fn a_known_chunk_is_an_earlier_one()
    ensures order { (i : Image) (w : World) (legal : IsLegal i w) (b : Begun)
        (begins : begun (log_of w 0) ≡ Some b) (unit line number later : ℕ) (l : Logged)
        → slice_index b.knows (suc unit) ≤ number → number < later
        → IsChange (log_of w) line unit number → IsChange (log_of w) line unit later
        → slice_get (log_of w (suc unit)) later ≡ Some l
        → Contains (named_events (take (knows_engine l) (log_of w 0)) unit) number }
    ensures known { (i : Image) (w : World) (legal : IsLegal i w) (b : Begun)
        (begins : begun (log_of w 0) ≡ Some b) (unit line : ℕ) (c : Chunk)
        → chunk_in (known_image i (log_of w)) line unit ≡ Some c
        → (n : ℕ) × (slice_index b.knows (suc unit) ≤ n) × (n ≤ length (log_of w (suc unit)))
        × (chunk_after i (log_of w) line unit n ≡ Some c)
        × ((number : ℕ) → slice_index b.knows (suc unit) ≤ number
        → IsChange (log_of w) line unit number
        → (number < n) ↔ Contains (named_events (log_of w 0) unit) number) }
{}

/// While no command of a unit was stopped, the program of the stripe that comes next there is taken
/// by its chunk: the stripe stands at the chunk's pointer, and the chunk is Free or Open. Where
/// moreover each program of a chunk was done since its line was opened, the pointer is WS_OPT times
/// the number of the line's stripes there whose programs have ended.
pub fn the_next_program_is_taken()
    ensures taken { (i : Image) (w : World) (unit : ℕ) (p : Placed) (c : Chunk) → IsLegalMount i w
        → slice_get (placed_on (log_of w 0) unit) (ended_stripes (log_of w (suc unit))) ≡ Some p
        → has_stopped (unit_events (log_of w) unit) ≡ false
        → chunk_in (media i (log_of w)) p.stripe.line unit ≡ Some c
        → refusal i.shape c (Write p.stripe.at p.stripe.blocks) ≡ None }
    ensures pointer { (i : Image) (w : World) (mount : IsLegalMount i w) (o : Opening)
        (is_open : life_of (log_of w 0) o.line ≡ Opened o) (unit : ℕ) (c : Chunk)
        → has_stopped (unit_events (log_of w) unit) ≡ false
        → ((number : ℕ) (l : Logged) (e : UnitEvent) → slice_index o.knows (suc unit) ≤ number
        → slice_get (log_of w (suc unit)) number ≡ Some l → unit_event_of l.event ≡ Some e
        → e.chunk ≡ o.line → is_program e.command ≡ true → e.outcome ≡ Answered Done)
        → chunk_in (media i (log_of w)) o.line unit ≡ Some c
        → pointer c ≡ length (filter (λ q. nat_lt (turn (log_of w 0) q)
        (ended_stripes (log_of w (suc unit)))) (stripes_on (log_of w 0) o unit)) * i.shape.ws_opt }
{}
