//! Laws on the blocks that stand in chunks, and on earlier logs: each is the contract of a function
//! that does nothing.

ghost use Rattle.std.specs.Prelude.{◌≡◌, ◌≤◌, ◌<◌, ℕ, suc, length};
ghost use Rattle.std.specs.Prelude.{None, Option, Some, slice_get, slice_index};
ghost use Rattle.std.specs.List.{Contains};
ghost use Rattle.pblk_model.specs.Chunk.{Block, Chunk};
ghost use Rattle.pblk_model.specs.Contents.{counted};
ghost use Rattle.pblk_model.specs.Image.{Image};
ghost use Rattle.pblk_model.specs.Records.{Record, named};
ghost use Rattle.pblk_laws.specs.LineBlocks.{chunk_in};
ghost use Rattle.pblk_world.specs.AtRest.{logs_at};
ghost use Rattle.pblk_world.specs.EngineLog.{Begun, Opening, Taken, begun, block_of_taken};
ghost use Rattle.pblk_world.specs.EngineLog.{last_opening, life_of, takes};
ghost use Rattle.pblk_world.specs.Legal.{IsLegal};
ghost use Rattle.pblk_world.specs.LegalMounts.{IsLegalMount};
ghost use Rattle.pblk_world.specs.Lines.{found_image};
ghost use Rattle.pblk_world.specs.Victims.{engine_prefix};
ghost use Rattle.pblk_world.specs.World.{World, log_of};
ghost use Rattle.world_laws.specs.EarlyLogs.{ArePrefixes};
ghost use Rattle.world_laws.specs.OpenedChunks.{IsOpenedChunk};
ghost use Rattle.world_laws.specs.SameTold.{AreSameNamed};
ghost use Rattle.world_laws.specs.UnitChunks.{chunk_after};

/// Let a line have been opened, and maybe freed since. A block of a chunk of it whose mark names a
/// sector, or is Void, is that of an entry that this mount took, at the mark's position (clause
/// `taken`), and no other entry has this position (`entry`). So it isn't a block that the mount
/// found there: each record that counts in the image found has a lesser position (`past`).
///
/// In a line that wasn't opened, freed or not, each block is the one that the mount found in its
/// place (`found`). Its mark may be any: the image need not be sealed.
pub fn a_marked_block_is_of_its_entry()
    ensures taken { (i : Image) (w : World) (o : Opening) (line unit events at : ℕ) (c : Chunk)
        (block : Block) (name : Option ℕ) → IsOpenedChunk i w o line unit events c
        → slice_get c.blocks at ≡ Some block → named i.shape block.mark ≡ Some name
        → (t : Taken) × Contains (takes (log_of w 0)) t × (block_of_taken t ≡ block)
        × (t.entry.position ≡ block.mark.position) }
    ensures entry { (i : Image) (w : World) (o : Opening) (line unit events at : ℕ) (c : Chunk)
        (block : Block) (name : Option ℕ) (t : Taken) → IsOpenedChunk i w o line unit events c
        → slice_get c.blocks at ≡ Some block → named i.shape block.mark ≡ Some name
        → Contains (takes (log_of w 0)) t → t.entry.position ≡ block.mark.position
        → block ≡ block_of_taken t }
    ensures past { (i : Image) (w : World) (o : Opening) (line unit events at : ℕ) (c : Chunk)
        (block : Block) (name : Option ℕ) (r : Record) → IsOpenedChunk i w o line unit events c
        → slice_get c.blocks at ≡ Some block → named i.shape block.mark ≡ Some name
        → Contains (counted (found_image i (log_of w))) r → r.position < block.mark.position }
    ensures found { (i : Image) (w : World) (b : Begun) (line unit events at : ℕ) (c : Chunk)
        (block : Block) → IsLegalMount i w → begun (log_of w 0) ≡ Some b
        → last_opening (life_of (log_of w 0) line) ≡ None
        → slice_index b.knows (suc unit) ≤ events → events ≤ length (log_of w (suc unit))
        → chunk_after i (log_of w) line unit events ≡ Some c → slice_get c.blocks at ≡ Some block
        → (x : Chunk) × (chunk_in (found_image i (log_of w)) line unit ≡ Some x)
        × (slice_get x.blocks at ≡ Some block) }
{}

/// Logs that an author knew when the engine's log was shorter say what the whole logs say up to
/// that length: the logs at that length, and the logs of a legal world that are prefixes of those
/// of a later one.
pub fn earlier_logs_say_the_same()
    ensures length { (i : Image) (w : World) (n : ℕ) → IsLegal i w → n ≤ length (log_of w 0)
        → AreSameNamed (engine_prefix n (log_of w)) (logs_at n (log_of w)) }
    ensures world { (i : Image) (v w : World) → IsLegal i v → ArePrefixes w (log_of v)
        → AreSameNamed (engine_prefix (length (log_of v 0)) (log_of w)) (log_of v) }
{}
