//! What commands leave of a chunk.

ghost use Rattle.std.specs.Prelude.{◌≡◌, ◌≢◌, ◌<◌, ℕ, List, ◌++◌};
ghost use Rattle.pblk_model.specs.declared.shape.Shape.{Shape};
ghost use Rattle.pblk_model.specs.declared.chunk.ChunkErr.{ChunkErr};
ghost use Rattle.pblk_model.specs.Chunk.{Chunk, Block, IsChunk};
ghost use Rattle.pblk_model.specs.ChunkStep.{ChunkCommand, WritesBlocks, ChunkAnswer, Read, Reset, Refused, ChunkStep, ChunkFails, ChunkStops};

/// A command other than a reset only appends blocks to those of the chunk.
pub fn step_appends()
    ensures { (s : Shape) (old new : Chunk) (command : ChunkCommand) (answer : ChunkAnswer)
        → command ≢ Reset → ChunkStep s old command answer new → (more : List Block)
        × (new.blocks ≡ old.blocks ++ more) }
{}

/// A command other than a reset that fails only appends blocks to those of the chunk.
pub fn failure_appends()
    ensures { (s : Shape) (old new : Chunk) (command : ChunkCommand) → command ≢ Reset
        → ChunkFails s old command new → (more : List Block) × (new.blocks ≡ old.blocks ++ more) }
{}

/// A command other than a reset that the drive's stop cuts off only appends blocks to those of the
/// chunk.
pub fn stop_appends()
    ensures { (s : Shape) (old new : Chunk) (command : ChunkCommand) → command ≢ Reset
        → ChunkStops s old command new → (more : List Block) × (new.blocks ≡ old.blocks ++ more) }
{}

/// A command that is refused changes nothing.
pub fn refused_changes_nothing()
    ensures { (s : Shape) (old new : Chunk) (command : ChunkCommand) (e : ChunkErr)
        → ChunkStep s old command (Refused e) new → new ≡ old }
{}

/// A read changes nothing, whether it is done, is refused, fails or is cut off.
pub fn read_changes_nothing()
    ensures step { (s : Shape) (old new : Chunk) (b : ℕ) (answer : ChunkAnswer)
        → ChunkStep s old (Read b) answer new → new ≡ old }
    ensures failure { (s : Shape) (old new : Chunk) (b : ℕ) → ChunkFails s old (Read b) new
        → new ≡ old }
    ensures stop { (s : Shape) (old new : Chunk) (b : ℕ) → ChunkStops s old (Read b) new
        → new ≡ old }
{}

/// A command on a chunk has one answer, and leaves one chunk.
pub fn step_is_determined()
    ensures { (s : Shape) (old first second : Chunk) (command : ChunkCommand)
        (answer other : ChunkAnswer) → ChunkStep s old command answer first
        → ChunkStep s old command other second → (answer ≡ other) × (first ≡ second) }
{}

/// A command whose blocks are blocks of the shape leaves a chunk of the shape.
pub fn step_keeps_chunk()
    ensures { (s : Shape) (old new : Chunk) (command : ChunkCommand) (answer : ChunkAnswer)
        → IsChunk s old → WritesBlocks s command → ChunkStep s old command answer new
        → IsChunk s new }
{}

/// A command that fails, whose blocks are blocks of the shape, leaves a chunk of the shape.
pub fn failure_keeps_chunk()
    ensures { (s : Shape) (old new : Chunk) (command : ChunkCommand) → IsChunk s old
        → WritesBlocks s command → ChunkFails s old command new → IsChunk s new }
{}

/// A command that the drive's stop cuts off, whose blocks are blocks of the shape, leaves a chunk
/// of the shape.
pub fn stop_keeps_chunk()
    ensures { (s : Shape) (old new : Chunk) (command : ChunkCommand) → 0 < s.ws_min → IsChunk s old
        → WritesBlocks s command → ChunkStops s old command new → IsChunk s new }
{}
