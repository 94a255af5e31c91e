//! The descriptor of a chunk: 32 bytes (Open-Channel SSD Specification 2.0, Chunk descriptor).

ghost use Rattle.std.specs.Prelude.{◌≡◌, ◌+◌, ◌^◌, ◌<◌, ◌≤◌, length, Ok, IsTrue};
ghost use Rattle.std.specs.Int.{w64};
ghost use Rattle.std.specs.Result.{result_map_both};
ghost use Rattle.pblk_model.specs.Bytes.{le64, number_at};
ghost use Rattle.pblk_model.specs.Descriptor.{state_code, state_in, spelled, pointer_holds, read_descriptor};
ghost use Rattle.ocssd_chunks.specs.Descriptor.{fields_of};

use pblk_model::{ChunkState, DescriptorErr};

/// The descriptor of a chunk that is written sequentially (Open-Channel SSD Specification 2.0, Chunk
/// descriptor).
#[derive(Clone, Copy, Debug, PartialEq, Eq)]
pub struct Descriptor {
    pub state: ChunkState,
    /// The wear index, kept as it is.
    pub wear: u8,
    /// The address of the chunk's block 0.
    pub slba: u64,
    /// Its number of blocks.
    pub cnlb: u64,
    /// Its write pointer: the number of written blocks.
    pub wp: u64,
}

impl Descriptor {
    /// Writes the one spelling to 32 bytes, where bytes 3 to 7 are 0. The write pointer must be one that
    /// `read_descriptor` doesn't refuse (Open-Channel SSD Specification 2.0, Chunk descriptor).
    pub fn write(&self, out: &mut [u8])
        requires size { length out.old ≡ 32 }
        requires pointer { IsTrue (pointer_holds self.now.state self.now.cnlb self.now.wp) }
        ensures spelling { out.new ≡ spelled (fields_of self.now) }
        ensures reads_back { read_descriptor out.new ≡ Ok (fields_of self.now) }
    {
        out[..8].copy_from_slice(&[code_of(self.state), 1, self.wear, 0, 0, 0, 0, 0]);
        put_number(&mut out[8..16], self.slba);
        put_number(&mut out[16..24], self.cnlb);
        put_number(&mut out[24..32], self.wp);
    }
}

/// Which descriptor bytes are. Bytes 3 to 7 are ignored.
///
/// Refused, in this order: `Length` where there aren't 32 bytes; `State` where byte 0 is none of the four
/// states; `Kind` where byte 1 isn't 1; `Pointer` where the write pointer is above CNLB, isn't 0 in a Free
/// or an Offline chunk, or is 0 or CNLB in an Open one (Open-Channel SSD Specification 2.0, Chunk
/// descriptor).
pub fn read_descriptor(bytes: &[u8]) -> Result<Descriptor, DescriptorErr>
    ensures { result_map_both fields_of (λ e. e) result ≡ read_descriptor bytes.now }
{
    if bytes.len() != 32 {
        return Err(DescriptorErr::Length);
    }
    let state = state_of(bytes[0]).ok_or(DescriptorErr::State)?;
    if bytes[1] != 1 {
        return Err(DescriptorErr::Kind);
    }
    let descriptor = Descriptor {
        state,
        wear: bytes[2],
        slba: number_in(bytes, 8),
        cnlb: number_in(bytes, 16),
        wp: number_in(bytes, 24),
    };
    if !pointer_fits(state, descriptor.cnlb, descriptor.wp) {
        return Err(DescriptorErr::Pointer);
    }
    Ok(descriptor)
}

// The byte of a state.
fn code_of(state: ChunkState) -> u8
    ensures { result ≡ state_code state }
{
    match state {
        ChunkState::Free => 1,
        ChunkState::Closed => 2,
        ChunkState::Open => 4,
        ChunkState::Offline => 8,
    }
}

// The state of a byte, if it is one's.
fn state_of(code: u8) -> Option<ChunkState>
    ensures { result ≡ state_in code }
{
    match code {
        1 => Some(ChunkState::Free),
        2 => Some(ChunkState::Closed),
        4 => Some(ChunkState::Open),
        8 => Some(ChunkState::Offline),
        _ => None,
    }
}

// Writes a number to eight bytes.
fn put_number(out: &mut [u8], number: u64)
    requires { length out.old ≡ 8 }
    ensures bytes { out.new ≡ le64 number }
    ensures in_range { number < 2 ^ 64 }
{
    out.copy_from_slice(&number.to_le_bytes());
}

/// The number in the eight bytes from an offset on.
pub(crate) fn number_in(bytes: &[u8], offset: usize) -> u64
    requires { offset + 8 ≤ length bytes.now }
    ensures { result ≡ number_at w64 offset bytes.now }
{
    let mut number = [0; 8];
    number.copy_from_slice(&bytes[offset..offset + 8]);
    u64::from_le_bytes(number)
}

// Whether a write pointer may stand there.
fn pointer_fits(state: ChunkState, cnlb: u64, wp: u64) -> bool
    ensures { result ≡ pointer_holds state cnlb wp }
{
    match state {
        ChunkState::Free | ChunkState::Offline => wp == 0,
        ChunkState::Open => wp != 0 && wp < cnlb,
        ChunkState::Closed => wp <= cnlb,
    }
}
