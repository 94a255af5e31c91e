//! What the sectors hold.
ghost use Rattle.std.specs.Prelude.{◌≡◌, ◌≤◌, length};

/// Numbers a sector: it begins with the number, and ends with the number's complement.
pub fn number(sector: &mut [u8], lba: u64)
    requires long { 16 ≤ length sector.old }
    ensures same_size { length sector.new ≡ length sector.old }
{
    let tail = sector.len() - 8;
    sector[..8].copy_from_slice(&lba.to_le_bytes());
    sector[tail..].copy_from_slice(&(!lba).to_le_bytes());
}

/// Whether the sector is numbered so.
pub fn has_number(sector: &[u8], lba: u64) -> bool {
    sector.starts_with(&lba.to_le_bytes()) && sector.ends_with(&(!lba).to_le_bytes())
}
