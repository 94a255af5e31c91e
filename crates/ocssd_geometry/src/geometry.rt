//! A geometry, and its one spelling in bytes.

use crate::bytes::{clear, put, put_u16, put_u32, u8_at, u16_at, u32_at};
use pblk_model::{GeometryErr, Shape};

/// The numbers of a drive (Open-Channel SSD Specification 2.0, Geometry). Any numbers may stand in
/// it; it is accepted where `refusal` finds none.
#[derive(Clone, Copy, Debug, PartialEq, Eq)]
pub struct Geometry {
    /// The major version of the specification: 2 where accepted.
    pub mjr: u8,
    /// The minor version.
    pub mnr: u8,
    /// The lengths in bits of an address's group, parallel unit, chunk and block (LBAF).
    pub lengths: [u8; 4],
    /// The media and controller capabilities, in bits.
    pub mccap: u32,
    /// The wear-level index delta threshold.
    pub wit: u8,
    /// The number of groups (NUM_GRP).
    pub groups: u16,
    /// The number of parallel units in a group (NUM_PU).
    pub pus: u16,
    /// The number of chunks in a parallel unit (NUM_CHK).
    pub chunks: u32,
    /// The number of blocks in a chunk.
    pub clba: u32,
    /// The minimum write size, in blocks.
    pub ws_min: u32,
    /// The optimal write size, in blocks.
    pub ws_opt: u32,
    /// How many blocks below the write pointer of an open chunk may not be read yet.
    pub mw_cunits: u32,
    /// How many chunks may be open at once, or 0 for no bound.
    pub maxoc: u32,
    /// How many chunks of a parallel unit may be open at once, or 0 for no bound.
    pub maxocpu: u32,
}

impl Geometry {
    ghost use Rattle.std.specs.Prelude.{◌≡◌, ◌<◌, length, IfOk, Ok};
    ghost use Rattle.std.specs.Result.{result_map_both};
    ghost use Rattle.pblk_model.specs.Geometry.{geometry_in, geometry_bytes, read_geometry, shape_with};
    ghost use Rattle.pblk_model.specs.Accepted.{IsAccepted};
    ghost use Rattle.pblk_model.specs.Shape.{small};
    ghost use Rattle.ocssd_geometry.specs.Numbers.{numbers_of, small_numbers, IsGeometry};

    /// The geometry that bytes are.
    ///
    /// Refused, in this order: `Length` where there aren't 4096 bytes; `Field` with the first byte
    /// of the first field, from the front, whose number isn't accepted; `Profile` with the least
    /// rule that doesn't hold. `refusal` names the fields and the rules. Bytes between the fields
    /// are ignored.
    pub fn read(bytes: &[u8]) -> Result<Geometry, GeometryErr>
        ensures read { result_map_both numbers_of (λ e. e) result ≡ read_geometry bytes.now }
        ensures accepted { IfOk result IsGeometry }

        // What is accepted has blocks, so the last of each count has an address.
        ensures groups { IfOk result (λ g. 0 < g.groups) }
        ensures pus { IfOk result (λ g. 0 < g.pus) }
        ensures chunks { IfOk result (λ g. 0 < g.chunks) }
        ensures clba { IfOk result (λ g. 0 < g.clba) }
        ensures ws_min { IfOk result (λ g. 0 < g.ws_min) }
        ensures ws_opt { IfOk result (λ g. 0 < g.ws_opt) }
    {
        if bytes.len() != 4096 {
            return Err(GeometryErr::Length);
        }
        let geometry = Geometry::in_bytes(bytes);
        match geometry.refusal() {
            None => Ok(geometry),
            Some(refusal) => Err(refusal),
        }
    }

    // The numbers at their places, accepted or not.
    fn in_bytes(bytes: &[u8]) -> Geometry
        requires { length bytes.now ≡ 4096 }
        ensures { numbers_of result ≡ geometry_in bytes.now }
    {
        Geometry {
            mjr: u8_at(bytes, 0),
            mnr: u8_at(bytes, 1),
            lengths: [
                u8_at(bytes, 8),
                u8_at(bytes, 9),
                u8_at(bytes, 10),
                u8_at(bytes, 11),
            ],
            mccap: u32_at(bytes, 16),
            wit: u8_at(bytes, 32),
            groups: u16_at(bytes, 64),
            pus: u16_at(bytes, 66),
            chunks: u32_at(bytes, 68),
            clba: u32_at(bytes, 72),
            ws_min: u32_at(bytes, 128),
            ws_opt: u32_at(bytes, 132),
            mw_cunits: u32_at(bytes, 136),
            maxoc: u32_at(bytes, 140),
            maxocpu: u32_at(bytes, 144),
        }
    }

    /// Writes the one spelling of an accepted geometry to 4096 bytes: its numbers at their places,
    /// and 0 between them. `read` gives the geometry back.
    pub fn write(&self, out: &mut [u8])
        requires accepted { IsGeometry self.now }
        requires size { length out.old ≡ 4096 }
        ensures spelling { out.new ≡ geometry_bytes (numbers_of self.now) }
        ensures again { read_geometry out.new ≡ Ok (numbers_of self.now) }
    {
        clear(out);
        put(out, 0, &[self.mjr, self.mnr]);
        put(out, 8, &self.lengths);
        put_u32(out, 16, self.mccap);
        put(out, 32, &[self.wit]);
        put_u16(out, 64, self.groups);
        put_u16(out, 66, self.pus);
        put_u32(out, 68, self.chunks);
        put_u32(out, 72, self.clba);
        put_u32(out, 128, self.ws_min);
        put_u32(out, 132, self.ws_opt);
        put_u32(out, 136, self.mw_cunits);
        put_u32(out, 140, self.maxoc);
        put_u32(out, 144, self.maxocpu);
    }

    /// The geometry of a small drive: one group of two parallel units, each of 8 chunks of 24
    /// blocks, with WS_MIN 2, WS_OPT 4 and MW_CUNITS 8, and addresses of 0, 1, 3 and 5 bits
    /// (Open-Channel SSD Specification 2.0, Geometry). With sectors of 512 bytes and a target of 64
    /// sectors and 64 entries of its write buffer it is the model's small shape.
    pub fn small() -> Geometry
        ensures numbers { numbers_of result ≡ small_numbers }
        ensures accepted { IsGeometry result }
        ensures shape { shape_with (numbers_of result) 512 64 64 ≡ small }
        ensures drive { IsAccepted (shape_with (numbers_of result) 512 64 64) }
    {
        let shape = Shape::small();
        Geometry {
            mjr: 2,
            mnr: 0,
            lengths: [0, 1, 3, 5],
            mccap: 0,
            wit: 0,
            groups: shape.groups,
            pus: shape.pus,
            chunks: shape.chunks,
            clba: shape.clba,
            ws_min: shape.ws_min,
            ws_opt: shape.ws_opt,
            mw_cunits: shape.mw_cunits,
            maxoc: 0,
            maxocpu: 0,
        }
    }

    /// The numbers of a drive of this geometry and of the target on it: `sector` is a block's size
    /// in bytes, `capacity` the number of user sectors, `ring` the number of entries of the write
    /// buffer.
    pub fn shape(&self, sector: u32, capacity: u64, ring: u32) -> Shape
        ensures { result ≡ shape_with (numbers_of self.now) sector capacity ring }
    {
        Shape {
            groups: self.groups,
            pus: self.pus,
            chunks: self.chunks,
            clba: self.clba,
            ws_min: self.ws_min,
            ws_opt: self.ws_opt,
            mw_cunits: self.mw_cunits,
            sector,
            capacity,
            ring,
        }
    }
}
