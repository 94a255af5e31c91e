//! The raw part: the bytes of a `Vec`, cut into ranges of one length that go out and come back.
ghost use Rattle.std.specs.Prelude.{◌≡◌, ◌≢◌, ℕ, ◌*◌, ◌<◌, ◌≤◌, ◌^◌, Bool, true, false, List};
ghost use Rattle.std.specs.Prelude.{length, replicate, slice_get, slice_set, Some};
ghost use Rattle.std.specs.Vec.{with_items};
ghost use Rattle.std_alloc.specs.Vec.{vec_ptr, vec_len};
ghost use base.Fml.{ftrue, fex};
ghost use denote.RawPtr.{block_ptr};
ghost use Rattle.pblk_model.specs.Frames.{Region};
ghost use Rattle.sector_pool.specs.Places.{HasShape, IsRange, IsExtent};
ghost use Rattle.sector_pool.specs.Owned.{Extent, extent_code, awaits_bytes, ranges_here};

use std::marker::{Model, Move, Owns};
use std_alloc::vec::{Lodged, lodge};

/// A region's ranges: those that are here with their bytes, and the bytes behind the last of all.
pub(crate) struct Ranges {
    base: *mut u8,
    pub(crate) ghost region: { Region },
    pub(crate) ghost rest: { ℕ },
    // of each range, whether it is here
    pub(crate) ghost here: { List Bool },
    ghost placed: { base ≡ block_ptr region.block region.start },
    pub(crate) ghost counted: { length here ≡ region.count },
    pub(crate) ghost some: { 0 < region.stride },
    pub(crate) ghost small: { region.stride < 2 ^ 63 },
}

impl Model for Ranges {
    ghost also_owns = { λ m. ranges_here m.region.block m.region.stride m.rest m.region.start
        m.here };
}

/// Which region a range is of. It has no bytes, and is there in contracts alone.
#[derive(Drop)]
pub struct Origin {
    pub ghost region: { Region },
}

impl Model for Origin {
    ghost also_owns = { λ _. ftrue };
}

/// A `Vec` that has handed out its bytes, and is whole again once it has as many at the same place.
pub(crate) struct Emptied {
    vec: Vec<u8>,
}

impl Owns for Emptied {
    ghost Value = { Extent };

    ghost coded = { extent_code };

    ghost shr_at = { λ _ _ _. ftrue };
}

impl Move for Emptied {
    ghost own_val = { λ e vs. fex Inside (λ v. awaits_bytes e v.vec.len
        (λ content. Fields.own_val (record { vec = with_items v.vec content }) vs)) };
}

unsafe impl Send for Ranges {}

unsafe impl Sync for Ranges {}

unsafe impl Send for Emptied {}

unsafe impl Sync for Emptied {}

unsafe impl Send for Origin {}

unsafe impl Sync for Origin {}

/// Cuts the first bytes of the `Vec` into `_count` ranges of `_stride` bytes, which are all here.
pub(crate) fn cut(
    vec: Vec<u8>,
    base: *mut u8,
    _count: usize,
    _stride: usize,
    _size: usize,
) -> (Ranges, Emptied)
    requires { (base ≡ vec_ptr vec) × (0 < vec_len vec) × (0 < _stride) × (_stride < 2 ^ 63)
        × (_count * _stride ≤ vec_len vec) }
    ensures { HasShape result.0.region _stride _size _count
        × (result.0.here ≡ replicate _count true) × IsExtent result.0.region result.0.rest result.1
        × (result.1.len ≡ vec_len vec) }
{
    (Ranges { base }, Emptied { vec })
}

/// The `Vec` with its bytes again, once all ranges are here.
pub(crate) fn rejoin(ranges: Ranges, emptied: Emptied) -> Vec<u8>
    requires { (ranges.here ≡ replicate ranges.region.count true)
        × IsExtent ranges.region ranges.rest emptied }
    ensures { vec_len result ≡ emptied.len }
{
    let Ranges { base: _ } = ranges;
    let Emptied { vec } = emptied;
    vec
}

impl Ranges {
    /// Which region it is.
    pub(crate) fn origin(&self) -> Origin
        ensures { result.region ≡ self.now.region }
    {
        Origin {}
    }

    /// Lends out a range that is here: a `Vec` over its bytes that neither grows nor frees them.
    pub(crate) fn lend(
        &mut self,
        _number: usize,
        offset: usize,
        stride: usize,
    ) -> (Vec<u8, Lodged>, Origin)
        requires { (slice_get self.old.here _number ≡ Some true) × (offset ≡ _number * stride)
            × (stride ≡ self.old.region.stride) }
        ensures { (self.new.here ≡ slice_set self.old.here _number false)
            × (self.new.region ≡ self.old.region) × (self.new.rest ≡ self.old.rest)
            × IsRange self.old.region _number (vec_ptr result.0) (vec_len result.0)
            × (result.1.region ≡ self.old.region) }
    {
        unsafe { (lodge(self.base.add(offset), stride, stride), Origin {}) }
    }

    /// Takes a range back. Its bytes have one owner, and so it wasn't here.
    pub(crate) fn regain(&mut self, bytes: Vec<u8, Lodged>, _number: usize)
        requires { (_number < self.old.region.count)
            × IsRange self.old.region _number (vec_ptr bytes) (vec_len bytes) }
        ensures { (slice_get self.old.here _number ≡ Some false)
            × (self.new.here ≡ slice_set self.old.here _number true)
            × (self.new.region ≡ self.old.region) × (self.new.rest ≡ self.old.rest) }
    {
        let _len = bytes.dislodge();
    }
}

/// Two such `Vec`s don't begin at one place, since bytes have one owner. It changes nothing.
pub(crate) fn differ(_one: &mut Vec<u8, Lodged>, _other: &mut Vec<u8, Lodged>)
    requires { (0 < vec_len _one.old) × (0 < vec_len _other.old) }
    ensures { (vec_ptr _one.old ≢ vec_ptr _other.old) × (_one.new ≡ _one.old)
        × (_other.new ≡ _other.old) }
{}
