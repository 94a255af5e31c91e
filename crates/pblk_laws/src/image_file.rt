//! The file in which a drive is kept: what is spelled is read, and one file is of one drive.

ghost use Rattle.std.specs.Prelude.{◌≡◌, ◌<◌, ◌^◌, ℕ, List, [], None, Ok, IsTrue};
ghost use Rattle.std.specs.List.{AllByRecursion};
ghost use Rattle.pblk_model.specs.Accepted.{IsAccepted};
ghost use Rattle.pblk_model.specs.Descriptor.{Descriptor, spelled, pointer_holds, read_descriptor};
ghost use Rattle.pblk_model.specs.Geometry.{Geometry, geometry_refusal, geometry_bytes, read_geometry};
ghost use Rattle.pblk_model.specs.Image.{IsFit};
ghost use Rattle.pblk_model.specs.ImageFile.{Drive, IsImage, image_refusal, shape_of, image_of, image_bytes, blocks_bytes};
ghost use Rattle.pblk_laws.specs.GeometryFields.{FitsFields};

/// A geometry that isn't refused, and whose numbers fit their places, is read back from its one
/// spelling.
pub fn geometry_is_read_back()
    ensures { (g : Geometry) → FitsFields g → geometry_refusal g ≡ None
        → read_geometry (geometry_bytes g) ≡ Ok g }
{}

/// A descriptor is read back from its one spelling, where its write pointer may stand in a chunk
/// of its state, and its numbers fit their places.
pub fn descriptor_is_read_back()
    ensures { (d : Descriptor) → d.wear < 256 → d.slba < 2 ^ 64 → d.cnlb < 2 ^ 64 → d.wp < 2 ^ 64
        → IsTrue (pointer_holds d.state d.cnlb d.wp) → read_descriptor (spelled d) ≡ Ok d }
{}

/// The spelling of a drive is an image of that drive, where its geometry isn't refused, its
/// numbers fit their places, its shape is one that is taken, and its units are those of a drive
/// of its shape.
pub fn spelled_image_is_read()
    ensures { (d : Drive) → FitsFields d.geometry → geometry_refusal d.geometry ≡ None
        → IsAccepted (shape_of d) → IsFit (image_of d)
        → AllByRecursion (AllByRecursion (λ k. k.wear < 256)) d.units
        → IsImage (image_bytes d) d }
{}

/// Bytes are an image of one drive at most whose units are those of a drive of its shape, and so
/// have sectors of bytes and marks of 64 bits.
pub fn image_is_of_one_drive()
    ensures { (bytes : List ℕ) (d e : Drive) → IsImage bytes d → IsImage bytes e
        → IsFit (image_of d) → IsFit (image_of e) → d ≡ e }
{}

/// Bytes that aren't refused are an image of some drive whose shape is accepted and whose units are
/// those of a drive of its shape.
pub fn an_image_is_of_a_fit_drive()
    ensures { (b : List ℕ) → AllByRecursion (λ x. x < 256) b → image_refusal b ≡ None
        → (d : Drive) × IsImage b d × IsAccepted (shape_of d) × IsFit (image_of d) }
{}

/// There is a drive, with a written block, whose spelling is an image of it.
pub fn a_drive_is_spelled()
    ensures { (d : Drive) × IsImage (image_bytes d) d × (blocks_bytes d ≡ [] → ⊥) }
{}
