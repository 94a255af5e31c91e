//! Shapes that are accepted.

ghost use Rattle.pblk_model.specs.declared.shape.Shape.{Shape};
ghost use Rattle.pblk_model.specs.Accepted.{IsAccepted};

/// Some shape is accepted. So the laws on accepted shapes speak of something.
pub fn a_shape_is_accepted()
    ensures { (s : Shape) × IsAccepted s }
{}
