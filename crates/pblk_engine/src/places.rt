//! Where arms lie.

use crate::arm::Arm;
use crate::mount::Mount;
use numbered_locks::Keeps;
use std::marker::PhantomData;
use unit_port::Unit;

/// The places of a mount's arms: in each lies the arm of the unit with the place's number.
pub struct ArmPlaces<M: Mount, U: Unit> {
    of: PhantomData<(M, U)>,
}

impl<M: Mount, U: Unit> Keeps<Arm<M, U>> for ArmPlaces<M, U> {
    ghost use Rattle.std.specs.Prelude.{◌≡◌};

    ghost keeps = { λ place arm. arm.number ≡ place };
}
