//! Which mount it is.
ghost use Rattle.std.specs.Prelude.{ℕ, List};
ghost use Rattle.atomic_table.specs.Seated.{TableId};
ghost use Rattle.chronicle.specs.Views.{Past as PastOf};
ghost use Rattle.unit_port.specs.Unit.{ModelUnit};
ghost use Rattle.write_ring.specs.declared.view.Key.{Key as KeyOf};

use std::marker::Brand;

/// A mount, as contracts name it: each type that lies under a lock of an engine says by it of which
/// mount it is. The call that opens the mount picks it.
pub trait Mount {
    /// The chronicle of its logs.
    ghost chronicle: { TableId };

    /// What the chronicle began with: the image over which the mount stands, and the logs so far,
    /// which have the mount's beginning.
    ghost past: { PastOf };

    /// The table of its write ring.
    ghost ring: { TableId };

    /// What the write ring was made with.
    ghost key: { KeyOf };

    /// Its units as they were handed in, in the order of their numbers.
    ghost handed: { List ModelUnit };

    /// For each unit the wear level index of each of its chunks, as it was handed in.
    ghost wear: { List (List ℕ) };
}

impl Mount for Brand {
    ghost use Rattle.std.specs.Prelude.{[]};
    ghost use Rattle.pblk_engine.specs.Mounts.{no_key, no_past, no_table};

    ghost chronicle = { no_table };

    ghost past = { no_past };

    ghost ring = { no_table };

    ghost key = { no_key };

    ghost handed = { [] };

    ghost wear = { [] };
}
