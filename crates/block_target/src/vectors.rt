//! Vectors that have room for what is put into them.
ghost use Rattle.std.specs.Prelude.{◌≡◌, ◌+◌, ◌++◌, ◌≤◌, ◌<◌, [], ◌∷◌, length, vec_capacity};

/// Puts a value behind the others.
pub(crate) fn put<T>(values: &mut Vec<T>, value: T)
    requires room { length values.old.items < vec_capacity values.old }
    ensures items { values.new.items ≡ values.old.items ++ value ∷ [] }
    ensures capacity { vec_capacity values.old ≤ vec_capacity values.new }
{
    values.push(value).unwrap();
}

/// Takes the last of some values.
pub(crate) fn take_last<T>(values: &mut Vec<T>) -> T
    requires some { 0 < length values.old.items }
    ensures items { values.old.items ≡ values.new.items ++ result ∷ [] }
    ensures fewer { length values.old.items ≡ length values.new.items + 1 }
    ensures capacity { vec_capacity values.old ≤ vec_capacity values.new }
{
    values.pop().unwrap()
}
