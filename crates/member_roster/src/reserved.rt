// Vectors with reserved room.
ghost use Rattle.std.specs.Prelude.{◌≡◌, ◌<◌, ◌≤◌, ◌∷◌, ◌++◌, [], vec_len, vec_capacity};
ghost use Rattle.std.specs.List.{insert};

/// Inserts an element at a place of a vector with room for it.
pub(crate) fn insert_reserved<T: Drop>(items: &mut Vec<T>, at: usize, item: T)
    requires capacity { vec_len items.old < vec_capacity items.old }
    requires place { at ≤ vec_len items.old }
    ensures items { items.new.items ≡ insert items.old.items at item }
    ensures capacity { vec_capacity items.old ≤ vec_capacity items.new }
{
    match items.insert(at, item) {
        Ok(()) => {}
        Err(_) => unreachable!(),
    }
}

/// Adds an element at the end of a vector with room for it.
pub(crate) fn push_reserved<T: Drop>(items: &mut Vec<T>, item: T)
    requires { vec_len items.old < vec_capacity items.old }
    ensures items { items.new.items ≡ items.old.items ++ item ∷ [] }
    ensures capacity { vec_capacity items.old ≤ vec_capacity items.new }
{
    match items.push(item) {
        Ok(()) => {}
        Err(_) => unreachable!(),
    }
}
