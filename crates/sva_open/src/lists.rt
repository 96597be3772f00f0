//! Small things that are done to lists.

ghost use Rattle.std.specs.Prelude.{◌≡◌, IfOk, is_none, position, remove, drop, slice_set, take};
ghost use Rattle.sva_open.specs.World.{lowest_free, put};

use std::alloc::AllocError;

/// Replaces what stands at a place, if anything does.
pub fn set_at<T: Copy + Drop>(list: &mut Vec<T>, place: usize, one: T)
    ensures { list.new.items ≡ slice_set list.old.items place one }
{
    if place < list.len() {
        list[place] = one;
    }
}

/// Takes out what stands at a place, if anything does.
pub fn drop_at<T: Copy + Drop>(list: &mut Vec<T>, place: usize)
    ensures { list.new.items ≡ remove list.old.items place }
{
    if place < list.len() {
        list.remove(place);
    }
}

/// Takes out so many from the front.
pub fn drop_first<T: Copy + Drop>(list: &mut Vec<T>, count: usize)
    ensures { list.new.items ≡ drop count list.old.items }
{
    for _at in 0..count {
        drop_at(list, 0);
    }
}

/// What stands before a place.
pub fn before<T>(list: &[T], place: usize) -> &[T]
    ensures { result.now ≡ take place list.now }
{
    if place <= list.len() {
        list.split_at(place).0
    } else {
        list
    }
}

/// The label that the next one will have: the lowest free place, or the end.
pub fn lowest_free<T: Copy + Drop>(places: &[Option<T>]) -> usize
    ensures { result ≡ lowest_free places.now }
{
    match first_free(places) {
        Some(free) => free,
        None => places.len(),
    }
}

/// The first place that is free.
fn first_free<T: Copy + Drop>(places: &[Option<T>]) -> Option<usize>
    ensures { result ≡ position is_none places.now }
{
    places.iter().position(|place| place.is_none())
}

/// Puts one more at the lowest free place, or behind all, and says where.
pub fn put<T: Copy + Drop>(places: &mut Vec<Option<T>>, one: T) -> Result<usize, AllocError>
    ensures label { IfOk result (λ label. label ≡ lowest_free places.old.items) }
    ensures places { IfOk result (λ _. places.new.items ≡ put places.old.items one) }
{
    match first_free(places.as_slice()) {
        Some(free) => {
            set_at(places, free, Some(one));
            Ok(free)
        }
        None => {
            let end = places.len();
            places.push(Some(one))?;
            Ok(end)
        }
    }
}
