//! Handles of types.
ghost use Rattle.std.specs.Prelude.{◌≡◌};

/// A type of a context, by its place in the list of the context's types. Two handles are equal exactly where their places are.
///
/// It stands for pliron's `TypeHandle`.
#[derive(Clone, Copy, Debug, Drop, PartialEq, Eq, Hash)]
pub struct TypeHandle {
    /// The place, from 0.
    pub place: usize,
}

impl TypeHandle {
    /// The handle of the type at this place. Where no type has the place, the handle isn't known to the context.
    pub fn at(place: usize) -> TypeHandle
        ensures { result.place ≡ place }
    {
        TypeHandle { place }
    }

    /// The place.
    pub fn index(&self) -> usize
        ensures { result ≡ self.now.place }
    {
        self.place
    }
}
