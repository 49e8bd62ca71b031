//! The places of saved texts.
ghost use Rattle.std.specs.Prelude.{◌≡◌, ◌<◌, ◌^◌, ◌↔◌, IfSome, IsSome};

/// A text that is saved in the context, by its place among all that is saved.
///
/// Two of one context are equal exactly where their texts are, since each distinct text is saved once.
#[derive(Clone, Copy, Debug, PartialEq, Eq, Hash, Drop)]
pub struct TextId(pub u32);

impl TextId {
    /// The text at this place. `None` where the place is above `u32::MAX`.
    pub fn at(place: usize) -> Option<TextId>
        ensures fits { IsSome result ↔ (place < 2 ^ 32) }
        ensures place { IfSome result (λ id. id.0 ≡ place) }
    {
        if place < 1 << 32 {
            Some(TextId(place as u32))
        } else {
            None
        }
    }

    /// The place.
    pub fn index(self) -> usize
        ensures { result ≡ self.0 }
    {
        self.0 as usize
    }
}
