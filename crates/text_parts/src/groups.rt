//! A list cut into groups.
ghost use Rattle.std.specs.Prelude.{◌≡◌, ◌<◌, ◌∷◌, [], length, MatchOption};
ghost use Rattle.text_parts.specs.Groups.{groups, AreGroups};

/// The first group of so many items, or all where there are fewer, and what is left; nothing of no items.
pub fn cut_group<T>(size: usize, items: &[T]) -> Option<(&[T], &[T])>
    requires { 0 < size }
    ensures cut { MatchOption result (groups size items.now ≡ []) (λ cut.
        (groups size items.now ≡ cut.0.now ∷ groups size cut.1.now) × (length cut.1.now < length items.now)) }
    ensures made { AreGroups size (groups size items.now) items.now }
{
    if items.is_empty() {
        return None;
    }
    Some(items.split_at(size.min(items.len())))
}
