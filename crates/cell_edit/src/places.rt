ghost use Rattle.std.specs.Prelude.{◌≡◌, ◌<◌, Contains, length, slice_index, IfSome, IfNone};
ghost use Rattle.std.specs.List.Sorted.{IsStrictlyIncreasing};

use map_kind::Dart;

/// Up to how many darts are looked through one after another, which is faster then than a search by halves.
const FEW: usize = 8;

/// The place of a dart among darts that are ascending; none exactly where it is not among them. It costs the logarithm of
/// their count.
pub(crate) fn place_of(darts: &[Dart], dart: Dart) -> Option<usize>
    requires { IsStrictlyIncreasing darts.now }
    ensures within { IfSome result (λ place. place < length darts.now) }
    ensures place { IfSome result (λ place. slice_index darts.now place ≡ dart) }
    ensures none { IfNone result (Contains darts.now dart → ⊥) }
{
    if darts.len() > FEW {
        return darts.binary_search(&dart).ok();
    }
    for place in 0..darts.len() {
        if darts[place] == dart {
            return Some(place);
        }
        if dart < darts[place] {
            return None;
        }
    }
    None
}
