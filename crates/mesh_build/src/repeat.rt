ghost use Rattle.std.specs.Prelude.{◌≡◌, ◌≤◌, ◌<◌, [], All, length};
ghost use Rattle.map_defs.specs.MeshMap.{repeats};

/// Whether a face names a point twice. `marks` has a number for each point, below `stamp`, and the points of this face get
/// `stamp` as theirs.
pub fn has_repeat(marks: &mut Vec<u32>, stamp: u32, corners: &[u32]) -> bool
    requires fresh { All (λ m. m < stamp) marks.old.items }
    requires points { All (λ v. v < length marks.old.items) corners.now }
    ensures result { result ≡ repeats [] corners.now }
    ensures stamped { All (λ m. m ≤ stamp) marks.new.items }
    ensures long { length marks.new.items ≡ length marks.old.items }
{
    for point in corners {
        if marks[*point as usize] == stamp {
            return true;
        }
        marks[*point as usize] = stamp;
    }
    false
}
