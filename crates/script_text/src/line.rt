//! What a line of a script tells, as plain data.
use map_kind::Value;

/// A line of a script: it changes the map, or it asks something of it.
#[derive(Debug, PartialEq, Eq, Drop)]
pub enum Line {
    /// A line that changes the map.
    Change(Change),
    /// A line that asks, and changes nothing.
    Question(Question),
}

/// A line that changes the map: one variant for each first word, with the words after it in their order. Nothing is known of
/// its numbers but that they were written: a dart may be none of the map, and a dimension or a link may be above the map's.
///
/// In each doc below `i` is the number of a dimension or of a link, and `d` and `e` are numbers of darts.
#[derive(Debug, PartialEq, Eq, Drop)]
pub enum Change {
    /// `polygon k`: make a face of k sides.
    Polygon(u64),
    /// `dart`: make a dart whose links are free.
    Dart,
    /// `del d`: end a dart whose links are free.
    Del(u64),
    /// `sew i d e`: sew two darts by link i.
    Sew(u64, u64, u64),
    /// `unsew i d`: free link i of a dart, and of all that are sewn with it.
    Unsew(u64, u64),
    /// `vertex d`: insert a vertex in the edge of a dart.
    Vertex(u64),
    /// `edge d e`: insert an edge between the corners of two darts.
    Edge(u64, u64),
    /// `face d1 d2 ..`: insert a face along a path of 1 to `PATH_MAX` darts.
    Face(Vec<u64>),
    /// `remove i d`: remove the i-cell of a dart.
    Remove(u64, u64),
    /// `contract i d`: contract the i-cell of a dart.
    Contract(u64, u64),
    /// `dual`: take the dual of the map.
    Dual,
    /// `close i`: close the map at link i, with a new dart on each dart that is free there.
    Close(u64),
    /// `dangle d`: hang an edge at the corner of a dart.
    Dangle(u64),
    /// `center d`: put a vertex in the middle of the face of a dart, with an edge to each corner.
    Center(u64),
    /// `rule i merge split`: name the rule for the values of dimension i by its merge and its split. Each name has 1 to 32
    /// small letters, digits and underscores; that they are names in the tables of rules is not known.
    Rule(u64, String, String),
    /// `set i d a b c`: give the i-cell of a dart a value.
    Set(u64, u64, Value),
    /// `clear i d`: take the value of the i-cell of a dart.
    Clear(u64, u64),
    /// `mark name`: set a mark of that name, of 1 to 32 small letters, digits and underscores.
    Mark(String),
    /// `undo name`: go back to the mark of that name.
    Undo(String),
    /// `redo name`: take back the last undo, which was one of that name.
    Redo(String),
}

/// A line that asks something of the map and changes nothing, in the same form as a [`Change`].
#[derive(Debug, PartialEq, Eq, Drop)]
pub enum Question {
    /// `log name`: tell the steps since the mark of that name.
    Log(String),
    /// `cell i d`: which darts the i-cell of a dart has.
    Cell(u64, u64),
    /// `same i d e`: whether two darts lie in the same i-cell.
    Same(u64, u64, u64),
    /// `free i d`: whether link i of a dart is free.
    Free(u64, u64),
    /// `value i d`: what value the i-cell of a dart has.
    Value(u64, u64),
    /// `removable i d`: whether the i-cell of a dart can be removed.
    Removable(u64, u64),
    /// `contractible i d`: whether the i-cell of a dart can be contracted.
    Contractible(u64, u64),
    /// `sewable i d e`: whether two darts can be sewn by link i.
    Sewable(u64, u64, u64),
    /// `off`: the map's surface as OFF text.
    Off,
    /// `count`: how many darts, cells of each dimension and components the map has.
    Count,
    /// `show`: the listing of the map.
    Show,
}
