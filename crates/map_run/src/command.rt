//! The words with which the program is called.
ghost use Rattle.std.specs.Prelude.{map, IsNone, IfSome, string_bytes, ◌↔◌, [], ◌∷◌};
ghost use Rattle.machine_defs.specs.Program.{TellsCommand, IsNoCommand};
ghost use Rattle.map_run.specs.Commands.{IsLettered, IsNumbered, IsBetween, IsMeshNamed, command_of};

use map_soak::SQUARES_MAX;
use text_words::read_numeral;

/// The kinds of map that the program offers.
#[derive(Clone, Copy, Debug, PartialEq, Eq)]
pub enum MapKind {
    Generalized,
    Combinatorial,
}

/// The dimensions that the program offers.
#[derive(Clone, Copy, Debug, PartialEq, Eq)]
pub enum Dimension {
    Two,
    Three,
    Four,
}

/// What the program is to do.
#[derive(Clone, Copy, Debug, PartialEq, Eq)]
pub enum Command<'a> {
    /// `run KIND DIM MESH SCRIPT`.
    Run(RunScript<'a>),
    /// `audit FILE`: read the listing of this name, and write it again with the counts of its map.
    Audit(&'a str),
    /// `half FILE`: read the listing of this name, and write that of its half or of its double.
    Half(&'a str),
    /// `soak KIND SEED COUNT`.
    Soak(SoakSquares),
}

/// The command `run KIND DIM MESH SCRIPT`: run a script over a map of a kind and a dimension.
#[derive(Clone, Copy, Debug, PartialEq, Eq)]
pub struct RunScript<'a> {
    pub kind: MapKind,
    pub dimension: Dimension,
    /// The name of the mesh that makes the map; none for the empty map.
    pub mesh: Option<&'a str>,
    /// The name of the script.
    pub script: &'a str,
}

/// The command `soak KIND SEED COUNT`: obey the lines for so many squares, drawn from a number, and write a summary.
#[derive(Clone, Copy, Debug, PartialEq, Eq)]
pub struct SoakSquares {
    pub kind: MapKind,
    /// The number from which the draws begin.
    pub seed: u32,
    /// How many squares are made.
    pub count: u32,
}

/// The greatest number that a soak is drawn from.
const SEED_MAX: u32 = 2_147_483_647;

/// The command that the words tell; none exactly where they tell none.
pub fn read_command(words: &[String]) -> Option<Command<'_>>
    ensures none { IsNone result ↔ IsNoCommand (map string_bytes words.now) }
    ensures told { IfSome result (λ command. TellsCommand (map string_bytes words.now) (command_of command)) }
{
    match words {
        [word, listing] => read_of_listing(word.as_str(), listing.as_str()),
        [soak, kind, seed, count] => read_soak(
            soak.as_str(),
            kind.as_str(),
            seed.as_str(),
            count.as_str(),
        ),
        [run, kind, dimension, mesh, script] => read_run(
            run.as_str(),
            kind.as_str(),
            dimension.as_str(),
            mesh.as_str(),
            script.as_str(),
        ),
        _ => None,
    }
}

/// The command of two words, of which the first names it, and the second a listing.
fn read_of_listing<'a>(word: &str, listing: &'a str) -> Option<Command<'a>>
    ensures none { IsNone result ↔ IsNoCommand (word.now ∷ listing.now ∷ []) }
    ensures told { IfSome result (λ command. TellsCommand (word.now ∷ listing.now ∷ []) (command_of command)) }
{
    if word == "audit" {
        Some(Command::Audit(listing))
    } else if word == "half" {
        Some(Command::Half(listing))
    } else {
        None
    }
}

/// The command of four words, of which the first names it.
fn read_soak<'a>(soak: &str, kind: &str, seed: &str, count: &str) -> Option<Command<'a>>
    ensures none { IsNone result ↔ IsNoCommand (soak.now ∷ kind.now ∷ seed.now ∷ count.now ∷ []) }
    ensures told { IfSome result (λ command. TellsCommand (soak.now ∷ kind.now ∷ seed.now ∷ count.now ∷ []) (command_of command)) }
{
    if soak != "soak" {
        return None;
    }
    let kind = read_kind(kind)?;
    let seed = read_number(seed, 0, SEED_MAX)?;
    let count = read_number(count, 1, SQUARES_MAX)?;
    Some(Command::Soak(SoakSquares { kind, seed, count }))
}

/// The command of five words, of which the first names it.
fn read_run<'a>(
    run: &str,
    kind: &str,
    dimension: &str,
    mesh: &'a str,
    script: &'a str,
) -> Option<Command<'a>>
    ensures none { IsNone result ↔ IsNoCommand (run.now ∷ kind.now ∷ dimension.now ∷ mesh.now ∷ script.now ∷ []) }
    ensures told { IfSome result (λ command. TellsCommand (run.now ∷ kind.now ∷ dimension.now ∷ mesh.now ∷ script.now ∷ []) (command_of command)) }
{
    if run != "run" {
        return None;
    }
    let kind = read_kind(kind)?;
    let dimension = read_dimension(dimension)?;
    Some(Command::Run(RunScript {
        kind,
        dimension,
        mesh: read_mesh(mesh),
        script,
    }))
}

fn read_kind(word: &str) -> Option<MapKind>
    ensures { IsLettered result word.now }
{
    if word == "g" {
        Some(MapKind::Generalized)
    } else if word == "c" {
        Some(MapKind::Combinatorial)
    } else {
        None
    }
}

/// The name of a mesh; none for `-`.
fn read_mesh(word: &str) -> Option<&str>
    ensures { IsMeshNamed result word.now }
{
    if word == "-" { None } else { Some(word) }
}

fn read_dimension(word: &str) -> Option<Dimension>
    ensures { IsNumbered result word.now }
{
    if word == "2" {
        Some(Dimension::Two)
    } else if word == "3" {
        Some(Dimension::Three)
    } else if word == "4" {
        Some(Dimension::Four)
    } else {
        None
    }
}

/// The number that a word writes, if it is not below `low` and not above `high`.
fn read_number(word: &str, low: u32, high: u32) -> Option<u32>
    ensures { IsBetween low high result word.now }
{
    let number = read_numeral(word.as_bytes())?;
    if u64::from(low) <= number && number <= u64::from(high) {
        Some(number as u32)
    } else {
        None
    }
}
