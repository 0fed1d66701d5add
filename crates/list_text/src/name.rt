ghost use Rattle.std.specs.Prelude.{◌≡◌, true};
ghost use Rattle.machine_defs.specs.Script.{is_name};

use std::marker::Model;

/// How many bytes a name has at most.
const NAME_MAX: usize = 32;

/// The name of a mark: 1 to 32 small letters, digits and underscores. It is seen as its bytes.
#[derive(Debug, Drop)]
pub struct MarkName {
    // The name, and zeros behind it.
    bytes: [u8; NAME_MAX],
    len: usize,
}

impl Model for MarkName {
    ghost use Rattle.std.specs.Prelude.{ℕ, List, ◌≡◌, ◌≤◌, true, take, length};
    ghost use Rattle.machine_defs.specs.Script.{is_name};

    ghost Value = { List ℕ };

    ghost view = { λ name. take name.len name.bytes };

    ghost invariant = { λ name. (length name.bytes ≡ 32) × (name.len ≤ 32) × (is_name (take name.len name.bytes) ≡ true) };
}

impl MarkName {
    /// The name that this text is.
    pub fn new(name: &str) -> MarkName
        requires { is_name name.now ≡ true }
        ensures { result ≡ name.now }
    {
        let len = name.len();
        let mut bytes = [0; NAME_MAX];
        bytes[..len].copy_from_slice(name.as_bytes());
        MarkName { bytes, len }
    }

    /// The name as text.
    pub fn as_str(&self) -> &str
        ensures same { result.now ≡ self.now }
        ensures name { is_name self.now ≡ true }
    {
        str::from_utf8(&self.bytes[..self.len]).unwrap()
    }
}
