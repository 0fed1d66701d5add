ghost use Rattle.std.specs.Prelude.{◌≡◌, true};
ghost use Rattle.map_defs.specs.Names.{is_name};
ghost use Rattle.machine_defs.specs.Script.{name};

use std::marker::Model;
use text_words::read_name;

/// How many bytes a name has at most.
const NAME_MAX: usize = 32;

/// The name of a rule that a caller hands in: 1 to 32 small letters, digits and underscores. It is seen as its bytes.
#[derive(Clone, Copy, Debug, PartialEq, Eq)]
pub struct RuleName {
    // The name, and zeros behind it.
    bytes: [u8; NAME_MAX],
    len: usize,
}

impl Model for RuleName {
    ghost use Rattle.std.specs.Prelude.{ℕ, List, ◌≡◌, ◌≤◌, ◌-◌, ◌++◌, true, take, drop, length, replicate};
    ghost use Rattle.std.proofs.Common.{length-take-le, arith};
    ghost use Rattle.map_defs.specs.Names.{is_name};
    ghost use Rattle.attr_rules.specs.Padding.{padded};

    ghost Value = { List ℕ };

    ghost view = { λ name. take name.len name.bytes };

    ghost invariant = { λ name. (length name.bytes ≡ 32) × (name.len ≤ 32) × (is_name (take name.len name.bytes) ≡ true) × (drop name.len name.bytes ≡ replicate (32 - name.len) 0) };

    ghost inverse = { λ name. record { bytes = name ++ replicate (32 - length name) 0; len = length name } };

    ghost inverse_ok = { λ name h i. record {
      bytes = padded name.len name.bytes h.0 h.1 h.3 i;
      len = length-take-le name.len name.bytes (Prim.omega (arith, h.0, h.1)) i;
    } };
}

impl RuleName {
    /// The name that this text is; none exactly where it is no name.
    pub fn new(text: &str) -> Option<RuleName>
        ensures { result ≡ name text.now }
    {
        let name = read_name(text.as_bytes())?;
        let len = name.len();
        let mut bytes = [0; NAME_MAX];
        bytes[..len].copy_from_slice(name.as_bytes());
        Some(RuleName { bytes, len })
    }

    /// The name as text.
    pub fn as_str(&self) -> &str
        ensures same { result.now ≡ self.now }
        ensures name { is_name self.now ≡ true }
    {
        str::from_utf8(&self.bytes[..self.len]).unwrap()
    }
}
