//! What the lines above attach.
ghost use Rattle.std.specs.Prelude.{◌≡◌, [], OnOk};
ghost use Rattle.scenario.specs.Attached.{attached_by, with_attached};

use std::alloc::{AllocError, Global};
use std::collections::BTreeMap;
use std::marker::Model;
use ucm_base::ClusterName;

/// Where an attachment lies among the attached bytes.
#[derive(Clone, Copy, Debug, PartialEq, Eq)]
pub struct Attached {
    /// The place of its first byte.
    pub at: u32,
    /// How many bytes it has.
    pub len: u32,
}

/// Attachments by their names, seen as the entries in order of names. A look-up costs the logarithm
/// of their number.
#[derive(Drop)]
pub struct Attachments {
    places: BTreeMap<ClusterName, Attached>,
}

impl Model for Attachments {
    ghost use Rattle.std.specs.Prelude.{ℕ, List};
    ghost use Rattle.scenario.specs.declared.attachments.Attached.{Attached};

    ghost Value = { List (List ℕ × Attached) };

    ghost view = { λ a. a.places.entries };
}

impl Attachments {
    /// No attachments.
    pub fn new(alloc: Global) -> Attachments
        ensures { result ≡ [] }
    {
        Attachments {
            places: BTreeMap::new(alloc),
        }
    }

    /// The attachment of this name, if there is one.
    pub fn named(&self, name: ClusterName) -> Option<Attached>
        ensures { result ≡ attached_by self.now name }
    {
        self.places.get(&name).copied()
    }

    /// Adds an attachment.
    pub fn add(&mut self, name: ClusterName, place: Attached) -> Result<(), AllocError>
        ensures { OnOk result (self.new ≡ with_attached self.old name place) }
    {
        self.places.insert(name, place)?;
        Ok(())
    }
}
