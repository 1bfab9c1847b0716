//! What is printed of actions, needs and nodes.

use crate::{Action, Need, NodeId, NodeSet};
use std::fmt;

impl fmt::Display for Action {
    ghost use Rattle.std.specs.Prelude.{Some};
    ghost use Rattle.ucm_base.specs.Printed.{action_text};

    ghost output = { λ a. Some (action_text a) };

    fn fmt<W: fmt::Write>(&self, f: &mut fmt::Formatter<W>) -> fmt::Result {
        match self {
            Action::Install => write!(f, "install"),
            Action::Update => write!(f, "update"),
            Action::Remove => write!(f, "remove"),
        }
    }
}

impl fmt::Display for Need {
    ghost use Rattle.std.specs.Prelude.{Some};
    ghost use Rattle.ucm_base.specs.Printed.{need_text};

    ghost output = { λ need. Some (need_text need) };

    fn fmt<W: fmt::Write>(&self, f: &mut fmt::Formatter<W>) -> fmt::Result {
        let name = self.name;
        let req = self.req.text();
        write!(f, "{name}@{req}")
    }
}

impl fmt::Display for NodeId {
    ghost use Rattle.std.specs.Prelude.{Some};
    ghost use Rattle.std.specs.Fmt.{decimal};

    ghost output = { λ n. Some (decimal n) };

    fn fmt<W: fmt::Write>(&self, f: &mut fmt::Formatter<W>) -> fmt::Result {
        let number = self.number();
        write!(f, "{number}")
    }
}

impl fmt::Display for NodeSet {
    ghost use Rattle.std.specs.Prelude.{Some};
    ghost use Rattle.ucm_base.specs.Printed.{nodes_text};

    ghost output = { λ nodes. Some (nodes_text nodes) };

    fn fmt<W: fmt::Write>(&self, f: &mut fmt::Formatter<W>) -> fmt::Result {
        let mut separator = "";
        for (before, flag) in self.flags.iter().enumerate() {
            if *flag {
                let number = before + 1;
                write!(f, "{separator}{number}")?;
                separator = ",";
            }
        }
        Ok(())
    }
}
