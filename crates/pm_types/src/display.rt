//! What is printed of calls, phases and units, and of what queries show.

use crate::{CallName, ChangeInfo, ClusterInfo, Happened, PackageInfo, Phase, Worked};
use std::fmt;

impl fmt::Display for CallName {
    ghost use Rattle.std.specs.Prelude.{Some};
    ghost use Rattle.pm_types.specs.Printed.{call_name_text};

    ghost output = { λ name. Some (call_name_text name) };

    fn fmt<W: fmt::Write>(&self, f: &mut fmt::Formatter<W>) -> fmt::Result {
        match self {
            CallName::Sync => write!(f, "Sync"),
            CallName::TransferStart => write!(f, "TransferStart"),
            CallName::TransferData => write!(f, "TransferData"),
            CallName::TransferExit => write!(f, "TransferExit"),
            CallName::DeleteTransfer => write!(f, "DeleteTransfer"),
            CallName::ProcessSwPackage => write!(f, "ProcessSwPackage"),
            CallName::Activate => write!(f, "Activate"),
            CallName::Finish => write!(f, "Finish"),
            CallName::Rollback => write!(f, "Rollback"),
            CallName::RevertProcessedSwPackages => write!(f, "RevertProcessedSwPackages"),
            CallName::Cancel => write!(f, "Cancel"),
        }
    }
}

impl fmt::Display for Phase {
    ghost use Rattle.std.specs.Prelude.{Some};
    ghost use Rattle.pm_types.specs.Printed.{phase_text};

    ghost output = { λ phase. Some (phase_text phase) };

    fn fmt<W: fmt::Write>(&self, f: &mut fmt::Formatter<W>) -> fmt::Result {
        match self {
            Phase::Transferring => write!(f, "Transferring"),
            Phase::Transferred => write!(f, "Transferred"),
            Phase::Processing => write!(f, "Processing"),
            Phase::Processed => write!(f, "Processed"),
        }
    }
}

impl fmt::Display for Worked {
    ghost use Rattle.std.specs.Prelude.{Some};
    ghost use Rattle.pm_types.specs.Printed.{worked_text};

    ghost output = { λ worked. Some (worked_text worked) };

    fn fmt<W: fmt::Write>(&self, f: &mut fmt::Formatter<W>) -> fmt::Result {
        match self {
            Worked::Unit { after, .. } => write!(f, "Worked {after}"),
            Worked::Nothing { status } => write!(f, "Nothing {status}"),
        }
    }
}

impl fmt::Display for ClusterInfo {
    ghost use Rattle.std.specs.Prelude.{Some};
    ghost use Rattle.pm_types.specs.Printed.{cluster_text};

    ghost output = { λ c. Some (cluster_text c) };

    fn fmt<W: fmt::Write>(&self, f: &mut fmt::Formatter<W>) -> fmt::Result {
        let name = self.name;
        let version = self.version.text();
        write!(f, "{name}@{version}")
    }
}

impl fmt::Display for ChangeInfo {
    ghost use Rattle.std.specs.Prelude.{Some};
    ghost use Rattle.pm_types.specs.Printed.{change_text};

    ghost output = { λ c. Some (change_text c) };

    fn fmt<W: fmt::Write>(&self, f: &mut fmt::Formatter<W>) -> fmt::Result {
        let name = self.name;
        let action = self.action;
        let version = self.version.text();
        write!(f, "{name}:{action}:{version}")
    }
}

impl fmt::Display for PackageInfo {
    ghost use Rattle.std.specs.Prelude.{Some};
    ghost use Rattle.pm_types.specs.Printed.{package_text};

    ghost output = { λ p. Some (package_text p) };

    fn fmt<W: fmt::Write>(&self, f: &mut fmt::Formatter<W>) -> fmt::Result {
        let PackageInfo {
            id,
            phase,
            received,
            size,
        } = *self;
        write!(f, "{id}:{phase}:{received}/{size}")
    }
}

impl fmt::Display for Happened {
    ghost use Rattle.std.specs.Prelude.{Some};
    ghost use Rattle.pm_types.specs.Printed.{happened_text};

    ghost output = { λ happened. Some (happened_text happened) };

    fn fmt<W: fmt::Write>(&self, f: &mut fmt::Formatter<W>) -> fmt::Result {
        match self {
            Happened::Numbered {
                client,
                no,
                call,
                refusal,
            } => write!(f, "{client}/{no}/{call}/{refusal}"),
            Happened::Unit { after } => write!(f, "unit/{after}"),
        }
    }
}
