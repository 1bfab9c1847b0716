//! What is printed of a node's answers.
ghost use Rattle.std.specs.Prelude.{◌≡◌};

use crate::{EndMark, IdList, Outcome, Reached, Refusal, Reply, SessionMark, Status, Synced};
use std::fmt;

impl fmt::Display for Status {
    ghost use Rattle.std.specs.Prelude.{Some};
    ghost use Rattle.pm_types.specs.Text.{status_text};

    ghost output = { λ s. Some (status_text s) };

    fn fmt<W: fmt::Write>(&self, f: &mut fmt::Formatter<W>) -> fmt::Result {
        match self {
            Status::Idle => write!(f, "kIdle"),
            Status::Ready => write!(f, "kReady"),
            Status::Processing => write!(f, "kProcessing"),
            Status::Activating => write!(f, "kActivating"),
            Status::Verifying => write!(f, "kVerifying"),
            Status::Activated => write!(f, "kActivated"),
            Status::RollingBack => write!(f, "kRollingBack"),
            Status::RolledBack => write!(f, "kRolledBack"),
            Status::CleaningUp => write!(f, "kCleaningUp"),
        }
    }
}

impl fmt::Display for Outcome {
    ghost use Rattle.std.specs.Prelude.{Some};
    ghost use Rattle.pm_types.specs.Text.{outcome_text};

    ghost output = { λ o. Some (outcome_text o) };

    fn fmt<W: fmt::Write>(&self, f: &mut fmt::Formatter<W>) -> fmt::Result {
        match self {
            Outcome::New => write!(f, "New"),
            Outcome::Old => write!(f, "Old"),
        }
    }
}

impl fmt::Display for Refusal {
    ghost use Rattle.std.specs.Prelude.{Some};
    ghost use Rattle.pm_types.specs.Text.{refusal_text};

    ghost output = { λ r. Some (refusal_text r) };

    fn fmt<W: fmt::Write>(&self, f: &mut fmt::Formatter<W>) -> fmt::Result {
        match self {
            Refusal::InsufficientMemory => write!(f, "InsufficientMemory"),
            Refusal::IncorrectSize => write!(f, "IncorrectSize"),
            Refusal::InvalidTransferId => write!(f, "InvalidTransferId"),
            Refusal::OperationNotPermitted => write!(f, "OperationNotPermitted"),
            Refusal::IncorrectBlock => write!(f, "IncorrectBlock"),
            Refusal::InsufficientData => write!(f, "InsufficientData"),
            Refusal::PackageInconsistent { place } => write!(f, "PackageInconsistent {place}"),
            Refusal::InvalidManifest => write!(f, "InvalidManifest"),
            Refusal::ServiceBusy => write!(f, "ServiceBusy"),
            Refusal::OldVersion => write!(f, "OldVersion"),
            Refusal::MissingDependencies {
                cluster,
                needed,
                req,
            } => write!(f, "MissingDependencies {cluster} {needed}@{req}"),
            Refusal::ActionNotApplicable => write!(f, "ActionNotApplicable"),
            Refusal::TooManyClusters => write!(f, "TooManyClusters"),
            Refusal::ClusterAlreadyChanged => write!(f, "ClusterAlreadyChanged"),
        }
    }
}

impl fmt::Display for SessionMark {
    ghost use Rattle.std.specs.Prelude.{Some};
    ghost use Rattle.pm_types.specs.Text.{session_text};

    ghost output = { λ x. Some (session_text x) };

    fn fmt<W: fmt::Write>(&self, f: &mut fmt::Formatter<W>) -> fmt::Result {
        let SessionMark { owner, tag, status } = *self;
        write!(f, "{owner}:{tag}:{status}")
    }
}

impl fmt::Display for EndMark {
    ghost use Rattle.std.specs.Prelude.{Some};
    ghost use Rattle.pm_types.specs.Text.{ended_text};

    ghost output = { λ e. Some (ended_text e) };

    fn fmt<W: fmt::Write>(&self, f: &mut fmt::Formatter<W>) -> fmt::Result {
        let EndMark { tag, outcome } = *self;
        write!(f, "{tag}:{outcome}")
    }
}

impl fmt::Display for IdList {
    ghost use Rattle.std.specs.Prelude.{Some};
    ghost use Rattle.pm_types.specs.Text.{ids_text};

    ghost output = { λ ids. Some (ids_text ids) };

    fn fmt<W: fmt::Write>(&self, f: &mut fmt::Formatter<W>) -> fmt::Result {
        let Some((first, more)) = self.as_slice().split_first() else {
            return write!(f, "-");
        };
        write!(f, "{first}")?;
        for id in more {
            write!(f, ",{id}")?;
        }
        Ok(())
    }
}

impl fmt::Display for Synced {
    ghost use Rattle.std.specs.Prelude.{Some};
    ghost use Rattle.pm_types.specs.Text.{synced_text};

    ghost output = { λ x. Some (synced_text x) };

    fn fmt<W: fmt::Write>(&self, f: &mut fmt::Formatter<W>) -> fmt::Result {
        let Synced {
            session,
            ended,
            transfers,
        } = self;
        write!(
            f,
            "Synced {} {} {transfers}",
            OrDash(session),
            OrDash(ended)
        )
    }
}

/// A value, or a dash where there is none.
#[derive(Drop)]
struct OrDash<'a, T>(&'a Option<T>);

impl<T: fmt::Display> fmt::Display for OrDash<'_, T> {
    ghost use Rattle.pm_types.specs.Text.{output_or_dash};

    ghost output = { λ x. output_or_dash T.output x.0.now };

    fn fmt<W: fmt::Write>(&self, f: &mut fmt::Formatter<W>) -> fmt::Result {
        match self.0 {
            Some(value) => write!(f, "{value}"),
            None => write!(f, "-"),
        }
    }
}

impl fmt::Display for Reply {
    ghost use Rattle.std.specs.Prelude.{Some};
    ghost use Rattle.pm_types.specs.Text.{reply_text};

    ghost output = { λ r. Some (reply_text r) };

    fn fmt<W: fmt::Write>(&self, f: &mut fmt::Formatter<W>) -> fmt::Result {
        match self {
            Reply::Done => write!(f, "Done"),
            Reply::Started { id } => write!(f, "Started {id}"),
            Reply::Synced(synced) => write!(f, "{synced}"),
            Reply::Refused(refusal) => {
                let code = refusal.code();
                write!(f, "Refused {code} {refusal}")
            }
        }
    }
}

impl fmt::Display for Reached {
    ghost use Rattle.std.specs.Prelude.{Some};
    ghost use Rattle.pm_types.specs.Text.{reached_text};

    ghost output = { λ r. Some (reached_text r) };

    fn fmt<W: fmt::Write>(&self, f: &mut fmt::Formatter<W>) -> fmt::Result {
        match self {
            Reached::Done(reply) => write!(f, "{reply}"),
            Reached::Again(reply) => write!(f, "Again {reply}"),
            Reached::Stale { last } => write!(f, "Stale {last}"),
        }
    }
}
