//! Replies and what they carry.
ghost use Rattle.std.specs.Prelude.{◌≡◌, ◌++◌, IfOk, IfErr};
ghost use Rattle.ucm_base.specs.Limits.{transfer_limit};
ghost use Rattle.wire.specs.Fields.{u8_field, u32_field};
ghost use Rattle.event_codec.specs.Spelling.{Any, HasBits, IsOutside, ListFits, list_spelled};
ghost use Rattle.event_codec.specs.Replies.{IsClient, status_spelled, outcome_spelled, call_no_spelled, CallNoFits, session_mark_spelled, SessionMarkFits, end_mark_spelled, EndMarkFits, synced_spelled, SyncedFits, refusal_spelled, RefusalFits, reply_spelled, ReplyFits};
ghost use Rattle.event_codec.specs.Unique.{unique-u8, unique-u32, unique-list};
ghost use Rattle.event_codec.specs.UniqueReplies.{unique-status, unique-outcome, unique-call_no, unique-session_mark, unique-end_mark, unique-synced, unique-refusal, unique-reply};

use crate::fields::{put_list, take_list};
use crate::taking::{Put, Take, Unread};
use pm_types::{EndMark, IdList, Outcome, Refusal, Reply, SessionMark, Status, Synced};
use std::alloc::{AllocError, Global};
use ucm_base::limits::TRANSFER_LIMIT;
use ucm_base::{CallNo, ClientId, ClusterName, ShortText};

impl Take for ClientId {
    ghost spelled = { u8_field };

    ghost fits = { IsClient };

    ghost unique = { unique-u8 };

    fn take(alloc: Global, bytes: &[u8]) -> Result<(ClientId, &[u8]), Unread> {
        let (number, rest) = u8::take(alloc, bytes)?;
        match ClientId::of(u64::from(number)) {
            Some(client) => Ok((client, rest)),
            None => Err(Unread::Outside),
        }
    }
}

impl Put for ClientId {
    fn put(&self, alloc: Global, into: &mut Vec<u8>) -> Result<(), AllocError> {
        self.number().put(alloc, into)
    }
}

impl Take for CallNo {
    ghost spelled = { call_no_spelled };

    ghost fits = { CallNoFits };

    ghost unique = { unique-call_no };

    fn take(alloc: Global, bytes: &[u8]) -> Result<(CallNo, &[u8]), Unread> {
        match <(u32, u32)>::take(alloc, bytes) {
            Ok(((epoch, number), rest)) => Ok((CallNo { epoch, number }, rest)),
            Err(unread) => Err(unread),
        }
    }
}

impl Put for CallNo {
    fn put(&self, alloc: Global, into: &mut Vec<u8>) -> Result<(), AllocError> {
        self.epoch.put(alloc, into)?;
        self.number.put(alloc, into)
    }
}

impl Take for Status {
    ghost spelled = { status_spelled };

    ghost fits = { Any };

    ghost unique = { unique-status };

    fn take(alloc: Global, bytes: &[u8]) -> Result<(Status, &[u8]), Unread> {
        let (code, rest) = u8::take(alloc, bytes)?;
        match code {
            0 => Ok((Status::Idle, rest)),
            1 => Ok((Status::Ready, rest)),
            2 => Ok((Status::Processing, rest)),
            3 => Ok((Status::Activating, rest)),
            4 => Ok((Status::Verifying, rest)),
            5 => Ok((Status::Activated, rest)),
            6 => Ok((Status::RollingBack, rest)),
            7 => Ok((Status::RolledBack, rest)),
            8 => Ok((Status::CleaningUp, rest)),
            _ => Err(Unread::Outside),
        }
    }
}

impl Put for Status {
    fn put(&self, alloc: Global, into: &mut Vec<u8>) -> Result<(), AllocError> {
        self.code().put(alloc, into)
    }
}

impl Take for Outcome {
    ghost spelled = { outcome_spelled };

    ghost fits = { Any };

    ghost unique = { unique-outcome };

    fn take(alloc: Global, bytes: &[u8]) -> Result<(Outcome, &[u8]), Unread> {
        let (code, rest) = u8::take(alloc, bytes)?;
        match code {
            0 => Ok((Outcome::New, rest)),
            1 => Ok((Outcome::Old, rest)),
            _ => Err(Unread::Outside),
        }
    }
}

impl Put for Outcome {
    fn put(&self, alloc: Global, into: &mut Vec<u8>) -> Result<(), AllocError> {
        let code: u8 = match self {
            Outcome::New => 0,
            Outcome::Old => 1,
        };
        code.put(alloc, into)
    }
}

impl Take for SessionMark {
    ghost spelled = { session_mark_spelled };

    ghost fits = { SessionMarkFits };

    ghost unique = { unique-session_mark };

    fn take(alloc: Global, bytes: &[u8]) -> Result<(SessionMark, &[u8]), Unread> {
        match <(ClientId, (u32, Status))>::take(alloc, bytes) {
            Ok(((owner, (tag, status)), rest)) => Ok((SessionMark { owner, tag, status }, rest)),
            Err(unread) => Err(unread),
        }
    }
}

impl Put for SessionMark {
    fn put(&self, alloc: Global, into: &mut Vec<u8>) -> Result<(), AllocError> {
        self.owner.put(alloc, into)?;
        self.tag.put(alloc, into)?;
        self.status.put(alloc, into)
    }
}

impl Take for EndMark {
    ghost spelled = { end_mark_spelled };

    ghost fits = { EndMarkFits };

    ghost unique = { unique-end_mark };

    fn take(alloc: Global, bytes: &[u8]) -> Result<(EndMark, &[u8]), Unread> {
        match <(u32, Outcome)>::take(alloc, bytes) {
            Ok(((tag, outcome), rest)) => Ok((EndMark { tag, outcome }, rest)),
            Err(unread) => Err(unread),
        }
    }
}

impl Put for EndMark {
    fn put(&self, alloc: Global, into: &mut Vec<u8>) -> Result<(), AllocError> {
        self.tag.put(alloc, into)?;
        self.outcome.put(alloc, into)
    }
}

impl Take for IdList {
    ghost spelled = { list_spelled u32_field };

    ghost fits = { ListFits (HasBits 32) transfer_limit };

    ghost unique = { unique-list transfer_limit unique-u32 };

    fn take(alloc: Global, bytes: &[u8]) -> Result<(IdList, &[u8]), Unread> {
        let (items, rest) = take_list::<u32>(alloc, bytes, TRANSFER_LIMIT as u8)?;
        let mut ids = IdList::new();
        'ids: for id in &items {
            ids.push(*id);
        }
        Ok((ids, rest))
    }
}

impl Put for IdList {
    fn put(&self, alloc: Global, into: &mut Vec<u8>) -> Result<(), AllocError> {
        put_list(alloc, into, self.as_slice())
    }
}

impl Take for Synced {
    ghost spelled = { synced_spelled };

    ghost fits = { SyncedFits };

    ghost unique = { unique-synced };

    fn take(alloc: Global, bytes: &[u8]) -> Result<(Synced, &[u8]), Unread> {
        match <(Option<SessionMark>, (Option<EndMark>, IdList))>::take(alloc, bytes) {
            Ok(((session, (ended, transfers)), rest)) => {
                let synced = Synced {
                    session,
                    ended,
                    transfers,
                };
                Ok((synced, rest))
            }
            Err(unread) => Err(unread),
        }
    }
}

impl Put for Synced {
    fn put(&self, alloc: Global, into: &mut Vec<u8>) -> Result<(), AllocError> {
        self.session.put(alloc, into)?;
        self.ended.put(alloc, into)?;
        self.transfers.put(alloc, into)
    }
}

/// What follows the number of the refusal for a need that isn't met.
fn take_missing(alloc: Global, bytes: &[u8]) -> Result<(Refusal, &[u8]), Unread>
    ensures taken { IfOk result (λ t. RefusalFits t.0
        × (u8_field 11 ++ bytes.now ≡ refusal_spelled t.0 ++ t.1.now)) }
    ensures outside { IfErr result (λ e. e ≡ Unread.Outside
        → IsOutside refusal_spelled RefusalFits (u8_field 11 ++ bytes.now)) }
{
    match <(ClusterName, (ClusterName, ShortText))>::take(alloc, bytes) {
        Ok(((cluster, (needed, req)), rest)) => {
            let refusal = Refusal::MissingDependencies {
                cluster,
                needed,
                req,
            };
            Ok((refusal, rest))
        }
        Err(unread) => Err(unread),
    }
}

impl Take for Refusal {
    ghost spelled = { refusal_spelled };

    ghost fits = { RefusalFits };

    ghost unique = { unique-refusal };

    fn take(alloc: Global, bytes: &[u8]) -> Result<(Refusal, &[u8]), Unread> {
        let (code, rest) = u8::take(alloc, bytes)?;
        match code {
            1 => Ok((Refusal::InsufficientMemory, rest)),
            2 => Ok((Refusal::IncorrectSize, rest)),
            3 => Ok((Refusal::InvalidTransferId, rest)),
            4 => Ok((Refusal::OperationNotPermitted, rest)),
            5 => Ok((Refusal::IncorrectBlock, rest)),
            6 => Ok((Refusal::InsufficientData, rest)),
            7 => {
                let (place, rest) = u64::take(alloc, rest)?;
                Ok((Refusal::PackageInconsistent { place }, rest))
            }
            8 => Ok((Refusal::InvalidManifest, rest)),
            9 => Ok((Refusal::ServiceBusy, rest)),
            10 => Ok((Refusal::OldVersion, rest)),
            11 => take_missing(alloc, rest),
            12 => Ok((Refusal::ActionNotApplicable, rest)),
            13 => Ok((Refusal::TooManyClusters, rest)),
            14 => Ok((Refusal::ClusterAlreadyChanged, rest)),
            _ => Err(Unread::Outside),
        }
    }
}

impl Put for Refusal {
    fn put(&self, alloc: Global, into: &mut Vec<u8>) -> Result<(), AllocError> {
        self.code().put(alloc, into)?;
        match self {
            Refusal::PackageInconsistent { place } => place.put(alloc, into),
            Refusal::MissingDependencies {
                cluster,
                needed,
                req,
            } => {
                cluster.put(alloc, into)?;
                needed.put(alloc, into)?;
                req.put(alloc, into)
            }
            _ => Ok(()),
        }
    }
}

impl Take for Reply {
    ghost spelled = { reply_spelled };

    ghost fits = { ReplyFits };

    ghost unique = { unique-reply };

    fn take(alloc: Global, bytes: &[u8]) -> Result<(Reply, &[u8]), Unread> {
        let (kind, rest) = u8::take(alloc, bytes)?;
        match kind {
            0 => Ok((Reply::Done, rest)),
            1 => {
                let (id, rest) = u32::take(alloc, rest)?;
                Ok((Reply::Started { id }, rest))
            }
            2 => match Synced::take(alloc, rest) {
                Ok((synced, rest)) => Ok((Reply::Synced(synced), rest)),
                Err(unread) => Err(unread),
            },
            3 => match Refusal::take(alloc, rest) {
                Ok((refusal, rest)) => Ok((Reply::Refused(refusal), rest)),
                Err(unread) => Err(unread),
            },
            _ => Err(Unread::Outside),
        }
    }
}

impl Put for Reply {
    fn put(&self, alloc: Global, into: &mut Vec<u8>) -> Result<(), AllocError> {
        match self {
            Reply::Done => 0u8.put(alloc, into),
            Reply::Started { id } => {
                1u8.put(alloc, into)?;
                id.put(alloc, into)
            }
            Reply::Synced(synced) => {
                2u8.put(alloc, into)?;
                synced.put(alloc, into)
            }
            Reply::Refused(refusal) => {
                3u8.put(alloc, into)?;
                refusal.put(alloc, into)
            }
        }
    }
}
