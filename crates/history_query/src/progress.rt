//! The query on the progress of a transfer.
ghost use Rattle.std.specs.Prelude.{◌≡◌, ◌<◌, ◌*◌, ◌/◌, find, option_map};
ghost use Rattle.pm_types.specs.Transfers.{is_of};
ghost use Rattle.history_query.specs.Shown.{EachIsUnfinished, IsUnfinished, progress_at, stored_progress, units_done_in};

use pm_types::{Phase, Refusal, Session, StoredTransfer};
use ucm_base::ClientId;

/// How much of the client's transfer is processed, in percent, rounded down: 0 before its processing and 100 after it.
pub fn process_progress(
    transfers: &[StoredTransfer],
    session: Option<&Session>,
    client: ClientId,
    id: u32,
) -> Result<u8, Refusal>
    requires unfinished { EachIsUnfinished (option_map (λ x. x.now) session) transfers.now }
    ensures { result ≡ progress_at (option_map (λ x. x.now) session.entry)
        (find (λ t. is_of client id t.header) transfers.now) }
{
    match transfer_of(transfers, client, id) {
        Some(transfer) => Ok(progress_of(transfer, units_done_in(session))),
        None => Err(Refusal::InvalidTransferId),
    }
}

fn transfer_of(transfers: &[StoredTransfer], client: ClientId, id: u32) -> Option<&StoredTransfer>
    ensures { option_map (λ t. t.now) result ≡ find (λ t. is_of client id t.header) transfers.now }
{
    transfers
        .iter()
        .find(|t| t.header.id == id && t.header.client == client)
}

fn units_done_in(session: Option<&Session>) -> u32
    ensures { result ≡ units_done_in (option_map (λ x. x.now) session.entry) }
{
    match session {
        Some(session) => session.units_done,
        None => 0,
    }
}

fn progress_of(transfer: &StoredTransfer, units_done: u32) -> u8
    requires unfinished { IsUnfinished units_done transfer.now }
    ensures { result ≡ stored_progress units_done transfer.now }
{
    match transfer.header.phase {
        Phase::Transferring | Phase::Transferred => 0,
        Phase::Processing => percent(units_done, transfer.contents.units()),
        Phase::Processed => 100,
    }
}

fn percent(done: u32, all: u64) -> u8
    requires { done < all }
    ensures { result ≡ (100 * done) / all }
{
    (100 * u64::from(done) / all) as u8
}
