//! Searches in a list of transfers.
ghost use Rattle.std.specs.Prelude.{◌≡◌, ◌==◌, IfSome, None, not, map, option_map, true};
ghost use Rattle.std.specs.List.{list_all, position};
ghost use Rattle.ucm_base.specs.Limits.{transfer_limit};
ghost use Rattle.pm_types.specs.Transfers.{is_of};
ghost use Rattle.transfer_blocks.specs.Table.{IsAt, found_of, is_free, lowest_free, slots_of, stored_ids, stored_of};

use crate::Found;
use pm_types::{Header, IdList, StoredTransfer, TransferList};
use ucm_base::ClientId;
use ucm_base::limits::TRANSFER_LIMIT;

/// The client's transfer of this id, as it is stored.
pub fn stored(list: &TransferList, client: ClientId, id: u32) -> Option<&StoredTransfer>
    ensures { option_map (λ t. t.now) result ≡ stored_of list.now client id }
{
    list.as_slice()
        .iter()
        .find(|t| t.header.id == id && t.header.client == client)
}

/// The header and the slot of the client's transfer of this id.
pub fn find(list: &TransferList, client: ClientId, id: u32) -> Option<Found>
    ensures { result ≡ found_of list.now client id }
{
    let transfer = stored(list, client, id)?;
    Some(Found {
        header: transfer.header,
        slot: transfer.slot,
    })
}

/// The ids of the client's transfers.
pub fn ids(list: &TransferList, client: ClientId) -> IdList
    ensures { result ≡ stored_ids list.now client }
{
    let mut ids = IdList::new();
    for transfer in list.as_slice() {
        if transfer.header.client == client {
            ids.push(transfer.header.id);
        }
    }
    ids
}

/// The place of a transfer in its list, and its header.
#[derive(Clone, Copy)]
pub(crate) struct Placed {
    pub(crate) place: usize,
    pub(crate) header: Header,
}

/// The place and the header of the client's transfer of this id.
pub(crate) fn place_of(list: &TransferList, client: ClientId, id: u32) -> Option<Placed>
    ensures found { IfSome result (IsAt list.now (is_of client id)) }
    ensures none { result ≡ None → stored_of list.now client id ≡ None }
{
    let all = list.as_slice();
    match position_of(all, client, id) {
        Some(place) => Some(Placed {
            place,
            header: all[place].header,
        }),
        None => None,
    }
}

/// The place and the header of the transfer of this id.
pub(crate) fn place_of_id(list: &TransferList, id: u32) -> Option<Placed>
    ensures found { IfSome result (IsAt list.now (λ h. h.id == id)) }
    ensures none { result ≡ None → is_free (map (λ t. t.header.id) list.now) id ≡ true }
{
    let all = list.as_slice();
    match position_of_id(all, id) {
        Some(place) => Some(Placed {
            place,
            header: all[place].header,
        }),
        None => None,
    }
}

fn position_of(all: &[StoredTransfer], client: ClientId, id: u32) -> Option<usize>
    ensures { result ≡ position (λ t. is_of client id t.header) all.now }
{
    all.iter()
        .position(|t| t.header.id == id && t.header.client == client)
}

fn position_of_id(all: &[StoredTransfer], id: u32) -> Option<usize>
    ensures { result ≡ position (λ t. t.header.id == id) all.now }
{
    all.iter().position(|t| t.header.id == id)
}

/// Whether no transfer has the slot.
fn is_free(all: &[StoredTransfer], slot: u8) -> bool
    ensures { result ≡ list_all (λ t. not (t.slot == slot)) all.now }
{
    all.iter().all(|t| t.slot != slot)
}

/// The lowest slot that no transfer has.
pub(crate) fn lowest_free(all: &[StoredTransfer]) -> u8
    ensures { result ≡ lowest_free transfer_limit (slots_of all.now) }
{
    for slot in 0..TRANSFER_LIMIT as u8 {
        if is_free(all, slot) {
            return slot;
        }
    }
    0
}
