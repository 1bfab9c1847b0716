//! Look-ups of a transfer that a call would change.
ghost use Rattle.std.specs.Prelude.{◌≡◌, ◌≢◌, ◌≤◌, ◌+◌, ◌↔◌, None, Some, IfSome};
ghost use Rattle.pm_types.specs.Refusals.{first_refusal};
ghost use Rattle.pm_types.specs.Transfers.{data_refusals, exit_refusals};
ghost use Rattle.transfer_blocks.specs.Table.{found_of, stored_header};

use crate::Found;
use crate::judge::{data_refusal, exit_refusal};
use crate::lookup::find;
use pm_types::TransferList;
use ucm_base::ClientId;

/// The client's transfer of this id, where TransferData of a block of this length isn't refused.
pub fn find_taking(
    list: &TransferList,
    client: ClientId,
    id: u32,
    counter: u64,
    length: u64,
) -> Option<Found>
    ensures found { IfSome result (λ f. found_of list.now client id ≡ Some f) }
    ensures fits { IfSome result (λ f. f.header.received + length ≤ f.header.size) }
    ensures refused { (result ≡ None) ↔ (first_refusal
        (data_refusals (stored_header list.now client id) counter length) ≢ None) }
{
    let found = find(list, client, id)?;
    match data_refusal(&found.header, counter, length) {
        None => Some(found),
        Some(_) => None,
    }
}

/// The client's transfer of this id, where TransferExit isn't refused before its bytes are read.
pub fn find_ending(list: &TransferList, client: ClientId, id: u32) -> Option<Found>
    ensures found { IfSome result (λ f. found_of list.now client id ≡ Some f) }
    ensures refused { (result ≡ None)
        ↔ (first_refusal (exit_refusals (stored_header list.now client id)) ≢ None) }
{
    let found = find(list, client, id)?;
    match exit_refusal(&found.header) {
        None => Some(found),
        Some(_) => None,
    }
}
