//! Reading a half.
ghost use Rattle.std.specs.Prelude.{◌≡◌, ◌≤◌, ◌<◌, length, take, drop, IfOk, IsErrOf};
ghost use Rattle.std.specs.Int.{from_be_bytes, w32, w64};
ghost use Rattle.disk_core.specs.Images.{SameImages};
ghost use Rattle.disk_core.specs.Moments.{LeavesOnly};
ghost use Rattle.disk_core.specs.Served.{IsServed};
ghost use Rattle.checkpoint.specs.Halves.{HasHalf, half_of};

use crate::layout::{head_area, layout_of};
use disk_core::{Disk, ReadError};
use std::marker::Model;

/// What a half holds: a state and its generation.
#[derive(Drop)]
pub struct HalfBytes {
    pub generation: u64,
    pub state: Vec<u8>,
}

impl Model for HalfBytes {
    ghost use Rattle.checkpoint.specs.Halves.{Body};

    ghost Value = { Body };

    ghost view = { λ h. record { generation = h.generation; state = h.state.items } };
}

/// What the half reads as; `None` exactly where its gate isn't 1, or its state would be longer than
/// its layout allows. At most two reads.
pub fn read_half<D: Disk>(disk: &mut D, half: u8) -> Result<Option<HalfBytes>, ReadError>
    requires half { half < 4 }
    requires inside { HasHalf half (D.seen disk.old) }
    ensures body { IfOk result (λ body. body ≡ half_of half (D.seen disk.old)) }
    ensures reads { D.seen disk.new ≡ D.seen disk.old }
    ensures images { SameImages (D.images disk.old) (D.images disk.new) }
    ensures any_moment { LeavesOnly D.moment D.left_since disk.old disk.new (D.images disk.old) }
    ensures room { D.room disk.new ≡ D.room disk.old }
    ensures served { IsServed D.seen D.fault_count D.armed (IsErrOf result ReadError.Failed)
        disk.old disk.new }
{
    let most = layout_of(half).state_max;
    let area = head_area(half);
    let head = area.read(disk, 0, 13)?;
    if head[0] != 1 {
        return Ok(None);
    }
    let (generation, len) = fields_of(&head);
    if len as u64 > most {
        return Ok(None);
    }
    let state = area.read(disk, 13, len as usize)?;
    Ok(Some(HalfBytes { generation, state }))
}

/// The generation and the state's length, behind the gate.
fn fields_of(head: &[u8]) -> (u64, u32)
    requires { length head.now ≡ 13 }
    ensures generation { result.0 ≡ from_be_bytes w64 (take 8 (drop 1 head.now)) }
    ensures len { result.1 ≡ from_be_bytes w32 (take 4 (drop 8 (drop 1 head.now))) }
{
    let Some((_gate, fields)) = head.split_first_chunk::<1>() else {
        unreachable!()
    };
    let Some((generation, rest)) = fields.split_first_chunk::<8>() else {
        unreachable!()
    };
    let Some((len, _)) = rest.split_first_chunk::<4>() else {
        unreachable!()
    };
    (u64::from_be_bytes(*generation), u32::from_be_bytes(*len))
}
