//! The bytes of a disk, with the record of what was done to them.
ghost use Rattle.std.specs.Prelude.{◌≡◌, ◌+◌, ◌*◌, ◌/◌, ◌≤◌, ◌<◌, ◌^◌, cond, true, length, take, replicate, vec_len, vec_capacity, OnOk};
ghost use Rattle.disk_mem.specs.Events.{settled_at, course_of, kept_by};
ghost use Rattle.disk_mem.specs.Tears.{Mends, total, AllWithin, more};

use crate::event::Event;
use crate::page::PAGE;
use crate::pages::{LEAF_BYTES, Pages};
use crate::tear::{Tear, mend, note};
use std::alloc::{AllocError, Global};

/// Room for a write is room for two events, for its bytes, and for the pages that it may touch; on a disk that tears
/// also for what a restart puts there.
#[derive(Drop)]
pub struct Medium {
    pub pages: Pages,
    pub events: Vec<Event>,
    /// The kept bytes of all writes, in order.
    pub pieces: Vec<u8>,
    /// Nothing was written since the last sync.
    pub clean: bool,
    pub tear: Tear,
    /// The ranges that were written since the last sync, in order; none on a disk that keeps.
    pub torn_ranges: Vec<(u64, u64)>,
    /// What a restart puts there, one behind the other.
    pub torn_bytes: Vec<u8>,
    pub room_writes: u32,
    pub room_bytes: u64,
    ghost replayed: { (course_of tear (length pages.bytes) events.items pieces.items).now
        ≡ pages.bytes },
    ghost kept: { kept_by events.items ≡ length pieces.items },
    ghost pending: { clean ≡ true
        → course_of tear (length pages.bytes) events.items pieces.items ≡ settled_at pages.bytes },
    ghost mends: { Mends tear torn_ranges.items torn_bytes.items
        (course_of tear (length pages.bytes) events.items pieces.items) },
    ghost all: { total torn_ranges.items ≡ length torn_bytes.items },
    ghost within: { AllWithin (length pages.bytes) torn_ranges.items },
    ghost events_room: { vec_len events + 2 * room_writes + cond clean 0 1 ≤ vec_capacity events },
    ghost pieces_room: { vec_len pieces + room_bytes ≤ vec_capacity pieces },
    ghost ranges_room: { vec_len torn_ranges + more tear room_writes ≤ vec_capacity torn_ranges },
    ghost bytes_room: { vec_len torn_bytes + more tear room_bytes ≤ vec_capacity torn_bytes },
    ghost pages_room: { 2 * vec_len torn_ranges + vec_len torn_bytes / 4096
        + more tear (3 * room_writes + room_bytes / 4096)
        + 2 * room_writes + room_bytes / 4096 ≤ pages.spare },
    ghost leaves_room: { 2 * vec_len torn_ranges + vec_len torn_bytes / 2097152
        + more tear (3 * room_writes + room_bytes / 2097152)
        + 2 * room_writes + room_bytes / 2097152 ≤ pages.leaves },
    ghost small: { length pages.bytes < 2 ^ 64 },
}

impl Medium {
    ghost use Rattle.disk_core.specs.Bytes.{put_at, Torn};
    ghost use Rattle.disk_core.specs.Images.{Follows, Allows, Only, Within};
    ghost use Rattle.disk_core.specs.Moments.{Elapses};
    ghost use Rattle.disk_core.specs.Room.{HasRoom, UsesUp};
    ghost use Rattle.disk_mem.specs.Events.{wrote, torn};
    ghost use Rattle.disk_mem.specs.Medium.{course, images, left, room_of};

    /// `size` zeros, to which nothing was done.
    #[tactic(auto, using(crate::proofs::Mending::mends_none))]
    pub fn new(alloc: Global, size: u64, tear: Tear) -> Medium
        ensures bytes { result.pages.bytes ≡ replicate size 0 }
        ensures course { course result ≡ settled_at (replicate size 0) }
        ensures tear { result.tear ≡ tear }
        ensures durable { Only result.pages.bytes (images result) }
    {
        Medium {
            pages: Pages::new(alloc, size),
            events: Vec::new(alloc),
            pieces: Vec::new(alloc),
            clean: true,
            tear,
            torn_ranges: Vec::new(alloc),
            torn_bytes: Vec::new(alloc),
            room_writes: 0,
            room_bytes: 0,
        }
    }

    /// Makes room for so many writes of so many bytes together.
    pub fn reserve(&mut self, alloc: Global, writes: u32, bytes: u64) -> Result<(), AllocError>
        ensures made { OnOk result (HasRoom writes bytes (room_of self.new)) }
        ensures room { HasRoom self.old.room_writes self.old.room_bytes (room_of self.new) }
        ensures reads { self.new.pages.bytes ≡ self.old.pages.bytes }
        ensures events { self.new.events.items ≡ self.old.events.items }
        ensures pieces { self.new.pieces.items ≡ self.old.pieces.items }
        ensures tear { self.new.tear ≡ self.old.tear }
    {
        let most = self.room_writes.max(writes);
        let most_bytes = self.room_bytes.max(bytes);
        self.events.reserve(2 * most as usize + 1)?;
        self.pieces.reserve(most_bytes as usize)?;
        self.torn_ranges.reserve(self.tear.more(most as usize))?;
        self.torn_bytes
            .reserve(self.tear.more(most_bytes as usize))?;
        let pages = 2 * most as usize + most_bytes as usize / PAGE;
        let leaves = 2 * most as usize + most_bytes as usize / LEAF_BYTES;
        let torn = 2 * self.torn_ranges.len();
        self.pages.stock(
            alloc,
            torn + self.torn_bytes.len() / PAGE + self.tear.more(pages + most as usize) + pages,
            torn + self.torn_bytes.len() / LEAF_BYTES
                + self.tear.more(leaves + most as usize)
                + leaves,
        )?;
        self.room_writes = most;
        self.room_bytes = most_bytes;
        Ok(())
    }

    /// Notes a write of which the first `kept` bytes stand.
    pub fn write(&mut self, at: u64, bytes: &[u8], kept: usize)
        requires range { at + length bytes.now ≤ length self.old.pages.bytes }
        requires room { HasRoom 1 (length bytes.now) (room_of self.old) }
        requires kept { kept ≤ length bytes.now }
        ensures content { self.new.pages.bytes
            ≡ put_at self.old.pages.bytes at (take kept bytes.now) }
        ensures course { course self.new
            ≡ wrote at (length bytes.now) (take kept bytes.now) (course self.old) }
        ensures tear { self.new.tear ≡ self.old.tear }
        ensures reads { Torn at (length bytes.now) self.old.pages.bytes self.new.pages.bytes }
        ensures images { Follows (Torn at (length bytes.now)) (images self.old) (images self.new) }
        ensures any_bytes { Allows (Torn at (length bytes.now))
            (images self.old) (images self.new) }
        ensures time { Elapses (length self.old.events.items) (length self.new.events.items)
            (left self.old) (left self.new) (images self.new) }
        ensures room { UsesUp (length bytes.now) (room_of self.old) (room_of self.new) }
    {
        let piece = &bytes[..kept];
        note(
            self.tear,
            &self.pages,
            at,
            bytes.len(),
            &mut self.torn_ranges,
            &mut self.torn_bytes,
        );
        self.pages.write(at, piece);
        let Ok(()) = self.pieces.extend_from_slice(piece) else {
            unreachable!()
        };
        self.events.push_reserved(Event::Wrote {
            at,
            len: bytes.len() as u64,
            kept: kept as u64,
        });
        self.clean = false;
        self.room_writes -= 1;
        self.room_bytes -= bytes.len() as u64;
    }

    /// Notes that what was written is on the disk for good.
    pub fn sync(&mut self)
        ensures durable { Only self.old.pages.bytes (images self.new) }
        ensures reads { self.new.pages.bytes ≡ self.old.pages.bytes }
        ensures course { course self.new ≡ settled_at self.old.pages.bytes }
        ensures tear { self.new.tear ≡ self.old.tear }
        ensures time { Elapses (length self.old.events.items) (length self.new.events.items)
            (left self.old) (left self.new) (images self.new) }
        ensures room { room_of self.new ≡ room_of self.old }
    {
        if self.clean {
            return;
        }
        self.torn_ranges.clear();
        self.torn_bytes.clear();
        self.events.push_reserved(Event::Synced);
        self.clean = true;
    }

    /// Starts anew: what was written since the last sync is as the tear says, for good.
    pub fn restart(&mut self)
        ensures torn { self.new.pages.bytes ≡ torn self.old.tear (course self.old) }
        ensures one { images self.old self.new.pages.bytes }
        ensures durable { Only self.new.pages.bytes (images self.new) }
        ensures size { length self.new.pages.bytes ≡ length self.old.pages.bytes }
        ensures course { course self.new ≡ settled_at self.new.pages.bytes }
        ensures tear { self.new.tear ≡ self.old.tear }
        ensures time { Elapses (length self.old.events.items) (length self.new.events.items)
            (left self.old) (left self.new) (images self.new) }
    {
        if self.clean {
            return;
        }
        mend(&mut self.pages, &mut self.torn_ranges, &mut self.torn_bytes);
        self.events.push_reserved(Event::Restarted);
        self.clean = true;
    }
}
