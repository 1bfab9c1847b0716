//! Blocks of bytes and sizes, as words name them.
ghost use Rattle.std.specs.Prelude.{◌≡◌, ◌<◌, length, min, IfOk, Ok, Err};
ghost use Rattle.scenario.specs.Readings.{IsRead};
ghost use Rattle.scenario.specs.Blocks.{block_in, block_of, bytes_meant, fill_in, hex_in, known, length_in, length_meant, part_in, part_of, piece_in, piece_of, plain_block, plain_block_in, size_in};

use crate::attachments::{Attached, Attachments};
use crate::why::{Why, WordError};
use crate::words::{byte, cut, from_one, name, number};
use std::alloc::{AllocError, Global};
use ucm_base::limits::{BLOCK_LIMIT, FILL_LIMIT, HEX_LIMIT};
use ucm_base::{Block, ClusterName};
use ucm_text::bytes_of_hex;

/// Where a block's bytes come from. A long one isn't spelled out before it is made.
#[derive(Drop)]
pub enum BlockSource {
    /// One byte many times.
    Fill { size: u32, byte: u8 },
    /// The bytes themselves.
    Bytes(Block),
    /// A part of the attached bytes.
    Piece { at: u64, len: u32 },
}

impl BlockSource {
    /// How many bytes the block has.
    pub fn len(&self) -> u64
        ensures { result ≡ length_meant self.now }
    {
        match self {
            BlockSource::Fill { size, .. } => u64::from(*size),
            BlockSource::Bytes(bytes) => bytes.as_slice().len() as u64,
            BlockSource::Piece { len, .. } => u64::from(*len),
        }
    }

    /// The block, among the attached bytes.
    pub fn make(&self, alloc: Global, attached: &[u8]) -> Result<Block, AllocError>
        ensures { IfOk result (λ block. block ≡ bytes_meant attached.now self.now) }
    {
        match self {
            BlockSource::Fill { size, byte } => {
                let bytes = vec![in alloc; *byte; *size as usize]?;
                Ok(Block::of(bytes))
            }
            BlockSource::Bytes(block) => {
                let bytes = Vec::from_slice(alloc, block.as_slice())?;
                Ok(Block::of(bytes))
            }
            BlockSource::Piece { at, len } => make_piece(alloc, attached, *at, *len),
        }
    }
}

/// A piece of the attached bytes, as far as they go.
fn make_piece(alloc: Global, attached: &[u8], at: u64, len: u32) -> Result<Block, AllocError>
    ensures { IfOk result (λ block. block ≡ bytes_meant attached.now (BlockSource.Piece at len)) }
{
    let at = usize::min(at as usize, attached.len());
    let rest = &attached[at..];
    let len = usize::min(len as usize, rest.len());
    let bytes = Vec::from_slice(alloc, &rest[..len])?;
    Ok(Block::of(bytes))
}

/// What stands behind `fill:`, as `<length>:<byte>`.
fn fill(rest: &[u8]) -> Result<BlockSource, Why>
    ensures { result ≡ fill_in rest.now }
{
    let Some((size, filled)) = cut(rest, b':') else {
        return Err(Why::Value);
    };
    let size = number(size)?;
    let byte = byte(filled)?;
    if size <= FILL_LIMIT {
        Ok(BlockSource::Fill {
            size: size as u32,
            byte,
        })
    } else {
        Err(Why::Value)
    }
}

/// What stands behind `hex:`, as an even number of digits.
fn hex(alloc: Global, digits: &[u8]) -> Result<BlockSource, WordError>
    ensures { IsRead result (hex_in digits.now) }
{
    if digits.len() > HEX_LIMIT {
        return Err(WordError::Refused(Why::Value));
    }
    match bytes_of_hex(alloc, digits)? {
        Some(bytes) => Ok(BlockSource::Bytes(Block::of(bytes))),
        None => Err(WordError::Refused(Why::Value)),
    }
}

/// A block that needs no attachment, by what stands before its first colon and behind it.
fn plain_block_of(alloc: Global, kind: &[u8], rest: &[u8]) -> Result<BlockSource, WordError>
    ensures { IsRead result (plain_block kind.now rest.now) }
{
    if kind == b"fill".as_slice() {
        Ok(fill(rest)?)
    } else if kind == b"hex".as_slice() {
        hex(alloc, rest)
    } else {
        Err(WordError::Refused(Why::Value))
    }
}

/// A block that needs no attachment: `fill:<length>:<byte>` or `hex:<digits>`.
pub fn plain_block(alloc: Global, word: &[u8]) -> Result<BlockSource, WordError>
    ensures { IsRead result (plain_block_in word.now) }
{
    let Some((kind, rest)) = cut(word, b':') else {
        return Err(WordError::Refused(Why::Value));
    };
    plain_block_of(alloc, kind, rest)
}

/// The attachment of this name.
fn known_as(attachments: &Attachments, name: ClusterName) -> Result<Attached, Why>
    ensures { result ≡ known attachments.now name }
{
    attachments.named(name).ok_or(Why::Unknown)
}

/// So many bytes of an attachment from an offset on.
fn part_within(a: Attached, offset: u64, len: u64) -> Result<BlockSource, Why>
    ensures { result ≡ part_of a offset len }
{
    match offset.checked_add(len) {
        Some(end) if end <= u64::from(a.len) => Ok(BlockSource::Piece {
            at: u64::from(a.at) + offset,
            len: len as u32,
        }),
        _ => Err(Why::Unknown),
    }
}

/// The i-th piece of an attachment. Each has 4,096 bytes, but the last may be shorter.
fn piece_within(a: Attached, i: u64) -> Result<BlockSource, Why>
    ensures { result ≡ piece_of a i }
{
    let size = u64::from(a.len);
    match i.saturating_sub(1).checked_mul(BLOCK_LIMIT) {
        Some(offset) if offset < size => Ok(BlockSource::Piece {
            at: u64::from(a.at) + offset,
            len: BLOCK_LIMIT.min(size - offset) as u32,
        }),
        _ => Err(Why::Unknown),
    }
}

/// What stands behind `block:`, as `<name>:<i>`.
fn piece(attachments: &Attachments, rest: &[u8]) -> Result<BlockSource, Why>
    ensures { result ≡ piece_in attachments.now rest.now }
{
    let Some((named, i)) = cut(rest, b':') else {
        return Err(Why::Value);
    };
    let named = name(named)?;
    let i = from_one(i)?;
    let a = known_as(attachments, named)?;
    piece_within(a, i)
}

/// What stands behind `part:`, as `<name>:<offset>:<length>`.
fn part(attachments: &Attachments, rest: &[u8]) -> Result<BlockSource, Why>
    ensures { result ≡ part_in attachments.now rest.now }
{
    let Some((named, more)) = cut(rest, b':') else {
        return Err(Why::Value);
    };
    let Some((offset, len)) = cut(more, b':') else {
        return Err(Why::Value);
    };
    let named = name(named)?;
    let offset = number(offset)?;
    let len = number(len)?;
    let a = known_as(attachments, named)?;
    part_within(a, offset, len)
}

/// A block, by what stands before its first colon and behind it.
fn block_named(
    alloc: Global,
    attachments: &Attachments,
    kind: &[u8],
    rest: &[u8],
) -> Result<BlockSource, WordError>
    ensures { IsRead result (block_of attachments.now kind.now rest.now) }
{
    if kind == b"block".as_slice() {
        Ok(piece(attachments, rest)?)
    } else if kind == b"part".as_slice() {
        Ok(part(attachments, rest)?)
    } else {
        plain_block_of(alloc, kind, rest)
    }
}

/// A block: one that needs no attachment, a piece or a part of one.
pub(crate) fn block(
    alloc: Global,
    attachments: &Attachments,
    word: &[u8],
) -> Result<BlockSource, WordError>
    ensures { IsRead result (block_in attachments.now word.now) }
{
    let Some((kind, rest)) = cut(word, b':') else {
        return Err(WordError::Refused(Why::Value));
    };
    block_named(alloc, attachments, kind, rest)
}

/// The length of an attachment, as `size:<name>`.
fn length_named(attachments: &Attachments, kind: &[u8], rest: &[u8]) -> Result<u64, Why>
    ensures { result ≡ length_in attachments.now kind.now rest.now }
{
    if kind != b"size".as_slice() {
        return Err(Why::Value);
    }
    let named = name(rest)?;
    let a = known_as(attachments, named)?;
    Ok(u64::from(a.len))
}

/// A number, or the length of an attachment.
pub(crate) fn size(attachments: &Attachments, word: &[u8]) -> Result<u64, Why>
    ensures { result ≡ size_in attachments.now word.now }
{
    match cut(word, b':') {
        Some((kind, rest)) => length_named(attachments, kind, rest),
        None => number(word),
    }
}
