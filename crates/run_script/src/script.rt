//! Scripts of a run, read line by line.
ghost use Rattle.std.specs.Prelude.{◌≡◌, ◌≤◌, false, OnOk, IfErr, IfOk};
ghost use Rattle.scenario.specs.Readings.{Becomes, IsRead};
ghost use Rattle.scenario.specs.Scripts.{is_passed_over, words_of};
ghost use Rattle.run_script.specs.Above.{nothing_above};
ghost use Rattle.run_script.specs.InForm.{AreInForm, IsCampaign, IsInForm, IsLine};
ghost use Rattle.run_script.specs.RunLines.{line_in};
ghost use Rattle.run_script.specs.Scripts.{AreRead, IsScript, IsTold, fault_of, line_read, needed, piece_of, script_of, vehicle_place, whole};
ghost use Rattle.run_script.specs.Taken.{IsTaken};

use crate::above::Above;
use crate::fault::{Refusal, ScriptError};
use crate::lines::Lines;
use crate::own::add;
use crate::read::{RunLine, read_line};
use crate::taken::Taken;
use scenario::{
    Attached, Attachments, WORD_LIMIT, Why, WordError, first_piece, first_words, is_last, is_passed,
};
use std::alloc::Global;
use vehicle_package::{Vehicle, VehicleError, read_vehicle};

/// A script of a run, with its blocks not spelled out yet.
#[derive(Drop)]
pub struct Script<'a> {
    pub campaign: u32,
    pub lines: Lines,
    pub vehicle: Vehicle,
    /// The attached bytes, among which blocks lie.
    pub attached: &'a [u8],
}

/// The line of a text's words.
fn read_words<'a>(
    alloc: Global,
    attachments: &Attachments,
    words: &mut Vec<&'a [u8]>,
    number: u64,
    line: &'a [u8],
) -> Result<RunLine, WordError>
    ensures read { IsRead result (line_in number attachments.now (words_of line.now)) }
    ensures form { IfOk result IsLine }
{
    first_words(words, line, WORD_LIMIT)?;
    read_line(alloc, attachments, number, words.as_slice())
}

/// Takes in a line.
#[inline(never)]
fn take_in<'a>(
    alloc: Global,
    above: &mut Above,
    taken: &mut Taken,
    words: &mut Vec<&'a [u8]>,
    number: u64,
    line: &'a [u8],
) -> Result<(), WordError>
    requires written { is_passed_over line.now ≡ false }
    requires taken { IsTaken taken.old above.old.lines }
    requires form { AreInForm above.old.lines }
    ensures read { Becomes result above.new (line_read number above.old line.now) }
    ensures taken { OnOk result (IsTaken taken.new above.new.lines) }
    ensures form { OnOk result (AreInForm above.new.lines) }
{
    let read = read_words(alloc, &above.attachments, words, number, line)?;
    add(above, taken, number, read)
}

/// What a line's fault is at its number.
fn fault_at(line: u64, fault: WordError) -> ScriptError
    ensures fault { result ≡ fault_of line fault }
    ensures told { IsTold result }
{
    match fault {
        WordError::Refused(why) => ScriptError::Refused(Refusal::Line { line, why }),
        WordError::OutOfMemory => ScriptError::OutOfMemory,
    }
}

/// Reads the lines of an input, and gives the place behind the line `end`.
#[tactic(auto, using(crate::proofs::Forms::none_in_form))]
fn read_lines(alloc: Global, above: &mut Above, input: &[u8]) -> Result<u64, ScriptError>
    requires { above.old ≡ nothing_above }
    ensures read { AreRead result above.new input.now }
    ensures told { IfErr result IsTold }
    ensures form { OnOk result (AreInForm above.new.lines) }
{
    let mut taken = Taken::new(alloc);
    let mut at = 0u64;
    let mut number = 1u64;
    let mut left = Some(input);
    let mut words = Vec::new(alloc);
    'lines: while let Some(text) = left {
        let (line, rest) = first_piece(text, b'\n');
        at += line.len() as u64 + 1;
        if is_last(line) {
            left = None;
        } else {
            if !is_passed(line) {
                if let Err(fault) = take_in(alloc, above, &mut taken, &mut words, number, line) {
                    return Err(fault_at(number, fault));
                }
            }
            number += 1;
            left = rest;
        }
    }
    Ok(at)
}

/// Where the vehicle package lies.
fn vehicle_place(attachments: &Attachments) -> Result<Attached, Why>
    ensures { result ≡ vehicle_place attachments.now }
{
    let name = scenario::name(b"vehicle")?;
    attachments.named(name).ok_or(Why::Missing)
}

/// The campaign and the vehicle package's place, where as many bytes are attached as the lines say.
fn needed(above: &Above, size: u64) -> Result<(u32, Attached), Why>
    ensures needed { result ≡ needed above.now size }
    ensures form { IsCampaign above.now.lines.campaign → IfOk result (λ found. 1 ≤ found.0) }
{
    if u64::from(above.attached) != size {
        return Err(Why::Bytes);
    }
    let first = above.lines.campaign.ok_or(Why::Missing)?;
    let place = vehicle_place(&above.attachments)?;
    Ok((first.campaign, place))
}

/// The bytes of an attachment, as far as they go.
fn piece(attached: &[u8], place: Attached) -> &[u8]
    ensures { result.now ≡ piece_of attached.now place }
{
    let at = usize::min(place.at as usize, attached.len());
    let rest = &attached[at..];
    let len = usize::min(place.len as usize, rest.len());
    &rest[..len]
}

/// The script of all lines and of what is attached.
#[tactic(auto, using(crate::proofs::Vehicles::is_loaded))]
fn finish<'a>(alloc: Global, above: Above, attached: &'a [u8]) -> Result<Script<'a>, ScriptError>
    ensures read { IsScript result (whole above attached.now) }
    ensures form { AreInForm above.lines → IfOk result IsInForm }
    ensures told { IfErr result IsTold }
{
    let (campaign, place) = match needed(&above, attached.len() as u64) {
        Ok(found) => found,
        Err(why) => return Err(ScriptError::Refused(Refusal::Line { line: 0, why })),
    };
    match read_vehicle(alloc, piece(attached, place)) {
        Ok(vehicle) => Ok(Script {
            campaign,
            lines: above.lines,
            vehicle,
            attached,
        }),
        Err(VehicleError::OutOfMemory) => Err(ScriptError::OutOfMemory),
        Err(fault) => Err(ScriptError::Refused(Refusal::Vehicle(fault))),
    }
}

/// The script that an input is. It is read line by line; blocks are not spelled out, and ranges are kept as ranges.
pub fn read_script(alloc: Global, input: &[u8]) -> Result<Script<'_>, ScriptError>
    ensures read { IsScript result (script_of input.now) }
    // The campaign counts from 1, nodes are 1 to 8, clients 1 to 31 and disks 0 to 8, what stands once stands once, and
    // the vehicle's steps are of packages that are there.
    ensures form { IfOk result IsInForm }
    // Want of memory is no refusal, also where the vehicle package is read.
    ensures told { IfErr result IsTold }
{
    let mut above = Above::new(alloc);
    let at = match read_lines(alloc, &mut above, input) {
        Ok(at) => at,
        Err(fault) => return Err(fault),
    };
    let at = usize::min(at as usize, input.len());
    finish(alloc, above, &input[at..])
}
