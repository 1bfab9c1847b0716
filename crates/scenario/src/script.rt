//! Scripts, read line by line.
ghost use Rattle.std.specs.Prelude.{◌≡◌, ◌<◌, ◌+◌, ◌-◌, [], drop, map, take, false, IfOk, OnOk, Ok, Err, Some, ℕ};
ghost use Rattle.scenario.specs.declared.why.Why.{Why};
ghost use Rattle.scenario.specs.Readings.{Becomes, IsRead};
ghost use Rattle.scenario.specs.Lines.{line_in};
ghost use Rattle.scenario.specs.Scripts.{IsScript, added, attach_added, attached_with, finished, has_room, has_installed, installed_added, is_end, is_passed_over, line_read, nothing_above, script_of, time_added, words_of};

use crate::attachments::{Attached, Attachments};
use crate::events::EventLine;
use crate::lines::{Installed, ScriptLine, read_line};
use crate::why::{ScriptError, Why, WordError};
use crate::words::first_piece;
use std::alloc::{AllocError, Global};
use ucm_base::limits::{CLUSTER_LIMIT, INPUT_LIMIT, NEED_LIMIT, PACKAGE_LIMIT};
use ucm_base::{ClusterName, Rows};

/// One more than the words of the longest line, which installs a cluster with all its needs.
pub const WORD_LIMIT: usize = NEED_LIMIT as usize + 6;

/// The command that a script is for.
#[derive(Clone, Copy, Debug, PartialEq, Eq)]
pub enum Command {
    Replay,
}

/// What a script says, with its blocks not spelled out yet.
#[derive(Drop)]
pub struct Script {
    /// The start time, 0 where no line gives it.
    pub time: u64,
    /// What is installed at formatting, in order of lines.
    pub installed: Rows<Installed>,
    /// The clusters whose verdicts fail, in order of lines.
    pub fails: Rows<ClusterName>,
    /// What clients do, in order of lines.
    pub events: Rows<EventLine>,
    /// The place of the input at which the attached bytes begin.
    pub attached_at: u64,
}

impl Script {
    /// The attached bytes, of the input that the script was read from.
    pub fn attached<'a>(&self, input: &'a [u8]) -> &'a [u8]
        ensures { result.now ≡ drop self.now.attached_at input.now }
    {
        let at = usize::min(self.attached_at as usize, input.len());
        &input[at..]
    }
}

/// What the lines above say.
#[derive(Drop)]
pub struct Above {
    pub time: Option<u64>,
    pub installed: Rows<Installed>,
    pub fails: Rows<ClusterName>,
    pub events: Rows<EventLine>,
    pub attachments: Attachments,
    /// How many bytes are attached.
    pub attached: u32,
}

impl Above {
    /// What is known before the first line.
    fn new(alloc: Global) -> Above
        ensures { result ≡ nothing_above }
    {
        Above {
            time: None,
            installed: Rows::new(alloc),
            fails: Rows::new(alloc),
            events: Rows::new(alloc),
            attachments: Attachments::new(alloc),
            attached: 0,
        }
    }

    /// Adds the start time, which stands once.
    fn add_time(&mut self, n: u64) -> Result<(), WordError>
        ensures { Becomes result self.new (time_added self.old n) }
    {
        if self.time.is_some() {
            return Err(WordError::Refused(Why::Twice));
        }
        self.time = Some(n);
        Ok(())
    }

    /// Whether a cluster of this name is installed.
    fn installs(&self, name: &ClusterName) -> bool
        ensures { result ≡ has_installed self.now.installed name.now }
    {
        self.installed.as_slice().iter().any(|c| c.name == *name)
    }

    /// Whether one cluster more fits, and its block is no longer than a package.
    fn has_room_for(&self, cluster: &Installed) -> bool
        ensures { result ≡ has_room self.now cluster.now }
    {
        let installed = self.installed.as_slice();
        (installed.len() as u64) < CLUSTER_LIMIT && cluster.block.len() <= PACKAGE_LIMIT
    }

    /// Adds a cluster, whose name stands once.
    fn add_installed(&mut self, cluster: Installed) -> Result<(), WordError>
        ensures { Becomes result self.new (installed_added self.old cluster) }
    {
        if self.installs(&cluster.name) {
            return Err(WordError::Refused(Why::Twice));
        }
        if !self.has_room_for(&cluster) {
            return Err(WordError::Refused(Why::Limit));
        }
        self.installed.push(cluster)?;
        Ok(())
    }

    /// The attached bytes with these, if they aren't too many.
    fn attached_with(&self, len: u64) -> Option<u32>
        ensures { result ≡ attached_with self.now.attached len }
    {
        match u64::from(self.attached).checked_add(len) {
            Some(all) if all <= INPUT_LIMIT => Some(all as u32),
            _ => None,
        }
    }

    /// Adds an attachment, whose name stands once.
    fn add_attachment(&mut self, name: ClusterName, len: u64) -> Result<(), WordError>
        ensures { Becomes result self.new (attach_added self.old name len) }
    {
        if self.attachments.named(name).is_some() {
            return Err(WordError::Refused(Why::Twice));
        }
        let Some(all) = self.attached_with(len) else {
            return Err(WordError::Refused(Why::Limit));
        };
        let place = Attached {
            at: self.attached,
            len: all - self.attached,
        };
        self.attachments.add(name, place)?;
        self.attached = all;
        Ok(())
    }

    /// Adds what a line says.
    fn add(&mut self, number: u64, line: ScriptLine) -> Result<(), WordError>
        ensures { Becomes result self.new (added number self.old line) }
    {
        match line {
            ScriptLine::Time(n) => self.add_time(n),
            ScriptLine::Installed { cluster, .. } => self.add_installed(cluster),
            ScriptLine::Happens(done) => {
                self.events.push(EventLine {
                    line: number,
                    event: done.event,
                })?;
                Ok(())
            }
            ScriptLine::Fails { name, .. } => {
                self.fails.push(name)?;
                Ok(())
            }
            ScriptLine::Attach { name, len } => self.add_attachment(name, len),
        }
    }
}

/// The script of all lines, where the bytes from a place on are as many as the attached ones.
fn finish(above: Above, size: u64, at: u64) -> Result<Script, ScriptError>
    ensures { IsScript result (finished size above at) }
{
    let Above {
        time,
        installed,
        fails,
        events,
        attachments,
        attached,
    } = above;
    drop(attachments);
    if u64::from(attached) != size.saturating_sub(at) {
        return Err(ScriptError::BadScenario {
            line: 0,
            why: Why::Bytes,
        });
    }
    Ok(Script {
        time: time.unwrap_or(0),
        installed,
        fails,
        events,
        attached_at: at,
    })
}

/// What a line's fault is at its number.
fn fault_at(number: u64, fault: WordError) -> ScriptError
    ensures { (line : ℕ) (why : Why) → result ≡ ScriptError.BadScenario line why
        → (line ≡ number) × (fault ≡ WordError.Refused why) }
{
    match fault {
        WordError::Refused(why) => ScriptError::BadScenario { line: number, why },
        WordError::OutOfMemory => ScriptError::OutOfMemory,
    }
}

/// Whether a line is empty or begins with `#`.
pub fn is_passed(line: &[u8]) -> bool
    ensures { result ≡ is_passed_over line.now }
{
    match line {
        [] => true,
        [first, ..] => *first == b'#',
    }
}

/// The first words of a line, at most this many.
pub fn first_words<'a>(
    words: &mut Vec<&'a [u8]>,
    line: &'a [u8],
    most: usize,
) -> Result<(), AllocError>
    ensures { OnOk result (map (λ w. w.now) words.new.items ≡ take most (words_of line.now)) }
{
    words.clear();
    let mut left = Some(line);
    'words: for _i in 0..most {
        let Some(text) = left else {
            return Ok(());
        };
        let (word, rest) = first_piece(text, b' ');
        words.push(word)?;
        left = rest;
    }
    Ok(())
}

/// The line of a text's words.
fn read_words<'a>(
    alloc: Global,
    attachments: &Attachments,
    words: &mut Vec<&'a [u8]>,
    line: &'a [u8],
) -> Result<ScriptLine, WordError>
    ensures { IsRead result (line_in attachments.now (words_of line.now)) }
{
    first_words(words, line, WORD_LIMIT)?;
    read_line(alloc, attachments, words.as_slice())
}

/// Takes in a line.
#[inline(never)]
fn take_in<'a>(
    alloc: Global,
    above: &mut Above,
    words: &mut Vec<&'a [u8]>,
    number: u64,
    line: &'a [u8],
) -> Result<(), WordError>
    requires { is_passed_over line.now ≡ false }
    ensures { Becomes result above.new (line_read number above.old line.now) }
{
    let read = read_words(alloc, &above.attachments, words, line)?;
    above.add(number, read)
}

/// Whether a line is `end`.
pub fn is_last(line: &[u8]) -> bool
    ensures { result ≡ is_end line.now }
{
    matches!(line, [b'e', b'n', b'd'])
}

/// The script of an input for the command `replay`.
fn read_replay(alloc: Global, input: &[u8]) -> Result<Script, ScriptError>
    ensures { IsScript result (script_of Command.Replay input.now) }
{
    let mut above = Above::new(alloc);
    let mut at = 0u64;
    let mut number = 1u64;
    let mut left = Some(input);
    let mut words = Vec::new(alloc);
    'lines: while let Some(text) = left {
        let (line, rest) = first_piece(text, b'\n');
        at += line.len() as u64 + 1;
        if is_last(line) {
            left = None;
        } else {
            if !is_passed(line) {
                if let Err(fault) = take_in(alloc, &mut above, &mut words, number, line) {
                    return Err(fault_at(number, fault));
                }
            }
            number += 1;
            left = rest;
        }
    }
    finish(above, input.len() as u64, at)
}

/// The script that an input is. It is read line by line; blocks are not spelled out.
pub fn read_script(alloc: Global, input: &[u8], kind: Command) -> Result<Script, ScriptError>
    ensures { IsScript result (script_of kind input.now) }
{
    match kind {
        Command::Replay => read_replay(alloc, input),
    }
}
