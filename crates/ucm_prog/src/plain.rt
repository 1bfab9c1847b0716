//! The commands that never wait.
ghost use Rattle.std.specs.Prelude.{◌≡◌, ◌↔◌, ⊤, List, ℕ, IfSome, IfOk, IfErr, map, string_bytes, Some, None};
ghost use Rattle.fault_count.specs.Faults.{HasRisen};
ghost use Rattle.ucm_prog.specs.declared.status.ExitStatus.{ExitStatus as a_status};
ghost use Rattle.ucm_prog.specs.Commands.{command_of, usage_line};
ghost use Rattle.ucm_prog.specs.Disks.{AreDisks, IsUnused, Node1Goes};
ghost use Rattle.ucm_prog.specs.Outcome.{CallsNoDisk, IsEnd, IsJudged, IsPlain, IsTold, IsWritten};
ghost use Rattle.ucm_prog.specs.Outputs.{Ends, OfTask, command_task, task_of};

use crate::commands::{Command, command_in};
use crate::inspect::inspect;
use crate::output::{Output, too_long};
use crate::pack::pack_input;
use crate::replay::replay_input;
use crate::status::ExitStatus;
use disk_core::Disk;
use std::alloc::{AllocError, Global};
use ucm_base::limits::INPUT_LIMIT;
use ucm_ports::{ReadError, Sink, Source, put_all, read_all};

const USAGE: &str =
    "usage: ucm run [full] | demo <number> | replay | inspect | pack package|vehicle|script\n";

/// Carries out a command that never waits: `replay`, `inspect`, `pack package`, `pack vehicle` or
/// `pack script`.
///
/// It reads the whole source, of at most 67,108,864 bytes, and writes the command's output to the
/// sink. It is given unused disks, the master's and those of eight nodes; `replay` uses that of node 1. The disks come
/// back.
pub fn ucm_plain<S: Source, K: Sink, D: Disk + Drop>(
    alloc: Global,
    words: &[String],
    source: &mut S,
    sink: &mut K,
    disks: Vec<D>,
) -> (ExitStatus, Vec<D>)
    requires disks { AreDisks (λ size d. IsUnused size (D.seen d) (D.images d) (D.armed d))
        disks.items }
    ensures usage { (result.0 ≡ ExitStatus.Usage)
        ↔ (command_of (map string_bytes words.now) ≡ None) }
    ensures usage_reads_nothing { result.0 ≡ ExitStatus.Usage → source.new ≡ source.old }
    ensures usage_is_written { result.0 ≡ ExitStatus.Usage
        → IsWritten (K.written sink.old) (K.written sink.new) usage_line
        (K.fault_count sink.old) (K.fault_count sink.new) }
    ensures ended { IsJudged result.0
        → OfTask (command_of (map string_bytes words.now)) (S.left source.old)
        (λ task. Node1Goes (λ d d'. (status : a_status) × (text : List ℕ)
        × Ends task status text (D.fault_count d) (D.fault_count d') (D.images d')
        × IsTold status text result.0 (K.written sink.old) (K.written sink.new)
        (K.fault_count sink.old) (K.fault_count sink.new)) disks.items result.1.items) }
    ensures read_fault { result.0 ≡ ExitStatus.ReadFault
        → HasRisen (S.fault_count source.old) (S.fault_count source.new) }
    ensures read_fault_writes_nothing { result.0 ≡ ExitStatus.ReadFault
        → sink.new ≡ sink.old }
    ensures write_fault { result.0 ≡ ExitStatus.WriteFault
        → HasRisen (K.fault_count sink.old) (K.fault_count sink.new) }
    ensures out_of_memory_writes_nothing { result.0 ≡ ExitStatus.OutOfMemory
        → sink.new ≡ sink.old }
    ensures served { IsPlain result.0 }
    ensures others { Node1Goes (λ _ _. ⊤) disks.items result.1.items }
    ensures uncalled { CallsNoDisk (command_of (map string_bytes words.now)) result.0
        → result.1 ≡ disks }
{
    let Some(command) = command_in(words) else {
        let _ = put_all(sink, USAGE.as_bytes());
        return (ExitStatus::Usage, disks);
    };
    let mut disks = disks;
    let status = match run(alloc, command, source, &mut disks) {
        Ok(output) => write(sink, output.bytes.as_slice(), output.status),
        Err(RunError::Failed) => ExitStatus::ReadFault,
        Err(RunError::OutOfMemory) => ExitStatus::OutOfMemory,
    };
    (status, disks)
}

/// Why a command has no output.
enum RunError {
    Failed,
    OutOfMemory,
}

/// Reads the whole source, and makes the output.
fn run<S: Source, D: Disk + Drop>(
    alloc: Global,
    command: Command,
    source: &mut S,
    disks: &mut Vec<D>,
) -> Result<Output, RunError>
    requires disks { AreDisks (λ size d. IsUnused size (D.seen d) (D.images d) (D.armed d))
        disks.old.items }
    ensures ends { IfOk result (λ o. IfSome (S.left source.old) (λ input. Node1Goes (λ d d'.
        Ends (task_of command input) o.status o.bytes.items
        (D.fault_count d) (D.fault_count d') (D.images d')) disks.old.items disks.new.items)) }
    ensures plain { IfOk result (λ o. IsEnd o.status) }
    ensures others { Node1Goes (λ _ _. ⊤) disks.old.items disks.new.items }
    ensures uncalled { IfOk result (λ o. CallsNoDisk (Some command) o.status
        → disks.new ≡ disks.old) }
    ensures idle { IfErr result (λ _. CallsNoDisk (Some command) ExitStatus.OutOfMemory
        → disks.new ≡ disks.old) }
    ensures unread { IfErr result (λ e. e ≡ RunError.Failed → disks.new ≡ disks.old) }
    ensures cause { IfErr result (λ e. e ≡ RunError.Failed
        → HasRisen (S.fault_count source.old) (S.fault_count source.new)) }
{
    match read_all(alloc, source, INPUT_LIMIT as usize) {
        Ok(input) => match output(alloc, command, input.as_slice(), disks) {
            Ok(output) => Ok(output),
            Err(AllocError) => Err(RunError::OutOfMemory),
        },
        Err(ReadError::TooLong) => match too_long(alloc) {
            Ok(output) => Ok(output),
            Err(AllocError) => Err(RunError::OutOfMemory),
        },
        Err(ReadError::Failed) => Err(RunError::Failed),
        Err(ReadError::OutOfMemory) => Err(RunError::OutOfMemory),
    }
}

/// What the command writes of an input.
fn output<D: Disk + Drop>(
    alloc: Global,
    command: Command,
    input: &[u8],
    disks: &mut Vec<D>,
) -> Result<Output, AllocError>
    requires disks { AreDisks (λ size d. IsUnused size (D.seen d) (D.images d) (D.armed d))
        disks.old.items }
    ensures ends { IfOk result (λ o. Node1Goes (λ d d'.
        Ends (command_task command input.now) o.status o.bytes.items
        (D.fault_count d) (D.fault_count d') (D.images d')) disks.old.items disks.new.items) }
    ensures plain { IfOk result (λ o. IsEnd o.status) }
    ensures others { Node1Goes (λ _ _. ⊤) disks.old.items disks.new.items }
    ensures uncalled { IfOk result (λ o. CallsNoDisk (Some command) o.status
        → disks.new ≡ disks.old) }
    ensures idle { IfErr result (λ _. CallsNoDisk (Some command) ExitStatus.OutOfMemory
        → disks.new ≡ disks.old) }
{
    match command {
        Command::Replay => replay_input(alloc, input, disks),
        Command::Inspect => inspect(alloc, input),
        Command::Pack(kind) => pack_input(alloc, input, kind),
    }
}

/// Writes a text, and answers the status. Where the sink fails, an input that wasn't refused ends as a fault of writing;
/// a refused one is refused all the same.
fn write<K: Sink>(sink: &mut K, text: &[u8], status: ExitStatus) -> ExitStatus
    requires { IsEnd status }
    ensures told { IsTold status text.now result (K.written sink.old) (K.written sink.new)
        (K.fault_count sink.old) (K.fault_count sink.new) }
    ensures judged { IsJudged result }
{
    match put_all(sink, text) {
        Ok(()) => status,
        Err(_) => match status {
            ExitStatus::InputRefused => status,
            _ => ExitStatus::WriteFault,
        },
    }
}
