ghost use Rattle.std.specs.Prelude.{◌≡◌, ◌≢◌, ◌+◌, ◌≤◌, ◌<◌, ◌^◌, ◌⊎◌, IsTrue, IfOk, OnOk, OnErr, List, ℕ, length, None, Some, Err};
ghost use Rattle.std.specs.Io.KnownBytes.{IsAtEnd};
ghost use Rattle.byte_io.specs.Faults.{Rose, HasCause};
ghost use Rattle.byte_io.specs.Source.{Took};
ghost use Rattle.byte_io.specs.Sink.{HasRoom, Wrote, WrotePart};
ghost use Rattle.program_words.specs.declared.asked.Asked.TheVariants.{Run, Make};
ghost use Rattle.script_maker.specs.Scripts.{script};
ghost use Rattle.gum_cli.specs.Run.{script_limit, piece_length, asked, RoomForReplies, RoomForAsked, IsWithinLimit, IsDone, IsCutOff};

use crate::laws::replies_are_sound;
use crate::respond::respond;
use byte_io::{Failed, Sink, Source, write_all};
use fixed_interval::Steps;
use line_text::OutOfMemory;
use program_words::{Asked, read_words};
use script_maker::make_script;
use std::alloc::Global;
use std::sync::ledger::Ledger;

/// How a run ends.
#[derive(Clone, Copy, Debug, PartialEq, Eq)]
pub enum Status {
    /// The script was read to its end and all replies were written.
    Done,
    /// The words are none that the program knows. Nothing was read or written.
    Usage,
    ReadFault,
    WriteFault,
    /// The script has more than 16,777,216 bytes.
    InputLimit,
    OutOfMemory,
}

/// The most bytes of a script.
const SCRIPT_LIMIT: usize = 16_777_216;

/// The bytes of the pieces that a source is offered.
const PIECE_LENGTH: usize = 65_536;

/// Why a script was not read to its end.
#[derive(Drop, Debug)]
enum Unread {
    Fault,
    Limit,
    OutOfMemory,
}

// Reads the source to its end.
fn read_all<S: Source>(alloc: Global, source: &mut S) -> Result<Vec<u8>, Unread>
    requires { S.count source.old ≤ 2 ^ 62 }
    ensures whole { IfOk result (λ script. Took (S.count source.old) (S.count source.new)
        (S.taken source.old) (S.taken source.new) (S.left source.old) (S.left source.new) script.items) }
    ensures short { IfOk result (λ script. length script.items ≤ script_limit) }
    ensures met_end { OnOk result (IsTrue (S.ended source.new)) }
    ensures none_left { OnOk result (IsAtEnd (S.left source.new)) }
    ensures part { OnErr result ((bytes : List ℕ) × Took (S.count source.old) (S.count source.new)
        (S.taken source.old) (S.taken source.new) (S.left source.old) (S.left source.new) bytes) }
    ensures fault { result ≡ Err Unread.Fault → Rose (S.faults source.old) (S.faults source.new) }
    ensures limit { result ≡ Err Unread.Limit → S.count source.old + script_limit < S.count source.new }
    ensures over { S.count source.old + script_limit < S.count source.new
        → (result ≡ Err Unread.Limit) ⊎ (result ≡ Err Unread.OutOfMemory) }
    ensures most { S.count source.new ≤ S.count source.old + script_limit + piece_length }
    ensures never_falls { S.faults source.old ≤ S.faults source.new }
{
    let mut script = Vec::new(alloc);
    let mut piece = [0u8; PIECE_LENGTH];
    'pieces: loop {
        let Ok(count) = source.read(&mut piece) else {
            return Err(Unread::Fault);
        };
        if count == 0 {
            return Ok(script);
        }
        if script.len() + count > SCRIPT_LIMIT {
            return Err(Unread::Limit);
        }
        if script.extend_from_slice(&piece[..count]).is_err() {
            return Err(Unread::OutOfMemory);
        }
    }
}

/// Reads a script from the source to its end and writes the reply to each of its lines to the sink.
fn run_script<S: Source, K: Sink, L: Ledger>(
    alloc: Global,
    source: &mut S,
    sink: &mut K,
    steps: &mut Steps<L>,
) -> Status
    requires count { S.count source.old ≤ 2 ^ 62 }
    requires room { RoomForReplies (K.room sink.old) (S.left source.old) }
    ensures done { result ≡ Status.Done → IsDone (S.count source.old) (S.count source.new)
        (S.taken source.old) (S.taken source.new) (S.left source.old) (S.left source.new) (S.ended source.new)
        (K.written sink.old) (K.written sink.new) (K.room sink.old) (K.room sink.new) }
    ensures cut_off { IsCutOff (S.count source.old) (S.count source.new)
        (S.taken source.old) (S.taken source.new) (S.left source.old) (S.left source.new) (S.ended source.new)
        (K.written sink.old) (K.written sink.new) (K.room sink.old) (K.room sink.new) }
    ensures written_at_end { result ≡ Status.WriteFault → IsTrue (S.ended source.new) }
    ensures nothing_written { result ≢ Status.Done → result ≢ Status.WriteFault → sink.new ≡ sink.old }
    ensures complete { (Rose (S.faults source.old) (S.faults source.new) → ⊥)
        → (Rose (K.faults sink.old) (K.faults sink.new) → ⊥)
        → IsWithinLimit (S.count source.old) (S.count source.new) (S.left source.old)
        → (result ≡ Status.Done) ⊎ (result ≡ Status.OutOfMemory) }
    ensures known { result ≢ Status.Usage }
    ensures read_fault { result ≡ Status.ReadFault → Rose (S.faults source.old) (S.faults source.new) }
    ensures write_fault { result ≡ Status.WriteFault → Rose (K.faults sink.old) (K.faults sink.new) }
    ensures input_limit { result ≡ Status.InputLimit
        → S.count source.old + script_limit < S.count source.new }
    ensures over_limit { S.count source.old + script_limit < S.count source.new
        → (result ≡ Status.InputLimit) ⊎ (result ≡ Status.OutOfMemory) }
    ensures most { S.count source.new ≤ S.count source.old + script_limit + piece_length }
{
    let script = match read_all(alloc, source) {
        Ok(script) => script,
        Err(Unread::Fault) => return Status::ReadFault,
        Err(Unread::Limit) => return Status::InputLimit,
        Err(Unread::OutOfMemory) => return Status::OutOfMemory,
    };
    let Ok(replies) = respond(alloc, &script, steps) else {
        return Status::OutOfMemory;
    };
    replies_are_sound();
    match write_all(sink, replies.as_slice()) {
        Ok(()) => Status::Done,
        Err(Failed) => Status::WriteFault,
    }
}

/// Writes the script of so many rows that is generated from `start` to the sink.
fn write_script<K: Sink>(alloc: Global, rows: u32, start: u32, sink: &mut K) -> Status
    requires start { start < 2 ^ 31 }
    requires room { HasRoom (K.room sink.old) (length (script rows start)) }
    ensures done { result ≡ Status.Done → Wrote (K.written sink.old) (K.written sink.new)
        (K.room sink.old) (K.room sink.new) (script rows start) }
    ensures cut_off { WrotePart (K.written sink.old) (K.written sink.new)
        (K.room sink.old) (K.room sink.new) (script rows start) }
    ensures nothing_written { result ≢ Status.Done → result ≢ Status.WriteFault → sink.new ≡ sink.old }
    ensures write_fault { result ≡ Status.WriteFault → Rose (K.faults sink.old) (K.faults sink.new) }
    ensures endings { (result ≡ Status.Done) ⊎ ((result ≡ Status.WriteFault) ⊎ (result ≡ Status.OutOfMemory)) }
{
    let Ok(script) = make_script(alloc, rows, start) else {
        return Status::OutOfMemory;
    };
    match write_all(sink, script.as_slice()) {
        Ok(()) => Status::Done,
        Err(Failed) => Status::WriteFault,
    }
}

/// Does what the words ask for: at `run` it reads a script from the source to its end and writes the reply to each of
/// its lines to the sink, and at `make` it writes a generated script to the sink.
pub fn run<S: Source, K: Sink, L: Ledger>(
    alloc: Global,
    words: &Vec<String>,
    source: &mut S,
    sink: &mut K,
    steps: &mut Steps<L>,
) -> Status
    requires count { S.count source.old ≤ 2 ^ 62 }
    requires room { RoomForAsked (asked words.now.items) (K.room sink.old) (S.left source.old) }

    // At the word `run` all replies were written, and each interval among them encloses its exact value.
    ensures done { asked words.now.items ≡ Some Run → result ≡ Status.Done → IsDone (S.count source.old) (S.count source.new)
        (S.taken source.old) (S.taken source.new) (S.left source.old) (S.left source.new) (S.ended source.new)
        (K.written sink.old) (K.written sink.new) (K.room sink.old) (K.room sink.new) }

    // However it ends, a prefix of what was due was written, and nothing where the replies were not begun.
    ensures cut_off { asked words.now.items ≡ Some Run → IsCutOff (S.count source.old) (S.count source.new)
        (S.taken source.old) (S.taken source.new) (S.left source.old) (S.left source.new) (S.ended source.new)
        (K.written sink.old) (K.written sink.new) (K.room sink.old) (K.room sink.new) }
    ensures written_at_end { asked words.now.items ≡ Some Run
        → result ≡ Status.WriteFault → IsTrue (S.ended source.new) }
    ensures nothing_written { result ≢ Status.Done → result ≢ Status.WriteFault → sink.new ≡ sink.old }

    // A script within the limit is answered where neither count of faults rises, or is out of memory.
    ensures complete { asked words.now.items ≡ Some Run
        → (Rose (S.faults source.old) (S.faults source.new) → ⊥)
        → (Rose (K.faults sink.old) (K.faults sink.new) → ⊥)
        → IsWithinLimit (S.count source.old) (S.count source.new) (S.left source.old)
        → (result ≡ Status.Done) ⊎ (result ≡ Status.OutOfMemory) }

    // At the word `make` the generated script was written, or a prefix of it, and nothing was read.
    ensures made { (rows start : ℕ) → asked words.now.items ≡ Some (Make rows start) → result ≡ Status.Done
        → Wrote (K.written sink.old) (K.written sink.new) (K.room sink.old) (K.room sink.new) (script rows start) }
    ensures made_in_part { (rows start : ℕ) → asked words.now.items ≡ Some (Make rows start)
        → WrotePart (K.written sink.old) (K.written sink.new) (K.room sink.old) (K.room sink.new) (script rows start) }
    ensures made_unread { (rows start : ℕ) → asked words.now.items ≡ Some (Make rows start) → source.new ≡ source.old }
    ensures made_whole { (rows start : ℕ) → asked words.now.items ≡ Some (Make rows start)
        → (Rose (K.faults sink.old) (K.faults sink.new) → ⊥) → (result ≡ Status.Done) ⊎ (result ≡ Status.OutOfMemory) }

    // Words that the program does not know: nothing was read or written.
    ensures usage { result ≡ Status.Usage → asked words.now.items ≡ None }
    ensures refused { asked words.now.items ≡ None → (result ≡ Status.Usage) ⊎ (result ≡ Status.OutOfMemory) }
    ensures untouched_source { asked words.now.items ≡ None → source.new ≡ source.old }
    ensures untouched_sink { asked words.now.items ≡ None → sink.new ≡ sink.old }

    // Whatever the words, each fault has its cause.
    ensures read_fault { result ≡ Status.ReadFault → Rose (S.faults source.old) (S.faults source.new) }
    ensures write_fault { result ≡ Status.WriteFault → Rose (K.faults sink.old) (K.faults sink.new) }

    // More than the limit was taken exactly at the input limit, unless the run is out of memory.
    ensures input_limit { result ≡ Status.InputLimit
        → S.count source.old + script_limit < S.count source.new }
    ensures over_limit { S.count source.old + script_limit < S.count source.new
        → (result ≡ Status.InputLimit) ⊎ (result ≡ Status.OutOfMemory) }

    // No piece is taken after the one that passes the limit.
    ensures most { S.count source.new ≤ S.count source.old + script_limit + piece_length }
{
    let Ok(asked) = read_words(alloc, words) else {
        return Status::OutOfMemory;
    };
    match asked {
        None => Status::Usage,
        Some(Asked::Run) => run_script(alloc, source, sink, steps),
        Some(Asked::Make { rows, start }) => write_script(alloc, rows, start, sink),
    }
}
