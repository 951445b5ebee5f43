//! The whole program over memory.

ghost use Rattle.std.specs.Prelude.{◌≡◌, ◌≢◌, ◌↔◌, [], List, ℕ, Some, IfOk, map};
ghost use Rattle.std.specs.String.{string_bytes};
ghost use Rattle.csn_command.specs.Command.{IsCommand};
ghost use Rattle.csn_io.specs.Files.{file_of};
ghost use Rattle.csn_io.specs.ShelfFault.{LacksFile};
ghost use Rattle.csn_run.specs.Result.{BeginsResult, ComesToFile, IsFinished, Result};

use crate::outside::Outside;
use crate::top::run;
use csn_io::{MemShelf, MemSink, MemSource};
use csn_plan::Ended;
use csn_replay::Watcher;
use std::alloc::{AllocError, Global};
use std::collections::BTreeMap;

/// How a run over memory ended, and what it wrote.
#[derive(Debug, Drop)]
pub struct Ran {
    pub ended: Ended,
    pub text: Vec<u8>,
}

/// Runs the program over files and an input in memory, of which no call fails, with these watchers. So no fault is seen
/// but that of a file which is not held. What is written is the result for the words, the files, the watchers and the
/// input, or begins it.
pub fn run_watched(
    alloc: Global,
    words: &[String],
    files: BTreeMap<String, Vec<u8>>,
    input: Vec<u8>,
    watchers: Vec<Box<dyn Watcher>>,
) -> Result<Ran, AllocError>
    ensures usage { IfOk result (λ ran. (ran.ended ≡ Ended.Usage) ↔ (IsCommand (map string_bytes words.now) → ⊥)) }
    ensures result { IfOk result (λ ran. IsFinished ran.ended
        → Result (map string_bytes words.now) (file_of files) (map (λ b. watched b) watchers.items) input.items ran.text.items ran.ended) }
    ensures begins { IfOk result (λ ran. ran.ended ≢ Ended.Usage
        → BeginsResult (map string_bytes words.now) (file_of files) (map (λ b. watched b) watchers.items) input.items ran.text.items) }
    ensures no_write_fault { IfOk result (λ ran. ran.ended ≢ Ended.WriteFault) }
    ensures read_fault { IfOk result (λ ran. ran.ended ≡ Ended.ReadFault
        → (name : List ℕ) × ComesToFile (map string_bytes words.now) (file_of files) name × LacksFile (Some (file_of files)) name) }
{
    let shelf = MemShelf::new(files, Vec::new(alloc));
    let source = MemSource::new(input, 4096, Vec::new(alloc));
    let sink = MemSink::new(alloc, 4096, Vec::new(alloc));
    let mut outside = Outside {
        shelf,
        source,
        sink,
    };
    let ended = run(alloc, words, &mut outside, watchers);
    let text = Vec::from_slice(alloc, outside.sink.taken())?;
    Ok(Ran { ended, text })
}

/// The same with no watchers.
pub fn run_in_memory(
    alloc: Global,
    words: &[String],
    files: BTreeMap<String, Vec<u8>>,
    input: Vec<u8>,
) -> Result<Ran, AllocError>
    ensures usage { IfOk result (λ ran. (ran.ended ≡ Ended.Usage) ↔ (IsCommand (map string_bytes words.now) → ⊥)) }
    ensures result { IfOk result (λ ran. IsFinished ran.ended → Result (map string_bytes words.now) (file_of files) [] input.items ran.text.items ran.ended) }
    ensures begins { IfOk result (λ ran. ran.ended ≢ Ended.Usage → BeginsResult (map string_bytes words.now) (file_of files) [] input.items ran.text.items) }
    ensures no_write_fault { IfOk result (λ ran. ran.ended ≢ Ended.WriteFault) }
    ensures read_fault { IfOk result (λ ran. ran.ended ≡ Ended.ReadFault
        → (name : List ℕ) × ComesToFile (map string_bytes words.now) (file_of files) name × LacksFile (Some (file_of files)) name) }
{
    run_watched(alloc, words, files, input, Vec::new(alloc))
}
