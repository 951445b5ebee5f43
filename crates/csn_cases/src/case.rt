ghost use Rattle.std.specs.Prelude.{◌≡◌, ◌≤◌, IfOk};

use crate::shelf::Shelf;
use csn_catalogue::entries;
use csn_companion::{Asked, Job, Order, explain, reading_of};
use csn_io::{MemShelf, MemSink, MemSource, Sink};
use csn_replay::{BitsWatcher, EntryWatcher, RefusedWatcher, Watcher};
use csn_run::{Ended, Outside, run};
use std::alloc::{AllocError, Global};

/// The word before the words of a run of the companion.
const COMPANION: &str = "csn_explain";

/// The word that asks for trees behind blocks.
const TREES: &str = "--trees";

/// A run, and what it must come to.
#[derive(Drop)]
pub(crate) struct Case {
    /// The line of the file that begins it.
    pub line: usize,
    pub words: Vec<String>,
    pub input: Vec<u8>,
    pub output: Vec<u8>,
    /// It may write more behind its output.
    pub begins: bool,
    pub status: u8,
}

/// What a run came to.
#[derive(Drop)]
pub(crate) struct Came {
    pub text: Vec<u8>,
    pub status: u8,
}

impl Came {
    /// Whether another run came to the same.
    pub(crate) fn is_same(&self, other: &Came) -> bool {
        self.status == other.status && self.text.as_slice() == other.text.as_slice()
    }
}

/// The outside of a run, in memory.
type MemOutside = Outside<MemShelf, MemSource, MemSink>;

impl Case {
    /// An outside with the files and the input, which moves so many bytes in a call.
    fn outside(&self, alloc: Global, files: &Shelf, most: u32) -> Result<MemOutside, AllocError>
        requires { 1 ≤ most }
        ensures unfailed { IfOk result (λ outside. ⟦<MemSink as Sink>⟧.faults outside.sink ≡ 0) }
    {
        let files = files.copy()?;
        let input = self.input.clone()?;
        Ok(Outside {
            shelf: MemShelf::new(files, Vec::new(alloc)),
            source: MemSource::new(input, most, Vec::new(alloc)),
            sink: MemSink::new(alloc, most, Vec::new(alloc)),
        })
    }

    /// What the words ask of the companion, where they begin with its name.
    fn asked(&self) -> Option<Asked<'_>> {
        let [program, job, file, name, reading, order @ ..] = self.words.as_slice() else {
            return None;
        };
        if program.as_str() != COMPANION {
            return None;
        }
        Some(Asked {
            job: job_of(job.as_str(), order)?,
            file: file.as_str(),
            name: name.as_str(),
            reading: reading_of(reading.as_str())?,
        })
    }

    /// Runs it as one of the program, with its watchers: one for each entry in order, one for refused blocks and one for
    /// bits.
    fn run_program(&self, alloc: Global, outside: &mut MemOutside) -> Result<Ended, AllocError>
        requires unfailed { ⟦<MemSink as Sink>⟧.faults outside.old.sink ≡ 0 }
    {
        let mut watchers: Vec<Box<dyn Watcher>> = Vec::new(alloc);
        for entry in entries() {
            watchers.push(Box::new(alloc, EntryWatcher::new(entry, u64::MAX))?)?;
        }
        watchers.push(Box::new(alloc, RefusedWatcher::new(u64::MAX))?)?;
        watchers.push(Box::new(alloc, BitsWatcher::new(u64::MAX))?)?;
        Ok(run(alloc, &self.words, outside, watchers))
    }

    /// Runs it over the files, with an outside that moves so many bytes in a call: as one of the companion where its words
    /// are asked of that, else of the program.
    pub(crate) fn run(&self, alloc: Global, files: &Shelf, most: u32) -> Result<Came, AllocError>
        requires { 1 ≤ most }
    {
        let mut outside = self.outside(alloc, files, most)?;
        let ended = match self.asked() {
            Some(asked) => explain(
                alloc,
                asked,
                &mut outside.shelf,
                &mut outside.source,
                &mut outside.sink,
            ),
            None => self.run_program(alloc, &mut outside)?,
        };
        Ok(Came {
            text: Vec::from_slice(alloc, outside.sink.taken())?,
            status: ended.status(),
        })
    }

    /// Whether a run came to what it must.
    pub(crate) fn wants(&self, came: &Came) -> bool {
        let text = if self.begins {
            came.text.starts_with(&self.output)
        } else {
            came.text.as_slice() == self.output.as_slice()
        };
        text && came.status == self.status
    }
}

/// What a word asks of the companion, with the words behind the reading.
fn job_of(word: &str, order: &[String]) -> Option<Job> {
    match (Job::of_word(word)?, order) {
        (Job::Blocks(_), [count, seed]) => Some(Job::Blocks(Order::of_words(
            count.as_str(),
            seed.as_str(),
            false,
        )?)),
        (Job::Blocks(_), [count, seed, trees]) if trees.as_str() == TREES => Some(Job::Blocks(
            Order::of_words(count.as_str(), seed.as_str(), true)?,
        )),
        (Job::Blocks(_), _) => None,
        (job, []) => Some(job),
        _ => None,
    }
}
