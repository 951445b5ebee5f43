use crate::case::{Came, Case};
use crate::fault::LineFault;
use crate::line::Line;
use crate::shelf::Shelf;
use std::alloc::{AllocError, Global};

/// What a line of the file comes to.
#[derive(Drop)]
pub(crate) enum Step {
    /// Nothing more is to be done for it.
    Going,
    /// A case is whole.
    Ready(Case),
    /// It begins a case, and the one that begins at this line has no end.
    Open(usize),
}

/// The cases of a file, of which one line is taken after the other.
#[derive(Drop)]
pub(crate) struct Cases {
    shelf: Shelf,
    /// The case that is begun.
    open: Option<Case>,
    /// What the last run wrote.
    last: Vec<u8>,
    /// How many cases were whole.
    whole: usize,
}

impl Cases {
    pub(crate) fn new(alloc: Global) -> Cases {
        Cases {
            shelf: Shelf::new(alloc),
            open: None,
            last: Vec::new(alloc),
            whole: 0,
        }
    }

    pub(crate) fn shelf(&self) -> &Shelf {
        &self.shelf
    }

    pub(crate) fn keep_output(&mut self, came: Came) {
        self.last = came.text;
    }

    /// Begins a case.
    fn begin(&mut self, alloc: Global, line: usize, words: Vec<String>) -> Step {
        let case = Case {
            line,
            words,
            input: Vec::new(alloc),
            output: Vec::new(alloc),
            begins: false,
            status: 0,
        };
        match self.open.replace(case) {
            Some(open) => Step::Open(open.line),
            None => Step::Going,
        }
    }

    /// The case that is begun.
    fn open(&mut self) -> Result<&mut Case, LineFault> {
        match &mut self.open {
            Some(case) => Ok(case),
            None => Err(LineFault::NoRun),
        }
    }

    /// Ends the case that is begun.
    fn end(&mut self, status: u8) -> Result<Step, LineFault> {
        match self.open.take() {
            Some(mut case) => {
                case.status = status;
                self.whole = self.whole.saturating_add(1);
                Ok(Step::Ready(case))
            }
            None => Err(LineFault::NoRun),
        }
    }

    /// Adds to a file.
    fn add(&mut self, name: &str, bytes: &[u8]) -> Result<(), LineFault> {
        if self.shelf.add(name, bytes)? {
            Ok(())
        } else {
            Err(LineFault::NoFile)
        }
    }

    /// Takes the line with this number.
    pub(crate) fn take(
        &mut self,
        alloc: Global,
        number: usize,
        line: Line,
    ) -> Result<Step, LineFault> {
        match line {
            Line::Silent => {}
            Line::File(name, bytes) => self.shelf.set(alloc, name, bytes)?,
            Line::More(name, bytes) => self.add(name, &bytes)?,
            Line::Catalogue(name) => self.set_catalogue(alloc, name)?,
            Line::Keep(name) => self.keep(alloc, name)?,
            Line::Run(words) => return Ok(self.begin(alloc, number, words)),
            Line::Input(bytes) => self.open()?.input.extend_from_slice(&bytes)?,
            Line::Output(bytes) => self.open()?.output.extend_from_slice(&bytes)?,
            Line::Begins => self.open()?.begins = true,
            Line::End(status) => return self.end(status),
        }
        Ok(Step::Going)
    }

    /// Sets a file to the text of the catalogue.
    fn set_catalogue(&mut self, alloc: Global, name: &str) -> Result<(), AllocError> {
        let text = Vec::from_slice(alloc, csn_catalogue::text())?;
        self.shelf.set(alloc, name, text)
    }

    /// Sets a file to what the last run wrote.
    fn keep(&mut self, alloc: Global, name: &str) -> Result<(), AllocError> {
        let text = self.last.clone()?;
        self.shelf.set(alloc, name, text)
    }

    /// What is wrong at the end of the file, and at which line.
    pub(crate) fn fault_at_end(&self) -> Option<(usize, LineFault)> {
        if let Some(case) = &self.open {
            return Some((case.line, LineFault::NoEnd));
        }
        if self.whole == 0 {
            return Some((0, LineFault::NoCase));
        }
        None
    }
}
