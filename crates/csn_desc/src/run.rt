ghost use Rattle.std.specs.Prelude.{◌≡◌, ◌<◌, ◌≤◌, [], ◌∷◌, ◌++◌, length, slice_get, Some, OnOk, OnErr, IfOk, IfErr};
ghost use Rattle.csn_desc.specs.declared.symbol.Symbol.{Symbol as SymbolV};

use crate::kept::Kept;
use crate::symbol::Symbol;
use csn_bits::NoMemory;
use std::alloc::Global;
use std::marker::Model;

/// The most symbols that a run holds: as many as a description has bytes.
pub const MOST_SYMBOLS: u32 = 262_144;

/// A literal word: the symbols that stand for its bits, in their order. A contract sees the list of them.
#[derive(Drop)]
pub struct Run {
    symbols: Kept<Symbol>,
}

impl Model for Run {
    ghost use Rattle.std.specs.Prelude.{List, ◌≤◌, length};
    ghost use Rattle.csn_desc.specs.Kept.{items_in};
    ghost use Rattle.csn_desc.specs.declared.run.TheConstants.{MOST_SYMBOLS};
    ghost use Rattle.csn_desc.specs.declared.symbol.Symbol.{Symbol as SymbolV};

    ghost Value = { List SymbolV };

    ghost view = { λ r. items_in r.symbols };

    ghost invariant = { λ r. length (items_in r.symbols) ≤ MOST_SYMBOLS };
}

impl Run {
    /// No symbols. It takes no memory.
    pub fn new(alloc: Global) -> Run
        ensures { result ≡ [] }
    {
        Run {
            symbols: Kept::new(alloc),
        }
    }

    /// Adds a symbol at the end. For want of memory it hands the symbol back.
    pub fn push(&mut self, symbol: Symbol) -> Result<(), Symbol>
        requires { length self.old < MOST_SYMBOLS }
        ensures ok { OnOk result (self.new ≡ self.old ++ symbol ∷ []) }
        ensures err { OnErr result (self.new ≡ self.old) }
        ensures handed_back { IfErr result (λ given. given ≡ symbol) }
    {
        match self.symbols.push(symbol) {
            Ok(()) => Ok(()),
            Err(_) => Err(symbol),
        }
    }

    /// Adds a symbol at the end. Behind `MOST_SYMBOLS` of them there is no memory for one more.
    pub fn add(&mut self, symbol: Symbol) -> Result<(), NoMemory>
        ensures ok { OnOk result (self.new ≡ self.old ++ symbol ∷ []) }
        ensures err { OnErr result (self.new ≡ self.old) }
    {
        if self.len() >= MOST_SYMBOLS {
            return Err(NoMemory);
        }
        self.symbols.push(symbol)
    }

    /// How many symbols there are.
    pub fn len(&self) -> u32
        ensures len { result ≡ length self.now }
        ensures bound { result ≤ MOST_SYMBOLS }
    {
        self.symbols.as_slice().len() as u32
    }

    /// The symbol at the place `at`, counted from 0.
    pub fn get(&self, at: u32) -> &Symbol
        requires { at < length self.now }
        ensures { slice_get self.now at ≡ Some result.now }
    {
        &self.symbols.as_slice()[at as usize]
    }

    /// The same run. Copies of a long one take no memory from now on.
    pub fn share(self) -> Result<Run, NoMemory>
        ensures { IfOk result (λ run. run ≡ self) }
    {
        let symbols = self.symbols.share()?;
        Ok(Run { symbols })
    }

    /// The same run again. A copy of a shared run takes no memory.
    pub fn copy(&self, alloc: Global) -> Result<Run, NoMemory>
        ensures { IfOk result (λ run. run ≡ self.now) }
    {
        let symbols = self.symbols.copy(alloc)?;
        Ok(Run { symbols })
    }
}
