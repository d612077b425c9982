//! The receipts of callers, by number.
ghost use Rattle.std.specs.Prelude.{◌≡◌, ◌+◌, ◌-◌, ◌≤◌, [], ◌∷◌, ◌++◌, length, slice_get};
ghost use Rattle.std.specs.Prelude.{option_copied, IfOk, OnOk, OnErr, List};
ghost use Rattle.std.specs.FinMap as map;
ghost use Rattle.canary_once.specs.Contents.{with_receipt};
ghost use Rattle.canary_once.specs.Contents.{CallerMap, receipts_in, HaveReceipts};

use crate::book::Receipt;
use canary_base::error::Memory;
use canary_base::names::Name;
use canary_base::numbers::Number;
use std::alloc::Global;
use std::collections::BTreeMap;
use std::marker::Model;

// The receipts of one caller, the one for number 1 first.
#[derive(Drop)]
struct Receipts {
    receipts: Vec<Receipt>,
}

impl Model for Receipts {
    ghost use Rattle.std.specs.Prelude.{List};
    ghost use Rattle.std.specs.Coded.{coded_list};
    ghost use Rattle.canary_once.specs.declared.book.Receipt.{Receipt};
    ghost use Rattle.canary_once.specs.contracts.book.Receipt.{the_row};

    ghost Value = { List Receipt };

    ghost coded = { coded_list the_row.coded };

    ghost view = { λ s. s.receipts.items };
}

impl Receipts {
    // The receipts of a caller that has only this one, which is for number 1; or `Memory`.
    fn of_one(alloc: Global, receipt: Receipt) -> Result<Receipts, Memory>
        ensures { IfOk result (λ receipts. receipts ≡ receipt ∷ []) }
    {
        let mut receipts = Vec::new(alloc);
        receipts.push(receipt)?;
        Ok(Receipts { receipts })
    }

    // The receipts, the one for number 1 first.
    fn as_slice(&self) -> &[Receipt]
        ensures { result.now ≡ self.now }
    {
        self.receipts.as_slice()
    }

    // Adds the receipt for the next number, or `Memory`; the receipts are then as before.
    fn push(&mut self, receipt: Receipt) -> Result<(), Memory>
        ensures ok { OnOk result (self.new ≡ self.old ++ receipt ∷ []) }
        ensures err { OnErr result (self.new ≡ self.old) }
    {
        self.receipts.push(receipt)?;
        Ok(())
    }

    // Removes the receipt for the last number, if there is one.
    fn pop(&mut self)
        ensures last { (before : List Receipt) (last : Receipt)
            → self.old ≡ before ++ last ∷ [] → self.new ≡ before }
        ensures shorter { length self.new ≡ length self.old - 1 }
    {
        let _ = self.receipts.pop();
    }
}

/// For each caller the receipts of its settled requests, which contracts see as a finite map. A
/// caller has at least one.
#[derive(Drop)]
pub(crate) struct Callers {
    callers: BTreeMap<Name, Receipts>,
}

impl Model for Callers {
    ghost use Rattle.std.specs.Coded.{coded_list};
    ghost use Rattle.std.specs.FinMap as map;
    ghost use Rattle.canary_once.specs.contracts.book.Receipt.{the_row};
    ghost use Rattle.canary_once.specs.BookCodes.{map_code};
    ghost use Rattle.canary_once.specs.Contents.{CallerMap, HaveReceipts};

    ghost Value = { CallerMap };

    ghost coded = { map_code (coded_list the_row.coded) };

    ghost view = { λ s. map.from_entries s.callers.entries };

    ghost invariant = { λ s. HaveReceipts (map.from_entries s.callers.entries) };
}

impl Callers {
    /// No callers, which takes no memory.
    pub(crate) fn new(alloc: Global) -> Callers
        ensures { result ≡ map.empty }
    {
        Callers {
            callers: BTreeMap::new(alloc),
        }
    }

    // The receipts of a caller.
    fn receipts(&self, caller: &Name) -> &[Receipt]
        ensures value { result.now ≡ receipts_in self.now caller.now }
        ensures few { length result.now ≤ 1000000000 }
    {
        match self.callers.get(caller) {
            Some(receipts) => receipts.as_slice(),
            None => &[],
        }
    }

    /// How many receipts a caller has.
    pub(crate) fn count(&self, caller: &Name) -> u32
        ensures { result ≡ length (receipts_in self.now caller.now) }
    {
        self.receipts(caller).len() as u32
    }

    /// The receipt under a caller's number.
    pub(crate) fn receipt(&self, caller: &Name, number: Number) -> Option<&Receipt>
        ensures { option_copied result
            ≡ slice_get (receipts_in self.now caller.now) (number - 1) }
    {
        let place = number.get() - 1;
        self.receipts(caller).get(place as usize)
    }

    /// Adds a caller's next receipt, or `Memory`; all is then as before. The caller has fewer than
    /// 1,000,000,000.
    pub(crate) fn push(
        &mut self,
        alloc: Global,
        caller: Name,
        receipt: Receipt,
    ) -> Result<(), Memory>
        requires { length (receipts_in self.old caller) + 1 ≤ 1000000000 }
        ensures ok { OnOk result (self.new ≡ with_receipt self.old caller receipt) }
        ensures err { OnErr result (self.new ≡ self.old) }
    {
        match self.callers.get_mut(&caller) {
            Some(receipts) => receipts.push(receipt),
            None => {
                let first = Receipts::of_one(alloc, receipt)?;
                self.callers.insert(caller, first)?;
                Ok(())
            }
        }
    }

    /// Takes a caller's last receipt back, and the caller with its only one; it takes no memory.
    pub(crate) fn take_back(&mut self, caller: &Name)
        ensures { (before : CallerMap) (last : Receipt) → HaveReceipts before
            → self.old ≡ with_receipt before caller.now last → self.new ≡ before }
    {
        if self.count(caller) > 1 {
            if let Some(receipts) = self.callers.get_mut(caller) {
                receipts.pop();
            }
        } else {
            drop(self.callers.remove(caller));
        }
    }
}
